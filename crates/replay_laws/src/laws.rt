//! Which calls a replay repeats. Each law is the clause of a function with nothing to run.
ghost use Rattle.invariant_laws.specs.Replayed.{replay_shown, RunsReplayShown, RunsRepeatInOrder};
ghost use Rattle.invariant_laws.specs.SameLaws.{HoldsAtEnds, HoldsInRuns};
ghost use Rattle.replay_laws.specs.OpenedOnce.{opened_once};

/// Wherever a run of a document whose requests are right has come to, and at its end: each call
/// with the mark that a request sent on a connection is one of those that it was shown before it
/// opened this connection, behind the last of them that was decided.
pub fn replays_repeat_shown_calls()
    ensures reached { HoldsInRuns replay_shown }
    ensures run { HoldsAtEnds replay_shown }
    ensures each { RunsReplayShown }
{
    world_model::laws::runs_are_orderly();
    connections_are_opened_once();
}

/// Wherever such a run has come to: what was sent on a connection before a call with the mark is a
/// Connect, the question for an outcome, a Begin, and calls with the mark; and it repeats the call
/// that is as many behind the last decided of those that were shown before the connection was
/// opened.
pub fn replays_repeat_in_order()
    ensures { RunsRepeatInOrder }
{
    invariant_laws::kept_laws::runs_keep_invariant();
    replays_repeat_shown_calls();
}

/// Wherever such a run has come to, and at its end: a request opens each connection once.
pub fn connections_are_opened_once()
    ensures reached { HoldsInRuns opened_once }
    ensures run { HoldsAtEnds opened_once }
{
    world_model::laws::runs_are_orderly();
}
