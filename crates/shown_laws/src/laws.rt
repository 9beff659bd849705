//! What the notes and the served items of a run tell is what its machine did, wherever the run has
//! come to. Each law is the clause of a function with nothing to run.
ghost use Rattle.shown_laws.specs.CausedRuns.{RunsAreCaused};
ghost use Rattle.shown_laws.specs.Closing.{RunsLeaveUnclosed, FinishesLeaveUnclosed};
ghost use Rattle.shown_laws.specs.ConnectionLaws.{RunsTellConnections, FinishesTellConnections};
ghost use Rattle.shown_laws.specs.Growth.{RunsAreCounted, RunsGrow, FinishesAreCounted, FinishesGrow};
ghost use Rattle.shown_laws.specs.Identified.{CallsAreIdentified};
ghost use Rattle.shown_laws.specs.TurnsServed.{RunsTellTurns, FinishesTellTurns};
ghost use Rattle.shown_laws.specs.RequestsGrow.{RequestsGrow};
ghost use Rattle.shown_laws.specs.Tellings.{RunsTellSteps, FinishesTellSteps};

/// There are as many events as notes, and as many ticks as are among them. One event more is told
/// behind all others, with its number, its tick, its note and its items, and what is told of
/// connections and steps grows by it.
pub fn events_are_told()
    ensures counted { RunsAreCounted }
    ensures grow { RunsGrow }
    ensures finish_counted { FinishesAreCounted }
    ensures finish_grows { FinishesGrow }
{}

/// Each connection whose session has its name is told once: with its session, the event that ended
/// it, and the replies that were given and not taken yet, the ones that may still be taken in
/// front. It is found by its number and by its session.
pub fn connections_are_told()
    ensures reached { RunsTellConnections }
    ensures finishing { FinishesTellConnections }
{
    invariant_laws::kept_laws::runs_keep_invariant();
}

/// No Close was sent on a connection that a request in course held: those that it lost were cut, or
/// ended by a crash or a block, and the event that ended them is told.
pub fn held_connections_stay_unclosed()
    ensures reached { RunsLeaveUnclosed }
    ensures finishing { FinishesLeaveUnclosed }
{
    invariant_laws::kept_laws::runs_keep_invariant();
}

/// The steps that are told of a client are those of its requests, in order, each with what the
/// request did at it: the reply that it took is told by its item, the session that it acquired by
/// its name, and the connection whose outcome it took by the session of the identifier, with the
/// event that ended it.
pub fn steps_are_told()
    ensures reached { RunsTellSteps }
    ensures finishing { FinishesTellSteps }
{
    invariant_laws::kept_laws::runs_keep_invariant();
}

/// What a request did stays in front of its steps, event by event: it goes on, or it is over with
/// them.
pub fn requests_go_on()
    ensures { RequestsGrow }
{
    invariant_laws::kept_laws::runs_keep_invariant();
}

/// The turn that is told of a connection has the calls that its session served since the last
/// Begin, with their marks, the newest first: those that were blocked and those that a crash
/// stopped among them. None is told where no Begin was served.
pub fn turns_are_told()
    ensures reached { RunsTellTurns }
    ensures finishing { FinishesTellTurns }
{
    invariant_laws::kept_laws::runs_keep_invariant();
}

/// Each call that a request was shown has the identifier of the session whose item the step took,
/// with the number of that session's entries that the report tells to be stored up to the event of
/// the item: be it the call's own item, or an outcome that said committed and completed.
pub fn calls_are_identified()
    ensures { CallsAreIdentified }
{
    invariant_laws::kept_laws::runs_keep_invariant();
    run_laws::stored_laws::entries_are_counted();
}

/// The clause `Caused` holds of the report of every whole run of a document that lets a request try
/// at least once: each request ends as its conversation does, and where it fails it is for the
/// cause that its steps show.
pub fn runs_are_caused()
    ensures { RunsAreCaused }
{
    invariant_laws::kept_laws::runs_keep_invariant();
    steps_are_told();
}
