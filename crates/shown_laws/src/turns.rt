//! What the notes and the served items of a run tell of turns: what each session served since its
//! last Begin, and that the calls fit the script of the request. Each law is the clause of a
//! function with nothing to run.
ghost use Rattle.shown_laws.specs.AcquiredTold.{StepsAcquire};
ghost use Rattle.shown_laws.specs.HeldTurns.{RunsHaveRightTurns, FinishesHaveRightTurns};
ghost use Rattle.shown_laws.specs.OwnTurns.{OwnTurnsAreRight, TurnsAreOnWire};
ghost use Rattle.shown_laws.specs.ServedSent.{ServesAFront, ServesItsFrames};
ghost use Rattle.shown_laws.specs.TurnOwner.{TurnsHaveAllCalls};
ghost use Rattle.shown_laws.specs.TurnOwners.{RunsTellOwners, WholeRunsOwnTurns};
ghost use Rattle.shown_laws.specs.TurnRows.{RowsMakeTurnsRight, ServesMarksFirst};
ghost use Rattle.shown_laws.specs.TurnSent.{TurnsHaveOneOwner};
ghost use Rattle.shown_laws.specs.TurnsOver.{RunsTellOver, FinishesTellOver};
ghost use Rattle.shown_laws.specs.TurnsRight.{RunsTellRight, FinishesTellRight, WholeRunsTellRight};
ghost use Rattle.shown_laws.specs.Unblocked.{serve_unblocked};
ghost use Rattle.invariant_laws.specs.SameLaws.{HoldsAtEnds, HoldsInRuns};

/// A turn is right that served calls which a request sent in a row of its script: those with the
/// mark are the calls since the last that was shown as decided, up to the first without it.
pub fn rows_make_turns_right()
    ensures right { RowsMakeTurnsRight }
    ensures marks { ServesMarksFirst }
{}

/// Each turn that another Begin followed has the calls that the session of a connection had served
/// since the Begin before it.
pub fn turns_before_are_told()
    ensures reached { RunsTellOver }
    ensures finishing { FinishesTellOver }
{
    invariant_laws::kept_laws::runs_keep_invariant();
}

/// The calls that were sent on a connection since a Begin are of one request, those with the mark
/// first.
pub fn turns_have_one_owner()
    ensures { TurnsHaveOneOwner }
{}

/// The calls that a session served since a Begin are those of the frames that it served, in order,
/// where no call with the mark met a block.
pub fn turns_serve_frames()
    ensures own { ServesItsFrames }
    ensures front { ServesAFront }
{}

/// Where each request begins once on a connection, the calls since the last Begin are all that its
/// request sent there.
pub fn turns_have_all_calls()
    ensures { TurnsHaveAllCalls }
{}

/// A turn of a connection is right for the request whose calls it served, where what that request
/// sent there is a row of its script.
pub fn own_turns_are_right()
    ensures right { OwnTurnsAreRight }
    ensures wire { TurnsAreOnWire }
{}

/// Wherever a run of a document whose requests are right has come to, and at its end: no call with
/// the mark met a block on a connection.
pub fn marked_calls_meet_no_block()
    ensures reached { HoldsInRuns serve_unblocked }
    ensures run { HoldsAtEnds serve_unblocked }
{
    invariant_laws::kept_laws::runs_keep_invariant();
    invariant_laws::history_laws::runs_serve();
}

/// Wherever a run of a document whose requests are right has come to: what the session of a
/// connection served since a Begin is right for the request that held the connection and sent those
/// calls.
pub fn held_turns_are_right()
    ensures reached { RunsHaveRightTurns }
    ensures finishing { FinishesHaveRightTurns }
{
    invariant_laws::kept_laws::runs_keep_invariant();
    invariant_laws::frame_laws::requests_begin_once();
    invariant_laws::frame_laws::requests_send_near();
    marked_calls_meet_no_block();
}

/// Wherever such a run has come to: each turn that is told, over or not, is right for a request
/// that held its connection, whose calls it served, or it served none.
pub fn told_turns_are_right()
    ensures reached { RunsTellRight }
    ensures finishing { FinishesTellRight }
{
    invariant_laws::kept_laws::runs_keep_invariant();
    invariant_laws::frame_laws::requests_begin_once();
    invariant_laws::frame_laws::requests_send_near();
    marked_calls_meet_no_block();
}

/// The session of each connection that is told was acquired by the last step before that was lent
/// it, or took its Hello.
pub fn sessions_are_acquired_by_steps()
    ensures { StepsAcquire }
{}

/// At the end of a whole run each of the turns that its report tells is right for a request that
/// held its connection, whose calls it served, or it served none.
pub fn whole_runs_tell_right_turns()
    ensures { WholeRunsTellRight }
{
    invariant_laws::kept_laws::runs_keep_invariant();
    told_turns_are_right();
}

/// Wherever such a run has come to: the session of each connection was acquired by a step of the
/// request that sent last there, and so the request that sent a Begin which a session served is the
/// one that acquired the session last before. At the end of a whole run each turn that its report
/// tells is right for that request.
pub fn turns_are_of_acquirers()
    ensures reached { RunsTellOwners }
    ensures run { WholeRunsOwnTurns }
{
    invariant_laws::kept_laws::runs_keep_invariant();
    invariant_laws::frame_laws::unserved_begins_are_last();
    invariant_laws::frame_laws::requests_begin_once();
    invariant_laws::frame_laws::requests_send_near();
    marked_calls_meet_no_block();
    sessions_are_acquired_by_steps();
}
