//! What requests send, and when. Each law is the clause of a function with nothing to run.
ghost use Rattle.invariant_laws.specs.FirstBegins.{begin_once};
ghost use Rattle.invariant_laws.specs.SameLaws.{HoldsAtEnds, HoldsInRuns, FollowsInvariant};
ghost use Rattle.invariant_laws.specs.NearCalls.{send_near};
ghost use Rattle.invariant_laws.specs.UnservedBegins.{begin_last};

/// Wherever a run of a document whose requests are right has come to, and at its end: each Begin
/// that was sent on a connection is of a request that had sent no call there.
pub fn requests_begin_once()
    ensures reached { HoldsInRuns begin_once }
    ensures run { HoldsAtEnds begin_once }
{
    world_model::laws::runs_are_orderly();
}

/// In each state that is as the invariant says: each call without the mark that a request sent on a
/// connection that it held is of an index that was shown to it, or is the next one.
pub fn requests_send_near()
    ensures { FollowsInvariant send_near }
{}

/// Wherever such a run has come to, and at its end: each Begin that a connection's session has not
/// served yet is of the request that sent the last frame there, for a connection is lent only where
/// all that was sent on it was answered.
pub fn unserved_begins_are_last()
    ensures reached { HoldsInRuns begin_last }
    ensures run { HoldsAtEnds begin_last }
{
    crate::kept_laws::runs_keep_invariant();
}
