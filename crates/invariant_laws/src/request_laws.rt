//! What requests were shown, and what they lost, asked and were told, if the invariant held before.
//! Each law is the clause of a function with nothing to run.
ghost use Rattle.invariant_laws.specs.KeptLaws.{StaysTrue, IsKeptOfAll};
ghost use Rattle.invariant_laws.specs.Shown.{in_rows, are_from, lose_own, answers_stand, outcomes_stand};
ghost use Rattle.invariant_laws.specs.Lost.{stay_gone, are_lost, are_pending, want_lost, want_next, ask_rightly, outcomes_lost, go_unasked, leave_none, fail_incomplete, are_told as tell_rightly, have_events};

/// The calls that a request sent on a connection are its script's, of indices in a row. The row
/// begins behind the last call whose answers ended with Committed or Conflict, of those that were
/// shown before its first call without a mark.
pub fn calls_go_in_rows()
    ensures { StaysTrue in_rows }
{}

/// If the whole invariant held before: each call that was shown is that of an item, which a
/// connection that the request held has for this call, with these answers and draws; or it is a
/// commit without a statement that ends with Committed, and an outcome was taken that said
/// committed and completed, of an identifier that the report has as tried.
pub fn shown_calls_were_answered()
    ensures { IsKeptOfAll are_from }
{}

/// If the whole invariant held before: on a connection that a request lost, the answered frame that
/// was sent last is its own.
pub fn lost_connections_end_with_own()
    ensures { IsKeptOfAll lose_own }
{}

/// What was answered of an identifier stands, if the whole invariant held before. Uncommitted, it
/// is blocked; committed, its entry is there and says so; and no session is so far from it that the
/// answer was anything else, but that it is forgotten.
pub fn answers_stay()
    ensures { IsKeptOfAll answers_stand }
{}

/// Each outcome that a request took stands, if the whole invariant held before: uncommitted, its
/// identifier is blocked; committed, its entry is there and says whether it is completed.
pub fn outcomes_stay()
    ensures { IsKeptOfAll outcomes_stand }
{}

/// A connection that a request lost is no longer open, and no request has it, if the whole
/// invariant held before.
pub fn lost_connections_stay_shut()
    ensures { IsKeptOfAll stay_gone }
{}

/// What becomes of each connection that a request lost, if the whole invariant held before. It is
/// no longer open, and one of four: no call was sent on it without the mark, and no outcome of it
/// was taken; or none was taken, and it is what the request is to ask for, or ended without
/// knowing; or it was said uncommitted, and is blocked; or it was said committed, its entry is
/// there and says whether it is completed, that entry is the last of its session, and no call is
/// left to be served that could commit.
pub fn lost_connections_are_settled()
    ensures { IsKeptOfAll are_lost }
{
    commit_log::laws::keeps_journal();
    server_model::laws::runs_number();
}

/// Of the connections that a request lost at most one had a call sent without the mark and no
/// outcome taken, if the whole invariant held before. There is one only while the request is to ask
/// for an outcome, or where it ended without knowing it; and what it is to ask for is held on a
/// connection that it lost.
pub fn one_outcome_is_pending()
    ensures { IsKeptOfAll are_pending }
{}

/// What a request that lost a connection is to ask for is held on one that it lost, which ended at
/// the event that it knows of. If a call without the mark is out there, it is the one behind the
/// calls that were shown so far. If the whole invariant held before.
pub fn requests_want_what_they_lost()
    ensures lost { IsKeptOfAll want_lost }
    ensures next { IsKeptOfAll want_next }
{}

/// Each Outcome that a request sent asks the identifier held on a connection that it lost, if the
/// whole invariant held before.
pub fn requests_ask_what_they_lost()
    ensures { IsKeptOfAll ask_rightly }
{}

/// Each outcome that a request took is of the identifier held on a connection that it lost, and the
/// identifier that it goes by is none of them, if the whole invariant held before.
pub fn outcomes_are_of_lost_connections()
    ensures lost { IsKeptOfAll outcomes_lost }
    ensures unasked { IsKeptOfAll go_unasked }
{}

/// A request that is over, and did not lose its last connection, left no call there that may still
/// be served, if the whole invariant held before.
pub fn ended_requests_leave_no_call()
    ensures { IsKeptOfAll leave_none }
{}

/// An outcome that a request took, and that says committed and not completed, is what it failed
/// with, if the whole invariant held before.
pub fn incomplete_outcomes_fail()
    ensures { IsKeptOfAll fail_incomplete }
{}

/// An outcome that a request took, and that says committed, was acted on, if the whole invariant
/// held before. Where it says completed, the call that was sent under its identifier was shown as
/// committed; where it does not, it is what the request failed with.
pub fn committed_outcomes_are_told()
    ensures { IsKeptOfAll tell_rightly }
{}

/// An error that tells of an event tells of that which ended the connection whose identifier was
/// asked last, if the whole invariant held before.
pub fn errors_tell_their_events()
    ensures { IsKeptOfAll have_events }
{}
