//! What of entries and of the sendings that they are of holds of the start and is kept in each
//! event. Each law is the clause of a function with nothing to run.
ghost use Rattle.invariant_laws.specs.KeptLaws.{StaysTrue, IsKeptOfAll};
ghost use Rattle.invariant_laws.specs.Once.{on_links, have_fates, outs_wait, entries_sent, committed_stored, are_apart, all_placed, all_known, earlier_settled, shown_stored, all_end, completed_rightly, note_sendings, tell_tried, tried_apart, transactions_have_one, over_ends, copies_once};

/// The identifier of each sending with a commit is one of its connection's session.
pub fn sendings_are_of_sessions()
    ensures { StaysTrue on_links }
{}

/// What became of each sending with a commit is told by its connection, if the whole invariant held
/// before. Its number is at most that of the identifier held there, and below it where it was
/// answered Committed. Where no reply was taken to it, it is what is out there, or was blocked, and
/// the identifier held is its own.
pub fn sendings_have_fates()
    ensures { IsKeptOfAll have_fates }
{}

/// A call with a commit that is out on a connection has its sending there, if the whole invariant
/// held before: under the identifier that is held, and no reply was taken to it.
pub fn calls_that_are_out_wait()
    ensures { IsKeptOfAll outs_wait }
{}

/// Under the identifier of each entry of a connection's session exactly one sending has no reply
/// that was taken, or one that says Committed, if the whole invariant held before.
pub fn entries_are_sent()
    ensures { IsKeptOfAll entries_sent }
{
    server_model::laws::runs_number();
}

/// A sending that was answered Committed has its entry, if the whole invariant held before.
pub fn committed_sendings_are_stored()
    ensures { IsKeptOfAll committed_stored }
{
    server_model::laws::runs_number();
}

/// Of two sendings under one identifier, both are on one connection, and at most one has no reply
/// that was taken, or one that says Committed, if the whole invariant held before.
pub fn sendings_stay_apart()
    ensures { IsKeptOfAll are_apart }
{}

/// Each sending is of the call of its script at its place, on a connection that its request held,
/// if the whole invariant held before.
pub fn sendings_are_of_scripts()
    ensures { IsKeptOfAll all_placed }
{}

/// A sending with a commit that was answered is of a call that was shown with these answers. One
/// that was not is of the next call, and no outcome told it completed; or its identifier is
/// blocked; or its call was shown as committed. It is so if the whole invariant held before.
pub fn sendings_are_known()
    ensures { IsKeptOfAll all_known }
{}

/// Of the sendings with a commit of one transaction of a request, all but the last one are settled,
/// if the whole invariant held before: each was answered otherwise than Committed, or its
/// identifier is blocked.
pub fn earlier_sendings_are_settled()
    ensures { IsKeptOfAll earlier_settled }
{
    commit_log::laws::keeps_journal();
    server_model::laws::runs_number();
}

/// A call that was shown as committed has a sending with a commit at its place, open or committed,
/// and the entry of that is there, if the whole invariant held before.
pub fn committed_calls_are_stored()
    ensures { IsKeptOfAll shown_stored }
{
    server_model::laws::runs_number();
}

/// A request that is over and shows no error has no call of its script left, and one that shows an
/// error has; one that shows Incomplete had sent the next call, under the identifier of the error,
/// which has its entry. A sending of the next call that was not answered is on a connection that
/// was lost. It is so if the whole invariant held before.
pub fn requests_end_rightly()
    ensures { IsKeptOfAll all_end }
{}

/// Each entry of the run is completed exactly where the call that committed it has no statement, if
/// the whole invariant held before. An entry of the image is of no connection's session.
pub fn entries_are_completed_rightly()
    ensures { IsKeptOfAll completed_rightly }
{}

/// What a client notes of its sendings is what they are: each call without the mark, under the
/// identifier held on its connection, in the transaction of its place, with the answers that were
/// taken.
pub fn sendings_are_noted()
    ensures { StaysTrue note_sendings }
{}

/// What a report has as tried is what the sendings of its request tell, if the whole invariant held
/// before: transaction by transaction, the identifiers of those with a commit that were answered
/// Committed, or to which no reply was taken.
pub fn reports_tell_what_was_tried()
    ensures { IsKeptOfAll tell_tried }
{}

/// No identifier stands twice in what reports have as tried, neither in one list nor in two, if the
/// whole invariant held before.
pub fn tried_identifiers_differ()
    ensures { IsKeptOfAll tried_apart }
{}

/// No list of a report has the identifiers of two entries, if the whole invariant held before: a
/// transaction of a request stands in the journal at most once.
pub fn transactions_have_one_entry()
    ensures { IsKeptOfAll transactions_have_one }
{
    commit_log::laws::keeps_journal();
    server_model::laws::runs_number();
}

/// The transactions of a request that is over stand in the journal as its report says, if the whole
/// invariant held before: one shown as committed has one entry, one that was dropped has none, and
/// the last one has what the error of the request says.
pub fn reports_tell_entries()
    ensures { IsKeptOfAll over_ends }
{
    commit_log::laws::keeps_journal();
    server_model::laws::runs_number();
}

/// All copies of a request that is submitted again have one entry at most, and it is of the last
/// copy, in runs of documents in which such a request is one transaction, if the whole invariant
/// held before: a copy that a further one follows ended with an error before its commit was shown,
/// and its last transaction has no entry.
pub fn copies_have_one_entry()
    ensures { IsKeptOfAll copies_once }
{
    commit_log::laws::keeps_journal();
    server_model::laws::runs_number();
}
