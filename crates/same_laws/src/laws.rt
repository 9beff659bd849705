//! Entries have the calls, answers, granted draws and settings that their clients know. Each law is
//! the clause of a function with nothing to run.
ghost use Rattle.same_laws.specs.RunsSame.{RunsAreSame};
ghost use Rattle.same_laws.specs.RunsScripted.{RunsAreScripted};
ghost use Rattle.once_laws.specs.CommitAnswers.{commit_fittingly, store_alone};
ghost use Rattle.invariant_laws.specs.SameLaws.{HoldsAtEnds, HoldsInRuns, FollowsInvariant, SettingsGoOn, RunsStoreScripts, WholeRunsStoreScripts, RunsFollowScripts, WholeRunsFollowScripts, RunsVerify, WholeRunsVerify, RunsKnowAnswers, WholeRunsKnowAnswers, RunsKnowInsides, WholeRunsKnowInsides, ReportsClashNowhere, ReportsAreSame, RunsRanLast, WholeRunsRanLast, EntriesMakeReportsSame, EntriesMakeSame, PartsMakeEntries, RunsEntriesGoOn, WholeRunsEntriesGoOn, RunsEntriesDraw, WholeRunsEntriesDraw, RunsEntriesStart, WholeRunsEntriesStart, RunsKnowEntries, WholeRunsKnowEntries};
ghost use Rattle.invariant_laws.specs.Same.{run_script_calls, open_entries_known};
ghost use Rattle.invariant_laws.specs.Begins.{carry_settings, transactions_start, sessions_stand};
ghost use Rattle.invariant_laws.specs.FirstCalls.{transactions_begin};
ghost use Rattle.once_laws.specs.Redrawn.{RepeatsRedraw, WholeRepeatsRedraw};

/// Each transaction of a request stands in the journal of a run as its client knows it: its entries
/// have the script's calls, the shown answers, the granted draws that were shown, and the settings
/// of the request, changed by each `set` before it. This is so in documents whose requests are
/// right, where no two answers that clients compared have one digest by chance.
pub fn runs_are_same()
    ensures { RunsAreSame }
{
    reports_clash_nowhere();
    entries_are_as_known();
    entries_make_same();
}

/// Each entry whose identifier a request of a run has as tried is a stretch of the request's
/// script, and its settings are those that the request has where the stretch begins. This rests on
/// no digests.
pub fn runs_are_scripted()
    ensures { RunsAreScripted }
{
    invariant_laws::kept_laws::runs_keep_invariant();
    entries_follow_scripts();
}

/// Wherever such a run has come to, and at its end: the answers to a call that a connection served
/// end with CommitInReplay only where it was sent with the mark; and a commit with no statement
/// before it has exactly one answer.
pub fn commits_are_answered()
    ensures reached { HoldsInRuns commit_fittingly }
    ensures run { HoldsAtEnds commit_fittingly }
{
    invariant_laws::history_laws::runs_serve();
    world_model::laws::runs_are_orderly();
}

/// Wherever such a run has come to, and at its end: each entry that the run added and that a commit
/// with no statement before it stored has for this call the answer Committed alone, and no draws,
/// also where a crash stopped the call before its answer.
pub fn lone_commits_are_stored()
    ensures reached { HoldsInRuns store_alone }
    ensures run { HoldsAtEnds store_alone }
{
    server_model::laws::runs_serial();
}

/// In each state that is as the invariant says: a transaction that was run on a connection that a
/// request held, and that has a call of this request, has all its calls from the request's script,
/// in a row from the first one.
pub fn transactions_run_scripts()
    ensures { FollowsInvariant run_script_calls }
{}

/// In each such state: each Begin of a request, on whichever connection, carries the settings of
/// the request, changed in order by each `set` before the call that was sent behind it.
pub fn begins_carry_settings()
    ensures { FollowsInvariant carry_settings }
{}

/// In each such state: a transaction that was run on a connection that a request held, and that has
/// a call of this request, started with the settings of the request, changed in order by each `set`
/// before its first call.
pub fn transactions_start_rightly()
    ensures { FollowsInvariant transactions_start }
{}

/// In each such state: from the Begin of a request to its End, the session of a connection that the
/// request held has the settings of the request, changed in order by each `set` before the call
/// that it serves next; and its open transaction started with those before the first call of this,
/// or before that one where it has none.
pub fn sessions_have_settings()
    ensures { FollowsInvariant sessions_stand }
{}

/// In each such state: a transaction that was run on a connection that a request held, and that has
/// a call of this request, begins with the request's first call, with one behind a call that was
/// shown with a decided commit, or with one behind a call that the connection served with answers
/// that ended a transaction.
pub fn transactions_begin_rightly()
    ensures { FollowsInvariant transactions_begin }
{}

/// So they go on from one transaction of a request to the next: the settings before a call, changed
/// by each `set` of so many calls from there on, are the settings behind these.
pub fn settings_go_on()
    ensures { SettingsGoOn }
{}

/// In each such state: an entry under the identifier of a sending with a commit to which no reply
/// was taken has the calls of the request's script that end with the one that was sent, and the
/// request's settings, changed in order by each `set` before the first of them.
pub fn open_sendings_store_scripts()
    ensures { FollowsInvariant open_entries_known }
{}

/// Wherever a run of a document whose requests are right has come to, a sending with a commit that
/// was answered Committed has an entry with the calls of its request's script that end with the one
/// that was sent, and the settings before the first of them; and so it has at the end of the run.
pub fn committed_sendings_store_scripts()
    ensures reached { RunsStoreScripts }
    ensures run { WholeRunsStoreScripts }
{
    invariant_laws::kept_laws::runs_keep_invariant();
}

/// Wherever such a run has come to, and at its end: each entry under the identifier of a sending
/// with a commit that was answered Committed, or to which no reply was taken, has the calls of its
/// request's script that end with the one that was sent, and the request's settings, changed in
/// order by each `set` before the first of them.
pub fn entries_follow_scripts()
    ensures reached { RunsFollowScripts }
    ensures run { WholeRunsFollowScripts }
{
    invariant_laws::kept_laws::runs_keep_invariant();
    committed_sendings_store_scripts();
}

/// Wherever such a run has come to, and at its end: each call of a request that its connection
/// served, and behind which the request sent a further one there, was shown with the answers and
/// values of its item; of a repeated one the digest of the answers is that of the shown ones.
pub fn calls_are_verified()
    ensures reached { RunsVerify }
    ensures run { WholeRunsVerify }
{
    world_model::laws::runs_are_orderly();
}

/// Where no two answers that such a run compares have one digest by chance: each of these calls,
/// repeated or not, was answered as it was shown.
pub fn answers_are_known()
    ensures reached { RunsKnowAnswers }
    ensures run { WholeRunsKnowAnswers }
{
    calls_are_verified();
}

/// Then each call inside a transaction that a connection ran for a request, so each but the
/// transaction's last one, was answered as it was shown, and no transaction ended with it.
pub fn insides_are_known()
    ensures reached { RunsKnowInsides }
    ensures run { WholeRunsKnowInsides }
{
    invariant_laws::kept_laws::runs_keep_invariant();
    answers_are_known();
}

/// Where no two answers that the clients of a report compared have one digest by chance, none do in
/// the state at the end of the report's run: each repeated call of a request was served by a
/// session of the request's report, with the script's call.
pub fn reports_clash_nowhere()
    ensures { ReportsClashNowhere }
{
    world_model::laws::runs_are_orderly();
    invariant_laws::kept_laws::runs_keep_invariant();
}

/// Where each request that is over stands in the journal at the end of a run with the calls,
/// answers, granted draws and settings that its client knows, each copy of it in the report does in
/// the report's entries.
pub fn reports_are_same()
    ensures { ReportsAreSame }
{}

/// Wherever a run of a document whose requests are right has come to, and at its end: a sending
/// with a commit that was answered Committed was run on its connection, as the last call of the
/// transaction that has its identifier's number.
pub fn committed_sendings_ran_last()
    ensures reached { RunsRanLast }
    ensures run { WholeRunsRanLast }
{
    invariant_laws::kept_laws::runs_keep_invariant();
}

/// In each state that is as the invariant says: where each entry of a sending that is open or was
/// answered Committed has what its request knows, each transaction of a request that is over stands
/// in the journal so. Its lists hold the identifiers of such sendings: of the call that was shown
/// as committed, or of the next one of a request that failed. So the report of a whole run has
/// Same, where this is so at the run's end.
pub fn entries_make_same()
    ensures state { EntriesMakeSame }
    ensures report { EntriesMakeReportsSame }
{
    invariant_laws::kept_laws::runs_keep_invariant();
    reports_are_same();
}

/// In any state: where each entry of a sending that is open or was answered Committed has the calls
/// of the script that end with the one sent and the settings before them, and begins behind an end
/// that was shown, or is the request's first, no call inside it was shown as an end, and its
/// answers and granted draws are the shown ones, each such entry is as its request knows.
pub fn parts_make_entries()
    ensures { PartsMakeEntries }
{}

/// Wherever such a run has come to, and at its end, where no digests clash: an entry of a sending
/// that is open or was answered Committed has a call, and no more than its request has up to the
/// one that was sent; and each call of it before that one was answered as it was shown, and not
/// shown as an end.
pub fn entries_go_on()
    ensures reached { RunsEntriesGoOn }
    ensures run { WholeRunsEntriesGoOn }
{
    invariant_laws::kept_laws::runs_keep_invariant();
    insides_are_known();
    committed_sendings_ran_last();
}

/// Wherever such a run has come to, and at its end: on each connection that a request held, a call
/// with the mark that was answered as its first time was shown drew the granted values that were
/// shown, in order.
pub fn repeated_calls_redraw()
    ensures reached { RepeatsRedraw }
    ensures run { WholeRepeatsRedraw }
{
    invariant_laws::kept_laws::runs_keep_invariant();
    invariant_laws::history_laws::runs_serve();
    server_model::laws::runs_legal();
}

/// Then each piece of such an entry drew, of the values that are kept for a repeated call, those
/// that were shown with its call; and the answers to its last call are those that were shown, where
/// it was: by the reply on its own connection, since no call is stored twice, or by an outcome.
pub fn entries_draw_as_shown()
    ensures reached { RunsEntriesDraw }
    ensures run { WholeRunsEntriesDraw }
{
    invariant_laws::kept_laws::runs_keep_invariant();
    calls_are_verified();
    answers_are_known();
    repeated_calls_redraw();
    once_laws::laws::replies_are_shown();
    once_laws::laws::calls_end_fittingly();
    lone_commits_are_stored();
    committed_sendings_ran_last();
}

/// Then the transaction of such an entry is its request's first, or it begins behind a call that
/// was shown as the end of one. Where its connection ended one before it, the request went on
/// behind that, so it was shown as it was answered; and no call was shown with CommitInReplay.
pub fn entries_begin_behind_ends()
    ensures reached { RunsEntriesStart }
    ensures run { WholeRunsEntriesStart }
{
    invariant_laws::kept_laws::runs_keep_invariant();
    calls_are_verified();
    answers_are_known();
    repeated_calls_redraw();
    transactions_begin_rightly();
    commits_are_answered();
    committed_sendings_ran_last();
}

/// So, wherever such a run has come to, and at its end, where no digests clash: each entry of a
/// sending that is open or was answered Committed has the calls, answers, granted draws and
/// settings that its request knows.
pub fn entries_are_as_known()
    ensures reached { RunsKnowEntries }
    ensures run { WholeRunsKnowEntries }
{
    entries_follow_scripts();
    entries_go_on();
    entries_draw_as_shown();
    entries_begin_behind_ends();
    parts_make_entries();
}
