//! The commits of a run, in order.
ghost use Rattle.std.specs.Prelude.{◌≡◌, ◌++◌, IfOk, OnOk, [], length, filter};
ghost use Rattle.std.specs.List.{list_any};
ghost use Rattle.svc_values.specs.meaning.Identifiers.{same_ltxid, same_session, session_of};
ghost use Rattle.run_clauses.specs.meaning.EntryEvents.{commits_by as commits_by_def, next_of_session, has_crashed_commit as crashed_def, item_commits, run_commits, commits_at, commits_from};
ghost use Rattle.report_moments.specs.Views.{happened_as, moments_as};
ghost use Rattle.entry_events.specs.Commits.{commits_as, is_commit as is_commit_def};

use identifier_sets::is_same;
use outage_schedule::{Item, NoteRun, OutsideNote, Served};
use report_moments::{Moment, What};
use std::alloc::Global;
use svc_values::{Call, Entry, Ltxid, NoMemory, SessionId, ends_committed};

/// A commit that was stored: its session, and the event.
#[derive(Clone, Copy)]
pub(crate) struct CommitAt {
    pub(crate) session: SessionId,
    pub(crate) event: u64,
}

fn is_by(commit: &CommitAt, session: &SessionId) -> bool
    ensures { result ≡ same_session commit.now.session session.now }
{
    commit.session.incarnation == session.incarnation && commit.session.session == session.session
}

fn count_of(session: &SessionId, before: &[CommitAt]) -> usize
    ensures { result
        ≡ length (filter (λ commit. same_session commit.session session.now) before.now) }
{
    before
        .iter()
        .filter(|commit| is_by(commit, session))
        .count()
}

/// How often the session committed before.
fn commits_by(session: &SessionId, before: &[CommitAt]) -> usize
    ensures { result ≡ commits_by_def session.now (commits_as before.now) }
{
    count_of(session, before)
}

/// The identifier that the session commits under next.
fn next_of(session: &SessionId, before: &[CommitAt]) -> Ltxid
    ensures { result ≡ next_of_session session.now (commits_as before.now) }
{
    Ltxid {
        incarnation: session.incarnation,
        session: session.session,
        number: commits_by(session, before) as u64,
    }
}

/// Whether one of the entries has the identifier.
fn has_entry(entries: &[Entry], ltxid: &Ltxid) -> bool
    ensures { result ≡ list_any (λ entry. same_ltxid entry.ltxid ltxid.now) entries.now }
{
    entries.iter().any(|entry| is_same(&entry.ltxid, ltxid))
}

/// Whether a call that a crash stopped was committed: it has no mark and a commit, and an entry has
/// its session's next identifier.
fn has_crashed_commit(
    entries: &[Entry],
    before: &[CommitAt],
    session: &SessionId,
    replay: bool,
    call: &Call,
) -> bool
    ensures { result ≡ crashed_def entries.now (commits_as before.now) session.now replay call.now }
{
    if replay || !call.has_commit() {
        return false;
    }
    has_entry(entries, &next_of(session, before))
}

/// Whether an item is a commit.
fn is_commit(entries: &[Entry], before: &[CommitAt], one: &Served) -> bool
    ensures { result
        ≡ is_commit_def entries.now (commits_as before.now) one.now.session one.now.item }
{
    match &one.item {
        Item::Call { answers, .. } => ends_committed(answers.as_slice()),
        Item::CrashedCall { replay, call } => {
            has_crashed_commit(entries, before, &one.session, *replay, call)
        }
        _ => false,
    }
}

/// Puts the commits of calls that ran outside last.
fn push_runs(
    found: &mut Vec<CommitAt>,
    session: SessionId,
    event: u64,
    runs: &[NoteRun],
) -> Result<(), NoMemory>
    ensures { OnOk result (commits_as found.new.items
        ≡ commits_as found.old.items ++ run_commits session event runs.now) }
{
    for run in runs {
        if ends_committed(run.answers.as_slice()) {
            found.push(CommitAt { session, event })?;
        }
    }
    Ok(())
}

fn push_outside(found: &mut Vec<CommitAt>, event: u64, ran: &OutsideNote) -> Result<(), NoMemory>
    ensures { OnOk result (commits_as found.new.items
        ≡ commits_as found.old.items ++ run_commits (session_of ran.now.ltxid) event ran.now.runs) }
{
    push_runs(found, ran.ltxid.session_of(), event, ran.runs.as_slice())
}

fn push_item(
    found: &mut Vec<CommitAt>,
    entries: &[Entry],
    event: u64,
    one: &Served,
) -> Result<(), NoMemory>
    ensures { OnOk result (commits_as found.new.items
        ≡ commits_as found.old.items ++ item_commits entries.now (commits_as found.old.items)
        event one.now.session one.now.item) }
{
    if is_commit(entries, found.as_slice(), one) {
        found.push(CommitAt {
            session: one.session,
            event,
        })?;
    }
    Ok(())
}

/// Puts what was committed at a moment last.
fn push_commits(
    found: &mut Vec<CommitAt>,
    entries: &[Entry],
    moment: &Moment<'_>,
) -> Result<(), NoMemory>
    ensures { OnOk result (commits_as found.new.items
        ≡ commits_as found.old.items ++ commits_at entries.now (commits_as found.old.items)
        moment.now.event (happened_as moment.now.what)) }
{
    match moment.what {
        What::Served(one) => push_item(found, entries, moment.event, one),
        What::Outside(ran) => push_outside(found, moment.event, ran),
        What::Asked { .. } => Ok(()),
    }
}

/// The commits of all moments, in order: the crashed ones and those of `outside` included. For each
/// crashed call it is linear in the commits before it and in the entries.
pub(crate) fn commits_in(
    alloc: Global,
    entries: &[Entry],
    moments: &[Moment<'_>],
) -> Result<Vec<CommitAt>, NoMemory>
    ensures { IfOk result (λ all. commits_as all.items
        ≡ commits_from entries.now [] (moments_as moments.now)) }
{
    let mut found = Vec::new(alloc);
    for moment in moments {
        push_commits(&mut found, entries, moment)?;
    }
    Ok(found)
}
