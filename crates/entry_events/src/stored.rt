//! The entries of a run, each with the event at which it was stored.
ghost use Rattle.std.specs.Prelude.{◌≡◌, IfOk};
ghost use Rattle.run_clauses.specs.meaning.EntryEvents.{stored_at as stored_def, stored_entries};
ghost use Rattle.run_clauses.specs.meaning.Moments.{moments as moments_def};
ghost use Rattle.entry_events.specs.Commits.{commits_as, all_stored};
ghost use Rattle.report_moments.specs.Views.{moments_as};

use crate::commits::{CommitAt, commits_in};
use outage_schedule::Report;
use report_moments::Moment;
use std::alloc::Global;
use svc_values::{Entry, Ltxid, NoMemory};

/// An entry's identifier, and the event at which it was stored.
#[derive(Clone, Copy)]
pub(crate) struct StoredAt {
    pub(crate) ltxid: Ltxid,
    pub(crate) event: u64,
}

/// The entries, each with the event of its commit: the first with that of the first, and so on.
fn stored_at(
    alloc: Global,
    entries: &[Entry],
    commits: &[CommitAt],
) -> Result<Vec<StoredAt>, NoMemory>
    ensures { IfOk result (λ all. all_stored all.items
        ≡ stored_def entries.now (commits_as commits.now)) }
{
    let mut all = Vec::new(alloc);
    for (at, entry) in entries.iter().enumerate() {
        let Some(commit) = commits.get(at) else {
            return Ok(all);
        };
        all.push(StoredAt {
            ltxid: entry.ltxid,
            event: commit.event,
        })?;
    }
    Ok(all)
}

/// The entries of a report with these moments.
pub(crate) fn stored_in(
    alloc: Global,
    report: &Report,
    moments: &[Moment<'_>],
) -> Result<Vec<StoredAt>, NoMemory>
    requires { moments_as moments.now ≡ moments_def report.now }
    ensures { IfOk result (λ all. all_stored all.items ≡ stored_entries report.now) }
{
    let entries = report.entries.as_slice();
    let commits = commits_in(alloc, entries, moments)?;
    stored_at(alloc, entries, commits.as_slice())
}
