//! What the journal of a run knows of identifiers, and the outcomes that clients were told.
ghost use Rattle.std.specs.Prelude.{◌≡◌, ◌||◌, ◌++◌, is_none, Option, IfOk, OnOk};
ghost use Rattle.std.specs.List.{list_all};
ghost use Rattle.svc_values.specs.declared.entry.Ltxid.{Ltxid as Id};
ghost use Rattle.svc_values.specs.meaning.Same.{same_bool as same_bool_def};
ghost use Rattle.ltxid_book.specs.meaning.Journal.{is_blocked};
ghost use Rattle.run_clauses.specs.meaning.Outcomes.{completed_of};
ghost use Rattle.stored_check.specs.Keys.{mark_of};
ghost use Rattle.stored_check.specs.Facts.{marks_in, has_entry as has_entry_def, has_block as has_block_def, is_stored as is_stored_def, are_stored, has_no_entry};

use crate::completed::Completed;
use crate::place::Place;
use commit_log::Journal;
use identifier_sets::Ids;
use outage_schedule::{Outcome, Report, RequestReport, Transcript};
use std::alloc::Global;
use svc_values::{Ltxid, NoMemory};

/// The entries and the blocks of a journal, those before a run and those of the run.
#[derive(Drop)]
pub(crate) struct Known {
    pub(crate) completed: Completed,
    pub(crate) blocked: Ids,
}

/// Whether the two are the same.
pub(crate) fn same_bool(one: bool, other: bool) -> bool
    ensures { result ≡ same_bool_def one other }
{
    if one { other } else { !other }
}

/// Whether an outcome says of an entry what the journal does, where it has this mark.
fn has_entry(mark: Option<bool>, outcome: &Outcome) -> bool
    ensures { result ≡ has_entry_def mark outcome.now }
{
    match mark {
        Some(completed) => outcome.committed && same_bool(outcome.completed, completed),
        None => !outcome.committed,
    }
}

/// Whether an outcome that says uncommitted has its block.
fn has_block(blocked: &Ids, outcome: &Outcome) -> bool
    ensures { result ≡ has_block_def (is_blocked blocked.now outcome.now.ltxid) outcome.now }
{
    outcome.committed || (!outcome.completed && blocked.has(&outcome.ltxid))
}

/// Puts identifiers into a set.
fn add_all(ids: &mut Ids, more: &[Ltxid]) -> Result<(), NoMemory>
    ensures { OnOk result ((x : Id) → is_blocked ids.new x
        ≡ (is_blocked ids.old x || is_blocked more.now x)) }
{
    for ltxid in more {
        ids.add(ltxid)?;
    }
    Ok(())
}

/// The set of these.
pub(crate) fn set_of(alloc: Global, all: &[Ltxid]) -> Result<Ids, NoMemory>
    ensures { IfOk result (λ ids. (x : Id) → is_blocked ids x ≡ is_blocked all.now x) }
{
    let mut ids = Ids::new(alloc);
    add_all(&mut ids, all)?;
    Ok(ids)
}

/// The set of both.
fn set_of_both(alloc: Global, before: &[Ltxid], more: &[Ltxid]) -> Result<Ids, NoMemory>
    ensures { IfOk result (λ ids. (x : Id) → is_blocked ids x
        ≡ is_blocked (before.now ++ more.now) x) }
{
    let mut ids = set_of(alloc, before)?;
    add_all(&mut ids, more)?;
    Ok(ids)
}

impl Known {
    /// What a report adds to the journal before it. n log n.
    pub(crate) fn of(alloc: Global, before: &Journal, report: &Report) -> Result<Known, NoMemory>
        ensures completed { IfOk result (λ known. (x : Id) → mark_of known.completed x
            ≡ completed_of (before.now.entries ++ report.now.entries) x) }
        ensures blocked { IfOk result (λ known. (x : Id) → is_blocked known.blocked x
            ≡ is_blocked (before.now.blocked ++ report.now.blocked) x) }
    {
        let entries = before.entries.as_slice();
        let completed = Completed::of(alloc, entries, report.entries.as_slice())?;
        let blocks = before.blocked.as_slice();
        let blocked = set_of_both(alloc, blocks, report.blocked.as_slice())?;
        Ok(Known { completed, blocked })
    }

    /// Whether an outcome is the stored one.
    fn is_stored(&self, outcome: &Outcome) -> bool
        ensures { result ≡ is_stored_def (marks_in self.now) outcome.now }
    {
        has_entry(self.completed.find(&outcome.ltxid), outcome) && has_block(&self.blocked, outcome)
    }

    /// The first outcome of a request that is not the stored one.
    fn wrong_of_request(&self, request: &RequestReport) -> Option<usize>
        ensures { is_none result ≡ are_stored (marks_in self.now) request.now }
    {
        self.wrong_of_all(request.outcomes.as_slice())
    }

    /// The first of these.
    fn wrong_of_all(&self, outcomes: &[Outcome]) -> Option<usize>
        ensures { is_none result ≡ list_all (is_stored_def (marks_in self.now)) outcomes.now }
    {
        for (at, outcome) in outcomes.iter().enumerate() {
            if !self.is_stored(outcome) {
                return Some(at);
            }
        }
        None
    }

    /// The first of a client's.
    fn wrong_of_client(&self, requests: &[RequestReport], client: usize) -> Option<Place>
        ensures { is_none result ≡ list_all (are_stored (marks_in self.now)) requests.now }
    {
        for (request, report) in requests.iter().enumerate() {
            if let Some(outcome) = self.wrong_of_request(report) {
                return Some(Place::Outcome {
                    client,
                    request,
                    outcome,
                });
            }
        }
        None
    }

    /// The first outcome that a client was told and that is not the stored one. n log n.
    pub(crate) fn wrong_outcome(&self, clients: &[Transcript]) -> Option<Place>
        ensures { is_none result
            ≡ list_all (list_all (are_stored (marks_in self.now))) clients.now }
    {
        for (client, transcript) in clients.iter().enumerate() {
            if let Some(place) = self.wrong_of_client(transcript.as_slice(), client) {
                return Some(place);
            }
        }
        None
    }

    /// The first of the identifiers that is an entry's.
    pub(crate) fn first_entry(&self, ids: &[Ltxid]) -> Option<usize>
        ensures { is_none result ≡ list_all (has_no_entry (marks_in self.now)) ids.now }
    {
        for (at, ltxid) in ids.iter().enumerate() {
            if self.completed.find(ltxid).is_some() {
                return Some(at);
            }
        }
        None
    }
}
