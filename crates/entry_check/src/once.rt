//! Whether each transaction stands in the journal at most once.
ghost use Rattle.std.specs.Prelude.{◌≡◌, ◌||◌, is_none, flat_map, nat_le, IfOk};
ghost use Rattle.std.specs.List.{list_all};
ghost use Rattle.run_clauses.specs.meaning.Sessions.{is_foreign};
ghost use Rattle.run_clauses.specs.meaning.Tried.{holds};
ghost use Rattle.run_clauses.specs.meaning.Once.{once as once_def};
ghost use Rattle.entry_check.specs.Ids.{ids_in};
ghost use Rattle.entry_check.specs.Once.{known_in, copies_known, most_of as most_of_def, have_one, lists_right, entries_right};

use crate::copies::{CopiesFault, JudgesCopies, fault_of_scripts};
use crate::found::set_of;
use crate::gather::{IdAt, ids_of_entries, ids_of_lists};
use crate::outside::{OutsideSessions, outside_sessions};
use crate::place::{Part, Place, pointer_to};
use crate::requests::fault_of_requests;
use crate::tried::{EndsRight, HasLists, HasOne, known_in as count_known};
use identifier_sets::Ids;
use json_form::Pointer;
use outage_schedule::{Document, Ltxids, Report, Request, RequestReport};
use std::alloc::Global;
use svc_values::NoMemory;

/// Whether at most so many identifiers of these lists are those of entries.
fn has_at_most(stored: &Ids, lists: &[Ltxids], most: usize) -> bool
    ensures { result ≡ nat_le (known_in (holds stored.now) (flat_map (λ ids. ids) lists.now)) most }
{
    let mut left = most;
    for ids in lists {
        let known = count_known(stored, ids.as_slice());
        if known > left {
            return false;
        }
        left -= known;
    }
    true
}

/// How many entries a copy of a request may have, with these copies behind it.
fn most_of(behind: &[RequestReport]) -> usize
    ensures { result ≡ most_of_def behind.now }
{
    if behind.is_empty() { 1 } else { 0 }
}

/// The first copy with an entry that it may not have.
fn copy_with_more(stored: &Ids, copies: &[RequestReport]) -> Option<CopiesFault>
    ensures { is_none result ≡ copies_known (holds stored.now) copies.now }
{
    for (at, copy) in copies.iter().enumerate() {
        let most = most_of(&copies[at + 1..]);
        if !has_at_most(stored, copy.tried.as_slice(), most) {
            let part = Part::Whole;
            return Some(CopiesFault::Copy { copy: at, part });
        }
    }
    None
}

/// All copies of a request have at most one entry, and it is the last one's.
#[derive(Drop)]
struct HaveOne<'a> {
    stored: &'a Ids,
}

impl JudgesCopies for HaveOne<'_> {
    ghost test = { λ s. have_one (holds s.stored.now) };

    fn fault(
        &self,
        _alloc: Global,
        request: &Request,
        copies: &[RequestReport],
    ) -> Result<Option<CopiesFault>, NoMemory> {
        if request.again == 0 {
            return Ok(None);
        }
        Ok(copy_with_more(self.stored, copies))
    }
}

/// What is left where identifiers differ, those of lists and those of entries.
fn wrong_list(
    alloc: Global,
    document: &Document,
    report: &Report,
    stored: &Ids,
) -> Result<Option<Place>, NoMemory>
    ensures { IfOk result (λ place.
        is_none place ≡ lists_right (holds stored.now) document.now report.now) }
{
    let clients = report.clients.as_slice();
    let two = fault_of_requests(&HasOne { stored }, clients);
    if two.is_some() {
        return Ok(two);
    }
    let scripts = document.clients.as_slice();
    let copies = fault_of_scripts(alloc, &HaveOne { stored }, scripts, clients)?;
    if copies.is_some() {
        return Ok(copies);
    }
    Ok(fault_of_requests(&EndsRight { stored }, clients))
}

/// The first identifier that is in no list, and of no session of an `outside`.
fn first_untried(outside: &OutsideSessions, tried: &Ids, all: &[IdAt]) -> Option<Place>
    ensures { is_none result ≡ list_all (λ x. is_foreign outside.now x || holds tried.now x)
        (ids_in all.now) }
{
    for one in all {
        if !outside.has_session_of(&one.ltxid) && !tried.has(&one.ltxid) {
            return Some(one.place);
        }
    }
    None
}

/// What is left where identifiers of lists differ.
fn wrong_entry(
    alloc: Global,
    document: &Document,
    report: &Report,
    tried: &Ids,
) -> Result<Option<Place>, NoMemory>
    ensures { IfOk result (λ place.
        is_none place ≡ entries_right (holds tried.now) document.now report.now) }
{
    let outside = outside_sessions(alloc, report.notes.as_slice())?;
    let entries = ids_of_entries(alloc, report.entries.as_slice())?;
    let untried = first_untried(&outside, tried, entries.as_slice());
    if untried.is_some() {
        return Ok(untried);
    }
    let stored = set_of(alloc, entries.as_slice())?;
    if stored.twice.is_some() {
        return Ok(stored.twice);
    }
    wrong_list(alloc, document, report, &stored.ids)
}

/// The place where `Once` fails, if it does: the lists of the report first, then its entries, and
/// then the lists beside these.
fn once(alloc: Global, document: &Document, report: &Report) -> Result<Option<Place>, NoMemory>
    ensures { IfOk result (λ place. is_none place ≡ once_def document.now report.now) }
{
    let clients = report.clients.as_slice();
    let lists = fault_of_requests(&HasLists, clients);
    if lists.is_some() {
        return Ok(lists);
    }
    let listed = ids_of_lists(alloc, clients)?;
    let tried = set_of(alloc, listed.as_slice())?;
    if tried.twice.is_some() {
        return Ok(tried.twice);
    }
    wrong_entry(alloc, document, report, &tried.ids)
}

/// Judges `Once` of a report of a document: `None` exactly where it holds, and else the place at
/// fault. m log m for a report of size m.
pub fn judge_once(
    alloc: Global,
    document: &Document,
    report: &Report,
) -> Result<Option<Pointer>, NoMemory>
    ensures { IfOk result (λ place. is_none place ≡ once_def document.now report.now) }
{
    let place = once(alloc, document, report)?;
    pointer_to(alloc, place)
}
