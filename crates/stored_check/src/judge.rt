//! Whether what a report tells is what is stored.
ghost use Rattle.std.specs.Prelude.{◌≡◌, ◌&&◌, ◌++◌, is_none, IfOk};
ghost use Rattle.std.specs.List.{list_all};
ghost use Rattle.doc_reader.specs.Keeping.{IsDocument};
ghost use Rattle.run_clauses.specs.meaning.Before.{journal_before as journal_def};
ghost use Rattle.run_clauses.specs.meaning.Moments.{moments as moments_def};
ghost use Rattle.run_clauses.specs.meaning.Stored.{kept_by, stored as stored_def};
ghost use Rattle.report_moments.specs.Views.{moments_as};
ghost use Rattle.stored_check.specs.Facts.{marks_in, has_no_entry, timing_in, timing_of};
ghost use Rattle.stored_check.specs.Judging.{is_told_right, are_blocks, is_stored_right};

use crate::answers::{Times, wrong_answer};
use crate::blocks::{answered_in, first_disordered, first_unanswered};
use crate::known::{Known, set_of};
use crate::opened::{last_incarnation, was_opened};
use crate::place::{Place, pointer_to};
use before_run::journal_before;
use commit_log::Journal;
use entry_events::Numbers;
use image_check::image_fits;
use json_form::Pointer;
use outage_schedule::{Document, Report};
use report_horizons::wanted_in;
use report_moments::{Moment, moments_of};
use std::alloc::Global;
use svc_values::{Ltxid, NoMemory};

/// When entries were stored and what horizons were wanted.
fn times_of(
    alloc: Global,
    document: &Document,
    report: &Report,
    before: &Journal,
    moments: &[Moment<'_>],
) -> Result<Times, NoMemory>
    requires document { IsDocument document.now }
    requires before { before.now ≡ journal_def document.now }
    requires moments { moments_as moments.now ≡ moments_def report.now }
    ensures { IfOk result (λ times. timing_in times ≡ timing_of (kept_by document.now report.now)) }
{
    let image = before.entries.as_slice();
    let numbers = Numbers::of(alloc, image, report, moments)?;
    let opened = was_opened(alloc, document)?;
    let last = last_incarnation(document, before);
    let retention = document.service.retention;
    let openings = wanted_in(alloc, opened, last, retention, report.notes.as_slice())?;
    Ok(Times {
        numbers,
        horizon: before.horizon,
        openings,
    })
}

/// The first outcome, answer or horizon that was told otherwise than the journal has it.
fn wrong_told(
    known: &Known,
    times: &Times,
    report: &Report,
    moments: &[Moment<'_>],
) -> Option<Place>
    ensures { is_none result
        ≡ is_told_right (marks_in known.now) (timing_in times.now) report.now
        (moments_as moments.now) }
{
    let outcome = known.wrong_outcome(report.clients.as_slice());
    if outcome.is_some() {
        return outcome;
    }
    let answer = wrong_answer(known, times, moments);
    if answer.is_some() {
        return answer;
    }
    let notes = report.notes.as_slice();
    let behind = notes.len() as u64 + 1;
    if report.forgotten as u128 != times.horizon_before(behind) {
        return Some(Place::Forgotten);
    }
    None
}

/// The first blocked identifier that is an entry's.
fn blocked_entry(known: &Known, before: &[Ltxid], blocked: &[Ltxid]) -> Option<Place>
    ensures { is_none result
        ≡ list_all (has_no_entry (marks_in known.now)) (before.now ++ blocked.now) }
{
    if known.first_entry(before).is_some() {
        return Some(Place::AllBlocked);
    }
    match known.first_entry(blocked) {
        Some(at) => Some(Place::Blocked(at)),
        None => None,
    }
}

/// The block at a place, or all of them at their end.
fn place_of(blocked: &[Ltxid], at: usize) -> Place {
    if at < blocked.len() {
        return Place::Blocked(at);
    }
    Place::AllBlocked
}

/// The first block without its answer, or all where they stand in no order of the answers.
fn wrong_order(
    alloc: Global,
    before: &[Ltxid],
    blocked: &[Ltxid],
    moments: &[Moment<'_>],
) -> Result<Option<Place>, NoMemory>
    ensures { IfOk result (λ place. is_none place
        ≡ are_blocks before.now blocked.now (moments_as moments.now)) }
{
    let answered = answered_in(alloc, moments)?;
    if let Some(at) = first_unanswered(alloc, answered.as_slice(), blocked)? {
        return Ok(Some(Place::Blocked(at)));
    }
    let done = set_of(alloc, before)?;
    match first_disordered(done, answered.as_slice(), blocked)? {
        None => Ok(None),
        Some(at) => Ok(Some(place_of(blocked, at))),
    }
}

/// The first block at fault.
fn wrong_block(
    alloc: Global,
    known: &Known,
    before: &[Ltxid],
    blocked: &[Ltxid],
    moments: &[Moment<'_>],
) -> Result<Option<Place>, NoMemory>
    ensures { IfOk result (λ place. is_none place
        ≡ (list_all (has_no_entry (marks_in known.now)) (before.now ++ blocked.now)
        && are_blocks before.now blocked.now (moments_as moments.now))) }
{
    let place = blocked_entry(known, before, blocked);
    if place.is_some() {
        return Ok(place);
    }
    wrong_order(alloc, before, blocked, moments)
}

/// The first place at fault but for the image.
fn wrong_place(
    alloc: Global,
    document: &Document,
    report: &Report,
    before: &Journal,
) -> Result<Option<Place>, NoMemory>
    requires document { IsDocument document.now }
    requires before { before.now ≡ journal_def document.now }
    ensures { IfOk result (λ place. is_none place ≡ is_stored_right document.now report.now) }
{
    let moments = moments_of(alloc, report)?;
    let known = Known::of(alloc, before, report)?;
    let all = moments.as_slice();
    let times = times_of(alloc, document, report, before, all)?;
    let told = wrong_told(&known, &times, report, all);
    if told.is_some() {
        return Ok(told);
    }
    let blocks = before.blocked.as_slice();
    let more = report.blocked.as_slice();
    wrong_block(alloc, &known, blocks, more, all)
}

fn stored(alloc: Global, document: &Document, report: &Report) -> Result<Option<Place>, NoMemory>
    requires { IsDocument document.now }
    ensures { IfOk result (λ place. is_none place ≡ stored_def document.now report.now) }
{
    let before = journal_before(alloc, document)?;
    let place = wrong_place(alloc, document, report, &before)?;
    if place.is_some() {
        return Ok(place);
    }
    let fits = image_fits(alloc, document, report, &before)?;
    if fits {
        return Ok(None);
    }
    Ok(Some(Place::Image))
}

/// Judges `Stored` of a report of a document: `None` exactly where each outcome that was told is
/// the stored one, and else the place at fault. For a report of size m it takes m log m, and
/// besides for each commit that a crash stopped the entries.
pub fn judge_stored(
    alloc: Global,
    document: &Document,
    report: &Report,
) -> Result<Option<Pointer>, NoMemory>
    requires { IsDocument document.now }
    ensures { IfOk result (λ place. is_none place ≡ stored_def document.now report.now) }
{
    let place = stored(alloc, document, report)?;
    pointer_to(alloc, place)
}
