//! The draws that calls with the mark bring.
ghost use Rattle.std.specs.Prelude.{◌≡◌, [], ◌++◌, flat_map, map, option_map, slice_get, IfOk, OnOk};
ghost use Rattle.std.specs.Option.{option_map_or};
ghost use Rattle.told_reports.specs.Keeping.{IsTold};
ghost use Rattle.run_clauses.specs.meaning.Copies.{copies_of, copies_by_client};
ghost use Rattle.shown_clauses.specs.meaning.KeptDraws.{parts, parts_from, has_marked as has_marked_def};
ghost use Rattle.shown_clauses.specs.meaning.Parts.{parts_of as parts_of_def};
ghost use Rattle.shown_clauses.specs.meaning.Steps.{steps as steps_def, steps_of as steps_of_def};
ghost use Rattle.shown_clauses.specs.meaning.Submissions.{submissions_of as submissions_of_def};
ghost use Rattle.report_story.specs.Brought.{brought as brought_def};
ghost use Rattle.report_story.specs.Kept.{kept_of};
ghost use Rattle.report_parts.specs.PartViews.{part_as};
ghost use Rattle.report_story.specs.Plain.{plain_step};
ghost use Rattle.report_parts.specs.PlainParts.{plain_part};
ghost use Rattle.report_story.specs.Views.{repeated_as, step_as};

use crate::looking::brought;
use crate::parts::{Part, put_parts, steps_of};
use crate::submitting::submissions_of;
use outage_schedule::{Client, Document, Report, Request, RequestReport, Served, Transcript};
use report_story::{Repeated, Step, is_marked, story_of};
use std::alloc::Global;
use svc_values::{Draw, NoMemory};

/// The reports of the client at a place, and none past the end.
fn reports_at(transcripts: &[Transcript], place: usize) -> &[RequestReport]
    ensures { result.now ≡ option_map_or (λ reports. reports) (slice_get transcripts.now place) [] }
{
    match transcripts.get(place) {
        Some(reports) => reports.as_slice(),
        None => &[],
    }
}

/// Puts the parts of a client last.
fn put_client<'a>(
    parts: &mut Vec<Part<'a>>,
    alloc: Global,
    script: &'a [Request],
    reports: &'a [RequestReport],
    mine: &[Step<'a>],
) -> Result<(), NoMemory>
    ensures { OnOk result (map part_as parts.new.items
        ≡ map part_as parts.old.items
        ++ parts_of_def (flat_map submissions_of_def (copies_of script.now reports.now))
        (map step_as mine.now)) }
{
    let made = submissions_of(alloc, script, reports)?;
    put_parts(parts, alloc, made.all.as_slice(), mine)
}

/// Puts the parts of the client at a place last, with its steps among all.
fn put_client_at<'a>(
    parts: &mut Vec<Part<'a>>,
    alloc: Global,
    client: &'a Client,
    reports: &'a [RequestReport],
    number: u64,
    steps: &[Step<'a>],
) -> Result<(), NoMemory>
    ensures { OnOk result (map part_as parts.new.items
        ≡ map part_as parts.old.items
        ++ parts_of_def
        (flat_map submissions_of_def (copies_of client.now.requests reports.now))
        (steps_of_def number (map step_as steps.now))) }
{
    let mine = steps_of(alloc, number, steps)?;
    put_client(
        parts,
        alloc,
        client.requests.as_slice(),
        reports,
        mine.as_slice(),
    )?;
    Ok(())
}

/// The parts of all clients, with these steps. Linear, and in the steps once for each client.
fn all_parts<'a>(
    alloc: Global,
    clients: &'a [Client],
    transcripts: &'a [Transcript],
    steps: &[Step<'a>],
) -> Result<Vec<Part<'a>>, NoMemory>
    ensures { IfOk result (λ parts. map part_as parts.items
        ≡ parts_from 1 (map step_as steps.now)
        (map (flat_map submissions_of_def) (copies_by_client clients.now transcripts.now))) }
{
    let mut parts = Vec::new(alloc);
    for (place, client) in clients.iter().enumerate() {
        let reports = reports_at(transcripts, place);
        let number = place as u64 + 1;
        put_client_at(&mut parts, alloc, client, reports, number, steps)?;
    }
    Ok(parts)
}

/// Whether a call with the mark was served.
fn has_marked(items: &[Served]) -> bool
    ensures { result ≡ has_marked_def items.now }
{
    items.iter().any(|one| is_marked(&one.item))
}

/// The parts of all clients where a call with the mark was served, and none elsewhere.
fn parts_in<'a>(
    alloc: Global,
    document: &'a Document,
    report: &'a Report,
    steps: &[Step<'a>],
) -> Result<Vec<Part<'a>>, NoMemory>
    requires { map step_as steps.now ≡ map plain_step (steps_def report.now) }
    ensures { IfOk result (λ found. map part_as found.items
        ≡ map plain_part (parts document.now report.now)) }
{
    if !has_marked(report.served.as_slice()) {
        return Ok(Vec::new(alloc));
    }
    let clients = document.clients.as_slice();
    let transcripts = report.clients.as_slice();
    let parts = all_parts(alloc, clients, transcripts, steps)?;
    Ok(parts)
}

/// What each of these items brings.
fn brought_all<'a>(
    alloc: Global,
    parts: &[Part<'a>],
    repeated: &[Option<Repeated>],
) -> Result<Vec<&'a [Draw]>, NoMemory>
    ensures { IfOk result (λ kept. map (λ draws. draws.now) kept.items
        ≡ map (brought_def (map part_as parts.now)) (map (option_map repeated_as) repeated.now)) }
{
    let mut kept = Vec::new(alloc);
    for one in repeated {
        kept.push(brought(parts, one))?;
    }
    Ok(kept)
}

/// For each served item of a report, in order, the draws that it brings: those with which the call
/// was shown that a call with the mark repeats, and none for every other item. Beside the cost of
/// the story it is linear in all steps for each call with the mark, and, where there is one, for
/// each client.
pub fn kept_draws<'a>(
    alloc: Global,
    document: &'a Document,
    report: &'a Report,
) -> Result<Vec<&'a [Draw]>, NoMemory>
    requires { IsTold report.now }
    ensures { IfOk result (λ kept. map (λ draws. draws.now) kept.items
        ≡ kept_of document.now report.now) }
{
    let story = story_of(alloc, report)?;
    let parts = parts_in(alloc, document, report, story.steps.as_slice())?;
    let kept = brought_all(alloc, parts.as_slice(), story.repeated.as_slice())?;
    Ok(kept)
}
