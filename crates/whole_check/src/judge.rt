//! Whether each request was shown its whole script, or failed.
ghost use Rattle.std.specs.Prelude.{◌≡◌, ℕ, is_none, map, reverse, IfOk};
ghost use Rattle.doc_reader.specs.Keeping.{IsDocument};
ghost use Rattle.told_reports.specs.Keeping.{IsTold};
ghost use Rattle.svc_values.specs.declared.entry.SessionId.{SessionId as Id};
ghost use Rattle.run_clauses.specs.meaning.Before.{journal_before as journal_def};
ghost use Rattle.run_clauses.specs.meaning.EntryEvents.{stored_entries, stored_up_to};
ghost use Rattle.shown_clauses.specs.meaning.Steps.{steps as steps_def, turns as turns_def};
ghost use Rattle.shown_clauses.specs.meaning.Whole.{whole as whole_def};
ghost use Rattle.entry_events.specs.Numbering.{up_to};
ghost use Rattle.report_story.specs.Plain.{plain_step};
ghost use Rattle.report_story.specs.Views.{step_as};
ghost use Rattle.whole_check.specs.Judging.{is_told_right};
ghost use Rattle.whole_check.specs.Views.{submissions_as};

use crate::client::{Told, fault_of_clients};
use crate::owned::turn_of_nobody;
use crate::place::{Place, pointer_to};
use crate::script::{submissions_by_client, wrong_report};
use crate::steps::step_without_reply;
use before_run::journal_before;
use entry_events::Numbers;
use json_form::Pointer;
use outage_schedule::{Document, Report};
use report_moments::moments_of;
use report_parts::Submissions;
use report_story::story_of;
use std::alloc::Global;
use svc_values::NoMemory;

/// How many entries of each session were stored by an event, those before the run counted.
fn numbers_of(alloc: Global, document: &Document, report: &Report) -> Result<Numbers, NoMemory>
    requires { IsDocument document.now }
    ensures { IfOk result (λ numbers. (session : Id) → (event : ℕ) → up_to numbers session event
        ≡ stored_up_to (journal_def document.now).entries (stored_entries report.now)
        session event) }
{
    let before = journal_before(alloc, document)?;
    let moments = moments_of(alloc, report)?;
    let image = before.entries.as_slice();
    Numbers::of(alloc, image, report, moments.as_slice())
}

/// What the report tells, with the numbers of entries.
fn told_of<'a>(alloc: Global, document: &Document, report: &'a Report) -> Result<Told<'a>, NoMemory>
    requires document { IsDocument document.now }
    requires told { IsTold report.now }
    ensures steps { IfOk result (λ told.
        map step_as told.story.steps.items ≡ map plain_step (steps_def report.now)) }
    ensures turns { IfOk result (λ told.
        reverse told.story.turns.items ≡ turns_def report.now) }
    ensures numbers { IfOk result (λ told. (session : Id) → (event : ℕ)
        → up_to told.numbers session event
        ≡ stored_up_to (journal_def document.now).entries (stored_entries report.now)
        session event) }
{
    let numbers = numbers_of(alloc, document, report)?;
    let story = story_of(alloc, report)?;
    Ok(Told { story, numbers })
}

/// The first fault of what the report tells, of clients with these submissions.
fn wrong_told(
    alloc: Global,
    told: &Told<'_>,
    clients: &[Submissions<'_>],
) -> Result<Option<Place>, NoMemory>
    ensures { IfOk result (λ place. is_none place ≡ is_told_right (up_to told.now.numbers)
        (map step_as told.now.story.steps.items) told.now.story.turns.items
        (map submissions_as clients.now)) }
{
    if let Some(event) = step_without_reply(told.story.steps.as_slice()) {
        return Ok(Some(Place::Noted(event)));
    }
    let count = clients.len() as u64;
    if let Some(event) = turn_of_nobody(count, told.story.turns.as_slice()) {
        return Ok(Some(Place::ServedAt(event)));
    }
    fault_of_clients(alloc, told, clients)
}

fn wrong_place(
    alloc: Global,
    document: &Document,
    report: &Report,
) -> Result<Option<Place>, NoMemory>
    requires document { IsDocument document.now }
    requires told { IsTold report.now }
    ensures { IfOk result (λ place. is_none place ≡ whole_def document.now report.now) }
{
    let clients = document.clients.as_slice();
    let transcripts = report.clients.as_slice();
    if clients.len() != transcripts.len() {
        return Ok(Some(Place::Clients));
    }
    let all = submissions_by_client(alloc, clients, transcripts)?;
    let place = wrong_report(all.as_slice());
    if place.is_some() {
        return Ok(place);
    }
    let told = told_of(alloc, document, report)?;
    wrong_told(alloc, &told, all.as_slice())
}

/// Judges `Whole` of a report of a document: `None` exactly where each request was shown its whole
/// script in order, by what sessions of its own served, or failed. Else it is the place at fault:
/// of the clients, a client or a request, of a call that was shown, of a note that took nothing, or
/// of the item of a session that serves nobody or another call than the request's. For a report of
/// size m it takes m log m, and besides that of the story; for each client all steps and turns; for
/// each turn and each shown call the calls, sessions and outcomes of its request, which has at most
/// 1,024 calls; and for each commit that a crash stopped the entries.
pub fn judge_whole(
    alloc: Global,
    document: &Document,
    report: &Report,
) -> Result<Option<Pointer>, NoMemory>
    requires document { IsDocument document.now }
    requires told { IsTold report.now }
    ensures { IfOk result (λ place. is_none place ≡ whole_def document.now report.now) }
{
    let place = wrong_place(alloc, document, report)?;
    pointer_to(alloc, report.served.as_slice(), place)
}
