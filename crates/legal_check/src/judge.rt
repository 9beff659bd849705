//! Whether what was served is legal.
ghost use Rattle.std.specs.Prelude.{◌≡◌, is_none, IfOk};
ghost use Rattle.doc_reader.specs.Keeping.{IsDocument};
ghost use Rattle.told_reports.specs.Keeping.{IsTold};
ghost use Rattle.shown_clauses.specs.meaning.Legal.{legal_of};

use crate::handed::wrong_line;
use crate::place::{Place, pointer_to};
use crate::walked::wrong_item;
use json_form::Pointer;
use legal_items::{PlacedItem, items_of, misfit};
use legal_walk::Unlawful;
use outage_schedule::{Document, Report};
use report_moments::At;
use std::alloc::Global;
use svc_values::NoMemory;

/// The place of the item with this number, and all that were served where there is none.
fn place_of_item(items: &[PlacedItem<'_>], at: usize) -> Place {
    match items.get(at) {
        Some(one) => Place::Item(one.at),
        None => Place::AllServed,
    }
}

/// Where what is not legal stands.
fn place_of(items: &[PlacedItem<'_>], one: Unlawful) -> Place {
    match one {
        Unlawful::Item(at) => place_of_item(items, at),
        Unlawful::Entry(at) => Place::Entry(at),
    }
}

/// The first place at fault.
fn wrong_place(
    alloc: Global,
    document: &Document,
    report: &Report,
) -> Result<Option<Place>, NoMemory>
    requires document { IsDocument document.now }
    requires told { IsTold report.now }
    ensures { IfOk result (λ place. is_none place ≡ legal_of document.now report.now) }
{
    if let Some(at) = misfit(document.schedule.as_slice(), report.notes.as_slice()) {
        return Ok(Some(Place::Item(At::Note(at))));
    }
    let items = items_of(alloc, document, report)?;
    if let Some(one) = wrong_item(alloc, document, report, items.as_slice())? {
        return Ok(Some(place_of(items.as_slice(), one)));
    }
    wrong_line(alloc, items.as_slice(), report.alerts.as_slice())
}

/// Judges `Legal` of a report of a document: `None` exactly where what was served is legal with the
/// entries and alerts of the report, and else the place at fault. For a report of size m it takes
/// m log m and lines times alerts, beside what its calls take when they run again: a select by a
/// column that the document indexes, or that 16 selects of the entries ask, takes the rows it
/// finds, and any other those of its table. A call that met a block is tried with new values until
/// it would commit: no report of a run is known in which that is more than a few trials. In a
/// report that was made up it has no limit but the number of its ways.
pub fn judge_legal(
    alloc: Global,
    document: &Document,
    report: &Report,
) -> Result<Option<Pointer>, NoMemory>
    requires document { IsDocument document.now }
    requires told { IsTold report.now }
    ensures { IfOk result (λ place. is_none place ≡ legal_of document.now report.now) }
{
    let place = wrong_place(alloc, document, report)?;
    pointer_to(alloc, place)
}
