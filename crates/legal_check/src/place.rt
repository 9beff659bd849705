//! Places of a report at fault.
ghost use Rattle.std.specs.Prelude.{◌≡◌, is_none, IfOk};

use json_form::{DocCode, DocFault, Pointer};
use report_moments::At;
use std::alloc::Global;
use svc_values::NoMemory;

/// A place of a report. Numbers are from 0.
#[derive(Clone, Copy)]
pub(crate) enum Place {
    Item(At),
    /// All that were served.
    AllServed,
    Entry(usize),
    /// All alerts.
    Alerts,
}

/// The fault of an item of a member's array.
fn item_of(alloc: Global, fault: DocFault, at: usize, name: &str) -> DocFault {
    fault.under_item(alloc, at).under(alloc, name)
}

/// The fault of a place, seen from the report.
fn fault_of(alloc: Global, place: Place) -> DocFault {
    let here = DocFault::here(alloc, DocCode::BadReport);
    match place {
        Place::Item(At::Note(at)) => item_of(alloc, here, at, "notes"),
        Place::Item(At::Served(at)) => item_of(alloc, here, at, "served"),
        Place::AllServed => here.under(alloc, "served"),
        Place::Entry(at) => item_of(alloc, here, at, "entries"),
        Place::Alerts => here.under(alloc, "alerts"),
    }
}

/// The pointer to a place, if there is one.
pub(crate) fn pointer_to(alloc: Global, place: Option<Place>) -> Result<Option<Pointer>, NoMemory>
    ensures { IfOk result (λ pointer. is_none pointer ≡ is_none place) }
{
    let Some(place) = place else {
        return Ok(None);
    };
    match fault_of(alloc, place) {
        DocFault::At { path, .. } => Ok(Some(path)),
        DocFault::NoMemory => Err(NoMemory),
    }
}
