//! Places of a report at fault.
ghost use Rattle.std.specs.Prelude.{◌≡◌, is_none, IfOk};

use json_form::{DocCode, DocFault, Pointer};
use std::alloc::Global;
use svc_values::NoMemory;

/// A part of what one request was shown.
#[derive(Clone, Copy)]
pub(crate) enum Part {
    Whole,
    Call(usize),
    Tried(usize),
}

/// A place of a report. Numbers are from 0.
#[derive(Clone, Copy)]
pub(crate) enum Place {
    Request {
        client: usize,
        request: usize,
        part: Part,
    },
    Entry(usize),
}

/// The fault of an item of a member's array.
fn item_of(alloc: Global, fault: DocFault, at: usize, name: &str) -> DocFault {
    fault.under_item(alloc, at).under(alloc, name)
}

/// The fault of a part, seen from its request.
fn fault_of_part(alloc: Global, part: Part) -> DocFault {
    let here = DocFault::here(alloc, DocCode::BadReport);
    match part {
        Part::Whole => here,
        Part::Call(at) => item_of(alloc, here, at, "calls"),
        Part::Tried(at) => item_of(alloc, here, at, "tried"),
    }
}

/// The fault of a place, seen from the report.
fn fault_of(alloc: Global, place: Place) -> DocFault {
    let here = DocFault::here(alloc, DocCode::BadReport);
    match place {
        Place::Request {
            client,
            request,
            part,
        } => {
            let fault = fault_of_part(alloc, part).under_item(alloc, request);
            item_of(alloc, fault, client, "clients")
        },
        Place::Entry(at) => item_of(alloc, here, at, "entries"),
    }
}

/// The pointer to a place, if there is one.
pub(crate) fn pointer_to(alloc: Global, place: Option<Place>) -> Result<Option<Pointer>, NoMemory>
    ensures { IfOk result (λ pointer. is_none pointer ≡ is_none place) }
{
    let Some(place) = place else {
        return Ok(None);
    };
    match fault_of(alloc, place) {
        DocFault::At { path, .. } => Ok(Some(path)),
        DocFault::NoMemory => Err(NoMemory),
    }
}
