//! Places of a report at fault.
ghost use Rattle.std.specs.Prelude.{◌≡◌, is_none, IfOk};

use json_form::{DocCode, DocFault, Pointer};
use outage_schedule::Served;
use std::alloc::Global;
use svc_values::NoMemory;

/// A place of a report. Numbers are from 0, but for those of events.
#[derive(Clone, Copy)]
pub(crate) enum Place {
    /// All clients.
    Clients,
    Client(usize),
    Request {
        client: usize,
        request: usize,
    },
    Call {
        client: usize,
        request: usize,
        call: usize,
    },
    /// The note of an event.
    Noted(u64),
    /// The item that was served at an event.
    ServedAt(u64),
}

/// The fault of an item of a member's array.
fn item_of(alloc: Global, fault: DocFault, at: usize, name: &str) -> DocFault {
    fault.under_item(alloc, at).under(alloc, name)
}

/// The number of the item that was served at an event. Linear.
fn item_at(served: &[Served], event: u64) -> usize {
    for (at, one) in served.iter().enumerate() {
        if one.event == event {
            return at;
        }
    }
    served.len()
}

/// The fault of a place, seen from the report.
fn fault_of(alloc: Global, served: &[Served], place: Place) -> DocFault {
    let here = DocFault::here(alloc, DocCode::BadReport);
    match place {
        Place::Clients => here.under(alloc, "clients"),
        Place::Client(client) => item_of(alloc, here, client, "clients"),
        Place::Request { client, request } => {
            item_of(alloc, here.under_item(alloc, request), client, "clients")
        },
        Place::Call {
            client,
            request,
            call,
        } => {
            let fault = item_of(alloc, here, call, "calls").under_item(alloc, request);
            item_of(alloc, fault, client, "clients")
        },
        Place::Noted(event) => item_of(alloc, here, event.saturating_sub(1) as usize, "notes"),
        Place::ServedAt(event) => item_of(alloc, here, item_at(served, event), "served"),
    }
}

/// The pointer to a place of a report with these items, if there is one.
pub(crate) fn pointer_to(
    alloc: Global,
    served: &[Served],
    place: Option<Place>,
) -> Result<Option<Pointer>, NoMemory>
    ensures { IfOk result (λ pointer. is_none pointer ≡ is_none place) }
{
    let Some(place) = place else {
        return Ok(None);
    };
    match fault_of(alloc, served, place) {
        DocFault::At { path, .. } => Ok(Some(path)),
        DocFault::NoMemory => Err(NoMemory),
    }
}
