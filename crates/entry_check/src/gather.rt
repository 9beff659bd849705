//! The identifiers of a report, each with its place.
ghost use Rattle.std.specs.Prelude.{◌≡◌, ◌++◌, flat_map, map, IfOk, OnOk};
ghost use Rattle.run_clauses.specs.meaning.Tried.{ids_tried};
ghost use Rattle.entry_check.specs.Ids.{ids_in};

use crate::place::{Part, Place};
use outage_schedule::{Ltxids, RequestReport, Transcript};
use std::alloc::Global;
use svc_values::{Entry, Ltxid, NoMemory};

/// An identifier, and where it stands in the report.
#[derive(Clone, Copy)]
pub(crate) struct IdAt {
    pub(crate) ltxid: Ltxid,
    pub(crate) place: Place,
}

/// The identifiers of a list, put last.
fn gather_list(found: &mut Vec<IdAt>, ids: &[Ltxid], place: Place) -> Result<(), NoMemory>
    ensures { OnOk result (ids_in found.new.items ≡ ids_in found.old.items ++ ids.now) }
{
    for ltxid in ids {
        found.push(IdAt {
            ltxid: *ltxid,
            place,
        })?;
    }
    Ok(())
}

/// Those of the lists of a request.
fn gather_request(
    found: &mut Vec<IdAt>,
    lists: &[Ltxids],
    client: usize,
    request: usize,
) -> Result<(), NoMemory>
    ensures { OnOk result
        (ids_in found.new.items ≡ ids_in found.old.items ++ flat_map (λ ids. ids) lists.now) }
{
    for (at, ids) in lists.iter().enumerate() {
        let part = Part::Tried(at);
        let place = Place::Request {
            client,
            request,
            part,
        };
        gather_list(found, ids.as_slice(), place)?;
    }
    Ok(())
}

/// Those of the requests of a client.
fn gather_client(
    found: &mut Vec<IdAt>,
    requests: &[RequestReport],
    client: usize,
) -> Result<(), NoMemory>
    ensures { OnOk result
        (ids_in found.new.items ≡ ids_in found.old.items ++ flat_map ids_tried requests.now) }
{
    for (at, request) in requests.iter().enumerate() {
        gather_request(found, request.tried.as_slice(), client, at)?;
    }
    Ok(())
}

/// Those of all lists of the report.
pub(crate) fn ids_of_lists(alloc: Global, clients: &[Transcript]) -> Result<Vec<IdAt>, NoMemory>
    ensures { IfOk result (λ found.
        ids_in found.items ≡ flat_map (λ requests. flat_map ids_tried requests) clients.now) }
{
    let mut found = Vec::new(alloc);
    for (at, transcript) in clients.iter().enumerate() {
        gather_client(&mut found, transcript.as_slice(), at)?;
    }
    Ok(found)
}

/// Those of the entries.
pub(crate) fn ids_of_entries(alloc: Global, entries: &[Entry]) -> Result<Vec<IdAt>, NoMemory>
    ensures { IfOk result (λ found. ids_in found.items ≡ map (λ entry. entry.ltxid) entries.now) }
{
    let mut found = Vec::new(alloc);
    for (at, entry) in entries.iter().enumerate() {
        found.push(IdAt {
            ltxid: entry.ltxid,
            place: Place::Entry(at),
        })?;
    }
    Ok(found)
}
