//! A test of each request of each script, with the reports of its copies.
ghost use Rattle.std.specs.Prelude.{◌≡◌, ◌≤◌, is_none, length, take, drop, [], slice_get, IfOk};
ghost use Rattle.std.specs.List.{list_all};
ghost use Rattle.std.specs.Option.{option_map_or};
ghost use Rattle.run_clauses.specs.meaning.Copies.{copies_of, copies_by_client};
ghost use Rattle.entry_check.specs.Copying.{copies_len as copies_len_def};

use crate::place::{Part, Place};
use outage_schedule::{Client, Request, RequestReport, Transcript};
use std::alloc::Global;
use svc_values::NoMemory;
use transcript_core::is_repeated;

/// How many reports from the first on are of one request, of which so many further copies are
/// allowed.
fn copies_len(again: u64, reports: &[RequestReport]) -> usize
    ensures is { result ≡ copies_len_def again reports.now }
    ensures within { result ≤ length reports.now }
{
    let mut allowed = again;
    for (at, report) in reports.iter().enumerate() {
        if !is_repeated(allowed, report) {
            return at + 1;
        }
        allowed -= 1;
    }
    reports.len()
}

/// What is at fault of a request with the reports of its copies.
#[derive(Clone, Copy)]
pub(crate) enum CopiesFault {
    /// A part of the copy at this place.
    Copy { copy: usize, part: Part },
    /// The entry at this place of the report.
    Entry(usize),
}

impl CopiesFault {
    /// Its place in the report, where the request's first copy is this one of a client.
    fn place(self, client: usize, first: usize) -> Place {
        match self {
            CopiesFault::Copy { copy, part } => Place::Request {
                client,
                request: first.saturating_add(copy),
                part,
            },
            CopiesFault::Entry(at) => Place::Entry(at),
        }
    }
}

/// A test of a request with the reports of its copies.
pub(crate) trait JudgesCopies {
    ghost use Rattle.std.specs.Prelude.{Bool};
    ghost use Rattle.run_clauses.specs.meaning.Copies.{Copies};

    ghost test: { Self → Copies → Bool };

    /// The first fault, if there is one.
    fn fault(
        &self,
        alloc: Global,
        request: &Request,
        copies: &[RequestReport],
    ) -> Result<Option<CopiesFault>, NoMemory>
        ensures { IfOk result (λ found.
            is_none found ≡ test self.now
            (record { request = request.now; reports = copies.now })) };
}

/// The reports from a place on.
fn behind(reports: &[RequestReport], from: usize) -> &[RequestReport]
    requires { from ≤ length reports.now }
    ensures { result.now ≡ drop from reports.now }
{
    &reports[from..]
}

/// The first reports.
fn front(reports: &[RequestReport], count: usize) -> &[RequestReport]
    requires { count ≤ length reports.now }
    ensures { result.now ≡ take count reports.now }
{
    &reports[..count]
}

/// The first fault of a client's requests.
fn fault_of_script<J: JudgesCopies>(
    alloc: Global,
    judge: &J,
    script: &[Request],
    reports: &[RequestReport],
    client: usize,
) -> Result<Option<Place>, NoMemory>
    ensures { IfOk result (λ place.
        is_none place ≡ list_all (J.test judge.now) (copies_of script.now reports.now)) }
{
    let mut from = 0;
    for request in script {
        let rest = behind(reports, from);
        let count = copies_len(request.again, rest);
        match judge.fault(alloc, request, front(rest, count))? {
            Some(fault) => return Ok(Some(fault.place(client, from))),
            None => from += count,
        }
    }
    Ok(None)
}

/// The reports at a place, and none past the end.
fn reports_at(transcripts: &[Transcript], place: usize) -> &[RequestReport]
    ensures { result.now ≡ option_map_or (λ reports. reports) (slice_get transcripts.now place) [] }
{
    match transcripts.get(place) {
        Some(reports) => reports.as_slice(),
        None => &[],
    }
}

/// The first fault of the requests of all scripts, in their order. Linear, beside the tests.
pub(crate) fn fault_of_scripts<J: JudgesCopies>(
    alloc: Global,
    judge: &J,
    clients: &[Client],
    transcripts: &[Transcript],
) -> Result<Option<Place>, NoMemory>
    ensures { IfOk result (λ place.
        is_none place ≡ list_all (list_all (J.test judge.now))
        (copies_by_client clients.now transcripts.now)) }
{
    for (place, client) in clients.iter().enumerate() {
        let reports = reports_at(transcripts, place);
        let script = client.requests.as_slice();
        let fault = fault_of_script(alloc, judge, script, reports, place)?;
        if fault.is_some() {
            return Ok(fault);
        }
    }
    Ok(None)
}
