//! The counts of all reports of a run.
ghost use Rattle.std.specs.Prelude.{◌≡◌, [], IfOk, IsTrue, slice_get};
ghost use Rattle.std.specs.List.{list_all};
ghost use Rattle.std.specs.Option.{option_map_or};
ghost use Rattle.cover_core.specs.Made.{has_made_calls, has_made_requests};
ghost use Rattle.cover_core.specs.Walks.{client_cover, clients_cover};

use crate::counts::{Counts, counts_of};
use outage_schedule::{Client, Request, RequestReport, ServiceOf, Transcript};
use std::alloc::Global;
use svc_values::{Listed, NoMemory};
use transcript_core::NextRequest;

/// The counts of the reports of one client, in order, without a limit.
pub type ClientCounts = Listed<Counts>;

/// The counts of the reports of a client, each as a report of its request.
fn counts_of_client(
    alloc: Global,
    of: &ServiceOf,
    script: &[Request],
    reports: &[RequestReport],
) -> Result<ClientCounts, NoMemory>
    requires { IsTrue (list_all has_made_calls script.now) }
    ensures { IfOk result (λ counts. counts ≡ client_cover of.now script.now reports.now) }
{
    let mut counts = Vec::new(alloc);
    let mut next = NextRequest::first(script);
    for report in reports {
        match next.request(script) {
            Some(request) => counts.push(counts_of(of, request, report))?,
            None => return Ok(Listed::from_vec(counts)),
        }
        next.follow(script, report);
    }
    Ok(Listed::from_vec(counts))
}

/// The reports at a place, and none past the end.
fn reports_at(transcripts: &[Transcript], place: usize) -> &[RequestReport]
    ensures { result.now
        ≡ option_map_or (λ reports. reports) (slice_get transcripts.now place) [] }
{
    match transcripts.get(place) {
        Some(reports) => reports.as_slice(),
        None => &[],
    }
}

/// The counts of each report of a run, for each client in order: of a service, the scripts of its
/// clients, and
/// what they were reported to have been shown. Linear in the calls.
#[tactic(auto, unfolding(crate::specs::Made::has_made_requests))]
pub fn counts_of_run(
    alloc: Global,
    of: &ServiceOf,
    clients: &[Client],
    transcripts: &[Transcript],
) -> Result<Vec<ClientCounts>, NoMemory>
    requires { IsTrue (list_all has_made_requests clients.now) }
    ensures { IfOk result (λ all. all.items ≡ clients_cover of.now clients.now transcripts.now) }
{
    let mut all = Vec::new(alloc);
    for (place, client) in clients.iter().enumerate() {
        let reports = reports_at(transcripts, place);
        all.push(counts_of_client(alloc, of, client.requests.as_slice(), reports)?)?;
    }
    Ok(all)
}
