//! A test of each request of a report.
ghost use Rattle.std.specs.Prelude.{◌≡◌, is_none};
ghost use Rattle.std.specs.List.{list_all};

use crate::place::{Part, Place};
use outage_schedule::{RequestReport, Transcript};

/// A test of what a request was shown.
pub(crate) trait JudgesRequest {
    ghost use Rattle.std.specs.Prelude.{Bool};
    ghost use Rattle.outage_schedule.specs.declared.request.RequestReport.{RequestReport as Reported};

    ghost test: { Self → Reported → Bool };

    /// The first part at fault, if any is.
    fn fault(&self, request: &RequestReport) -> Option<Part>
        ensures { is_none result ≡ test self.now request.now };
}

/// The first fault of a client's requests.
fn fault_of_client<J: JudgesRequest>(
    judge: &J,
    requests: &[RequestReport],
    client: usize,
) -> Option<Place>
    ensures { is_none result ≡ list_all (J.test judge.now) requests.now }
{
    for (request, report) in requests.iter().enumerate() {
        if let Some(part) = judge.fault(report) {
            return Some(Place::Request {
                client,
                request,
                part,
            });
        }
    }
    None
}

/// The first fault of all requests, in the order of the report. Linear, beside the tests.
pub(crate) fn fault_of_requests<J: JudgesRequest>(
    judge: &J,
    clients: &[Transcript],
) -> Option<Place>
    ensures { is_none result ≡ list_all (list_all (J.test judge.now)) clients.now }
{
    for (client, transcript) in clients.iter().enumerate() {
        if let Some(place) = fault_of_client(judge, transcript.as_slice(), client) {
            return Some(place);
        }
    }
    None
}
