//! How shown calls ended, and how many requests failed.
ghost use Rattle.std.specs.Prelude.{◌≡◌, [], ◌∷◌, cond, IfOk};
ghost use Rattle.load_document.specs.meaning.Lines.{requests_in, was_committed, was_conflict};
ghost use Rattle.load_document.specs.Ends.{ends_in, shown_ends, call_ends, failed_ends, plus as plus_def};

use outage_schedule::{RequestReport, ShownCall, Transcript};
use svc_values::{NoMemory, ends_committed, ends_conflict};

/// How many shown calls ended with Committed, how many with Conflict, and how many requests failed.
#[derive(Clone, Copy)]
pub(crate) struct Ends {
    pub(crate) committed: u64,
    pub(crate) conflict: u64,
    pub(crate) failed: u64,
}

/// Both counts together. A count past what its type holds would need more calls than there is
/// memory for, and is refused as such.
fn plus(ends: Ends, others: Ends) -> Result<Ends, NoMemory>
    ensures { IfOk result (λ sum. sum ≡ plus_def ends others) }
{
    Ok(Ends {
        committed: ends
            .committed
            .checked_add(others.committed)
            .ok_or(NoMemory)?,
        conflict: ends.conflict.checked_add(others.conflict).ok_or(NoMemory)?,
        failed: ends.failed.checked_add(others.failed).ok_or(NoMemory)?,
    })
}

/// How many of one call ended with Committed: one or none.
#[tactic(auto, unfolding(crate::specs::meaning::Lines::was_committed))]
fn committed_of(call: &ShownCall) -> u64
    ensures { result ≡ cond (was_committed call.now) 1 0 }
{
    if ends_committed(call.answers.as_slice()) {
        return 1;
    }
    0
}

/// How many of one call ended with Conflict: one or none.
#[tactic(auto, unfolding(crate::specs::meaning::Lines::was_conflict))]
fn conflict_of(call: &ShownCall) -> u64
    ensures { result ≡ cond (was_conflict call.now) 1 0 }
{
    if ends_conflict(call.answers.as_slice()) {
        return 1;
    }
    0
}

/// The counts of one call.
#[tactic(auto, unfolding(crate::specs::Ends::call_ends))]
fn ends_of(call: &ShownCall) -> Ends
    ensures { result ≡ call_ends call.now }
{
    Ends {
        committed: committed_of(call),
        conflict: conflict_of(call),
        failed: 0,
    }
}

/// The counts with those of these calls.
fn with_calls(before: Ends, calls: &[ShownCall]) -> Result<Ends, NoMemory>
    ensures { IfOk result (λ ends. ends ≡ plus_def before (shown_ends calls.now)) }
{
    let mut ends = before;
    for call in calls {
        ends = plus(ends, ends_of(call))?;
    }
    Ok(ends)
}

/// The counts of a request's failure, if it has one.
#[tactic(auto, unfolding(crate::specs::Ends::failed_ends))]
fn failure_of(report: &RequestReport) -> Ends
    ensures { result ≡ failed_ends report.now }
{
    match report.failed {
        Some(_) => Ends {
            committed: 0,
            conflict: 0,
            failed: 1,
        },
        None => Ends {
            committed: 0,
            conflict: 0,
            failed: 0,
        },
    }
}

/// The counts with those of one request.
fn with_request(before: Ends, report: &RequestReport) -> Result<Ends, NoMemory>
    ensures { IfOk result (λ ends. ends ≡ plus_def before (ends_in (report.now ∷ []))) }
{
    let shown = with_calls(before, report.calls.as_slice())?;
    let ends = plus(shown, failure_of(report))?;
    Ok(ends)
}

/// The counts with those of a client's requests.
fn with_client(before: Ends, reports: &[RequestReport]) -> Result<Ends, NoMemory>
    ensures { IfOk result (λ ends. ends ≡ plus_def before (ends_in reports.now)) }
{
    let mut ends = before;
    for report in reports {
        ends = with_request(ends, report)?;
    }
    Ok(ends)
}

/// The counts of all clients' requests. Linear in the shown calls.
pub(crate) fn ends_of_all(clients: &[Transcript]) -> Result<Ends, NoMemory>
    ensures { IfOk result (λ ends. ends ≡ ends_in (requests_in clients.now)) }
{
    let mut ends = Ends {
        committed: 0,
        conflict: 0,
        failed: 0,
    };
    for reports in clients {
        ends = with_client(ends, reports.as_slice())?;
    }
    Ok(ends)
}
