//! Whether a request was shown what its steps took.
ghost use Rattle.std.specs.Prelude.{◌≡◌, is_none, map, IfOk};
ghost use Rattle.std.specs.List.Sorted.{IsNonDecreasingBy};
ghost use Rattle.entry_events.specs.Numbering.{up_to};
ghost use Rattle.shown_clauses.specs.meaning.Parts.{has_its_sessions as has_its_sessions_def};
ghost use Rattle.report_parts.specs.PartViews.{part_as};
ghost use Rattle.whole_check.specs.Judging.{are_calls_right, is_part_right};
ghost use Rattle.whole_check.specs.Views.{owned_as};

use crate::alike::are_sessions;
use crate::line::wrong_call;
use crate::owned::{OwnedAt, wrong_turn};
use crate::shown::shown_by;
use crate::steps::{sessions_of, showings};
use entry_events::Numbers;
use report_parts::Part;
use std::alloc::Global;
use svc_values::NoMemory;

/// What is at fault of a request.
#[derive(Clone, Copy)]
pub(crate) enum PartFault {
    /// Its sessions, or the number of its calls.
    Whole,
    /// The call at this place.
    Call(usize),
    /// The item that was served at this event.
    ServedAt(u64),
}

/// Whether the sessions of the report are those that the steps acquired, in order.
fn has_its_sessions(alloc: Global, part: &Part<'_>) -> Result<bool, NoMemory>
    ensures { IfOk result (λ has. has ≡ has_its_sessions_def (part_as part.now)) }
{
    let acquired = sessions_of(alloc, part.steps.as_slice())?;
    let sessions = part.submission.copy.sessions.as_slice();
    Ok(are_sessions(sessions, acquired.as_slice()))
}

/// The first fault of the shown calls.
fn fault_of_calls(
    alloc: Global,
    numbers: &Numbers,
    part: &Part<'_>,
) -> Result<Option<PartFault>, NoMemory>
    ensures { IfOk result (λ fault.
        is_none fault ≡ are_calls_right (up_to numbers.now) (part_as part.now)) }
{
    let copy = part.submission.copy;
    let script = part.submission.request.calls.as_slice();
    let replies = showings(alloc, part.steps.as_slice())?;
    if copy.calls.len() != replies.len() {
        return Ok(Some(PartFault::Whole));
    }
    let calls = shown_by(alloc, script, copy, replies.as_slice())?;
    match wrong_call(numbers, copy, calls.as_slice()) {
        Some(at) => Ok(Some(PartFault::Call(at))),
        None => Ok(None),
    }
}

/// The first fault of a request with its steps, and with the turns of its client. For each turn of
/// the request, and for each call that a session served or that an outcome tells of, it is linear
/// in the request's calls, sessions and outcomes; else m log m.
pub(crate) fn fault_of_part(
    alloc: Global,
    numbers: &Numbers,
    owned: &[OwnedAt<'_, '_>],
    part: &Part<'_>,
) -> Result<Option<PartFault>, NoMemory>
    requires { IsNonDecreasingBy (λ one. one.event) owned.now }
    ensures { IfOk result (λ fault. is_none fault
        ≡ is_part_right (up_to numbers.now) (map owned_as owned.now) (part_as part.now)) }
{
    if !has_its_sessions(alloc, part)? {
        return Ok(Some(PartFault::Whole));
    }
    if let Some(fault) = fault_of_calls(alloc, numbers, part)? {
        return Ok(Some(fault));
    }
    match wrong_turn(part, owned) {
        Some(event) => Ok(Some(PartFault::ServedAt(event))),
        None => Ok(None),
    }
}
