//! Errors as they are reported.
ghost use Rattle.std.specs.Prelude.{◌≡◌};
ghost use Rattle.run_clauses.specs.meaning.Reports.{reason_of as reason_of_def, failure_of as failure_of_def};

use client_model::Failed;
use outage_schedule::{Failure, Reason};
use request_bounds::Why;

/// Why a request was not replayed, as it is reported.
fn reason_of(why: Why) -> Reason
    ensures { result ≡ reason_of_def why }
{
    match why {
        Why::Off => Reason::Off,
        Why::AfterCommit => Reason::AfterCommit,
        Why::Restricted(call) => Reason::Restricted(call),
        Why::Settings(call) => Reason::Settings(call),
        Why::Asked(call) => Reason::Asked(call),
        Why::Full(limit) => Reason::Full(limit),
        Why::StateLost(call) => Reason::StateLost(call),
    }
}

/// An error as it is reported. A report has no word for a frame that no server sends.
pub(crate) fn failure_of(failed: Failed) -> Option<Failure>
    ensures { result ≡ failure_of_def failed }
{
    match failed {
        Failed::Disabled { why, event } => Some(Failure::Disabled {
            why: reason_of(why),
            event,
        }),
        Failed::Mismatch { call, seen, now } => Some(Failure::Mismatch { call, seen, now }),
        Failed::Incomplete { ltxid } => Some(Failure::Incomplete { ltxid }),
        Failed::Retries { tries } => Some(Failure::Retries { tries }),
        Failed::ReplayTimeout { first, ready } => Some(Failure::ReplayTimeout { first, ready }),
        Failed::Replays { limit, event } => Some(Failure::Replays { limit, event }),
        Failed::PoolWait { first, now } => Some(Failure::PoolWait { first, now }),
        Failed::Unknown { ltxid } => Some(Failure::Unknown { ltxid }),
        Failed::BadPeer { .. } => None,
    }
}
