//! What clients were shown.
ghost use Rattle.std.specs.Prelude.{IsTrue, Some, length, nat_eq};
ghost use Rattle.hex.specs.Hex.{IsBytes};
ghost use Rattle.report_limits.specs.meaning.Notes.{if_there};
ghost use Rattle.report_limits.specs.meaning.Requests.{fits_failure, fits_outcome, fits_reason, fits_request, fits_shown};
ghost use Rattle.report_text.specs.meaning.Octets.{FailedOfBytes, RequestOfBytes, ShownOfBytes};

use crate::kept::{Kept, bytes_kept, number_kept};
use outage_schedule::{Failure, Outcome, Reason, RequestReport, ShownCall};

impl Kept for Reason {
    ghost fits = { fits_reason };

    fn kept(&self) {
        match self {
            Reason::Off | Reason::AfterCommit => {}
            Reason::Restricted(index)
            | Reason::Settings(index)
            | Reason::Asked(index)
            | Reason::StateLost(index) => number_kept(*index),
            Reason::Full(limit) => number_kept(*limit),
        }
    }
}

/// The octets of a digest.
fn digest_kept(digest: &[u8; 32])
    ensures few { IsTrue (nat_eq (length digest.now) 32) }
    ensures bytes { IsBytes digest.now }
{
    bytes_kept(&digest[..]);
}

impl Kept for Failure {
    ghost fits = { fits_failure };

    ghost octets = { λ failure. FailedOfBytes (Some failure) };

    fn kept(&self) {
        match self {
            Failure::Disabled { why, event } => {
                why.kept();
                number_kept(*event);
            }
            Failure::Mismatch { call, seen, now } => {
                number_kept(*call);
                digest_kept(seen);
                digest_kept(now);
            }
            Failure::Incomplete { ltxid } | Failure::Unknown { ltxid } => ltxid.kept(),
            Failure::Retries { tries } => number_kept(*tries),
            Failure::ReplayTimeout { first, ready } => {
                number_kept(*first);
                number_kept(*ready);
            }
            Failure::Replays { limit, event } => {
                number_kept(*limit);
                number_kept(*event);
            }
            Failure::PoolWait { first, now } => {
                number_kept(*first);
                number_kept(*now);
            }
        }
    }
}

/// The failure, if there is one.
fn failed_kept(failed: &Option<Failure>)
    ensures fits { IsTrue (if_there fits_failure failed.now) }
    ensures octets { FailedOfBytes failed.now }
{
    match failed {
        None => {}
        Some(failure) => failure.kept(),
    }
}

impl Kept for ShownCall {
    ghost fits = { fits_shown };

    ghost octets = { ShownOfBytes };

    fn kept(&self) {
        self.answers.kept();
        self.draws.kept();
        self.ltxid.kept();
    }
}

impl Kept for Outcome {
    ghost fits = { fits_outcome };

    fn kept(&self) {
        self.ltxid.kept();
    }
}

impl Kept for RequestReport {
    ghost fits = { fits_request };

    ghost octets = { RequestOfBytes };

    fn kept(&self) {
        self.calls.kept();
        failed_kept(&self.failed);
        self.outcomes.kept();
        self.sessions.kept();
        self.tried.kept();
    }
}
