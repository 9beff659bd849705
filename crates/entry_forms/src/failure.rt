//! Readers of the errors that requests show.
ghost use Rattle.serde_json.specs.View.{view};
ghost use Rattle.json_form.specs.Faults.{Gives};
ghost use Rattle.entry_forms.specs.meaning.Failures.{lone_reason, number_behind, reason_by as reason_by_def, reason_in, disabled_in, mismatch_in, incomplete_in, retries_in, timeout_in, replays_in, wait_in, unknown_in, failure_by as failure_by_def, failure_in, failed_in};

use answer_forms::{DigestReader, LtxidReader, NUMBER};
use json_form::{DocFault, Reader, fixed, head_from};
use outage_schedule::{Failure, Reason};
use serde_json::Value as Json;
use std::alloc::Global;

/// The word for why a request is not replayed.
#[derive(Clone, Copy, Debug, PartialEq, Eq)]
pub enum ReasonWord {
    Off,
    AfterCommit,
    Restricted,
    Settings,
    Asked,
    Full,
    StateLost,
}

/// The word that an error begins with.
#[derive(Clone, Copy, Debug, PartialEq, Eq)]
pub enum FailureWord {
    Disabled,
    Mismatch,
    Incomplete,
    Retries,
    ReplayTimeout,
    Replays,
    PoolWait,
    Unknown,
}

/// A reason that is one word.
fn lone_from(alloc: Global, value: Json, one: Reason) -> Result<Reason, DocFault>
    ensures { Gives result (lone_reason one (view value)) }
{
    fixed(alloc, value, 1)?;
    Ok(one)
}

/// The number behind the word of a reason.
#[tactic(auto, unfolding(crate::specs::meaning::Failures::number_behind))]
fn number_from(alloc: Global, value: Json) -> Result<u64, DocFault>
    ensures { Gives result (number_behind (view value)) }
{
    let mut parts = fixed(alloc, value, 2)?;
    parts.read(alloc, 1, &NUMBER)
}

/// A reason, by its word.
fn reason_by(alloc: Global, value: Json, word: ReasonWord) -> Result<Reason, DocFault>
    ensures { Gives result (reason_by_def word (view value)) }
{
    match word {
        ReasonWord::Off => lone_from(alloc, value, Reason::Off),
        ReasonWord::AfterCommit => lone_from(alloc, value, Reason::AfterCommit),
        ReasonWord::Restricted => Ok(Reason::Restricted(number_from(alloc, value)?)),
        ReasonWord::Settings => Ok(Reason::Settings(number_from(alloc, value)?)),
        ReasonWord::Asked => Ok(Reason::Asked(number_from(alloc, value)?)),
        ReasonWord::Full => Ok(Reason::Full(number_from(alloc, value)?)),
        ReasonWord::StateLost => Ok(Reason::StateLost(number_from(alloc, value)?)),
    }
}

const REASONS: [(&str, ReasonWord); 7] = [
    ("off", ReasonWord::Off),
    ("aftercommit", ReasonWord::AfterCommit),
    ("restricted", ReasonWord::Restricted),
    ("settings", ReasonWord::Settings),
    ("asked", ReasonWord::Asked),
    ("full", ReasonWord::Full),
    ("statelost", ReasonWord::StateLost),
];

/// Reads why a request is not replayed, by its first word.
struct ReasonReader;

impl Reader<Reason> for ReasonReader {
    ghost reads = { λ s. reason_in };

    #[tactic(auto, unfolding(crate::specs::meaning::Failures::reason_in))]
    fn read(&self, alloc: Global, value: Json) -> Result<Reason, DocFault> {
        let word = head_from(alloc, &value, &REASONS)?;
        reason_by(alloc, value, word)
    }
}

/// A request with a reason against its replay.
#[tactic(auto, unfolding(crate::specs::meaning::Failures::disabled_in), using(json_form::proofs::Offered::others_stay))]
fn disabled_from(alloc: Global, value: Json) -> Result<Failure, DocFault>
    ensures { Gives result (disabled_in (view value)) }
{
    let mut parts = fixed(alloc, value, 3)?;
    let why = parts.read(alloc, 1, &ReasonReader)?;
    let event = parts.read(alloc, 2, &NUMBER)?;
    Ok(Failure::Disabled { why, event })
}

/// A repeated call that was answered otherwise.
#[tactic(auto, unfolding(crate::specs::meaning::Failures::mismatch_in), using(json_form::proofs::Offered::others_stay))]
fn mismatch_from(alloc: Global, value: Json) -> Result<Failure, DocFault>
    ensures { Gives result (mismatch_in (view value)) }
{
    let mut parts = fixed(alloc, value, 4)?;
    let call = parts.read(alloc, 1, &NUMBER)?;
    let seen = parts.read(alloc, 2, &DigestReader)?;
    let now = parts.read(alloc, 3, &DigestReader)?;
    Ok(Failure::Mismatch { call, seen, now })
}

/// A transaction that is committed, and whose last answers are lost.
#[tactic(auto, unfolding(crate::specs::meaning::Failures::incomplete_in))]
fn incomplete_from(alloc: Global, value: Json) -> Result<Failure, DocFault>
    ensures { Gives result (incomplete_in (view value)) }
{
    let mut parts = fixed(alloc, value, 2)?;
    let ltxid = parts.read(alloc, 1, &LtxidReader)?;
    Ok(Failure::Incomplete { ltxid })
}

/// So many tries to connect that failed in a row.
#[tactic(auto, unfolding(crate::specs::meaning::Failures::retries_in))]
fn retries_from(alloc: Global, value: Json) -> Result<Failure, DocFault>
    ensures { Gives result (retries_in (view value)) }
{
    let mut parts = fixed(alloc, value, 2)?;
    let tries = parts.read(alloc, 1, &NUMBER)?;
    Ok(Failure::Retries { tries })
}

/// A replay that came too late.
#[tactic(auto, unfolding(crate::specs::meaning::Failures::timeout_in), using(json_form::proofs::Offered::others_stay))]
fn timeout_from(alloc: Global, value: Json) -> Result<Failure, DocFault>
    ensures { Gives result (timeout_in (view value)) }
{
    let mut parts = fixed(alloc, value, 3)?;
    let first = parts.read(alloc, 1, &NUMBER)?;
    let ready = parts.read(alloc, 2, &NUMBER)?;
    Ok(Failure::ReplayTimeout { first, ready })
}

/// So many replays as a request may have.
#[tactic(auto, unfolding(crate::specs::meaning::Failures::replays_in), using(json_form::proofs::Offered::others_stay))]
fn replays_from(alloc: Global, value: Json) -> Result<Failure, DocFault>
    ensures { Gives result (replays_in (view value)) }
{
    let mut parts = fixed(alloc, value, 3)?;
    let limit = parts.read(alloc, 1, &NUMBER)?;
    let event = parts.read(alloc, 2, &NUMBER)?;
    Ok(Failure::Replays { limit, event })
}

/// A request that waited too long for a slot.
#[tactic(auto, unfolding(crate::specs::meaning::Failures::wait_in), using(json_form::proofs::Offered::others_stay))]
fn wait_from(alloc: Global, value: Json) -> Result<Failure, DocFault>
    ensures { Gives result (wait_in (view value)) }
{
    let mut parts = fixed(alloc, value, 3)?;
    let first = parts.read(alloc, 1, &NUMBER)?;
    let now = parts.read(alloc, 2, &NUMBER)?;
    Ok(Failure::PoolWait { first, now })
}

/// An identifier whose outcome is kept no more.
#[tactic(auto, unfolding(crate::specs::meaning::Failures::unknown_in))]
fn unknown_from(alloc: Global, value: Json) -> Result<Failure, DocFault>
    ensures { Gives result (unknown_in (view value)) }
{
    let mut parts = fixed(alloc, value, 2)?;
    let ltxid = parts.read(alloc, 1, &LtxidReader)?;
    Ok(Failure::Unknown { ltxid })
}

/// An error, by the word that it begins with.
fn failure_by(alloc: Global, value: Json, word: FailureWord) -> Result<Failure, DocFault>
    ensures { Gives result (failure_by_def word (view value)) }
{
    match word {
        FailureWord::Disabled => disabled_from(alloc, value),
        FailureWord::Mismatch => mismatch_from(alloc, value),
        FailureWord::Incomplete => incomplete_from(alloc, value),
        FailureWord::Retries => retries_from(alloc, value),
        FailureWord::ReplayTimeout => timeout_from(alloc, value),
        FailureWord::Replays => replays_from(alloc, value),
        FailureWord::PoolWait => wait_from(alloc, value),
        FailureWord::Unknown => unknown_from(alloc, value),
    }
}

const FAILURES: [(&str, FailureWord); 8] = [
    ("disabled", FailureWord::Disabled),
    ("mismatch", FailureWord::Mismatch),
    ("incomplete", FailureWord::Incomplete),
    ("retries", FailureWord::Retries),
    ("replaytimeout", FailureWord::ReplayTimeout),
    ("replays", FailureWord::Replays),
    ("poolwait", FailureWord::PoolWait),
    ("unknown", FailureWord::Unknown),
];

/// An error.
#[tactic(auto, unfolding(crate::specs::meaning::Failures::failure_in))]
fn failure_from(alloc: Global, value: Json) -> Result<Failure, DocFault>
    ensures { Gives result (failure_in (view value)) }
{
    let word = head_from(alloc, &value, &FAILURES)?;
    failure_by(alloc, value, word)
}

/// Reads the error of a request: null where there is none, or an array that begins with a word.
pub(crate) struct FailedReader;

impl Reader<Option<Failure>> for FailedReader {
    ghost reads = { λ s. failed_in };

    fn read(&self, alloc: Global, value: Json) -> Result<Option<Failure>, DocFault> {
        if value.is_null() {
            return Ok(None);
        }
        Ok(Some(failure_from(alloc, value)?))
    }
}
