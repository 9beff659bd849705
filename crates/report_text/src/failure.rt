//! The errors that requests show.
ghost use Rattle.std.specs.Prelude.{◌≡◌, ◌++◌, ◌∷◌, [], OnOk};
ghost use Rattle.json_form.specs.Tokens.{tokens_of};
ghost use Rattle.json_form.specs.meaning.Writing.{whole};
ghost use Rattle.report_text.specs.meaning.Parts.{headed};
ghost use Rattle.report_text.specs.meaning.Values.{identifier_value};
ghost use Rattle.report_text.specs.meaning.Failures.{reason_value, failure_value, failed_value};

use crate::identifier::LtxidWriter;
use crate::part::{begin_word, lone, numbered};
use json_form::{TextWriter, Writer};
use outage_schedule::{Failure, Reason};
use std::alloc::{AllocError, Global};
use svc_values::Ltxid;

/// Why a replay was disabled: a word, or a word with the number behind it.
#[tactic(auto, unfolding(crate::specs::meaning::Failures::reason_value))]
fn reason_written(why: Reason, out: &mut TextWriter) -> Result<(), AllocError>
    ensures { OnOk result (out.new ≡ out.old ++ tokens_of (reason_value why)) }
{
    match why {
        Reason::Off => lone(out, "off"),
        Reason::AfterCommit => lone(out, "aftercommit"),
        Reason::Restricted(call) => numbered(out, "restricted", call),
        Reason::Settings(call) => numbered(out, "settings", call),
        Reason::Asked(call) => numbered(out, "asked", call),
        Reason::Full(limit) => numbered(out, "full", limit),
        Reason::StateLost(call) => numbered(out, "statelost", call),
    }
}

/// A request with a reason against its replay, and the event that ended its connection.
#[tactic(auto, unfolding(crate::specs::meaning::Failures::failure_value))]
fn disabled_written(why: Reason, event: u64, out: &mut TextWriter) -> Result<(), AllocError>
    ensures { OnOk result
        (out.new ≡ out.old ++ tokens_of (failure_value (Failure.Disabled why event))) }
{
    begin_word(out, "disabled")?;
    reason_written(why, out)?;
    out.whole(event)?;
    out.end_array()
}

/// A repeated call that was answered otherwise: its index, and both digests.
#[tactic(auto, unfolding(crate::specs::meaning::Failures::failure_value))]
fn mismatch_written(
    alloc: Global,
    call: u64,
    seen: &[u8],
    now: &[u8],
    out: &mut TextWriter,
) -> Result<(), AllocError>
    ensures { OnOk result
        (out.new ≡ out.old ++ tokens_of (failure_value (Failure.Mismatch call seen.now now.now))) }
{
    begin_word(out, "mismatch")?;
    out.whole(call)?;
    out.octets(alloc, seen)?;
    out.octets(alloc, now)?;
    out.end_array()
}

/// An error that is about an identifier.
fn of_ltxid(
    alloc: Global,
    word: &str,
    ltxid: &Ltxid,
    out: &mut TextWriter,
) -> Result<(), AllocError>
    ensures { OnOk result
        (out.new ≡ out.old ++ tokens_of (headed word.now (identifier_value ltxid.now ∷ []))) }
{
    begin_word(out, word)?;
    LtxidWriter.write(alloc, ltxid, out)?;
    out.end_array()
}

/// An error with two numbers.
fn two_numbers(out: &mut TextWriter, word: &str, first: u64, second: u64) -> Result<(), AllocError>
    ensures { OnOk result
        (out.new ≡ out.old ++ tokens_of (headed word.now (whole first ∷ whole second ∷ []))) }
{
    begin_word(out, word)?;
    out.whole(first)?;
    out.whole(second)?;
    out.end_array()
}

/// An error, by its kind.
#[tactic(auto, unfolding(crate::specs::meaning::Failures::failure_value))]
fn failure_written(alloc: Global, failure: &Failure, out: &mut TextWriter) -> Result<(), AllocError>
    ensures { OnOk result (out.new ≡ out.old ++ tokens_of (failure_value failure.now)) }
{
    match failure {
        Failure::Disabled { why, event } => disabled_written(*why, *event, out),
        Failure::Mismatch { call, seen, now } => {
            mismatch_written(alloc, *call, &seen[..], &now[..], out)
        }
        Failure::Incomplete { ltxid } => of_ltxid(alloc, "incomplete", ltxid, out),
        Failure::Retries { tries } => numbered(out, "retries", *tries),
        Failure::ReplayTimeout { first, ready } => {
            two_numbers(out, "replaytimeout", *first, *ready)
        }
        Failure::Replays { limit, event } => two_numbers(out, "replays", *limit, *event),
        Failure::PoolWait { first, now } => two_numbers(out, "poolwait", *first, *now),
        Failure::Unknown { ltxid } => of_ltxid(alloc, "unknown", ltxid, out),
    }
}

/// Null where the request reached its last reply.
pub(crate) fn failed_written(
    alloc: Global,
    failed: &Option<Failure>,
    out: &mut TextWriter,
) -> Result<(), AllocError>
    ensures { OnOk result (out.new ≡ out.old ++ tokens_of (failed_value failed.now)) }
{
    match failed {
        None => out.null(),
        Some(failure) => failure_written(alloc, failure, out),
    }
}
