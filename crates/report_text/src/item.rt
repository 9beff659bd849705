//! What sessions served.
ghost use Rattle.std.specs.Prelude.{◌≡◌, ◌++◌, ◌∷◌, [], OnOk};
ghost use Rattle.json.specs.Token.{begin_array, string};
ghost use Rattle.json_form.specs.Tokens.{tokens_of};
ghost use Rattle.json_form.specs.meaning.Writing.{whole};
ghost use Rattle.report_text.specs.meaning.Parts.{headed};
ghost use Rattle.report_text.specs.meaning.Values.{session_value};
ghost use Rattle.report_text.specs.meaning.Items.{item_value, served_value};

use crate::answer::{answers_written, draws_written};
use crate::call::CallWriter;
use crate::identifier::{LtxidWriter, SessionWriter, settings_written};
use crate::note::told_ended;
use crate::part::begin_word;
use json_form::{TextWriter, Writer};
use outage_schedule::{AskResult, Item, Served};
use std::alloc::{AllocError, Global};
use svc_values::{Answers, Call, Draws, Ltxid, Settings};

/// Begins an item with its word, the event at which it was served, and its session.
fn begin_item(
    alloc: Global,
    word: &str,
    served: &Served,
    out: &mut TextWriter,
) -> Result<(), AllocError>
    ensures { OnOk result (out.new ≡ out.old ++ begin_array ∷ string word.now
        ∷ (tokens_of (whole served.now.event) ++ tokens_of (session_value served.now.session))) }
{
    begin_word(out, word)?;
    out.whole(served.event)?;
    SessionWriter.write(alloc, &served.session, out)
}

/// An item with nothing behind its session.
fn bare_written(
    alloc: Global,
    word: &str,
    served: &Served,
    out: &mut TextWriter,
) -> Result<(), AllocError>
    ensures { OnOk result
        (out.new ≡ out.old ++ tokens_of
        (headed word.now (whole served.now.event ∷ session_value served.now.session ∷ []))) }
{
    begin_item(alloc, word, served, out)?;
    out.end_array()
}

/// A Begin, with its settings.
#[tactic(auto, unfolding(crate::specs::meaning::Items::item_value))]
fn begin_written(
    alloc: Global,
    served: &Served,
    settings: &Settings,
    out: &mut TextWriter,
) -> Result<(), AllocError>
    ensures { OnOk result
        (out.new ≡ out.old ++ tokens_of
        (item_value (whole served.now.event) (session_value served.now.session)
        (Item.Begin settings.now))) }
{
    begin_item(alloc, "begin", served, out)?;
    settings_written(alloc, settings, out)?;
    out.end_array()
}

/// A call, whether it is one of a replay, with its answers and draws.
#[tactic(auto, unfolding(crate::specs::meaning::Items::item_value))]
fn call_written(
    alloc: Global,
    served: &Served,
    replay: bool,
    call: &Call,
    answers: &Answers,
    draws: &Draws,
    out: &mut TextWriter,
) -> Result<(), AllocError>
    ensures { OnOk result
        (out.new ≡ out.old ++ tokens_of
        (item_value (whole served.now.event) (session_value served.now.session)
        (Item.Call replay call.now answers.now draws.now))) }
{
    begin_item(alloc, "call", served, out)?;
    out.flag(replay)?;
    CallWriter.write(alloc, call, out)?;
    answers_written(alloc, answers, out)?;
    draws_written(alloc, draws, out)?;
    out.end_array()
}

/// A commit that was blocked.
#[tactic(auto, unfolding(crate::specs::meaning::Items::item_value))]
fn blocked_written(
    alloc: Global,
    served: &Served,
    call: &Call,
    out: &mut TextWriter,
) -> Result<(), AllocError>
    ensures { OnOk result
        (out.new ≡ out.old ++ tokens_of
        (item_value (whole served.now.event) (session_value served.now.session)
        (Item.Blocked call.now))) }
{
    begin_item(alloc, "blocked", served, out)?;
    CallWriter.write(alloc, call, out)?;
    out.end_array()
}

/// An outcome that was told of an identifier.
#[tactic(auto, unfolding(crate::specs::meaning::Items::item_value))]
fn outcome_written(
    alloc: Global,
    served: &Served,
    ltxid: &Ltxid,
    told: AskResult,
    out: &mut TextWriter,
) -> Result<(), AllocError>
    ensures { OnOk result
        (out.new ≡ out.old ++ tokens_of
        (item_value (whole served.now.event) (session_value served.now.session)
        (Item.Outcome ltxid.now told))) }
{
    begin_item(alloc, "outcome", served, out)?;
    LtxidWriter.write(alloc, ltxid, out)?;
    told_ended(told, out)
}

/// A frame that was refused, with the cause.
#[tactic(auto, unfolding(crate::specs::meaning::Items::item_value))]
fn refused_written(
    alloc: Global,
    served: &Served,
    cause: u8,
    out: &mut TextWriter,
) -> Result<(), AllocError>
    ensures { OnOk result
        (out.new ≡ out.old ++ tokens_of
        (item_value (whole served.now.event) (session_value served.now.session)
        (Item.Refused cause))) }
{
    begin_item(alloc, "refused", served, out)?;
    out.whole(u64::from(cause))?;
    out.end_array()
}

/// A call that was stopped before its answer.
#[tactic(auto, unfolding(crate::specs::meaning::Items::item_value))]
fn crashed_call_written(
    alloc: Global,
    served: &Served,
    replay: bool,
    call: &Call,
    out: &mut TextWriter,
) -> Result<(), AllocError>
    ensures { OnOk result
        (out.new ≡ out.old ++ tokens_of
        (item_value (whole served.now.event) (session_value served.now.session)
        (Item.CrashedCall replay call.now))) }
{
    begin_item(alloc, "crashed", served, out)?;
    out.flag(replay)?;
    CallWriter.write(alloc, call, out)?;
    out.end_array()
}

/// A question for an outcome that was stopped before its answer.
#[tactic(auto, unfolding(crate::specs::meaning::Items::item_value))]
fn crashed_outcome_written(
    alloc: Global,
    served: &Served,
    ltxid: &Ltxid,
    out: &mut TextWriter,
) -> Result<(), AllocError>
    ensures { OnOk result
        (out.new ≡ out.old ++ tokens_of
        (item_value (whole served.now.event) (session_value served.now.session)
        (Item.CrashedOutcome ltxid.now))) }
{
    begin_item(alloc, "crashed", served, out)?;
    LtxidWriter.write(alloc, ltxid, out)?;
    out.end_array()
}

pub(crate) struct ServedWriter;

impl Writer<Served> for ServedWriter {
    ghost writes = { λ s. served_value };

    #[tactic(auto, unfolding(crate::specs::meaning::Items::item_value))]
    fn write(&self, alloc: Global, item: &Served, out: &mut TextWriter) -> Result<(), AllocError> {
        match &item.item {
            Item::Connect => bare_written(alloc, "connect", item, out),
            Item::Begin { settings } => begin_written(alloc, item, settings, out),
            Item::Call {
                replay,
                call,
                answers,
                draws,
            } => call_written(alloc, item, *replay, call, answers, draws, out),
            Item::Blocked { call } => blocked_written(alloc, item, call, out),
            Item::Outcome { ltxid, result } => outcome_written(alloc, item, ltxid, *result, out),
            Item::End => bare_written(alloc, "end", item, out),
            Item::Close => bare_written(alloc, "close", item, out),
            Item::Refused { cause } => refused_written(alloc, item, *cause, out),
            Item::CrashedCall { replay, call } => {
                crashed_call_written(alloc, item, *replay, call, out)
            }
            Item::CrashedOutcome { ltxid } => crashed_outcome_written(alloc, item, ltxid, out),
        }
    }
}
