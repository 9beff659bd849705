//! What the requests of clients were shown.
ghost use Rattle.std.specs.Prelude.{◌≡◌, ◌++◌, ◌∷◌, OnOk, codes};
ghost use Rattle.json.specs.Token.{key};
ghost use Rattle.json_form.specs.Tokens.{tokens_of};
ghost use Rattle.json_form.specs.meaning.Writing.{list_by};
ghost use Rattle.report_text.specs.meaning.Failures.{failed_value};
ghost use Rattle.report_text.specs.meaning.Requests.{shown_value, outcome_value, request_value};

use crate::answer::{answers_written, draws_written};
use crate::failure::failed_written;
use crate::identifier::{LtxidWriter, LtxidsWriter, SessionWriter};
use crate::part::list_member;
use json_form::{TextWriter, Writer};
use outage_schedule::{Failure, Outcome, RequestReport, ShownCall, Transcript};
use std::alloc::{AllocError, Global};

struct ShownWriter;

impl Writer<ShownCall> for ShownWriter {
    ghost writes = { λ s. shown_value };

    #[tactic(auto, unfolding(crate::specs::meaning::Requests::shown_value))]
    fn write(
        &self,
        alloc: Global,
        item: &ShownCall,
        out: &mut TextWriter,
    ) -> Result<(), AllocError> {
        out.begin_array()?;
        answers_written(alloc, &item.answers, out)?;
        draws_written(alloc, &item.draws, out)?;
        LtxidWriter.write(alloc, &item.ltxid, out)?;
        out.end_array()
    }
}

struct OutcomeWriter;

impl Writer<Outcome> for OutcomeWriter {
    ghost writes = { λ s. outcome_value };

    #[tactic(auto, unfolding(crate::specs::meaning::Requests::outcome_value))]
    fn write(&self, alloc: Global, item: &Outcome, out: &mut TextWriter) -> Result<(), AllocError> {
        out.begin_array()?;
        LtxidWriter.write(alloc, &item.ltxid, out)?;
        out.flag(item.committed)?;
        out.flag(item.completed)?;
        out.end_array()
    }
}

/// The member with the error of a request, or null.
fn failed_member(
    alloc: Global,
    failed: &Option<Failure>,
    out: &mut TextWriter,
) -> Result<(), AllocError>
    ensures { OnOk result
        (out.new ≡ out.old ++ key (codes "failed") ∷ tokens_of (failed_value failed.now)) }
{
    out.name("failed")?;
    failed_written(alloc, failed, out)
}

struct RequestWriter;

impl Writer<RequestReport> for RequestWriter {
    ghost writes = { λ s. request_value };

    #[tactic(auto, unfolding(crate::specs::meaning::Requests::request_value))]
    fn write(
        &self,
        alloc: Global,
        item: &RequestReport,
        out: &mut TextWriter,
    ) -> Result<(), AllocError> {
        out.begin_object()?;
        list_member(alloc, "calls", &item.calls, &ShownWriter, out)?;
        failed_member(alloc, &item.failed, out)?;
        list_member(alloc, "outcomes", &item.outcomes, &OutcomeWriter, out)?;
        list_member(alloc, "sessions", &item.sessions, &SessionWriter, out)?;
        list_member(alloc, "tried", &item.tried, &LtxidsWriter, out)?;
        out.end_object()
    }
}

pub(crate) struct TranscriptWriter;

impl Writer<Transcript> for TranscriptWriter {
    ghost writes = { λ s. list_by request_value };

    fn write(
        &self,
        alloc: Global,
        item: &Transcript,
        out: &mut TextWriter,
    ) -> Result<(), AllocError> {
        out.array_of(alloc, item.as_slice(), &RequestWriter)
    }
}
