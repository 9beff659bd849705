//! Answers and draws.
ghost use Rattle.std.specs.Prelude.{◌≡◌, ◌++◌, OnOk, codes};
ghost use Rattle.json_form.specs.Tokens.{tokens_of};
ghost use Rattle.json_form.specs.meaning.Writing.{integer as integer_def, list_by};
ghost use Rattle.report_text.specs.meaning.Parts.{one as one_def};
ghost use Rattle.report_text.specs.meaning.Values.{row_value};
ghost use Rattle.report_text.specs.meaning.Answers.{refusal_code as refusal_code_def, answer_value, draw_value, answers_value, draws_value};

use crate::part::{begin_one, begin_word, numbered, one_whole};
use crate::value::RowWriter;
use json_form::{TextWriter, Writer};
use std::alloc::{AllocError, Global};
use svc_values::{Answer, Answers, Draw, Draws, Rows, StatementFault};

/// The number by which a refusal is told.
fn refusal_code(fault: StatementFault) -> u8
    ensures { result ≡ refusal_code_def fault }
{
    fault as u8
}

/// The sum or the count that a statement answered.
fn number_written(number: i64, out: &mut TextWriter) -> Result<(), AllocError>
    ensures { OnOk result
        (out.new ≡ out.old ++ tokens_of (one_def (codes "number") (integer_def number))) }
{
    begin_one(out, "number")?;
    out.integer(number)?;
    out.end_object()
}

/// The rows that a statement answered.
fn rows_written(alloc: Global, rows: &Rows, out: &mut TextWriter) -> Result<(), AllocError>
    ensures { OnOk result
        (out.new ≡ out.old ++ tokens_of (one_def (codes "rows") (list_by row_value rows.now))) }
{
    begin_one(out, "rows")?;
    out.array_of(alloc, rows.as_slice(), &RowWriter)?;
    out.end_object()
}

struct AnswerWriter;

impl Writer<Answer> for AnswerWriter {
    ghost writes = { λ s. answer_value };

    #[tactic(auto, unfolding(crate::specs::meaning::Answers::answer_value))]
    fn write(&self, alloc: Global, item: &Answer, out: &mut TextWriter) -> Result<(), AllocError> {
        match item {
            Answer::Done(count) => one_whole(out, "done", *count),
            Answer::Rows(rows) => rows_written(alloc, rows, out),
            Answer::Number(number) => number_written(*number, out),
            Answer::Committed => out.text("committed"),
            Answer::Conflict => out.text("conflict"),
            Answer::RolledBack => out.text("rolledback"),
            Answer::CommitInReplay => out.text("commitinreplay"),
            Answer::Refused(fault) => one_whole(out, "refused", u64::from(refusal_code(*fault))),
        }
    }
}

struct DrawWriter;

impl Writer<Draw> for DrawWriter {
    ghost writes = { λ s. draw_value };

    #[tactic(auto, unfolding(crate::specs::meaning::Answers::draw_value))]
    fn write(&self, alloc: Global, item: &Draw, out: &mut TextWriter) -> Result<(), AllocError> {
        match item {
            Draw::Seq { name, value } => {
                begin_word(out, "seq")?;
                out.text(name.as_str())?;
                out.integer(*value)?;
                out.end_array()
            }
            Draw::Clock { tick } => numbered(out, "clock", *tick),
            Draw::Id { id } => {
                begin_word(out, "id")?;
                out.octets(alloc, &id[..])?;
                out.end_array()
            }
        }
    }
}

/// The answers of a call, in order.
pub(crate) fn answers_written(
    alloc: Global,
    answers: &Answers,
    out: &mut TextWriter,
) -> Result<(), AllocError>
    ensures { OnOk result (out.new ≡ out.old ++ tokens_of (answers_value answers.now)) }
{
    out.array_of(alloc, answers.as_slice(), &AnswerWriter)
}

/// The draws of a call, in order.
pub(crate) fn draws_written(
    alloc: Global,
    draws: &Draws,
    out: &mut TextWriter,
) -> Result<(), AllocError>
    ensures { OnOk result (out.new ≡ out.old ++ tokens_of (draws_value draws.now)) }
{
    out.array_of(alloc, draws.as_slice(), &DrawWriter)
}
