//! Calls, in the document's form.
ghost use Rattle.std.specs.Prelude.{◌≡◌, ◌++◌, ◌∷◌, [], OnOk};
ghost use Rattle.json_form.specs.Tokens.{tokens_of};
ghost use Rattle.json_form.specs.meaning.Writing.{list};
ghost use Rattle.report_text.specs.meaning.Parts.{lone as lone_def};
ghost use Rattle.report_text.specs.meaning.Calls.{commit_values, call_value};
ghost use Rattle.report_text.specs.Tokens.{ending};

use crate::part::{begin_word, lone};
use crate::statement::StatementWriter;
use crate::value::ValueWriter;
use json_form::{TextWriter, Writer};
use std::alloc::{AllocError, Global};
use svc_values::{Call, Name, Statement, Text, Value};

/// The commit, if the call has one, and the bracket behind it.
fn work_ended(out: &mut TextWriter, commit: bool) -> Result<(), AllocError>
    ensures { OnOk result (out.new ≡ out.old ++ ending (commit_values commit)) }
{
    if !commit {
        return out.end_array();
    }
    lone(out, "commit")?;
    out.end_array()
}

/// The statements, and last the commit.
#[tactic(auto, unfolding(crate::specs::meaning::Calls::call_value))]
fn work_written(
    alloc: Global,
    statements: &[Statement],
    commit: bool,
    out: &mut TextWriter,
) -> Result<(), AllocError>
    ensures { OnOk result
        (out.new ≡ out.old ++ tokens_of (call_value (Call.Work statements.now commit))) }
{
    out.begin_array()?;
    out.each(alloc, statements, &StatementWriter)?;
    work_ended(out, commit)
}

/// A call that sets a name to a value.
#[tactic(auto, unfolding(crate::specs::meaning::Calls::call_value))]
fn set_written(
    alloc: Global,
    name: &Name,
    value: &Value,
    out: &mut TextWriter,
) -> Result<(), AllocError>
    ensures { OnOk result
        (out.new ≡ out.old ++ tokens_of (call_value (Call.Set name.now value.now))) }
{
    out.begin_array()?;
    begin_word(out, "set")?;
    out.text(name.as_str())?;
    ValueWriter.write(alloc, value, out)?;
    out.end_array()?;
    out.end_array()
}

/// A call that writes an alert line.
#[tactic(auto, unfolding(crate::specs::meaning::Calls::call_value))]
fn alter_written(line: &Text, out: &mut TextWriter) -> Result<(), AllocError>
    ensures { OnOk result (out.new ≡ out.old ++ tokens_of (call_value (Call.Alter line.now))) }
{
    out.begin_array()?;
    begin_word(out, "alter")?;
    out.text(line.as_str())?;
    out.end_array()?;
    out.end_array()
}

/// A call of one item that is one word.
fn word_written(out: &mut TextWriter, word: &str) -> Result<(), AllocError>
    ensures { OnOk result (out.new ≡ out.old ++ tokens_of (list (lone_def word.now ∷ []))) }
{
    out.begin_array()?;
    lone(out, word)?;
    out.end_array()
}

pub(crate) struct CallWriter;

impl Writer<Call> for CallWriter {
    ghost writes = { λ s. call_value };

    #[tactic(auto, unfolding(crate::specs::meaning::Calls::call_value))]
    fn write(&self, alloc: Global, item: &Call, out: &mut TextWriter) -> Result<(), AllocError> {
        match item {
            Call::Work { statements, commit } => {
                work_written(alloc, statements.as_slice(), *commit, out)
            }
            Call::Set { name, value } => set_written(alloc, name, value, out),
            Call::Alter { line } => alter_written(line, out),
            Call::Disable => word_written(out, "disable"),
            Call::Rollback => word_written(out, "rollback"),
        }
    }
}
