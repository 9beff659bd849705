//! Statements, in the document's form.
ghost use Rattle.std.specs.Prelude.{◌≡◌, ◌++◌, ◌∷◌, [], OnOk};
ghost use Rattle.json.specs.Token.{begin_array, string};
ghost use Rattle.json_form.specs.Tokens.{tokens_of};
ghost use Rattle.json_form.specs.meaning.Writing.{text};
ghost use Rattle.report_text.specs.meaning.Parts.{headed};
ghost use Rattle.report_text.specs.meaning.Calls.{operand_value, test_word as test_word_def, change_word as change_word_def, changing as changing_def, statement_value};

use crate::operand::OperandWriter;
use crate::part::begin_word;
use json_form::{TextWriter, Writer};
use std::alloc::{AllocError, Global};
use svc_values::{Change, Name, Operand, Operands, Statement, Test};

/// The word of a test.
fn test_word(test: Test) -> &'static str
    ensures { result.now ≡ test_word_def test }
{
    match test {
        Test::Eq => "eq",
        Test::Lt => "lt",
        Test::Ge => "ge",
    }
}

/// The word of a change.
fn change_word(change: &Change) -> &'static str
    ensures { result.now ≡ change_word_def change.now }
{
    match change {
        Change::To(_) => "to",
        Change::Plus(_) => "plus",
    }
}

/// The operand of a change.
fn changing(change: &Change) -> &Operand
    ensures { result.now ≡ changing_def change.now }
{
    match change {
        Change::To(operand) | Change::Plus(operand) => operand,
    }
}

/// Begins an array of a statement's word and the table that it names.
fn begin_statement(out: &mut TextWriter, word: &str, table: &Name) -> Result<(), AllocError>
    ensures { OnOk result
        (out.new ≡ out.old ++ begin_array ∷ string word.now ∷ string table.now ∷ []) }
{
    begin_word(out, word)?;
    out.text(table.as_str())
}

/// A row that is put in.
#[tactic(auto, unfolding(crate::specs::meaning::Calls::statement_value))]
fn insert_written(
    alloc: Global,
    table: &Name,
    values: &Operands,
    out: &mut TextWriter,
) -> Result<(), AllocError>
    ensures { OnOk result
        (out.new ≡ out.old ++ tokens_of (statement_value (Statement.Insert table.now values.now))) }
{
    begin_statement(out, "insert", table)?;
    out.array_of(alloc, values.as_slice(), &OperandWriter)?;
    out.end_array()
}

/// A column of one row that is changed.
#[tactic(auto, unfolding(crate::specs::meaning::Calls::statement_value))]
fn update_written(
    alloc: Global,
    table: &Name,
    key: &Operand,
    column: &Name,
    change: &Change,
    out: &mut TextWriter,
) -> Result<(), AllocError>
    ensures { OnOk result
        (out.new ≡ out.old ++ tokens_of
        (statement_value (Statement.Update table.now key.now column.now change.now))) }
{
    begin_statement(out, "update", table)?;
    OperandWriter.write(alloc, key, out)?;
    out.text(column.as_str())?;
    out.text(change_word(change))?;
    OperandWriter.write(alloc, changing(change), out)?;
    out.end_array()
}

/// The rows that meet a test.
#[tactic(auto, unfolding(crate::specs::meaning::Calls::statement_value))]
fn select_written(
    alloc: Global,
    table: &Name,
    column: &Name,
    test: Test,
    operand: &Operand,
    out: &mut TextWriter,
) -> Result<(), AllocError>
    ensures { OnOk result
        (out.new ≡ out.old ++ tokens_of
        (statement_value (Statement.Select table.now column.now test operand.now))) }
{
    begin_statement(out, "select", table)?;
    out.text(column.as_str())?;
    out.text(test_word(test))?;
    OperandWriter.write(alloc, operand, out)?;
    out.end_array()
}

/// A statement on the row of a key.
fn keyed_written(
    alloc: Global,
    word: &str,
    table: &Name,
    key: &Operand,
    out: &mut TextWriter,
) -> Result<(), AllocError>
    ensures { OnOk result (out.new
        ≡ out.old ++ tokens_of (headed word.now (text table.now ∷ operand_value key.now ∷ []))) }
{
    begin_statement(out, word, table)?;
    OperandWriter.write(alloc, key, out)?;
    out.end_array()
}

/// The number of rows.
#[tactic(auto, unfolding(crate::specs::meaning::Calls::statement_value))]
fn count_written(table: &Name, out: &mut TextWriter) -> Result<(), AllocError>
    ensures { OnOk result
        (out.new ≡ out.old ++ tokens_of (statement_value (Statement.Count table.now))) }
{
    begin_statement(out, "count", table)?;
    out.end_array()
}

/// The sum of a column.
#[tactic(auto, unfolding(crate::specs::meaning::Calls::statement_value))]
fn sum_written(table: &Name, column: &Name, out: &mut TextWriter) -> Result<(), AllocError>
    ensures { OnOk result
        (out.new ≡ out.old ++ tokens_of (statement_value (Statement.Sum table.now column.now))) }
{
    begin_statement(out, "sum", table)?;
    out.text(column.as_str())?;
    out.end_array()
}

/// An operand that is shown.
#[tactic(auto, unfolding(crate::specs::meaning::Calls::statement_value))]
fn show_written(alloc: Global, operand: &Operand, out: &mut TextWriter) -> Result<(), AllocError>
    ensures { OnOk result
        (out.new ≡ out.old ++ tokens_of (statement_value (Statement.Show operand.now))) }
{
    begin_word(out, "show")?;
    OperandWriter.write(alloc, operand, out)?;
    out.end_array()
}

pub(crate) struct StatementWriter;

impl Writer<Statement> for StatementWriter {
    ghost writes = { λ s. statement_value };

    #[tactic(auto, unfolding(crate::specs::meaning::Calls::statement_value))]
    fn write(
        &self,
        alloc: Global,
        item: &Statement,
        out: &mut TextWriter,
    ) -> Result<(), AllocError> {
        match item {
            Statement::Insert { table, values } => insert_written(alloc, table, values, out),
            Statement::Update {
                table,
                key,
                column,
                change,
            } => update_written(alloc, table, key, column, change, out),
            Statement::Delete { table, key } => keyed_written(alloc, "delete", table, key, out),
            Statement::Get { table, key } => keyed_written(alloc, "get", table, key, out),
            Statement::Select {
                table,
                column,
                test,
                operand,
            } => select_written(alloc, table, column, *test, operand, out),
            Statement::Count { table } => count_written(table, out),
            Statement::Sum { table, column } => sum_written(table, column, out),
            Statement::Show { operand } => show_written(alloc, operand, out),
        }
    }
}
