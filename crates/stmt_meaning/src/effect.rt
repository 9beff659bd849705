//! What is answered and written at the row of a key.
ghost use Rattle.std.specs.Prelude.{◌≡◌, IfOk, option_copied, slice_set, ◌+ℤ◌, [], ◌∷◌};
ghost use Rattle.svc_values.specs.meaning.Endings.{last_answer};
ghost use Rattle.stmt_meaning.specs.meaning.Effects.{number_at as number_at_def, row_effect as row_effect_def, only as only_def, wrote as wrote_def, added as added_def, refused as refused_def};
ghost use Rattle.stmt_meaning.specs.meaning.Meaning.{is_refusal as is_refusal_def};
ghost use Rattle.stmt_meaning.specs.Refused.{ends_refused as ends_refused_def};

use crate::plan::RowWork;
use std::alloc::Global;
use svc_values::{
    Answer, Name, NoMemory, Row, Rows, StatementFault, TryCopy, Value, Write, copies,
};

/// An answer and the write that goes with it, if any.
#[derive(PartialEq, Eq, Drop)]
pub struct Effect {
    pub answer: Answer,
    pub write: Option<Write>,
}

/// Whether a statement was refused.
pub fn is_refusal(answer: &Answer) -> bool
    ensures { result ≡ is_refusal_def answer.now }
{
    matches!(answer, Answer::Refused(_))
}

fn last_of(answers: &[Answer]) -> Option<&Answer>
    ensures { option_copied result ≡ last_answer answers.now }
{
    answers.last()
}

/// Whether the last of the answers refuses its statement.
pub fn ends_refused(answers: &[Answer]) -> bool
    ensures { result ≡ ends_refused_def answers.now }
{
    match last_of(answers) {
        None => false,
        Some(answer) => is_refusal(answer),
    }
}

/// The integer in a column of a row, and 0 where there is none.
pub fn number_at(row: &Row, column: usize) -> i64
    ensures { result ≡ number_at_def row.now column }
{
    match row.get(column) {
        Some(Value::Int(number)) => *number,
        _ => 0,
    }
}

/// The row with another value in a column.
fn with_value(alloc: Global, row: &Row, column: usize, value: Value) -> Result<Row, NoMemory>
    ensures { IfOk result (λ made. made ≡ slice_set row.now column value) }
{
    let mut values = copies(alloc, row.as_slice())?;
    if column < values.len() {
        values[column] = value;
    }
    Ok(Row::from_vec(values))
}

fn only(answer: Answer) -> Effect
    ensures { result ≡ only_def answer }
{
    Effect {
        answer,
        write: None,
    }
}

fn refused(fault: StatementFault) -> Effect
    ensures { result ≡ refused_def fault }
{
    only(Answer::Refused(fault))
}

fn wrote(table: Name, key: Value, row: Option<Row>) -> Effect
    ensures { result ≡ wrote_def table key row }
{
    Effect {
        answer: Answer::Done(1),
        write: Some(Write { table, key, row }),
    }
}

/// The row with a number added in a column, unless the sum is no integer of 64 bits.
fn added(
    alloc: Global,
    table: Name,
    key: Value,
    column: usize,
    row: &Row,
    number: i64,
) -> Result<Effect, NoMemory>
    ensures { IfOk result (λ effect. effect
        ≡ added_def table key column row.now (number_at_def row.now column +ℤ number)) }
{
    match number_at(row, column).checked_add(number) {
        None => Ok(refused(StatementFault::SumRange)),
        Some(sum) => {
            let row = with_value(alloc, row, column, Value::Int(sum))?;
            Ok(wrote(table, key, Some(row)))
        }
    }
}

/// The rows of one row.
fn rows_of(alloc: Global, row: Row) -> Result<Rows, NoMemory>
    ensures { IfOk result (λ rows. rows ≡ row ∷ []) }
{
    Rows::of(alloc, Vec::from_array(alloc, [row])?)
}

/// What is answered to `Show`: one row of the value.
pub fn shown(alloc: Global, value: Value) -> Result<Answer, NoMemory>
    ensures { IfOk result (λ answer. answer ≡ Answer.Rows ((value ∷ []) ∷ [])) }
{
    let row = Vec::from_array(alloc, [value])?;
    Ok(Answer::Rows(rows_of(alloc, Row::from_vec(row))?))
}

/// What is answered and written at the row of a key, from the row that stands there, if any. An
/// insert over a row is refused, and a change of none changes nothing. Nothing of the row is kept
/// but copies.
pub fn row_effect(
    alloc: Global,
    table: Name,
    key: Value,
    work: RowWork,
    row: Option<&Row>,
) -> Result<Effect, NoMemory>
    ensures { IfOk result (λ effect. effect
        ≡ row_effect_def table key work (option_copied row.entry)) }
{
    let Some(row) = row else {
        return Ok(match work {
            RowWork::Insert { row } => wrote(table, key, Some(row)),
            RowWork::Set { .. } | RowWork::Add { .. } | RowWork::Delete => only(Answer::Done(0)),
            RowWork::Get => only(Answer::Rows(Rows::of(alloc, Vec::new(alloc))?)),
        });
    };
    match work {
        RowWork::Insert { .. } => Ok(refused(StatementFault::DuplicateKey)),
        RowWork::Set { column, value } => {
            let row = with_value(alloc, row, column, value)?;
            Ok(wrote(table, key, Some(row)))
        }
        RowWork::Add { column, number } => added(alloc, table, key, column, row, number),
        RowWork::Delete => Ok(wrote(table, key, None)),
        RowWork::Get => Ok(only(Answer::Rows(rows_of(alloc, row.copy(alloc)?)?))),
    }
}
