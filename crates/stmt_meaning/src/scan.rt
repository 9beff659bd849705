//! What is asked of a whole table, row after row.
ghost use Rattle.std.specs.Prelude.{◌≡◌, ◌++◌, ◌∷◌, [], List, IfOk, IsTrue, length, fold, ◌<◌};
ghost use Rattle.svc_values.specs.declared.value.Value.{Value as Kept};
ghost use Rattle.stmt_meaning.specs.meaning.Effects.{summed as summed_def};
ghost use Rattle.stmt_meaning.specs.InnerScans.{scanned, next_scan, last_answer, is_settled as is_settled_def};

use crate::effect::number_at;
use crate::plan::TableWork;
use std::alloc::Global;
use svc_values::{
    Answer, Limited, NoMemory, Row, StatementFault, Test, TryCopy, Value, value_meets,
};

/// The rows that a select keeps, before they are an answer.
type Met = Limited<Row, 32>;

/// A select, a count or a sum on its way over the rows of a table: what it has found in those that
/// it was shown so far. A select keeps no more than 32 rows.
#[derive(Drop)]
pub enum Scan {
    Select {
        column: usize,
        test: Test,
        value: Value,
        met: Met,
        /// Whether another row meets the test than those that were kept.
        is_over: bool,
    },
    Count {
        rows: i64,
    },
    Sum {
        column: usize,
        total: i128,
    },
}

/// The rows with a copy of this one last.
fn with_row(alloc: Global, mut rows: Met, row: &Row) -> Result<Met, NoMemory>
    requires { length rows < 32 }
    ensures { IfOk result (λ more. more ≡ rows ++ row.now ∷ []) }
{
    match rows.push(row.copy(alloc)?) {
        Ok(()) => Ok(rows),
        Err(_) => Err(NoMemory),
    }
}

/// A select after a row.
fn selected(
    alloc: Global,
    column: usize,
    test: Test,
    value: Value,
    mut met: Met,
    mut is_over: bool,
    row: &Row,
) -> Result<Scan, NoMemory>
    ensures { IfOk result (λ scan. scan ≡ next_scan (Scan.Select column test value met is_over)
        row.now) }
{
    if value_meets(test, &value, row.get(column)) {
        if met.len() < 32 {
            met = with_row(alloc, met, row)?;
        } else {
            is_over = true;
        }
    }
    Ok(Scan::Select {
        column,
        test,
        value,
        met,
        is_over,
    })
}

/// A sum, if it is an integer of 64 bits.
fn summed(total: i128) -> Answer
    ensures { result ≡ summed_def total }
{
    match i64::try_from(total) {
        Ok(total) => Answer::Number(total),
        Err(_) => Answer::Refused(StatementFault::SumRange),
    }
}

impl Scan {
    /// Begins before the first row.
    pub fn new(alloc: Global, work: TableWork) -> Scan
        ensures { result ≡ scanned work [] }
    {
        match work {
            TableWork::Select {
                column,
                test,
                value,
            } => Scan::Select {
                column,
                test,
                value,
                met: Met::new(alloc),
                is_over: false,
            },
            TableWork::Count => Scan::Count { rows: 0 },
            TableWork::Sum { column } => Scan::Sum { column, total: 0 },
        }
    }

    /// Goes on by a row. A count or sum past what its type holds would need more rows than there is
    /// memory for, and is refused as such.
    pub fn after(self, alloc: Global, row: &Row) -> Result<Scan, NoMemory>
        ensures { IfOk result (λ scan. scan ≡ next_scan self row.now) }
    {
        match self {
            Scan::Select {
                column,
                test,
                value,
                met,
                is_over,
            } => selected(alloc, column, test, value, met, is_over, row),
            Scan::Count { rows } => Ok(Scan::Count {
                rows: rows.checked_add(1).ok_or(NoMemory)?,
            }),
            Scan::Sum { column, total } => {
                let number = i128::from(number_at(row, column));
                Ok(Scan::Sum {
                    column,
                    total: total.checked_add(number).ok_or(NoMemory)?,
                })
            }
        }
    }

    /// Whether no further row can change the answer: a select that 33 rows met is refused.
    pub fn is_settled(&self) -> bool
        ensures test { result ≡ is_settled_def self.now }
        ensures settled { IsTrue result → (rows : List (List Kept))
            → last_answer (fold next_scan self.now rows) ≡ last_answer self.now }
    {
        match self {
            Scan::Select { is_over, .. } => *is_over,
            Scan::Count { .. } | Scan::Sum { .. } => false,
        }
    }

    /// The answer, once each row of the table was shown in order of key.
    pub fn answer(self, alloc: Global) -> Result<Answer, NoMemory>
        ensures { IfOk result (λ answer. answer ≡ last_answer self) }
    {
        Ok(match self {
            Scan::Select { is_over: true, .. } => Answer::Refused(StatementFault::TooManyRows),
            Scan::Select { met, .. } => Answer::Rows(met.into_shared(alloc)?),
            Scan::Count { rows } => Answer::Number(rows),
            Scan::Sum { total, .. } => summed(total),
        })
    }
}
