//! What a statement asks to be done once its operands are read.
ghost use Rattle.std.specs.Prelude.{◌≡◌, IfOk};
ghost use Rattle.stmt_meaning.specs.meaning.Plans.{place_of};

use std::alloc::Global;
use svc_values::{Name, NoMemory, Place, Row, Test, TryCopy, Value};

/// What is done to the row of a key. A column is told by its place, from 0.
#[derive(Drop)]
pub enum RowWork {
    /// Puts in a row whose key this is.
    Insert { row: Row },
    /// Gives a column another value.
    Set { column: usize, value: Value },
    /// Adds a number to an integer column.
    Add { column: usize, number: i64 },
    /// Takes the row away.
    Delete,
    /// Answers the row.
    Get,
}

/// What is asked of all rows of a table. A column is told by its place, from 0.
#[derive(Drop)]
pub enum TableWork {
    /// The rows whose value in a column meets a test.
    Select {
        column: usize,
        test: Test,
        value: Value,
    },
    /// The number of rows.
    Count,
    /// The sum of an integer column.
    Sum {
        column: usize,
    },
}

/// A statement whose names were found and whose operands have the kinds of its columns. No row was
/// looked at. Its place is all that the rest of it reads.
#[derive(Drop)]
pub enum Plan {
    AtRow {
        table: Name,
        key: Value,
        work: RowWork,
    },
    InTable {
        table: Name,
        work: TableWork,
    },
    Show {
        value: Value,
    },
}

impl Plan {
    /// The place that is read: a row, a whole table, or none.
    pub fn place(&self, alloc: Global) -> Result<Option<Place>, NoMemory>
        ensures { IfOk result (λ place. place ≡ place_of self.now) }
    {
        match self {
            Plan::AtRow { table, key, .. } => Ok(Some(Place::Row {
                table: table.copied(),
                key: key.copy(alloc)?,
            })),
            Plan::InTable { table, .. } => Ok(Some(Place::Table {
                table: table.copied(),
            })),
            Plan::Show { .. } => Ok(None),
        }
    }
}
