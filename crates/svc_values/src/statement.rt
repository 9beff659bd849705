//! Statements and their operands.
ghost use Rattle.std.specs.Prelude.{◌≡◌, option_copied};
ghost use Rattle.svc_values.specs.meaning.Tests.{meets as meets_def, value_meets as value_meets_def};

use crate::draw::DrawKind;
use crate::list::Limited;
use crate::memory::{NoMemory, TryCopy};
use crate::shared::Shared;
use crate::text::Name;
use crate::value::Value;
use std::alloc::Global;
use std::cmp::Ordering;

/// A literal, a setting of the session, or a draw.
#[derive(PartialEq, Eq, Drop)]
pub enum Operand {
    Lit(Value),
    Var(Name),
    Draw(DrawKind),
}

/// At most eight operands: one for each column of a row.
pub type Operands = Limited<Operand, 8>;

/// What an update does to a column: a new value, or a number added to an integer.
#[derive(PartialEq, Eq, Drop)]
pub enum Change {
    To(Operand),
    Plus(Operand),
}

/// How a select compares a column with its operand: equal, less, or not less.
#[derive(Clone, Copy, Debug, PartialEq, Eq)]
pub enum Test {
    Eq,
    Lt,
    Ge,
}

/// A data statement.
#[derive(PartialEq, Eq, Drop)]
pub enum Statement {
    Insert {
        table: Name,
        values: Operands,
    },
    Update {
        table: Name,
        key: Operand,
        column: Name,
        change: Change,
    },
    Delete {
        table: Name,
        key: Operand,
    },
    Get {
        table: Name,
        key: Operand,
    },
    Select {
        table: Name,
        column: Name,
        test: Test,
        operand: Operand,
    },
    Count {
        table: Name,
    },
    Sum {
        table: Name,
        column: Name,
    },
    Show {
        operand: Operand,
    },
}

/// The statements of one call: at most eight. Copies of a call share them.
pub type Statements = Shared<Statement, 8>;

/// Whether a comparison with this outcome meets the test.
fn meets(test: Test, order: Ordering) -> bool
    ensures { result ≡ meets_def test order }
{
    match test {
        Test::Eq => order == Ordering::Equal,
        Test::Lt => order == Ordering::Less,
        Test::Ge => order != Ordering::Less,
    }
}

/// Whether the value that stands in a column, if any, meets the test against the given one. Linear
/// in the shorter value.
pub fn value_meets(test: Test, value: &Value, there: Option<&Value>) -> bool
    ensures { result ≡ value_meets_def test value.now (option_copied there.entry) }
{
    match there {
        None => false,
        Some(there) => meets(test, there.cmp(value)),
    }
}

impl TryCopy for Operand {
    fn copy(&self, alloc: Global) -> Result<Operand, NoMemory> {
        match self {
            Operand::Lit(value) => Ok(Operand::Lit(value.copy(alloc)?)),
            Operand::Var(name) => Ok(Operand::Var(name.copied())),
            Operand::Draw(kind) => Ok(Operand::Draw(kind.copy(alloc)?)),
        }
    }
}

impl TryCopy for Change {
    fn copy(&self, alloc: Global) -> Result<Change, NoMemory> {
        match self {
            Change::To(operand) => Ok(Change::To(operand.copy(alloc)?)),
            Change::Plus(operand) => Ok(Change::Plus(operand.copy(alloc)?)),
        }
    }
}

impl TryCopy for Statement {
    fn copy(&self, alloc: Global) -> Result<Statement, NoMemory> {
        match self {
            Statement::Insert { table, values } => Ok(Statement::Insert {
                table: table.copied(),
                values: values.copy(alloc)?,
            }),
            Statement::Update {
                table,
                key,
                column,
                change,
            } => Ok(Statement::Update {
                table: table.copied(),
                key: key.copy(alloc)?,
                column: column.copied(),
                change: change.copy(alloc)?,
            }),
            Statement::Delete { table, key } => Ok(Statement::Delete {
                table: table.copied(),
                key: key.copy(alloc)?,
            }),
            Statement::Get { table, key } => Ok(Statement::Get {
                table: table.copied(),
                key: key.copy(alloc)?,
            }),
            Statement::Select {
                table,
                column,
                test,
                operand,
            } => Ok(Statement::Select {
                table: table.copied(),
                column: column.copied(),
                test: *test,
                operand: operand.copy(alloc)?,
            }),
            Statement::Count { table } => Ok(Statement::Count {
                table: table.copied(),
            }),
            Statement::Sum { table, column } => Ok(Statement::Sum {
                table: table.copied(),
                column: column.copied(),
            }),
            Statement::Show { operand } => Ok(Statement::Show {
                operand: operand.copy(alloc)?,
            }),
        }
    }
}

impl TryCopy for Test {
    fn copy(&self, _alloc: Global) -> Result<Test, NoMemory> {
        Ok(*self)
    }
}
