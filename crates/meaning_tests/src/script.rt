//! Statements and answers, by short words.

use crate::makers::{account, name, text};
use std::alloc::Global;
use std::process::Abort;
use svc_values::{
    Answer, Change, DrawKind, Limited, Operand, Operands, Row, Rows, Statement, StatementFault,
    Statements, Test, Value,
};

/// An operand.
#[derive(Clone, Copy)]
pub enum Puts {
    Int(i64),
    /// The text `a`.
    Text,
    /// A setting that is not there.
    Unset,
    /// The next value of a sequence.
    Next(&'static str),
}

/// A statement. One that names no table is on `acc`.
#[derive(Clone, Copy)]
pub enum Does {
    Insert(&'static str, Puts, Puts),
    /// Sets a column of the row with this key.
    Set(Puts, &'static str, Puts),
    /// Adds to it.
    Add(Puts, &'static str, Puts),
    Delete(i64),
    Get(i64),
    /// The accounts of at least this balance.
    Select(Puts),
    Count,
    Sum(&'static str, &'static str),
    Show(Puts),
}

/// An answer.
#[derive(Clone, Copy)]
pub enum Says {
    Done(u64),
    Number(i64),
    Refused(StatementFault),
    /// A row of this value.
    Value(i64),
    /// These accounts.
    Accounts(&'static [(i64, i64)]),
}

fn operand(rt: &impl Abort, alloc: Global, puts: Puts) -> Operand {
    match puts {
        Puts::Int(number) => Operand::Lit(Value::Int(number)),
        Puts::Text => Operand::Lit(Value::Text(text(rt, alloc, "a"))),
        Puts::Unset => Operand::Var(name(rt, alloc, "unset")),
        Puts::Next(sequence) => Operand::Draw(DrawKind::Seq(name(rt, alloc, sequence))),
    }
}

fn values(rt: &impl Abort, alloc: Global, key: Puts, other: Puts) -> Operands {
    let mut values = Operands::new(alloc);
    for puts in [key, other] {
        let operand = operand(rt, alloc, puts);
        values.push(operand).expect(rt, "an operand");
    }
    values
}

fn update(rt: &impl Abort, alloc: Global, key: Puts, column: &str, change: Change) -> Statement {
    Statement::Update {
        table: name(rt, alloc, "acc"),
        key: operand(rt, alloc, key),
        column: name(rt, alloc, column),
        change,
    }
}

/// The accounts of at least this balance.
fn select(rt: &impl Abort, alloc: Global, balance: Puts) -> Statement {
    Statement::Select {
        table: name(rt, alloc, "acc"),
        column: name(rt, alloc, "bal"),
        test: Test::Ge,
        operand: operand(rt, alloc, balance),
    }
}

pub fn statement(rt: &impl Abort, alloc: Global, does: Does) -> Statement {
    match does {
        Does::Insert(table, key, other) => Statement::Insert {
            table: name(rt, alloc, table),
            values: values(rt, alloc, key, other),
        },
        Does::Set(key, column, to) => {
            update(rt, alloc, key, column, Change::To(operand(rt, alloc, to)))
        }
        Does::Add(key, column, more) => {
            update(
                rt,
                alloc,
                key,
                column,
                Change::Plus(operand(rt, alloc, more)),
            )
        }
        Does::Delete(key) => Statement::Delete {
            table: name(rt, alloc, "acc"),
            key: operand(rt, alloc, Puts::Int(key)),
        },
        Does::Get(key) => Statement::Get {
            table: name(rt, alloc, "acc"),
            key: operand(rt, alloc, Puts::Int(key)),
        },
        Does::Select(balance) => select(rt, alloc, balance),
        Does::Count => Statement::Count {
            table: name(rt, alloc, "acc"),
        },
        Does::Sum(table, column) => Statement::Sum {
            table: name(rt, alloc, table),
            column: name(rt, alloc, column),
        },
        Does::Show(puts) => Statement::Show {
            operand: operand(rt, alloc, puts),
        },
    }
}

/// The statements of a call.
pub fn statements(rt: &impl Abort, alloc: Global, script: &[Does]) -> Statements {
    let mut statements = Limited::new(alloc);
    for does in script {
        let statement = statement(rt, alloc, *does);
        statements.push(statement).expect(rt, "a statement");
    }
    statements.into_shared(alloc).expect(rt, "memory")
}

fn row(rt: &impl Abort, alloc: Global, value: i64) -> Row {
    let mut row = Row::new(alloc);
    row.push(Value::Int(value)).expect(rt, "a value");
    row
}

fn alone(rt: &impl Abort, alloc: Global, row: Row) -> Rows {
    let rows = Vec::from_array(alloc, [row]).expect(rt, "memory");
    Rows::of(alloc, rows).expect(rt, "memory")
}

fn rows(rt: &impl Abort, alloc: Global, accounts: &[(i64, i64)]) -> Rows {
    let mut rows = Limited::new(alloc);
    for (id, balance) in accounts {
        let row = account(rt, alloc, *id, *balance);
        rows.push(row).expect(rt, "a row");
    }
    rows.into_shared(alloc).expect(rt, "memory")
}

pub fn answer(rt: &impl Abort, alloc: Global, says: Says) -> Answer {
    match says {
        Says::Done(count) => Answer::Done(count),
        Says::Number(number) => Answer::Number(number),
        Says::Refused(fault) => Answer::Refused(fault),
        Says::Value(value) => Answer::Rows(alone(rt, alloc, row(rt, alloc, value))),
        Says::Accounts(accounts) => Answer::Rows(rows(rt, alloc, accounts)),
    }
}
