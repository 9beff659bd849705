//! Calls of the conversations, by short names.
ghost use Rattle.svc_values.specs.Calls.{IsMade};

use crate::names::{name, text, who};
use std::alloc::Global;
use std::process::Abort;
use svc_values::{Call, Change, DrawKind, Limited, Operand, Operands, Statement, Test, Value};

/// A call of a script. The tables are `t`, with a key and a name; `acc`, with a key and a balance;
/// and those of a shop, `item` and `sales`, whose customers are told by their number.
#[derive(Clone, Copy)]
pub enum Does {
    Insert(i64),
    InsertDrawn,
    InsertCommit,
    Read,
    SelectA,
    Get,
    UpdateCommit,
    Count,
    Commit,
    Set,
    ShowSet,
    ShowDrawn,
    Alter,
    Disable,
    GetItem(i64),
    Sell(i64),
    Sales(i64),
}

fn number(number: i64) -> Operand {
    Operand::Lit(Value::Int(number))
}

fn letters(rt: &impl Abort, alloc: Global, letters: &str) -> Operand {
    Operand::Lit(Value::Text(text(rt, alloc, letters)))
}

/// The values that an insert into `t` puts: a key, and the text `a`.
fn values(rt: &impl Abort, alloc: Global, key: Operand) -> Operands {
    let mut values = Operands::new(alloc);
    values.push(key).expect(rt, "a value");
    values.push(letters(rt, alloc, "a")).expect(rt, "a value");
    values
}

fn insert(rt: &impl Abort, alloc: Global, key: Operand) -> Statement {
    Statement::Insert {
        table: name(rt, alloc, "t"),
        values: values(rt, alloc, key),
    }
}

/// Adds to a number in a row.
fn add(
    rt: &impl Abort,
    alloc: Global,
    table: &str,
    key: i64,
    column: &str,
    change: i64,
) -> Statement {
    Statement::Update {
        table: name(rt, alloc, table),
        key: number(key),
        column: name(rt, alloc, column),
        change: Change::Plus(number(change)),
    }
}

fn get(rt: &impl Abort, alloc: Global, table: &str, key: i64) -> Statement {
    Statement::Get {
        table: name(rt, alloc, table),
        key: number(key),
    }
}

/// The rows with this text in a column.
fn select(rt: &impl Abort, alloc: Global, table: &str, column: &str, text: &str) -> Statement {
    Statement::Select {
        table: name(rt, alloc, table),
        column: name(rt, alloc, column),
        test: Test::Eq,
        operand: letters(rt, alloc, text),
    }
}

/// A sale to a customer: its number and its tick are drawn.
fn sale(rt: &impl Abort, alloc: Global, customer: i64) -> Statement {
    let mut values = Operands::new(alloc);
    let drawn = DrawKind::Seq(name(rt, alloc, "ord"));
    values.push(Operand::Draw(drawn)).expect(rt, "a value");
    values.push(number(customer)).expect(rt, "a value");
    values
        .push(Operand::Draw(DrawKind::Clock))
        .expect(rt, "a value");
    values
        .push(letters(rt, alloc, who(customer)))
        .expect(rt, "a value");
    Statement::Insert {
        table: name(rt, alloc, "sales"),
        values,
    }
}

/// The statement of a call that has one, and the first one of a call that has two.
fn statement(rt: &impl Abort, alloc: Global, does: Does) -> Option<Statement> {
    match does {
        Does::Insert(key) => Some(insert(rt, alloc, number(key))),
        Does::InsertDrawn => {
            let drawn = DrawKind::Seq(name(rt, alloc, "s"));
            Some(insert(rt, alloc, Operand::Draw(drawn)))
        }
        Does::InsertCommit => Some(insert(rt, alloc, number(1))),
        Does::Read => Some(get(rt, alloc, "t", 1)),
        Does::SelectA => Some(select(rt, alloc, "t", "name", "a")),
        Does::Get => Some(get(rt, alloc, "acc", 1)),
        Does::UpdateCommit => Some(add(rt, alloc, "acc", 1, "bal", 5)),
        Does::Count => Some(Statement::Count {
            table: name(rt, alloc, "t"),
        }),
        Does::ShowSet => Some(Statement::Show {
            operand: Operand::Var(name(rt, alloc, "lang")),
        }),
        Does::ShowDrawn => Some(Statement::Show {
            operand: Operand::Draw(DrawKind::Id),
        }),
        Does::GetItem(item) => Some(get(rt, alloc, "item", item)),
        Does::Sell(item) => Some(add(rt, alloc, "item", item, "stock", -1)),
        Does::Sales(customer) => Some(select(rt, alloc, "sales", "who", who(customer))),
        _ => None,
    }
}

/// Work: the statements that are named, and a commit where it is part of the name.
fn work(rt: &impl Abort, alloc: Global, does: Does) -> Call
    ensures { IsMade result }
{
    let mut statements = Limited::new(alloc);
    if let Some(statement) = statement(rt, alloc, does) {
        statements.push(statement).expect(rt, "a statement");
    }
    if let Does::Sell(customer) = does {
        statements
            .push(sale(rt, alloc, customer))
            .expect(rt, "a statement");
    }
    let statements = statements.into_shared(alloc).expect(rt, "memory");
    let commit = matches!(does, Does::InsertCommit | Does::UpdateCommit | Does::Commit);
    Call::work(statements, commit).expect(rt, "a call")
}

pub fn call(rt: &impl Abort, alloc: Global, does: Does) -> Call
    ensures { IsMade result }
{
    match does {
        Does::Set => Call::Set {
            name: name(rt, alloc, "lang"),
            value: Value::Text(text(rt, alloc, "de")),
        },
        Does::Alter => Call::Alter {
            line: text(rt, alloc, "flush"),
        },
        Does::Disable => Call::Disable,
        _ => work(rt, alloc, does),
    }
}
