//! Calls and frames, by short words. The tables are `acc`, with a key and a balance, and `t`, with
//! a key and a name; the sequences are `n`, `r` and `s`.
ghost use Rattle.std.specs.List.{AllByRecursion};
ghost use Rattle.svc_values.specs.Calls.{IsMade};

use std::alloc::Global;
use std::process::Abort;
use svc_values::{
    Call, Change, DrawKind, Limited, Name, Operand, Operands, Statement, Statements, Text, Value,
};

/// What an operand asks for.
#[derive(Clone, Copy)]
pub enum Asks {
    Seq(&'static str),
    Clock,
    Id,
}

/// A call.
#[derive(Clone, Copy)]
pub enum Does {
    Insert(i64),
    InsertCommit(i64),
    Get,
    Add(i64),
    Count,
    Show(&'static [Asks]),
    ShowCommit(&'static [Asks]),
    ShowLang,
    Commit,
    SetLang,
    Alter,
    Disable,
    Rollback,
}

pub fn name(rt: &impl Abort, alloc: Global, text: &str) -> Name {
    Name::new(alloc, text).expect(rt, "a name")
}

fn text(rt: &impl Abort, alloc: Global, text: &str) -> Text {
    Text::new(alloc, text).expect(rt, "a text")
}

fn number(number: i64) -> Operand {
    Operand::Lit(Value::Int(number))
}

/// The values of a row of `t`: a key, and the text `a`.
fn values(rt: &impl Abort, alloc: Global, key: i64) -> Operands {
    let mut values = Operands::new(alloc);
    let letter = Operand::Lit(Value::Text(text(rt, alloc, "a")));
    values.push(number(key)).expect(rt, "a value");
    values.push(letter).expect(rt, "a value");
    values
}

fn insert(rt: &impl Abort, alloc: Global, key: i64) -> Statement {
    Statement::Insert {
        table: name(rt, alloc, "t"),
        values: values(rt, alloc, key),
    }
}

/// Reads the account 1.
fn get(rt: &impl Abort, alloc: Global) -> Statement {
    Statement::Get {
        table: name(rt, alloc, "acc"),
        key: number(1),
    }
}

/// Adds to the balance of the account 1.
fn add(rt: &impl Abort, alloc: Global, more: i64) -> Statement {
    Statement::Update {
        table: name(rt, alloc, "acc"),
        key: number(1),
        column: name(rt, alloc, "bal"),
        change: Change::Plus(number(more)),
    }
}

fn kind(rt: &impl Abort, alloc: Global, asks: Asks) -> DrawKind {
    match asks {
        Asks::Seq(sequence) => DrawKind::Seq(name(rt, alloc, sequence)),
        Asks::Clock => DrawKind::Clock,
        Asks::Id => DrawKind::Id,
    }
}

/// A statement for each of these.
fn show_each(rt: &impl Abort, alloc: Global, asked: &[Asks]) -> Statements {
    let mut statements = Limited::new(alloc);
    for asks in asked {
        let operand = Operand::Draw(kind(rt, alloc, *asks));
        let show = Statement::Show { operand };
        statements.push(show).expect(rt, "a statement");
    }
    statements.into_shared(alloc).expect(rt, "memory")
}

/// The statement of a call that has one.
fn statement(rt: &impl Abort, alloc: Global, does: Does) -> Option<Statement> {
    match does {
        Does::Insert(key) | Does::InsertCommit(key) => Some(insert(rt, alloc, key)),
        Does::Get => Some(get(rt, alloc)),
        Does::Add(more) => Some(add(rt, alloc, more)),
        Does::Count => Some(Statement::Count {
            table: name(rt, alloc, "t"),
        }),
        Does::ShowLang => Some(Statement::Show {
            operand: Operand::Var(name(rt, alloc, "lang")),
        }),
        _ => None,
    }
}

fn statements(rt: &impl Abort, alloc: Global, does: Does) -> Statements {
    if let Does::Show(asked) | Does::ShowCommit(asked) = does {
        return show_each(rt, alloc, asked);
    }
    let mut statements = Limited::new(alloc);
    if let Some(statement) = statement(rt, alloc, does) {
        statements.push(statement).expect(rt, "a statement");
    }
    statements.into_shared(alloc).expect(rt, "memory")
}

/// Work: the statements that are named, and a commit where it is part of the name.
fn work(rt: &impl Abort, alloc: Global, does: Does) -> Call
    ensures { IsMade result }
{
    let commit = matches!(
        does,
        Does::InsertCommit(_) | Does::ShowCommit(_) | Does::Commit
    );
    Call::work(statements(rt, alloc, does), commit).expect(rt, "a call")
}

/// The call of this name.
pub fn call(rt: &impl Abort, alloc: Global, does: Does) -> Call
    ensures { IsMade result }
{
    match does {
        Does::SetLang => Call::Set {
            name: name(rt, alloc, "lang"),
            value: Value::Int(5),
        },
        Does::Alter => Call::Alter {
            line: text(rt, alloc, "flush"),
        },
        Does::Disable => Call::Disable,
        Does::Rollback => Call::Rollback,
        _ => work(rt, alloc, does),
    }
}

/// The calls of these names.
#[tactic(auto, using(crate::proofs::Made::made_last))]
pub fn calls(rt: &impl Abort, alloc: Global, script: &[Does]) -> Vec<Call>
    ensures { AllByRecursion IsMade result.items }
{
    let mut calls = Vec::new(alloc);
    for does in script {
        calls.push(call(rt, alloc, *does)).expect(rt, "a call");
    }
    calls
}
