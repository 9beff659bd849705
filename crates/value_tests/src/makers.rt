//! Values that the tests begin with.

use std::alloc::Global;
use std::process::Abort;
use svc_values::{
    Answer, Answers, Call, Column, Columns, Draw, Draws, Kind, Limited, Name, Row, Settings,
    Statement, Statements, Value,
};

pub fn name(rt: &impl Abort, alloc: Global, text: &str) -> Name {
    Name::new(alloc, text).expect(rt, "a name")
}

/// Columns of integers with these names.
pub fn columns(rt: &impl Abort, alloc: Global, names: &[&str]) -> Columns {
    let mut columns = Columns::new(alloc);
    for text in names {
        let name = name(rt, alloc, text);
        let kind = Kind::Int;
        columns.push(Column { name, kind }).expect(rt, "a column");
    }
    columns
}

/// As many counts of one table.
pub fn counts(rt: &impl Abort, alloc: Global, number: u8) -> Statements {
    let mut statements = Limited::new(alloc);
    for _ in 0..number {
        let table = name(rt, alloc, "t");
        statements
            .push(Statement::Count { table })
            .expect(rt, "a statement");
    }
    statements.into_shared(alloc).expect(rt, "memory")
}

pub fn row(rt: &impl Abort, alloc: Global, number: i64) -> Row {
    let mut row = Row::new(alloc);
    row.push(Value::Int(number)).expect(rt, "a value");
    row
}

/// One answer of one row.
pub fn answers(rt: &impl Abort, alloc: Global) -> Answers {
    let mut rows = Limited::new(alloc);
    rows.push(row(rt, alloc, 7)).expect(rt, "a row");
    let mut answers = Answers::new(alloc);
    let rows = rows.into_shared(alloc).expect(rt, "memory");
    answers.push(Answer::Rows(rows)).expect(rt, "an answer");
    answers
}

/// One value of a sequence.
pub fn draws(rt: &impl Abort, alloc: Global) -> Draws {
    let mut draws = Draws::new(alloc);
    let name = name(rt, alloc, "s");
    draws
        .push(Draw::Seq { name, value: -1 })
        .expect(rt, "a draw");
    draws
}

/// One count and a commit.
pub fn call(rt: &impl Abort, alloc: Global) -> Call {
    Call::work(counts(rt, alloc, 1), true).expect(rt, "a call")
}

/// The settings after these puts.
pub fn settings(rt: &impl Abort, alloc: Global, puts: &[(&str, i64)]) -> Settings {
    let mut settings = Settings::new(alloc);
    for (text, number) in puts {
        let name = name(rt, alloc, text);
        settings.put(name, Value::Int(*number)).expect(rt, "memory");
    }
    settings
}
