//! Answers and drawn values of the conversations, by short names.

use crate::names::{name, text, who};
use std::alloc::Global;
use std::process::Abort;
use svc_values::{Answer, Answers, Draw, Draws, Octets, Row, Rows, StatementFault, Value};

/// The answers of a call.
#[derive(Clone, Copy)]
pub enum Says {
    Done,
    DoneTwice,
    /// The account 1 has this balance.
    Balance(i64),
    /// The row of `t` with this key, and the text `a`.
    Named(i64),
    Number(i64),
    /// The setting `de`.
    Setting,
    /// This identifier of the first incarnation.
    Identifier(u8),
    Committed,
    DoneConflict,
    DoneInReplay,
    Duplicate,
    /// Ten pieces of this item are there.
    Item(i64),
    /// The number of a sale, its customer and its tick.
    Sale(i64, i64, u8),
}

/// Values that are drawn.
#[derive(Clone, Copy)]
pub enum Drawn {
    Nothing,
    /// The next value of the sequence `s`.
    Next(i64),
    /// This identifier of the first incarnation.
    Identifier(u8),
    /// The number of a sale, and its tick.
    Sale(i64, u8),
}

/// An identifier of the first incarnation.
fn identifier(number: u8) -> [u8; 16] {
    [0, 0, 0, 0, 0, 0, 0, 1, 0, 0, 0, 0, 0, 0, 0, number]
}

fn bytes(rt: &impl Abort, alloc: Global, number: u8) -> Value {
    let bytes = Octets::new(alloc, identifier(number).as_slice()).expect(rt, "bytes");
    Value::Bytes(bytes)
}

fn letters(rt: &impl Abort, alloc: Global, letters: &str) -> Value {
    Value::Text(text(rt, alloc, letters))
}

/// A row of one value or two.
fn row(rt: &impl Abort, alloc: Global, first: Value, second: Option<Value>) -> Row {
    let mut row = Row::new(alloc);
    row.push(first).expect(rt, "a value");
    if let Some(second) = second {
        row.push(second).expect(rt, "a value");
    }
    row
}

fn sale(rt: &impl Abort, alloc: Global, number: i64, customer: i64, tick: u8) -> Row {
    let mut row = row(rt, alloc, Value::Int(number), Some(Value::Int(customer)));
    row.push(Value::Int(i64::from(tick))).expect(rt, "a value");
    row.push(letters(rt, alloc, who(customer)))
        .expect(rt, "a value");
    row
}

/// One row is the answer.
fn one(rt: &impl Abort, alloc: Global, row: Row) -> Answers {
    let rows = Vec::from_array(alloc, [row]).expect(rt, "memory");
    let rows = Rows::of(alloc, rows).expect(rt, "memory");
    two(rt, alloc, Answer::Rows(rows), None)
}

fn two(rt: &impl Abort, alloc: Global, first: Answer, second: Option<Answer>) -> Answers {
    let mut answers = Answers::new(alloc);
    answers.push(first).expect(rt, "an answer");
    if let Some(second) = second {
        answers.push(second).expect(rt, "an answer");
    }
    answers
}

/// The row that is answered.
fn read(rt: &impl Abort, alloc: Global, says: Says) -> Row {
    match says {
        Says::Balance(balance) => row(rt, alloc, Value::Int(1), Some(Value::Int(balance))),
        Says::Named(key) => row(rt, alloc, Value::Int(key), Some(letters(rt, alloc, "a"))),
        Says::Identifier(number) => row(rt, alloc, bytes(rt, alloc, number), None),
        Says::Item(item) => row(rt, alloc, Value::Int(item), Some(Value::Int(10))),
        Says::Sale(number, customer, tick) => sale(rt, alloc, number, customer, tick),
        _ => row(rt, alloc, letters(rt, alloc, "de"), None),
    }
}

pub fn answers(rt: &impl Abort, alloc: Global, says: Says) -> Answers {
    match says {
        Says::Done => two(rt, alloc, Answer::Done(1), None),
        Says::DoneTwice => two(rt, alloc, Answer::Done(1), Some(Answer::Done(1))),
        Says::Number(number) => two(rt, alloc, Answer::Number(number), None),
        Says::Committed => two(rt, alloc, Answer::Committed, None),
        Says::DoneConflict => two(rt, alloc, Answer::Done(1), Some(Answer::Conflict)),
        Says::DoneInReplay => two(rt, alloc, Answer::Done(1), Some(Answer::CommitInReplay)),
        Says::Duplicate => two(
            rt,
            alloc,
            Answer::Refused(StatementFault::DuplicateKey),
            None,
        ),
        _ => one(rt, alloc, read(rt, alloc, says)),
    }
}

fn of_sequence(rt: &impl Abort, alloc: Global, sequence: &str, value: i64) -> Draw {
    Draw::Seq {
        name: name(rt, alloc, sequence),
        value,
    }
}

pub fn draws(rt: &impl Abort, alloc: Global, drawn: Drawn) -> Draws {
    let mut draws = Draws::new(alloc);
    match drawn {
        Drawn::Nothing => {}
        Drawn::Next(value) => draws
            .push(of_sequence(rt, alloc, "s", value))
            .expect(rt, "a draw"),
        Drawn::Identifier(number) => {
            let id = identifier(number);
            draws.push(Draw::Id { id }).expect(rt, "a draw");
        }
        Drawn::Sale(number, tick) => {
            draws
                .push(of_sequence(rt, alloc, "ord", number))
                .expect(rt, "a draw");
            let tick = u64::from(tick);
            draws.push(Draw::Clock { tick }).expect(rt, "a draw");
        }
    }
    draws
}
