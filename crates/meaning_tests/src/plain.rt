//! Calls on plain tables.

use crate::makers::{account, name, schemas, sequences, value_of_s};
use crate::script::Does::{self, Add, Delete, Insert, Select, Set, Sum};
use crate::script::Puts::{Int, Next, Text, Unset};
use crate::script::Says::{self, Done, Number, Refused};
use crate::script::{answer, statements};
use std::alloc::Global;
use std::process::Abort;
use stmt_meaning::{PlainFault, PlainRun, drawn_value, in_order, plain_call};
use svc_values::StatementFault::{
    DuplicateKey, KeyColumn, KindDiffers, NoSequence, NoTable, NoVar, SumRange,
};
use svc_values::{Answer, Call, Draw, PlainRow, PlainTables, Settings, Shape, Statements, Value};

fn row_of(rt: &impl Abort, alloc: Global, id: i64, balance: i64) -> PlainRow {
    PlainRow {
        table: name(rt, alloc, "acc"),
        key: Value::Int(id),
        row: account(rt, alloc, id, balance),
    }
}

/// acc with these balances, the ids from 1.
fn accounts(rt: &impl Abort, alloc: Global, balances: &[i64]) -> PlainTables {
    let mut tables = PlainTables::new(alloc);
    let mut id = 0i64;
    for balance in balances {
        id = id.wrapping_add(1);
        let row = row_of(rt, alloc, id, *balance);
        tables.push(row).expect(rt, "a row");
    }
    tables
}

fn run(
    rt: &impl Abort,
    alloc: Global,
    tables: &PlainTables,
    statements: Statements,
    draws: &[Draw],
) -> Result<PlainRun, PlainFault> {
    let call = Call::work(statements, false).expect(rt, "a call");
    let schemas = schemas(rt, alloc);
    let sequences = sequences(rt, alloc);
    let shape = Shape { schemas, sequences };
    plain_call(alloc, &shape, tables, &Settings::new(alloc), &call, draws)
}

/// The first answer of a call of this statement on accounts of these balances.
fn answered(rt: &impl Abort, alloc: Global, balances: &[i64], does: Does) -> Option<Answer> {
    let tables = accounts(rt, alloc, balances);
    let statements = statements(rt, alloc, &[does]);
    let run = run(rt, alloc, &tables, statements, &[]).expect(rt, "a run");
    run.answers.into_vec().pop()
}

/// Balances of accounts, a statement on them, and its answer.
type Line = (&'static [i64], Does, Says);

/// Sees that each statement is answered so.
fn are_answered(rt: &impl Abort, alloc: Global, lines: &[Line]) {
    for (place, (balances, does, says)) in lines.iter().enumerate() {
        let wanted = answer(rt, alloc, *says);
        assert!(rt;
            answered(rt, alloc, balances, *does) == Some(wanted),
            "line {place}"
        );
    }
}

/// An account with the greatest balance.
const RICH: &[i64] = &[9223372036854775807];

const NAMES_FIRST: &[Line] = &[
    (RICH, Insert("no", Unset, Int(1)), Refused(NoTable)),
    (RICH, Set(Text, "id", Next("no")), Refused(KeyColumn)),
    (RICH, Set(Text, "bal", Next("no")), Refused(NoSequence)),
    (RICH, Insert("acc", Int(1), Text), Refused(KindDiffers)),
    (RICH, Insert("acc", Int(1), Int(5)), Refused(DuplicateKey)),
];

#[test]
fn names_come_before_operands_and_these_before_kinds(rt: HostRuntime) {
    are_answered(&rt, rt.alloc(), NAMES_FIRST);
}

const LEFT_FIRST: &[Line] = &[
    (RICH, Insert("acc", Unset, Next("no")), Refused(NoVar)),
    (RICH, Insert("acc", Next("no"), Unset), Refused(NoSequence)),
];

#[test]
fn operands_are_read_from_left_to_right(rt: HostRuntime) {
    are_answered(&rt, rt.alloc(), LEFT_FIRST);
}

const SUMS: &[Line] = &[
    (RICH, Sum("t", "name"), Refused(KindDiffers)),
    (RICH, Add(Int(1), "bal", Int(1)), Refused(SumRange)),
    (
        &[9223372036854775807, 1, -2],
        Sum("acc", "bal"),
        Number(9223372036854775806),
    ),
];

#[test]
fn sums_stay_within_integers(rt: HostRuntime) {
    are_answered(&rt, rt.alloc(), SUMS);
}

const MISSING: &[Line] = &[
    (&[100], Add(Int(9), "bal", Int(5)), Done(0)),
    (&[100], Delete(9), Done(0)),
    (&[100], Select(Text), Refused(KindDiffers)),
];

#[test]
fn a_missing_row_is_nothing_to_change(rt: HostRuntime) {
    are_answered(&rt, rt.alloc(), MISSING);
}

/// A deletion, an insert under a new number, and a statement that is refused.
const A_REFUSED_CALL: &[Does] = &[
    Delete(1),
    Insert("acc", Int(2), Next("s")),
    Sum("no", "bal"),
];

/// Sees that the refused call of two values that were drawn used the first alone, and wrote
/// nothing.
fn is_refused(rt: &impl Abort, alloc: Global, tables: &PlainTables) {
    let draws = [value_of_s(rt, alloc, 17), value_of_s(rt, alloc, 18)];
    let statements = statements(rt, alloc, A_REFUSED_CALL);
    let ran = run(rt, alloc, tables, statements, &draws).expect(rt, "a run");
    assert_eq!(rt; ran.used, 1);
    assert!(rt; ran.answers.get(2) == Some(&Answer::Refused(NoTable)));
    assert!(rt; ran.tables == *tables);
}

#[test]
fn a_refused_call_keeps_its_draws_and_no_write(rt: HostRuntime) {
    let tables = accounts(&rt, rt.alloc(), &[100]);
    is_refused(&rt, rt.alloc(), &tables);
    let statements = statements(&rt, rt.alloc(), A_REFUSED_CALL);
    let draws = [Draw::Clock { tick: 1 }];
    let ran = run(&rt, rt.alloc(), &tables, statements, &draws);
    assert!(rt; matches!(ran, Err(PlainFault::DrawsDiffer)));
}

#[test]
fn rows_are_put_in_order(rt: HostRuntime) {
    let alloc = rt.alloc();
    let rows = [row_of(&rt, alloc, 2, 200), row_of(&rt, alloc, 1, 100)];
    let rows = Vec::from_array(alloc, rows).expect(&rt, "rows");
    let tables = in_order(rows).expect(&rt, "tables");
    assert!(rt; tables == accounts(&rt, alloc, &[100, 200]));
}

#[test]
fn a_late_tick_is_the_greatest_integer(rt: HostRuntime) {
    for (tick, want) in [(7, 7), (18446744073709551615, 9223372036854775807)] {
        let value = drawn_value(rt.alloc(), &Draw::Clock { tick }).expect(&rt, "a value");
        assert!(rt; value == Value::Int(want), "{tick}");
    }
}
