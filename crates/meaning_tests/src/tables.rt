//! Committed tables: what writes leave, and how many rows a select answers.

use crate::makers::{accounts, apply, name, write, write_of};
use std::alloc::Global;
use std::process::Abort;
use svc_values::{Name, Row, Schemas, Test, Value, Writes};
use table_store::{IndexOf, RowMap, TableRows, Tables, are_indexes};

/// The table `acc` with an integer `id` and an integer `bal`.
fn schemas(rt: &impl Abort, alloc: Global) -> Schemas {
    let mut schemas = Schemas::new(alloc);
    schemas.push(accounts(rt, alloc)).expect(rt, "a table");
    schemas
}

/// That table without a row.
fn empty(rt: &impl Abort, alloc: Global) -> Tables {
    Tables::new(alloc, schemas(rt, alloc), Vec::new(alloc)).expect(rt, "tables")
}

/// The same, indexed by `bal`.
fn indexed(rt: &impl Abort, alloc: Global) -> Tables {
    let table = name(rt, alloc, "acc");
    let indexes = [IndexOf { table, column: 1 }];
    let schemas = schemas(rt, alloc);
    assert!(rt; are_indexes(schemas.as_slice(), &indexes));
    Tables::indexed(alloc, schemas, Vec::new(alloc), &indexes).expect(rt, "tables")
}

/// Whether this is one table with two rows, of these accounts.
fn is_of(all: &[TableRows], first: i64, last: i64) -> bool {
    match all {
        [one] => match one.rows.as_slice() {
            [row, next] => {
                row.get(0) == Some(&Value::Int(first)) && next.get(0) == Some(&Value::Int(last))
            }
            _ => false,
        },
        _ => false,
    }
}

fn gives_up_two(rt: &impl Abort, tables: Tables) {
    let all = tables.into_rows().expect(rt, "the rows");
    assert!(rt; is_of(all.as_slice(), 1, 2));
}

/// Whether the account has this balance.
fn has(tables: &Tables, table: &Name, id: i64, balance: i64) -> bool {
    match tables.get(table, &Value::Int(id)) {
        Some(row) => row.get(1) == Some(&Value::Int(balance)),
        None => false,
    }
}

/// Accounts, the first and the third of which are written twice.
const WRITTEN: &[(i64, Option<i64>)] = &[
    (2, Some(5)),
    (1, Some(100)),
    (3, Some(7)),
    (1, Some(90)),
    (3, None),
];

#[test]
fn rows_stand_by_key_and_the_last_write_counts(rt: HostRuntime) {
    let alloc = rt.alloc();
    let mut tables = empty(&rt, alloc);
    write(&rt, alloc, &mut tables, WRITTEN);
    let table = name(&rt, alloc, "acc");
    assert!(rt; has(&tables, &table, 1, 90));
    assert!(rt; tables.get(&table, &Value::Int(3)).is_none());
    assert!(rt; tables.schema(&table).is_some());
    gives_up_two(&rt, tables);
}

const TWO: &[(i64, Option<i64>)] = &[(2, Some(7)), (1, Some(7))];

/// The table with two rows.
fn filled(rt: &impl Abort, alloc: Global) -> Tables {
    let mut tables = empty(rt, alloc);
    write(rt, alloc, &mut tables, TWO);
    tables
}

/// The rows of the table, shared.
fn shared(rt: &impl Abort, tables: &Tables, table: &Name) -> RowMap {
    let rows = tables.row_map(table).expect(rt, "rows");
    rows.share().expect(rt, "memory")
}

#[test]
fn rows_are_given_up_whether_they_are_shared_or_not(rt: HostRuntime) {
    let alloc = rt.alloc();
    gives_up_two(&rt, filled(&rt, alloc));
    let tables = filled(&rt, alloc);
    let rows = shared(&rt, &tables, &name(&rt, alloc, "acc"));
    gives_up_two(&rt, tables);
    assert_eq!(rt; rows.count().expect(&rt, "a count"), 2);
    assert!(rt; rows.get(&Value::Int(2)).is_some());
}

/// Writes of 1,100 accounts, each in front of all before it, so that blocks of rows are divided.
fn falling(rt: &impl Abort, alloc: Global) -> Writes {
    let mut writes = Writes::new(alloc);
    for n in 0..1_100 {
        let write = write_of(rt, alloc, 1_100_i64.saturating_sub(n), Some(n));
        writes.push(write).expect(rt, "a write");
    }
    writes
}

/// Deletes of all of these but the first and the last, so that whole blocks go.
fn deleted(rt: &impl Abort, alloc: Global) -> Writes {
    let mut writes = Writes::new(alloc);
    for id in 2..1_100 {
        let write = write_of(rt, alloc, id, None);
        writes.push(write).expect(rt, "a write");
    }
    writes
}

#[test]
fn rows_come_in_front_and_go_and_who_shares_them_sees_none_of_it(rt: HostRuntime) {
    let alloc = rt.alloc();
    let table = name(&rt, alloc, "acc");
    let mut tables = empty(&rt, alloc);
    apply(&rt, &mut tables, &falling(&rt, alloc));
    let rows = shared(&rt, &tables, &table);
    assert!(rt; has(&tables, &table, 700, 400));
    apply(&rt, &mut tables, &deleted(&rt, alloc));
    let found = selected(&rt, alloc, &tables, 0, Test::Ge, 2);
    assert!(rt; are_found(&found, &[1_100]));
    assert!(rt; tables.get(&table, &Value::Int(700)).is_none());
    assert_eq!(rt; rows.count().expect(&rt, "a count"), 1_100);
    assert!(rt; rows.get(&Value::Int(700)).is_some());
    assert!(rt; !rows.is_same(&shared(&rt, &tables, &table)));
}

/// The rows that a select by the key or by the balance finds, if it answers.
fn selected(
    rt: &impl Abort,
    alloc: Global,
    tables: &Tables,
    column: usize,
    test: Test,
    value: i64,
) -> Option<Vec<Row>> {
    let table = name(rt, alloc, "acc");
    let found = tables.select(&table, column, test, &Value::Int(value));
    found.expect(rt, "memory")
}

/// The writes of 33 accounts.
fn many(rt: &impl Abort, alloc: Global) -> Writes {
    let mut writes = Writes::new(alloc);
    for id in 0..33 {
        let write = write_of(rt, alloc, id, Some(1));
        writes.push(write).expect(rt, "a write");
    }
    writes
}

#[test]
fn a_select_answers_32_rows_and_no_more(rt: HostRuntime) {
    let alloc = rt.alloc();
    let mut tables = empty(&rt, alloc);
    apply(&rt, &mut tables, &many(&rt, alloc));
    assert!(rt; selected(&rt, alloc, &tables, 1, Test::Eq, 1).is_none());
    let below = selected(&rt, alloc, &tables, 0, Test::Lt, 32);
    assert_eq!(rt; below.map(|rows| rows.len()), Some(32));
}

/// Whether these rows were found, in this order.
fn are_found(found: &Option<Vec<Row>>, ids: &[i64]) -> bool {
    let Some(rows) = found else {
        return false;
    };
    if rows.len() != ids.len() {
        return false;
    }
    for at in 0..ids.len() {
        if rows[at].get(0) != Some(&Value::Int(ids[at])) {
            return false;
        }
    }
    true
}

/// Accounts, of which the first is written twice and the second is deleted.
const CHANGED: &[(i64, Option<i64>)] = &[
    (1, Some(9)),
    (2, Some(4)),
    (3, Some(3)),
    (1, Some(4)),
    (2, None),
    (4, Some(8)),
];

/// Tests of the balance, and the accounts that they find.
const FOUND: [(Test, i64, &[i64]); 3] = [
    (Test::Lt, 5, &[1, 3]),
    (Test::Ge, 4, &[1, 4]),
    (Test::Eq, 9, &[]),
];

#[test]
fn an_index_follows_the_writes_and_answers_in_order_of_key(rt: HostRuntime) {
    let alloc = rt.alloc();
    let mut tables = indexed(&rt, alloc);
    write(&rt, alloc, &mut tables, CHANGED);
    for (test, value, ids) in FOUND {
        let found = selected(&rt, alloc, &tables, 1, test, value);
        assert!(rt; are_found(&found, ids), "{value}");
    }
}
