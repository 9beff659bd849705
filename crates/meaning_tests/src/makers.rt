//! Values that the tests begin with: the tables acc (id int, bal int) and t (id int, name text),
//! and the sequence s.

use std::alloc::Global;
use std::process::Abort;
use svc_values::{
    Column, Columns, Draw, Draws, Kind, Name, Names, Row, Schema, Schemas, Text, Value, Write,
    Writes,
};
use table_store::Tables;

pub fn name(rt: &impl Abort, alloc: Global, text: &str) -> Name {
    Name::new(alloc, text).expect(rt, "a name")
}

pub fn text(rt: &impl Abort, alloc: Global, text: &str) -> Text {
    Text::new(alloc, text).expect(rt, "a text")
}

fn column(rt: &impl Abort, alloc: Global, text: &str, kind: Kind) -> Column {
    Column {
        name: name(rt, alloc, text),
        kind,
    }
}

/// A table with the columns id int and another one.
fn schema(rt: &impl Abort, alloc: Global, table: &str, other: Column) -> Schema {
    let mut columns = Columns::new(alloc);
    let id = column(rt, alloc, "id", Kind::Int);
    columns.push(id).expect(rt, "a column");
    columns.push(other).expect(rt, "a column");
    Schema::new(name(rt, alloc, table), columns).expect(rt, "a table")
}

/// The table acc.
pub fn accounts(rt: &impl Abort, alloc: Global) -> Schema {
    let balance = column(rt, alloc, "bal", Kind::Int);
    schema(rt, alloc, "acc", balance)
}

/// The table t.
fn texts(rt: &impl Abort, alloc: Global) -> Schema {
    let text = column(rt, alloc, "name", Kind::Text);
    schema(rt, alloc, "t", text)
}

pub fn schemas(rt: &impl Abort, alloc: Global) -> Schemas {
    let mut schemas = Schemas::new(alloc);
    schemas.push(accounts(rt, alloc)).expect(rt, "a table");
    schemas.push(texts(rt, alloc)).expect(rt, "a table");
    schemas
}

/// The name of the only sequence.
pub fn sequences(rt: &impl Abort, alloc: Global) -> Names {
    let mut names = Names::new(alloc);
    names.push(name(rt, alloc, "s")).expect(rt, "a name");
    names
}

/// A value of the sequence s.
pub fn value_of_s(rt: &impl Abort, alloc: Global, value: i64) -> Draw {
    let name = name(rt, alloc, "s");
    Draw::Seq { name, value }
}

pub fn account(rt: &impl Abort, alloc: Global, id: i64, balance: i64) -> Row {
    let mut row = Row::new(alloc);
    row.push(Value::Int(id)).expect(rt, "a value");
    row.push(Value::Int(balance)).expect(rt, "a value");
    row
}

/// Draws of these values of the sequence s.
pub fn draws_of_s(rt: &impl Abort, alloc: Global, values: [i64; 2]) -> Draws {
    let mut draws = Draws::new(alloc);
    for value in values {
        let draw = value_of_s(rt, alloc, value);
        draws.push(draw).expect(rt, "a draw");
    }
    draws
}

/// The tables without a row.
pub fn no_rows(rt: &impl Abort, alloc: Global) -> Tables {
    Tables::new(alloc, schemas(rt, alloc), Vec::new(alloc)).expect(rt, "tables")
}

/// The row of an account, if it has a balance.
fn row_of(rt: &impl Abort, alloc: Global, id: i64, balance: Option<i64>) -> Option<Row> {
    match balance {
        None => None,
        Some(balance) => Some(account(rt, alloc, id, balance)),
    }
}

/// A write of this account, or its deletion.
pub fn write_of(rt: &impl Abort, alloc: Global, id: i64, balance: Option<i64>) -> Write {
    Write {
        table: name(rt, alloc, "acc"),
        key: Value::Int(id),
        row: row_of(rt, alloc, id, balance),
    }
}

/// The writes of these accounts, one after the other.
pub fn writes_of(rt: &impl Abort, alloc: Global, accounts: &[(i64, Option<i64>)]) -> Writes {
    let mut writes = Writes::new(alloc);
    for (id, balance) in accounts {
        let write = write_of(rt, alloc, *id, *balance);
        writes.push(write).expect(rt, "a write");
    }
    writes
}

/// Applies the writes, which fit.
pub fn apply(rt: &impl Abort, tables: &mut Tables, writes: &Writes) {
    assert!(rt; tables.all_fit(writes));
    tables.apply(writes).expect(rt, "memory");
}

/// The same with writes of these accounts.
pub fn write(rt: &impl Abort, alloc: Global, tables: &mut Tables, accounts: &[(i64, Option<i64>)]) {
    apply(rt, tables, &writes_of(rt, alloc, accounts));
}
