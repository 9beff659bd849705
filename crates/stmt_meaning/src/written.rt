//! Plain tables after a write.
ghost use Rattle.std.specs.Prelude.{◌≡◌, ◌≤◌, OnOk, OnErr, position, option_to_list};
ghost use Rattle.std.specs.Vec.{vec_capacity, vec_len};
ghost use Rattle.svc_values.specs.meaning.Tables.{is_at, comes_before as comes_before_def, put_row as put_row_def, with_write, with_writes, without};

use std::cmp::Ordering;
use svc_values::{Name, NoMemory, Place, PlainRow, Value, Write};

/// By table, and in a table by key.
pub fn comes_before(a: &PlainRow, b: &PlainRow) -> bool
    ensures { result ≡ comes_before_def a.now b.now }
{
    match a.table.cmp(&b.table) {
        Ordering::Less => true,
        Ordering::Equal => a.key.cmp(&b.key) == Ordering::Less,
        Ordering::Greater => false,
    }
}

/// Where the first row stands that comes after this one.
fn first_after(rows: &[PlainRow], row: &PlainRow) -> Option<usize>
    ensures { result ≡ position (λ other. comes_before_def row.now other) rows.now }
{
    rows.iter().position(|other| comes_before(row, other))
}

/// Whether the row is the one of this table and key.
pub fn stands_at(row: &PlainRow, table: &Name, key: &Value) -> bool
    ensures { result ≡ is_at (Place.Row table.now key.now) row.now }
{
    row.table == *table && row.key == *key
}

/// Whether the row is in the table.
pub fn stands_in(row: &PlainRow, table: &Name) -> bool
    ensures { result ≡ is_at (Place.Table table.now) row.now }
{
    row.table == *table
}

/// Takes away the row of a table and key, if it is there.
fn remove_row(rows: &mut Vec<PlainRow>, table: &Name, key: &Value)
    ensures rows { rows.new.items ≡ without rows.old.items table.now key.now }
    ensures fewer { vec_len rows.new ≤ vec_len rows.old }
    ensures room { vec_capacity rows.new ≡ vec_capacity rows.old }
{
    rows.retain(|row| !stands_at(row, table, key));
}

/// Puts the row in before the first that it comes before. Where there is room for it, it is put in.
fn put_row(rows: &mut Vec<PlainRow>, row: PlainRow) -> Result<(), NoMemory>
    ensures ok { OnOk result (rows.new.items ≡ put_row_def row rows.old.items) }
    ensures full { OnErr result (vec_capacity rows.old ≤ vec_len rows.old) }
{
    let at = first_after(rows.as_slice(), &row).unwrap_or(rows.len());
    rows.insert(at, row)?;
    Ok(())
}

/// Does a write: its row goes in the place of the one with its table and key, if any, or that one
/// is taken away. Linear in the rows. Where memory runs out the rows are as they were.
pub fn put_write(rows: &mut Vec<PlainRow>, write: Write) -> Result<(), NoMemory>
    ensures ok { OnOk result (rows.new.items ≡ with_write rows.old.items write) }
    ensures err { OnErr result (rows.new.items ≡ rows.old.items) }
{
    let Write { table, key, row } = write;
    match row {
        None => {
            remove_row(rows, &table, &key);
            Ok(())
        }
        Some(row) => {
            rows.reserve(1)?;
            remove_row(rows, &table, &key);
            put_row(rows, PlainRow { table, key, row })
        }
    }
}

/// Does the write of a statement, if it has one. Where memory runs out the rows are as they were.
pub fn put_write_if_any(rows: &mut Vec<PlainRow>, write: Option<Write>) -> Result<(), NoMemory>
    ensures ok { OnOk result (rows.new.items ≡ with_writes rows.old.items (option_to_list write)) }
    ensures err { OnErr result (rows.new.items ≡ rows.old.items) }
{
    match write {
        None => Ok(()),
        Some(write) => put_write(rows, write),
    }
}
