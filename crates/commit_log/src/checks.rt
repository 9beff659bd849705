//! Whether a base keeps its rules.
ghost use Rattle.std.specs.Prelude.{◌≡◌, ◌&&◌, IfOk, IsTrue, map};
ghost use Rattle.std.specs.List.{IsAllAdjacentAnswer, list_all};
ghost use Rattle.svc_values.specs.meaning.Kinds.{row_fits};
ghost use Rattle.svc_values.specs.meaning.Schemas.{is_declared as is_declared_def, key_of as key_of_def};
ghost use Rattle.svc_values.specs.meaning.Names.{names_differ};
ghost use Rattle.commit_log.specs.meaning.Bases.{table_name, keys_differ as keys_differ_def, is_table as is_table_def, is_sequence as is_sequence_def, is_base as is_base_def, schemas_of as schemas_of_def, sequence_name, shape_of as shape_of_def};
ghost use Rattle.commit_log.specs.Bases.{has_lower_key as has_lower_key_def};

use crate::base::{Base, BaseSequence, BaseTable};
use crate::named::are_distinct;
use std::alloc::Global;
use svc_values::{KeySet, Names, NoMemory, Row, Schema, Schemas, Shape, TryCopy, Value};

// Whether there is a column, and no two have one name.
fn is_declared(schema: &Schema) -> bool
    ensures { result ≡ is_declared_def schema.now }
{
    !schema.columns.is_empty() && are_distinct(schema.columns.as_slice())
}

// A copy of the row's key.
fn key_of(alloc: Global, row: &Row) -> Result<Value, NoMemory>
    ensures { IfOk result (λ key. key ≡ key_of_def row.now) }
{
    match row.as_slice() {
        [] => Ok(Value::Int(0)),
        [key, ..] => key.copy(alloc),
    }
}

// Whether the key of one row is below that of another.
fn has_lower_key(row: &Row, other: &Row) -> bool
    ensures { result ≡ has_lower_key_def row.now other.now }
{
    match row.get(0) {
        None => match other.get(0) {
            None => false,
            Some(above) => Value::Int(0) < *above,
        },
        Some(key) => match other.get(0) {
            None => *key < Value::Int(0),
            Some(above) => *key < *above,
        },
    }
}

// Whether each row has a higher key than the one before, so that no two have one.
fn keys_rise(rows: &[Row]) -> bool
    ensures rise { IsAllAdjacentAnswer (λ row next lower. lower ≡ has_lower_key_def row next)
        rows.now result }
    ensures apart { IsTrue result → IsTrue (keys_differ_def rows.now) }
{
    rows.is_sorted_by(|row, next| has_lower_key(row, next))
}

// Whether no two rows have one key: linear in rows in order of key, for which it takes no memory,
// and n log n for n rows in another order.
fn keys_differ(alloc: Global, rows: &[Row]) -> Result<bool, NoMemory>
    ensures { IfOk result (λ differ. differ ≡ keys_differ_def rows.now) }
{
    if keys_rise(rows) {
        return Ok(true);
    }
    let mut taken = KeySet::new(alloc);
    for row in rows {
        let key = key_of(alloc, row)?;
        if taken.has(&key) {
            return Ok(false);
        }
        taken.add(key)?;
    }
    Ok(true)
}

// Whether each row has one value for each column, of its kind.
fn rows_fit(schema: &Schema, rows: &[Row]) -> bool
    ensures { result ≡ list_all (row_fits schema.now.columns) rows.now }
{
    rows.iter().all(|row| schema.fits(row))
}

// Whether the table is declared as it may be, and its rows fit.
fn has_fitting_rows(table: &BaseTable) -> bool
    ensures { result ≡ (is_declared_def table.now.schema
        && list_all (row_fits table.now.schema.columns) table.now.rows) }
{
    is_declared(&table.schema) && rows_fit(&table.schema, table.rows.as_slice())
}

#[tactic(auto, unfolding(crate::specs::meaning::Bases::is_table))]
fn is_table(alloc: Global, table: &BaseTable) -> Result<bool, NoMemory>
    ensures { IfOk result (λ is. is ≡ is_table_def table.now) }
{
    if !has_fitting_rows(table) {
        return Ok(false);
    }
    keys_differ(alloc, table.rows.as_slice())
}

fn are_tables(alloc: Global, tables: &[BaseTable]) -> Result<bool, NoMemory>
    ensures { IfOk result (λ are. are ≡ list_all is_table_def tables.now) }
{
    for table in tables {
        if !is_table(alloc, table)? {
            return Ok(false);
        }
    }
    Ok(true)
}

// Whether a sequence begins at 0 to 1,000,000,000.
fn is_sequence(sequence: &BaseSequence) -> bool
    ensures { result ≡ is_sequence_def sequence.now }
{
    sequence.start >= 0 && sequence.start <= 1_000_000_000
}

fn are_sequences(sequences: &[BaseSequence]) -> bool
    ensures { result ≡ list_all is_sequence_def sequences.now }
{
    sequences.iter().all(is_sequence)
}

// Whether names stand once, and sequences begin as they may.
fn has_fitting_names(base: &Base) -> bool
    ensures { result ≡ ((names_differ (map table_name base.now.tables)
        && names_differ (map sequence_name base.now.sequences))
        && list_all is_sequence_def base.now.sequences) }
{
    let sequences = base.sequences.as_slice();
    are_distinct(base.tables.as_slice()) && are_distinct(sequences) && are_sequences(sequences)
}

// Whether a store may begin with this base: n log n for n rows.
#[tactic(auto, unfolding(crate::specs::meaning::Bases::is_base))]
pub fn is_base(alloc: Global, base: &Base) -> Result<bool, NoMemory>
    ensures { IfOk result (λ is. is ≡ is_base_def base.now) }
{
    if !has_fitting_names(base) {
        return Ok(false);
    }
    are_tables(alloc, base.tables.as_slice())
}

// The declarations of a base.
fn schemas_of(alloc: Global, base: &Base) -> Result<Schemas, NoMemory>
    ensures { IfOk result (λ schemas. schemas ≡ schemas_of_def base.now) }
{
    let mut schemas = Vec::new(alloc);
    for table in base.tables.as_slice() {
        schemas.push(table.schema.copy(alloc)?)?;
    }
    Ok(Schemas::from_vec(schemas))
}

// The names of the sequences of a base.
fn names_of(alloc: Global, base: &Base) -> Result<Names, NoMemory>
    ensures { IfOk result (λ names. names ≡ map sequence_name base.now.sequences) }
{
    let mut names = Vec::new(alloc);
    for sequence in base.sequences.as_slice() {
        names.push(sequence.name.copy(alloc)?)?;
    }
    Ok(Names::from_vec(names))
}

// What exists in a base, whatever its rows.
pub fn shape_of(alloc: Global, base: &Base) -> Result<Shape, NoMemory>
    ensures { IfOk result (λ shape. shape ≡ shape_of_def base.now) }
{
    Ok(Shape {
        schemas: schemas_of(alloc, base)?,
        sequences: names_of(alloc, base)?,
    })
}
