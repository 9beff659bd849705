//! The columns by which tables are indexed while calls run again: those that the selects of entries
//! ask often.
ghost use Rattle.std.specs.Prelude.{◌≡◌, ◌<◌, length, map, IfOk, IfSome, IsTrue, OnOk};
ghost use Rattle.std.specs.List.{list_all};
ghost use Rattle.commit_log.specs.meaning.Bases.{schema_in, schemas_of};
ghost use Rattle.table_store.specs.Given.{is_index_of};

use commit_log::{Base, BaseTable};
use std::alloc::Global;
use svc_values::{
    Call, Column, Entry, Name, NoMemory, Piece, Schema, Statement, TryCopy, schema_of,
};
use table_store::IndexOf;

/// From so many selects on an index of their column costs less than they do without.
const OFTEN: u64 = 16;

/// So many columns are counted at most, since each select is looked up among them.
const COUNTED: usize = 64;

/// A column that selects ask, by its name and that of its table, and how many do.
#[derive(Drop)]
struct Asked {
    table: Name,
    column: Name,
    times: u64,
}

impl Asked {
    fn is_of(&self, table: &Name, column: &Name) -> bool {
        self.table == *table && self.column == *column
    }
}

/// One select more of a column.
fn count(asked: &mut Vec<Asked>, table: &Name, column: &Name) -> Result<(), NoMemory> {
    for one in asked.iter_mut() {
        if one.is_of(table, column) {
            one.times = one.times.saturating_add(1);
            return Ok(());
        }
    }
    if asked.len() >= COUNTED {
        return Ok(());
    }
    asked.push(Asked {
        table: table.copied(),
        column: column.copied(),
        times: 1,
    })?;
    Ok(())
}

fn count_statement(asked: &mut Vec<Asked>, statement: &Statement) -> Result<(), NoMemory> {
    match statement {
        Statement::Select { table, column, .. } => count(asked, table, column),
        _ => Ok(()),
    }
}

fn count_call(asked: &mut Vec<Asked>, call: &Call) -> Result<(), NoMemory> {
    let Call::Work { statements, .. } = call else {
        return Ok(());
    };
    for statement in statements.as_slice() {
        count_statement(asked, statement)?;
    }
    Ok(())
}

fn count_pieces(asked: &mut Vec<Asked>, pieces: &[Piece]) -> Result<(), NoMemory> {
    for piece in pieces {
        count_call(asked, &piece.call)?;
    }
    Ok(())
}

/// The columns that the selects of these entries ask, up to 64. Linear in the statements.
fn asked_by(alloc: Global, entries: &[Entry]) -> Result<Vec<Asked>, NoMemory> {
    let mut asked = Vec::new(alloc);
    for entry in entries {
        count_pieces(&mut asked, entry.pieces.as_slice())?;
    }
    Ok(asked)
}

/// The place of a column.
fn place_of(columns: &[Column], name: &Name) -> Option<usize>
    ensures { IfSome result (λ place. place < length columns.now) }
{
    columns.iter().position(|column| column.name == *name)
}

/// The index by a column, of which a declared table has one.
fn index_by(schemas: &[Schema], table: &Name, column: &Name) -> Option<IndexOf>
    ensures { IfSome result (λ index. IsTrue (is_index_of schemas.now index)) }
{
    let schema = schema_of(schemas, table)?;
    let place = place_of(schema.columns.as_slice(), column)?;
    Some(IndexOf {
        table: table.copied(),
        column: place,
    })
}

fn is_among(all: &[IndexOf], index: &IndexOf) -> bool {
    all.iter().any(|one| one.table == index.table && one.column == index.column)
}

/// One index more, where the column is asked often and has none yet.
fn add_often(all: &mut Vec<IndexOf>, schemas: &[Schema], one: &Asked) -> Result<(), NoMemory>
    requires { IsTrue (list_all (is_index_of schemas.now) all.old.items) }
    ensures { OnOk result (IsTrue (list_all (is_index_of schemas.now) all.new.items)) }
{
    if one.times < OFTEN {
        return Ok(());
    }
    let Some(index) = index_by(schemas, &one.table, &one.column) else {
        return Ok(());
    };
    if is_among(all.as_slice(), &index) {
        return Ok(());
    }
    all.push(index)?;
    Ok(())
}

/// The declarations of tables.
fn schemas_in(alloc: Global, tables: &[BaseTable]) -> Result<Vec<Schema>, NoMemory>
    ensures { IfOk result (λ all. all.items ≡ map schema_in tables.now) }
{
    let mut all = Vec::new(alloc);
    for table in tables {
        all.push(table.schema.copy(alloc)?)?;
    }
    Ok(all)
}

/// The first indexes, and more by those of these columns that are asked often.
fn with_often_asked(
    first: Vec<IndexOf>,
    schemas: &[Schema],
    asked: &[Asked],
) -> Result<Vec<IndexOf>, NoMemory>
    requires { IsTrue (list_all (is_index_of schemas.now) first.items) }
    ensures { IfOk result (λ all. IsTrue (list_all (is_index_of schemas.now) all.items)) }
{
    let mut all = first;
    for one in asked {
        add_often(&mut all, schemas, one)?;
    }
    Ok(all)
}

/// The first indexes of a base's tables, and more by the columns that 16 selects of these entries
/// or more ask, of the first 64 that they ask, where they have none yet. Linear in the statements
/// and in the first indexes.
pub fn indexes_for(
    alloc: Global,
    base: &Base,
    entries: &[Entry],
    first: Vec<IndexOf>,
) -> Result<Vec<IndexOf>, NoMemory>
    requires { IsTrue (list_all (is_index_of (schemas_of base.now)) first.items) }
    ensures { IfOk result (λ all. IsTrue (list_all (is_index_of (schemas_of base.now)) all.items)) }
{
    let schemas = schemas_in(alloc, base.tables.as_slice())?;
    let asked = asked_by(alloc, entries)?;
    with_often_asked(first, schemas.as_slice(), asked.as_slice())
}
