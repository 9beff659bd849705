//! What is committed at a place, and what is kept of it.
ghost use Rattle.std.specs.Prelude.{◌≡◌, IfOk};
ghost use Rattle.std.specs.Option.{option_copied};
ghost use Rattle.table_store.specs.Rows.{same_keyed};
ghost use Rattle.table_txn.specs.Found.{IsFoundAt, kept, keyed_or_none, same_optional, same_found};

use std::alloc::Global;
use svc_values::{NoMemory, Place, Row, TryCopy};
use table_store::{RowMap, Tables};

/// What is committed at a place: the row of its key or none, or the rows of its table.
#[derive(Clone, Copy)]
pub(crate) enum Committed<'a> {
    Row(Option<&'a Row>),
    Table(Option<&'a RowMap>),
}

/// What was committed at a place: a copy of its row, or the rows of its table, which are shared and
/// not copied.
#[derive(Drop)]
pub(crate) enum Found {
    Row(Option<Row>),
    Table(RowMap),
}

/// What is committed at a place: the logarithm of the rows.
pub(crate) fn committed_at<'a>(tables: &'a Tables, at: &Place) -> Committed<'a>
    ensures { IsFoundAt tables.now.rows at.now (kept result) }
{
    match at {
        Place::Row { table, key } => Committed::Row(tables.get(table, key)),
        Place::Table { table } => Committed::Table(tables.row_map(table)),
    }
}

fn is_same_row(found: &Option<Row>, committed: Option<&Row>) -> bool
    ensures { result ≡ same_optional found.now (option_copied committed.entry) }
{
    match found {
        None => committed.is_none(),
        Some(row) => match committed {
            None => false,
            Some(other) => *row == *other,
        },
    }
}

/// Row by row, and no row is copied.
fn is_same_table(found: &RowMap, committed: Option<&RowMap>) -> bool
    ensures { result ≡ same_keyed found.now (keyed_or_none (option_copied committed.entry)) }
{
    match committed {
        None => found.is_empty(),
        Some(rows) => found.is_same(rows),
    }
}

impl Found {
    /// Keeps what is committed.
    pub(crate) fn new(alloc: Global, committed: Committed) -> Result<Found, NoMemory>
        ensures { IfOk result (λ found. found ≡ kept committed.entry) }
    {
        match committed {
            Committed::Row(None) => Ok(Found::Row(None)),
            Committed::Row(Some(row)) => Ok(Found::Row(Some(row.copy(alloc)?))),
            Committed::Table(None) => Ok(Found::Table(RowMap::new(alloc)?)),
            Committed::Table(Some(rows)) => Ok(Found::Table(rows.share()?)),
        }
    }

    /// Whether the same is committed.
    pub(crate) fn is(&self, committed: Committed) -> bool
        ensures { result ≡ same_found self.now (kept committed.entry) }
    {
        match self {
            Found::Row(row) => match committed {
                Committed::Row(other) => is_same_row(row, other),
                Committed::Table(_) => false,
            },
            Found::Table(rows) => match committed {
                Committed::Row(_) => false,
                Committed::Table(other) => is_same_table(rows, other),
            },
        }
    }
}
