//! Plain tables: the rows as a list.
ghost use Rattle.std.specs.Ordering.{as_partial_cmp};
ghost use Rattle.svc_values.specs.Tables.{place_cmp};
ghost use Rattle.svc_values.specs.OrderLaws.{place_cmp_total, place_cmp_partial, place_cmp_agrees, place_ties};

use crate::list::Listed;
use crate::memory::{NoMemory, TryCopy};
use crate::text::Name;
use crate::value::{Row, Value};
use std::alloc::Global;
use std::cmp::Ordering;

/// A row with its table and its key, which is its first value.
#[derive(PartialEq, Eq, Drop)]
pub struct PlainRow {
    pub table: Name,
    pub key: Value,
    pub row: Row,
}

/// All rows of a service, in the order of table and key, without a limit.
pub type PlainTables = Listed<PlainRow>;

/// Where a statement reads: one row, there or not, or a whole table. Rows come before tables, by
/// key and then by table, and tables by name: keys differ where tables seldom do, so that places
/// are mostly told apart by their keys alone.
#[derive(PartialEq, Eq, Drop)]
pub enum Place {
    Row { table: Name, key: Value },
    Table { table: Name },
}

impl PartialOrd for Place {
    ghost partial_cmp = { as_partial_cmp place_cmp };

    ghost laws = { place_cmp_partial };

    fn partial_cmp(&self, other: &Place) -> Option<Ordering> {
        Some(self.cmp(other))
    }
}

impl Ord for Place {
    ghost cmp = { place_cmp };

    ghost total = { place_cmp_total };

    ghost matches_partial_cmp = { place_cmp_agrees };

    ghost matches_eq = { place_ties };

    fn cmp(&self, other: &Place) -> Ordering {
        match self {
            Place::Row { table, key } => match other {
                Place::Row {
                    table: other_table,
                    key: other_key,
                } => match key.cmp(other_key) {
                    Ordering::Equal => table.cmp(other_table),
                    unequal => unequal,
                },
                Place::Table { .. } => Ordering::Less,
            },
            Place::Table { table } => match other {
                Place::Row { .. } => Ordering::Greater,
                Place::Table { table: other_table } => table.cmp(other_table),
            },
        }
    }
}

impl TryCopy for PlainRow {
    fn copy(&self, alloc: Global) -> Result<PlainRow, NoMemory> {
        Ok(PlainRow {
            table: self.table.copied(),
            key: self.key.copy(alloc)?,
            row: self.row.copy(alloc)?,
        })
    }
}

impl TryCopy for Place {
    fn copy(&self, alloc: Global) -> Result<Place, NoMemory> {
        match self {
            Place::Row { table, key } => Ok(Place::Row {
                table: table.copied(),
                key: key.copy(alloc)?,
            }),
            Place::Table { table } => Ok(Place::Table {
                table: table.copied(),
            }),
        }
    }
}
