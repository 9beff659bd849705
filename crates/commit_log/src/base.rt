//! What a store begins with.

use std::alloc::Global;
use svc_values::{Limited, Name, NoMemory, Row, Schema, TryCopy};

/// The rows of a table, in any order: at most 10,000.
pub type BaseRows = Limited<Row, 10000>;

/// A table with its starting rows.
#[derive(PartialEq, Eq, Drop)]
pub struct BaseTable {
    pub schema: Schema,
    pub rows: BaseRows,
}

/// The tables of a base: at most 32.
pub type BaseTables = Limited<BaseTable, 32>;

/// A sequence: its name, its first value, and whether what is drawn of it is kept for a replay.
#[derive(PartialEq, Eq, Drop)]
pub struct BaseSequence {
    pub name: Name,
    pub start: i64,
    pub keep: bool,
}

/// The sequences of a base: at most 32.
pub type BaseSequences = Limited<BaseSequence, 32>;

/// What a store begins with: the tables with their rows, and the sequences.
#[derive(PartialEq, Eq, Drop)]
pub struct Base {
    pub tables: BaseTables,
    pub sequences: BaseSequences,
}

impl TryCopy for BaseTable {
    fn copy(&self, alloc: Global) -> Result<BaseTable, NoMemory> {
        Ok(BaseTable {
            schema: self.schema.copy(alloc)?,
            rows: self.rows.copy(alloc)?,
        })
    }
}

impl TryCopy for BaseSequence {
    fn copy(&self, alloc: Global) -> Result<BaseSequence, NoMemory> {
        Ok(BaseSequence {
            name: self.name.copy(alloc)?,
            start: self.start,
            keep: self.keep,
        })
    }
}

impl TryCopy for Base {
    fn copy(&self, alloc: Global) -> Result<Base, NoMemory> {
        Ok(Base {
            tables: self.tables.copy(alloc)?,
            sequences: self.sequences.copy(alloc)?,
        })
    }
}
