//! Columns of tables.
ghost use Rattle.canon_bytes.specs.meaning.ColumnBytes.{column_at};
ghost use Rattle.canon_bytes.specs.ColumnBytes.{spell_column, FitsColumn, column_again};

use crate::canon::{Put, Take};
use crate::fault::ReadFault;
use std::alloc::Global;
use svc_values::{Column, Kind, Name, NoMemory};

#[tactic(auto, unfolding(crate::specs::meaning::ColumnBytes::column_at, crate::specs::ColumnBytes::spell_column))]
impl Take for Column {
    ghost spelling = { spell_column };

    ghost fits = { FitsColumn };

    ghost reading = { column_at };

    ghost again = { column_again };

    fn take(alloc: Global, bytes: &[u8]) -> Result<(Column, &[u8]), ReadFault> {
        let (name, rest) = Name::take(alloc, bytes)?;
        let (kind, rest) = Kind::take(alloc, rest)?;
        Ok((Column { name, kind }, rest))
    }
}

#[tactic(auto, unfolding(crate::specs::ColumnBytes::spell_column))]
impl Put for Column {
    fn put(&self, out: &mut Vec<u8>) -> Result<(), NoMemory> {
        self.name.put(out)?;
        self.kind.put(out)
    }
}
