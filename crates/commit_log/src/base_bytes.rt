//! The canonical bytes of a base.
ghost use Rattle.commit_log.specs.meaning.BaseBytes.{table_at, sequence_at, base_at};
ghost use Rattle.commit_log.specs.BaseBytes.{spell_table, spell_sequence, spell_base, FitsTable, FitsSequence, FitsBase, table_again, sequence_again, base_again};

use crate::base::{Base, BaseRows, BaseSequence, BaseSequences, BaseTable, BaseTables};
use canon_bytes::{Put, ReadFault, Take};
use std::alloc::Global;
use svc_values::{Columns, Name, NoMemory, Schema};

#[tactic(auto, unfolding(crate::specs::meaning::BaseBytes::table_at, crate::specs::BaseBytes::spell_table))]
impl Take for BaseTable {
    ghost spelling = { spell_table };

    ghost fits = { FitsTable };

    ghost reading = { table_at };

    ghost again = { table_again };

    fn take(alloc: Global, bytes: &[u8]) -> Result<(BaseTable, &[u8]), ReadFault> {
        let (name, rest) = Name::take(alloc, bytes)?;
        let (columns, rest) = Columns::take(alloc, rest)?;
        let (rows, rest) = BaseRows::take(alloc, rest)?;
        let schema = Schema { name, columns };
        Ok((BaseTable { schema, rows }, rest))
    }
}

#[tactic(auto, unfolding(crate::specs::BaseBytes::spell_table))]
impl Put for BaseTable {
    fn put(&self, out: &mut Vec<u8>) -> Result<(), NoMemory> {
        self.schema.name.put(out)?;
        self.schema.columns.put(out)?;
        self.rows.put(out)
    }
}

#[tactic(auto, unfolding(crate::specs::meaning::BaseBytes::sequence_at, crate::specs::BaseBytes::spell_sequence))]
impl Take for BaseSequence {
    ghost spelling = { spell_sequence };

    ghost fits = { FitsSequence };

    ghost reading = { sequence_at };

    ghost again = { sequence_again };

    fn take(alloc: Global, bytes: &[u8]) -> Result<(BaseSequence, &[u8]), ReadFault> {
        let (name, rest) = Name::take(alloc, bytes)?;
        let (start, rest) = i64::take(alloc, rest)?;
        let (keep, rest) = bool::take(alloc, rest)?;
        Ok((BaseSequence { name, start, keep }, rest))
    }
}

#[tactic(auto, unfolding(crate::specs::BaseBytes::spell_sequence))]
impl Put for BaseSequence {
    fn put(&self, out: &mut Vec<u8>) -> Result<(), NoMemory> {
        self.name.put(out)?;
        self.start.put(out)?;
        self.keep.put(out)
    }
}

#[tactic(auto, unfolding(crate::specs::meaning::BaseBytes::base_at, crate::specs::BaseBytes::spell_base))]
impl Take for Base {
    ghost spelling = { spell_base };

    ghost fits = { FitsBase };

    ghost reading = { base_at };

    ghost again = { base_again };

    fn take(alloc: Global, bytes: &[u8]) -> Result<(Base, &[u8]), ReadFault> {
        let (tables, rest) = BaseTables::take(alloc, bytes)?;
        let (sequences, rest) = BaseSequences::take(alloc, rest)?;
        Ok((Base { tables, sequences }, rest))
    }
}

#[tactic(auto, unfolding(crate::specs::BaseBytes::spell_base))]
impl Put for Base {
    fn put(&self, out: &mut Vec<u8>) -> Result<(), NoMemory> {
        self.tables.put(out)?;
        self.sequences.put(out)
    }
}
