//! The base that a document gives: copies of its tables and sequences.
ghost use Rattle.std.specs.Prelude.{◌≡◌, ◌≤◌, IfOk, IsTrue, length, map};
ghost use Rattle.std.specs.List.{list_all};
ghost use Rattle.document_forms.specs.Keeping.{is_table};
ghost use Rattle.run_clauses.specs.meaning.Before.{base_table, base_sequence};

use commit_log::{BaseRows, BaseSequence, BaseSequences, BaseTable, BaseTables};
use outage_schedule::{DocSequence, DocTable};
use std::alloc::Global;
use svc_values::{NoMemory, Schema, TryCopy, copies};

/// A table of the base.
#[tactic(auto, unfolding(document_forms::specs::Keeping::is_table))]
fn table_in(alloc: Global, table: &DocTable) -> Result<BaseTable, NoMemory>
    requires { IsTrue (is_table table.now) }
    ensures { IfOk result (λ made. made ≡ base_table table.now) }
{
    let columns = table.columns.copy(alloc)?;
    let rows = copies(alloc, table.rows.as_slice())?;
    Ok(BaseTable {
        schema: Schema {
            name: table.name.copied(),
            columns,
        },
        rows: BaseRows::from_vec(rows),
    })
}

/// The tables of the base.
pub(crate) fn tables_in(alloc: Global, tables: &[DocTable]) -> Result<BaseTables, NoMemory>
    requires tables { IsTrue (list_all is_table tables.now) }
    requires few { length tables.now ≤ 32 }
    ensures { IfOk result (λ all. all ≡ map base_table tables.now) }
{
    let mut all = Vec::new(alloc);
    for table in tables {
        all.push(table_in(alloc, table)?)?;
    }
    Ok(BaseTables::from_vec(all))
}

/// A sequence of the base.
fn sequence_in(sequence: &DocSequence) -> BaseSequence
    ensures { result ≡ base_sequence sequence.now }
{
    BaseSequence {
        name: sequence.name.copied(),
        start: sequence.start,
        keep: sequence.keep,
    }
}

/// The sequences of the base.
pub(crate) fn sequences_in(
    alloc: Global,
    sequences: &[DocSequence],
) -> Result<BaseSequences, NoMemory>
    requires { length sequences.now ≤ 32 }
    ensures { IfOk result (λ all. all ≡ map base_sequence sequences.now) }
{
    let mut all = Vec::new(alloc);
    for sequence in sequences {
        all.push(sequence_in(sequence))?;
    }
    Ok(BaseSequences::from_vec(all))
}
