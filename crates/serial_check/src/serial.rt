//! Where a report's entries are no serial run that leaves its tables.
ghost use Rattle.std.specs.Prelude.{◌≡◌, IfOk, map};
ghost use Rattle.commit_log.specs.meaning.Bases.{sequence_name};
ghost use Rattle.table_txn.specs.Transactions.{shape_of};
ghost use Rattle.doc_reader.specs.Keeping.{IsDocument};
ghost use Rattle.serial_check.specs.meaning.Places.{entries_course, serial_place};
ghost use Rattle.serial_check.specs.Replaying.{HasEnded};

use crate::asked::indexes_for;
use crate::printed::printed_otherwise;
use crate::transaction::{Ended, run_again};
use before_run::{indexes_of, journal_before};
use commit_log::{BaseSequences, Journal};
use journal_tables::indexed_tables_of;
use json_form::Pointer;
use outage_schedule::{Document, Report};
use std::alloc::Global;
use svc_values::{Entry, Names, NoMemory};
use table_store::Tables;

/// The names of sequences, in order. Linear.
pub fn names_of(alloc: Global, sequences: &BaseSequences) -> Result<Names, NoMemory>
    ensures { IfOk result (λ names. names ≡ map sequence_name sequences.now) }
{
    let mut names = Vec::new(alloc);
    for sequence in sequences.as_slice() {
        names.push(sequence.name.copied())?;
    }
    Ok(Names::from_vec(names))
}

/// Runs entries again on the tables, one after the other, up to the first that is no transaction.
fn failing_entry(
    alloc: Global,
    tables: &mut Tables,
    names: &Names,
    entries: &[Entry],
) -> Result<Option<Pointer>, NoMemory>
    ensures { IfOk result (λ place.
        HasEnded tables.old
        (entries_course (shape_of tables.old names.now) tables.old.rows 0 entries.now) place
        tables.new) }
{
    for (n, entry) in entries.iter().enumerate() {
        let pieces = entry.pieces.as_slice();
        match run_again(alloc, tables, names, n, &entry.settings, pieces)? {
            Ended::Whole { writes } => tables.apply(&writes)?,
            Ended::Failed { place } => return Ok(Some(place)),
        }
    }
    Ok(None)
}

/// The first place where a report is no serial run of its document that leaves its tables: the
/// first piece of an entry that is not answered as it stands when the entries are run one after the
/// other, an entry without a piece, or behind all entries the first table that has other rows.
/// There is none exactly where the clause `Serial` holds. For r rows and q calls it takes r log r
/// and q log r, and for each statement on a whole table its rows. A select by a column that the
/// document indexes, or that 16 selects of the entries ask, takes the rows it finds.
pub fn judge_serial(
    alloc: Global,
    document: &Document,
    report: &Report,
) -> Result<Option<Pointer>, NoMemory>
    requires { IsDocument document.now }
    ensures { IfOk result (λ place. place ≡ serial_place document.now report.now) }
{
    let Journal { base, entries, .. } = journal_before(alloc, document)?;
    let names = names_of(alloc, &base.sequences)?;
    let declared = indexes_of(alloc, document.tables.as_slice())?;
    let indexes = indexes_for(alloc, &base, report.entries.as_slice(), declared)?;
    let mut tables = indexed_tables_of(alloc, base, entries.as_slice(), indexes.as_slice())?;
    let place = failing_entry(alloc, &mut tables, &names, report.entries.as_slice())?;
    if place.is_some() {
        return Ok(place);
    }
    printed_otherwise(alloc, report.tables.as_slice(), tables)
}
