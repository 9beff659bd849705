//! The store that a run begins with.
ghost use Rattle.std.specs.Prelude.{◌≡◌, ◌≤◌, ℕ, None, Some, Err, length, map, IfOk, IsTrue, OnOk};
ghost use Rattle.std.specs.List.{list_all};
ghost use Rattle.std.specs.Str.{bytes_eq};
ghost use Rattle.json_form.specs.Arrays.{have_distinct_keys};
ghost use Rattle.disk_model.specs.Disk.{IsSettled, OnlyReads};
ghost use Rattle.disk_model.specs.Mem.{mem_state};
ghost use Rattle.commit_log.specs.declared.base.Base.{Base as Start};
ghost use Rattle.commit_log.specs.Bases.{IsBase};
ghost use Rattle.commit_log.specs.meaning.Journals.{journal_of};
ghost use Rattle.document_forms.specs.Keeping.{is_sequence, is_table};
ghost use Rattle.doc_reader.specs.Keeping.{is_begin};
ghost use Rattle.run_clauses.specs.meaning.Before.{base_table, base_sequence};
ghost use Rattle.service_core.specs.Starting.{IsFoundOn};
ghost use Rattle.continuity_run.specs.Stores.{Counts, IsStoreOf, IsUntroubled, table_name, sequence_name};

use commit_log::{
    Base, BaseRows, BaseSequence, BaseSequences, BaseTable, BaseTables, Found, Journal, Log,
    LogFault,
};
use disk_model::MemDisk;
use outage_schedule::{DocSequences, DocTable, DocTables, Image};
use std::alloc::Global;
use svc_values::{NoMemory, Schema};

/// A disk with a store, what is known of the store without a further reading, and how many entries,
/// blocks and lines it has.
#[derive(Drop)]
pub(crate) struct Store {
    pub(crate) disk: MemDisk,
    pub(crate) found: Found,
    pub(crate) before: Before,
}

/// What a store had before a run.
#[derive(Clone, Copy)]
pub(crate) struct Before {
    pub(crate) entries: usize,
    pub(crate) blocked: usize,
    pub(crate) alerts: usize,
}

/// A table of a base, whose rows are moved.
#[tactic(auto, unfolding(document_forms::specs::Keeping::is_table))]
fn table_in(table: DocTable) -> BaseTable
    requires { IsTrue (is_table table) }
    ensures { result ≡ base_table table }
{
    BaseTable {
        schema: Schema {
            name: table.name,
            columns: table.columns,
        },
        rows: BaseRows::from_vec(table.rows.into_vec()),
    }
}

/// The tables of a base.
fn tables_in(alloc: Global, tables: DocTables) -> Result<BaseTables, NoMemory>
    requires tables { IsTrue (list_all is_table tables) }
    requires few { length tables ≤ 32 }
    ensures { IfOk result (λ all. all ≡ map base_table tables) }
{
    let mut all = Vec::new(alloc);
    for table in tables.into_vec() {
        all.push(table_in(table))?;
    }
    Ok(BaseTables::from_vec(all))
}

/// The sequences of a base.
fn sequences_in(alloc: Global, sequences: DocSequences) -> Result<BaseSequences, NoMemory>
    requires { length sequences ≤ 32 }
    ensures { IfOk result (λ all. all ≡ map base_sequence sequences) }
{
    let mut all = Vec::new(alloc);
    for sequence in sequences.into_vec() {
        all.push(BaseSequence {
            name: sequence.name,
            start: sequence.start,
            keep: sequence.keep,
        })?;
    }
    Ok(BaseSequences::from_vec(all))
}

/// What a journal has.
fn counts_of(journal: &Journal) -> Before
    ensures { Counts journal.now result }
{
    Before {
        entries: journal.entries.len(),
        blocked: journal.blocked.len(),
        alerts: journal.alerts.len(),
    }
}

/// A new store of this base, whose rows are what is known of it.
fn created(alloc: Global, base: Base) -> Result<Store, NoMemory>
    requires { IsBase base }
    ensures { IfOk result (IsStoreOf base None) }
{
    let mut disk = MemDisk::new(alloc);
    match Log::create(alloc, &mut disk, &base) {
        Ok(log) => {
            let journal = Journal::new(alloc, base);
            let before = counts_of(&journal);
            let found = Found {
                log,
                journal,
                is_opened: false,
                has_horizon: false,
            };
            Ok(Store {
                disk,
                found,
                before,
            })
        }
        Err(LogFault::NoMemory) => Err(NoMemory),
        Err(LogFault::Stopped) => unreachable!(),
        Err(LogFault::Damaged(_)) => unreachable!(),
    }
}

/// What is found of the store of this disk, by one reading.
fn found_on(alloc: Global, disk: &mut MemDisk) -> Result<Found, NoMemory>
    requires settled { IsSettled (mem_state disk.old) }
    requires untroubled { IsUntroubled (mem_state disk.old) }
    requires whole { (place : ℕ) → journal_of (mem_state disk.old).now.seen ≡ Err place → ⊥ }
    ensures found { IfOk result (IsFoundOn (mem_state disk.new)) }
    ensures only_reads { OnOk result (OnlyReads ⊥ (mem_state disk.old) (mem_state disk.new)) }
{
    match Log::find(alloc, disk) {
        Ok(found) => Ok(found),
        Err(LogFault::NoMemory) => Err(NoMemory),
        Err(LogFault::Stopped) => unreachable!(),
        Err(LogFault::Damaged(_)) => unreachable!(),
    }
}

/// The store of an image, whose bytes are the disk's from then on.
fn pictured(alloc: Global, image: Image) -> Result<Store, NoMemory>
    requires { (place : ℕ) → journal_of image ≡ Err place → ⊥ }
    ensures { IfOk result (λ store. (base : Start) → IsStoreOf base (Some image) store) }
{
    let mut disk = MemDisk::over(alloc, image.into_vec())?;
    let found = found_on(alloc, &mut disk)?;
    let before = counts_of(&found.journal);
    Ok(Store {
        disk,
        found,
        before,
    })
}

/// The store that a run begins with: that of the image, and else a new one of these tables and
/// sequences.
pub(crate) fn store_of(
    alloc: Global,
    tables: DocTables,
    sequences: DocSequences,
    image: Option<Image>,
) -> Result<Store, NoMemory>
    requires tables { IsTrue (list_all is_table tables) }
    requires table_names { IsTrue (have_distinct_keys bytes_eq table_name tables) }
    requires few_tables { length tables ≤ 32 }
    requires sequences { IsTrue (list_all is_sequence sequences) }
    requires sequence_names { IsTrue (have_distinct_keys bytes_eq sequence_name sequences) }
    requires few_sequences { length sequences ≤ 32 }
    requires begins { IsTrue (is_begin tables sequences image) }
    ensures { IfOk result
        (IsStoreOf
        (record { tables = map base_table tables; sequences = map base_sequence sequences })
        image) }
{
    if let Some(image) = image {
        return pictured(alloc, image);
    }
    let base = Base {
        tables: tables_in(alloc, tables)?,
        sequences: sequences_in(alloc, sequences)?,
    };
    created(alloc, base)
}
