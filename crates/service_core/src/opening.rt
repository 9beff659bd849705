//! A new opening of a store.
ghost use Rattle.std.specs.Prelude.{◌≡◌, IfOk, IfSome, IsErrOf, IsTrue, Ok, map};
ghost use Rattle.std.specs.List.{list_all};
ghost use Rattle.disk_model.specs.Disk.{Meanwhile, IsSettled, LoweredByLess, Caused, OnlyReads};
ghost use Rattle.table_store.specs.Given.{is_index_of};
ghost use Rattle.commit_log.specs.meaning.Bases.{is_sequence, schemas_of};
ghost use Rattle.commit_log.specs.declared.journal.Journal.{Journal as Held};
ghost use Rattle.commit_log.specs.meaning.Journals.{journal_of, so_far_of};
ghost use Rattle.commit_log.specs.Growth.{IsGrown, opening_of};
ghost use Rattle.service_core.specs.Indexed.{FitBase};
ghost use Rattle.service_core.specs.Opening.{CanOpen, HasOpened, source_of as source_def, stop_of};
ghost use Rattle.service_core.specs.InnerOpening.{CanGoOn, IsCoreOf, ends_low, state_of};
ghost use Rattle.service_core.specs.Keeping.{RestsBy};

use crate::again::renewed;
use crate::resting::Resting;
use commit_log::laws::{keeps_journal, raises_horizon};
use commit_log::{BaseSequence, Found, Journal, Log, LogFault};
use disk_model::Disk;
use journal_tables::indexed_tables_of;
use ltxid_book::Book;
use mutable_values::{Grants, SeqState, Source};
use server_model::ServeFault;
use server_session::Core;
use std::alloc::Global;
use svc_values::{NoMemory, TryCopy};
use table_store::IndexOf;
use table_txn::Changes;

/// Opens the store of a disk for the next incarnation, with the outcomes of all incarnations below
/// `horizon` forgotten: what its sessions share.
///
/// What is kept of it goes on, at the cost of the records behind those that it knows and of the
/// number of sequences. With nothing kept the whole store is read, n log n for n rows and entries,
/// and no entry is kept. A stop in the records that the opening adds leaves what was read.
pub(crate) fn open<D: Disk>(
    alloc: Global,
    disk: &mut D,
    resting: &mut Option<Resting>,
    horizon: u64,
    grants: Grants,
    indexes: &[IndexOf],
) -> Result<Core, ServeFault>
    requires settled { IsSettled (D.state disk.old) }
    requires resting { IfSome resting.old (RestsBy grants (D.state disk.old)) }
    requires journal { CanOpen horizon (D.state disk.old).now.seen }
    requires indexes { FitBase indexes.now (D.state disk.old).now.seen }
    ensures opened { IfOk result (λ core. HasOpened horizon grants (D.state disk.old) core
        (D.state disk.new)) }
    ensures kept { IsErrOf result ServeFault.Stopped
        → IfSome resting.new (RestsBy grants (D.state disk.new)) }

    // A crash at any moment of the call leaves the old records, or these with the horizon, if it is
    // stored, or with all that the opening adds.
    ensures any_moment { let old = (D.state disk.old).now.seen in
        Meanwhile (D.state disk.old) (D.state disk.new)
        (IsGrown old (opening_of horizon (so_far_of old))) }

    // It is stopped only under a stop that does not let its device calls pass, or by a fault of the
    // disk.
    ensures stop { IsErrOf result ServeFault.Stopped
        → LoweredByLess (stop_of horizon (D.state disk.old).now.seen) (D.state disk.old).stop
        (D.state disk.new).stop }
    ensures cause { Caused (IsErrOf result ServeFault.Stopped) (D.state disk.old)
        (D.state disk.new) }
{
    keeps_journal();
    raises_horizon();
    let mut kept = kept_or_read(alloc, disk, resting.take(), grants, indexes)?;
    match kept.open(alloc, disk, horizon) {
        Ok(()) => Ok(renewed(kept.core)),
        Err(LogFault::NoMemory) => Err(ServeFault::NoMemory),
        Err(LogFault::Stopped) => {
            *resting = Some(kept);
            Err(ServeFault::Stopped)
        }
        Err(LogFault::Damaged(_)) => unreachable!(),
    }
}

/// What is kept, and with nothing kept what the whole store says.
fn kept_or_read<D: Disk>(
    alloc: Global,
    disk: &mut D,
    resting: Option<Resting>,
    grants: Grants,
    indexes: &[IndexOf],
) -> Result<Resting, ServeFault>
    requires settled { IsSettled (D.state disk.old) }
    requires resting { IfSome resting (RestsBy grants (D.state disk.old)) }
    requires journal { (journal : Held) × (journal_of (D.state disk.old).now.seen ≡ Ok journal) }
    requires indexes { FitBase indexes.now (D.state disk.old).now.seen }
    ensures rests { IfOk result (RestsBy grants (D.state disk.old)) }
    ensures only_reads { OnlyReads (IsErrOf result ServeFault.Stopped) (D.state disk.old)
        (D.state disk.new) }
{
    match resting {
        Some(kept) => Ok(kept),
        None => read_whole(alloc, disk, grants, indexes),
    }
}

/// What the whole store says.
fn read_whole<D: Disk>(
    alloc: Global,
    disk: &mut D,
    grants: Grants,
    indexes: &[IndexOf],
) -> Result<Resting, ServeFault>
    requires settled { IsSettled (D.state disk.old) }
    requires journal { (journal : Held) × (journal_of (D.state disk.old).now.seen ≡ Ok journal) }
    requires indexes { FitBase indexes.now (D.state disk.old).now.seen }
    ensures rests { IfOk result (RestsBy grants (D.state disk.old)) }
    ensures only_reads { OnlyReads (IsErrOf result ServeFault.Stopped) (D.state disk.old)
        (D.state disk.new) }
{
    keeps_journal();
    match Log::find(alloc, disk) {
        Ok(found) => Ok(resting_of(alloc, found, grants, indexes)?),
        Err(LogFault::NoMemory) => Err(ServeFault::NoMemory),
        Err(LogFault::Stopped) => Err(ServeFault::Stopped),
        Err(LogFault::Damaged(_)) => unreachable!(),
    }
}

/// What is kept of a service on a store of which this was found. The journal's rows are moved into
/// the tables.
pub(crate) fn resting_of(
    alloc: Global,
    found: Found,
    grants: Grants,
    indexes: &[IndexOf],
) -> Result<Resting, NoMemory>
    requires journal { CanGoOn found.journal }
    requires indexes { IsTrue (list_all (is_index_of (schemas_of found.journal.base)) indexes.now) }
    ensures core { IfOk result (λ resting. IsCoreOf found.log found.journal grants resting.core) }
    ensures horizon { IfOk result (λ resting. resting.has_horizon ≡ found.has_horizon) }
{
    let core = core_of(alloc, found.log, found.journal, grants, indexes)?;
    Ok(Resting {
        core,
        has_horizon: found.has_horizon,
    })
}

/// What sessions share at an opening with this log and journal.
fn core_of(
    alloc: Global,
    log: Log,
    journal: Journal,
    grants: Grants,
    indexes: &[IndexOf],
) -> Result<Core, NoMemory>
    requires journal { CanGoOn journal }
    requires indexes { IsTrue (list_all (is_index_of (schemas_of journal.base)) indexes.now) }
    ensures { IfOk result (IsCoreOf log journal grants) }
{
    let book = Book::of_journal(
        alloc,
        journal.horizon,
        journal.entries.as_slice(),
        journal.blocked.as_slice(),
    )?;
    let source = source_of(alloc, &journal)?;
    let Journal { base, entries, .. } = journal;
    let tables = indexed_tables_of(alloc, base, entries.as_slice(), indexes)?;
    Ok(Core {
        tables,
        changes: Changes::new(alloc),
        book,
        source,
        log,
        grants,
    })
}

/// The source of a new opening.
fn source_of(alloc: Global, journal: &Journal) -> Result<Source, NoMemory>
    requires { CanGoOn journal.now }
    ensures { IfOk result (λ source. source ≡ source_def journal.now) }
{
    let sequences = sequences_of(alloc, journal, journal.base.sequences.as_slice())?;
    Ok(Source::new(journal.incarnation, sequences))
}

/// Each of these sequences.
fn sequences_of(
    alloc: Global,
    journal: &Journal,
    sequences: &[BaseSequence],
) -> Result<Vec<SeqState>, NoMemory>
    requires begin { IsTrue (list_all is_sequence sequences.now) }
    requires end { IsTrue (list_all (ends_low journal.now) sequences.now) }
    ensures { IfOk result (λ made. made.items ≡ map (state_of journal.now) sequences.now) }
{
    let mut made = Vec::new(alloc);
    for sequence in sequences {
        made.push(sequence_of(alloc, journal, sequence)?)?;
    }
    Ok(made)
}

/// The sequence, which goes on behind its last reservation.
fn sequence_of(
    alloc: Global,
    journal: &Journal,
    sequence: &BaseSequence,
) -> Result<SeqState, NoMemory>
    requires begins { IsTrue (is_sequence sequence.now) }
    requires ends { IsTrue (ends_low journal.now sequence.now) }
    ensures { IfOk result (λ made. made ≡ state_of journal.now sequence.now) }
{
    let upto = journal.end_of(sequence);
    Ok(SeqState {
        name: sequence.name.copy(alloc)?,
        next: upto + 1,
        upto,
        keep: sequence.keep,
    })
}
