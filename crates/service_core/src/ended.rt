//! What a service leaves at its end.
ghost use Rattle.std.specs.Prelude.{◌≡◌, All, ℕ, IfOk, IfSome, IsErrOf, IsTrue, Ok};
ghost use Rattle.disk_model.specs.Disk.{OnlyReads};
ghost use Rattle.svc_values.specs.meaning.Fitting.{writes_fit};
ghost use Rattle.commit_log.specs.Bases.{IsBase};
ghost use Rattle.commit_log.specs.Recorded.{recorded_of};
ghost use Rattle.commit_log.specs.declared.journal.Journal.{Journal as Held};
ghost use Rattle.commit_log.specs.meaning.Bases.{schemas_of};
ghost use Rattle.commit_log.specs.meaning.Journals.{journal_of};
ghost use Rattle.server_session.specs.Fits.{tables_of as tables_def};
ghost use Rattle.service_calls.specs.Ended.{IsEndOf};
ghost use Rattle.service_core.specs.Keeping.{Rests};

use crate::resting::Resting;
use commit_log::laws::keeps_journal;
use commit_log::{Journal, Log, LogFault, Recorded};
use disk_model::Disk;
use journal_tables::tables_of;
use service_calls::Ended;
use std::alloc::Global;
use svc_values::NoMemory;
use table_store::Tables;

/// What the store of a disk holds, of which this is kept.
///
/// The tables are the ones that are kept, with what the records behind them wrote, and the records
/// behind the base are read for the rest. With nothing kept the whole store is read, and costs
/// n log n for n rows and entries.
pub(crate) fn ended_of<D: Disk>(
    alloc: Global,
    disk: &mut D,
    resting: Option<Resting>,
) -> Result<Ended, LogFault>
    requires resting { IfSome resting (Rests (D.state disk.old).now.seen) }
    requires journal { (journal : Held) × (journal_of (D.state disk.old).now.seen ≡ Ok journal) }
    ensures told { IfOk result (IsEndOf (D.state disk.old).now.seen) }
    ensures whole { (place : ℕ) → IsErrOf result (LogFault.Damaged place) → ⊥ }
    ensures only_reads { OnlyReads (IsErrOf result LogFault.Stopped)
        (D.state disk.old) (D.state disk.new) }
{
    match resting {
        Some(kept) => ended_of_kept(alloc, disk, kept),
        None => ended_of_store(alloc, disk),
    }
}

/// The same with something kept. All of it but the tables goes before the records are read.
fn ended_of_kept<D: Disk>(alloc: Global, disk: &mut D, kept: Resting) -> Result<Ended, LogFault>
    requires rests { Rests (D.state disk.old).now.seen kept }
    requires journal { (journal : Held) × (journal_of (D.state disk.old).now.seen ≡ Ok journal) }
    ensures told { IfOk result (IsEndOf (D.state disk.old).now.seen) }
    ensures whole { (place : ℕ) → IsErrOf result (LogFault.Damaged place) → ⊥ }
    ensures only_reads { OnlyReads (IsErrOf result LogFault.Stopped)
        (D.state disk.old) (D.state disk.new) }
{
    let tables = last_tables(alloc, disk, kept)?;
    let recorded = Log::recorded(alloc, disk)?;
    Ok(Ended { recorded, tables })
}

/// The tables that are kept, with what the records behind them wrote.
fn last_tables<D: Disk>(alloc: Global, disk: &mut D, mut kept: Resting) -> Result<Tables, LogFault>
    requires rests { Rests (D.state disk.old).now.seen kept }
    requires journal { (journal : Held) × (journal_of (D.state disk.old).now.seen ≡ Ok journal) }
    ensures tables { IfOk result (λ tables. (journal : Held)
        × (journal_of (D.state disk.old).now.seen ≡ Ok journal) × (tables ≡ tables_def journal)) }
    ensures whole { (place : ℕ) → IsErrOf result (LogFault.Damaged place) → ⊥ }
    ensures only_reads { OnlyReads (IsErrOf result LogFault.Stopped)
        (D.state disk.old) (D.state disk.new) }
{
    kept.catch_up(alloc, disk)?;
    Ok(kept.core.tables)
}

/// The same with nothing kept.
fn ended_of_store<D: Disk>(alloc: Global, disk: &mut D) -> Result<Ended, LogFault>
    requires { (journal : Held) × (journal_of (D.state disk.old).now.seen ≡ Ok journal) }
    ensures told { IfOk result (IsEndOf (D.state disk.old).now.seen) }
    ensures whole { (place : ℕ) → IsErrOf result (LogFault.Damaged place) → ⊥ }
    ensures only_reads { OnlyReads (IsErrOf result LogFault.Stopped)
        (D.state disk.old) (D.state disk.new) }
{
    keeps_journal();
    let journal = Log::read(alloc, disk)?;
    match ended_of_journal(alloc, journal) {
        Ok(ended) => Ok(ended),
        Err(NoMemory) => Err(LogFault::NoMemory),
    }
}

/// What this journal says. The rows of its base are moved into the tables.
fn ended_of_journal(alloc: Global, journal: Journal) -> Result<Ended, NoMemory>
    requires base { IsBase journal.base }
    requires fitting { All (λ entry. IsTrue (writes_fit (schemas_of journal.base) entry.writes))
        journal.entries }
    ensures recorded { IfOk result (λ ended. ended.recorded ≡ recorded_of journal) }
    ensures tables { IfOk result (λ ended. ended.tables ≡ tables_def journal) }
{
    let Journal {
        base,
        horizon,
        entries,
        blocked,
        alerts,
        ..
    } = journal;
    let tables = tables_of(alloc, base, entries.as_slice())?;
    let recorded = Recorded {
        horizon,
        entries,
        blocked,
        alerts,
    };
    Ok(Ended { recorded, tables })
}
