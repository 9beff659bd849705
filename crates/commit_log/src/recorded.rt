//! What the records behind the base of a store say, read without the base.
ghost use Rattle.std.specs.Prelude.{◌≡◌, ℕ, OnOk, IfOk, IsErrOf, Ok};
ghost use Rattle.disk_model.specs.Disk.{OnlyReads};
ghost use Rattle.commit_log.specs.declared.base.Base.{Base};
ghost use Rattle.commit_log.specs.declared.journal.Journal.{Journal};
ghost use Rattle.commit_log.specs.meaning.Journals.{journal_of};
ghost use Rattle.commit_log.specs.meaning.Rules.{new_journal, with_record};

use crate::journal::{Entries, Lines, Ltxids};
use crate::log::Log;
use crate::records::Record;
use disk_model::Disk;
use redo_store::RedoFault as LogFault;
use std::alloc::Global;
use svc_values::ListFault;

/// What the records behind the base of a store say, as far as a report tells of it: the horizon,
/// which is 0 where no record stores one, and the committed transactions, the blocked identifiers
/// and the lines of text, each in the order in which they were stored.
#[derive(Drop)]
pub struct Recorded {
    pub horizon: u64,
    pub entries: Entries,
    pub blocked: Ltxids,
    pub alerts: Lines,
}

impl Recorded {
    ghost use Rattle.commit_log.specs.Recorded.{recorded_of};

    // What is told where there is none behind the base. It takes no memory.
    fn new(alloc: Global) -> Recorded
        ensures { (base : Base) → result ≡ recorded_of (new_journal base) }
    {
        Recorded {
            horizon: 0,
            entries: Entries::new(alloc),
            blocked: Ltxids::new(alloc),
            alerts: Lines::new(alloc),
        }
    }

    // Takes over what the next record says. Of openings and reservations nothing is told.
    fn add(&mut self, next: Record) -> Result<(), ListFault>
        ensures told { (journal : Journal) → self.old ≡ recorded_of journal
            → OnOk result (self.new ≡ recorded_of (with_record journal next)) }
    {
        match next {
            Record::Commit(entry) => self.entries.push(entry),
            Record::Blocked(x) => self.blocked.push(x),
            Record::Alert(line) => self.alerts.push(line),
            Record::Horizon(horizon) => {
                self.horizon = horizon;
                Ok(())
            }
            Record::Base(_) | Record::Opened(_) | Record::Reserved(_) => Ok(()),
        }
    }
}

impl Log {
    ghost use Rattle.commit_log.specs.Recorded.{recorded_of};

    /// Reads what the records behind the base say, of a disk that holds a journal, and changes
    /// nothing.
    ///
    /// The base is passed over: its bytes are read, and none of its rows is made. Time grows with
    /// the bytes of the store, and memory with what is told and the longest record.
    pub fn recorded<D: Disk>(alloc: Global, disk: &mut D) -> Result<Recorded, LogFault>
        requires journal { (journal : Journal)
            × (journal_of (D.state disk.old).now.seen ≡ Ok journal) }
        ensures told { IfOk result (λ told. (journal : Journal)
            × (journal_of (D.state disk.old).now.seen ≡ Ok journal)
            × (told ≡ recorded_of journal)) }
        ensures whole { (place : ℕ) → IsErrOf result (LogFault.Damaged place) → ⊥ }
        ensures only_reads { OnlyReads (IsErrOf result LogFault.Stopped)
            (D.state disk.old) (D.state disk.new) }
    {
        let mut log = Log::behind_base(alloc, disk)?;
        let mut told = Recorded::new(alloc);
        while let Some(record) = log.next(disk)? {
            let Ok(()) = told.add(record) else {
                return Err(LogFault::NoMemory);
            };
        }
        Ok(told)
    }
}
