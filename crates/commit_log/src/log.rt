//! The log: a store that is opened for commits.
ghost use Rattle.std.specs.Prelude.{◌≡◌, ◌+◌, ◌*◌, ◌<◌, ◌≤◌, ◌^◌, ◌⊎◌, [], ℕ, Bool, false, length, OnErr, OnOk, IfOk, IfSome, IfNone, IsErrOf, Ok, Err, Some};
ghost use Rattle.disk_model.specs.Disk.{Meanwhile, IsSettled, SameBytes, Lowers, Caused, OnlyReads};
ghost use Rattle.redo_store.specs.meaning.Records.{records_of};
ghost use Rattle.redo_store.specs.Redo.{CanAppend, tail_of};
ghost use Rattle.commit_log.specs.declared.journal.Journal.{Journal as Held};
ghost use Rattle.commit_log.specs.declared.records.Record.{Record as Spelled};
ghost use Rattle.commit_log.specs.declared.records.Record.TheVariants as kept;
ghost use Rattle.commit_log.specs.Bases.{IsBase};
ghost use Rattle.commit_log.specs.RecordBytes.{FitsRecord};
ghost use Rattle.commit_log.specs.meaning.Rules.{Begun, new_journal};
ghost use Rattle.commit_log.specs.meaning.Journals.{so_far_of, journal_of, is_opened, whole_record};
ghost use Rattle.commit_log.specs.Growth.{HasAdded, IsGrown, horizon_of, first_of_opening, opening_of, with_opening};
ghost use Rattle.commit_log.specs.Judging.{so_far_in, Keeps};

use crate::base::Base;
use crate::journal::Journal;
use crate::judge::Judge;
use crate::judging::judge_all;
use crate::records::{Adding, Record, made_of, record_of};
use disk_model::Disk;
use redo_store::{Redo, RedoFault as LogFault, Walk};
use std::alloc::Global;
use svc_values::NoMemory;

// The record that these bytes of a journal spell.
fn known_record(alloc: Global, payload: &[u8]) -> Result<Record, LogFault>
    requires { (one : Spelled) × (whole_record payload.now ≡ Some one) }
    ensures exact { IfOk result (λ one. whole_record payload.now ≡ Some one) }
    ensures fitting { IfOk result FitsRecord }
    ensures no_memory { OnErr result (IsErrOf result LogFault.NoMemory) }
{
    match record_of(alloc, payload) {
        Ok(Some(record)) => Ok(record),
        Ok(None) => unreachable!(),
        Err(NoMemory) => Err(LogFault::NoMemory),
    }
}

/// A store that was read, and may be added to.
#[derive(Drop)]
pub struct Found {
    pub log: Log,
    pub journal: Journal,
    /// It was opened before.
    pub is_opened: bool,
    /// A horizon is stored in it.
    pub has_horizon: bool,
}

/// A store that records are added to. It holds no record: `find` and `open` hand the journal out.
#[derive(Drop)]
pub struct Log {
    pub(crate) alloc: Global,
    pub(crate) redo: Redo,
}

impl Log {
    ghost use Rattle.commit_log.specs.Logs.{is_live, count_of, CanAdd, HasReadOn, IsBehind, IsBehindBase, Trails, CanLog};
    ghost use Rattle.commit_log.specs.InnerOpening.{HasRaised};

    /// Whether a record may be added. After `Stopped` it may not: the store is to be opened again.
    pub fn is_live(&self) -> bool
        ensures { result ≡ is_live self.now }
    {
        self.redo.is_live()
    }

    /// How many records the store has. After `Stopped` that is the number before the call that was
    /// stopped.
    pub fn count(&self) -> u64
        ensures { result ≡ count_of self.now }
    {
        self.redo.count()
    }

    /// Makes a store with this base on an empty disk, in six device calls, and gives the log to go
    /// on with behind it.
    ///
    /// The bytes of the base are made before the first of them. Nothing is claimed of a crash
    /// before it has answered `Ok`. After `Stopped` the disk may hold any part of the store.
    pub fn create<D: Disk>(alloc: Global, disk: &mut D, base: &Base) -> Result<Log, LogFault>
        requires empty { (D.state disk.old).now.seen ≡ [] }
        requires base { IsBase base.now }

        // The journal is that of the base alone, and it is durable.
        ensures made { OnOk result (so_far_of (D.state disk.new).now.seen
            ≡ Ok (Begun (new_journal base.now) false false)) }
        ensures ready { IfOk result (λ log. CanAdd log (D.state disk.new)) }
        ensures settled { OnOk result (IsSettled (D.state disk.new)) }

        // For want of memory the disk is as it was, or holds a store without a record.
        ensures refused { IsErrOf result LogFault.NoMemory
            → (D.state disk.new ≡ D.state disk.old) ⊎ (records_of (D.state disk.new).now.seen
            ≡ Ok []) }

        // It succeeds only with no stop or one of at least six; then a quiet disk has no fault.
        ensures stop { Lowers 6 result (D.state disk.old).stop (D.state disk.new).stop }
        ensures cause { Caused (IsErrOf result LogFault.Stopped) (D.state disk.old)
            (D.state disk.new) }
        ensures whole { (place : ℕ) → IsErrOf result (LogFault.Damaged place) → ⊥ }
    {
        let Ok(made) = made_of(alloc, Adding::Base(base)) else {
            return Err(LogFault::NoMemory);
        };
        Redo::create(disk)?;
        let mut redo = Walk::begin(alloc, disk)?.finish();
        redo.append_made(disk, made)?;
        Ok(Log { alloc, redo })
    }

    /// Reads the journal, and changes nothing.
    ///
    /// Time and memory grow with the records, for each commit with the logarithm of the number of
    /// sessions, and for a base of n rows with n log n.
    pub fn read<D: Disk>(alloc: Global, disk: &mut D) -> Result<Journal, LogFault>
        ensures journal { IfOk result (λ journal. journal_of (D.state disk.old).now.seen
            ≡ Ok journal) }

        // The place is the first at which the bytes are no journal.
        ensures damaged { (place : ℕ) → IsErrOf result (LogFault.Damaged place)
            → journal_of (D.state disk.old).now.seen ≡ Err place }
        ensures only_reads { OnlyReads (IsErrOf result LogFault.Stopped) (D.state disk.old)
            (D.state disk.new) }
    {
        let (_, judge) = judge_all(alloc, disk)?;
        Ok(judge.into_journal())
    }

    /// Reads the journal and whether the store was opened before, at the cost of one `read`, and
    /// changes nothing.
    pub fn look<D: Disk>(alloc: Global, disk: &mut D) -> Result<(Journal, bool), LogFault>
        ensures journal { IfOk result (λ found. journal_of (D.state disk.old).now.seen
            ≡ Ok found.0) }
        ensures opened { IfOk result (λ found. found.1
            ≡ is_opened (so_far_of (D.state disk.old).now.seen)) }

        // The place is the first at which the bytes are no journal.
        ensures damaged { (place : ℕ) → IsErrOf result (LogFault.Damaged place)
            → journal_of (D.state disk.old).now.seen ≡ Err place }
        ensures only_reads { OnlyReads (IsErrOf result LogFault.Stopped) (D.state disk.old)
            (D.state disk.new) }
    {
        let (_, judge) = judge_all(alloc, disk)?;
        let is_opened = judge.is_opened();
        Ok((judge.into_journal(), is_opened))
    }

    /// Reads the journal, and gives the log to go on with behind it, at the cost of one `read`. It
    /// changes nothing.
    pub fn find<D: Disk>(alloc: Global, disk: &mut D) -> Result<Found, LogFault>
        ensures found { IfOk result (λ found. so_far_of (D.state disk.old).now.seen
            ≡ Ok (Begun found.journal found.is_opened found.has_horizon)) }
        ensures ready { IsSettled (D.state disk.old)
            → IfOk result (λ found. CanAdd found.log (D.state disk.new)) }

        // The place is the first at which the bytes are no journal.
        ensures damaged { (place : ℕ) → IsErrOf result (LogFault.Damaged place)
            → journal_of (D.state disk.old).now.seen ≡ Err place }
        ensures only_reads { OnlyReads (IsErrOf result LogFault.Stopped) (D.state disk.old)
            (D.state disk.new) }
    {
        let (redo, judge) = judge_all(alloc, disk)?;
        let is_opened = judge.is_opened();
        let has_horizon = judge.has_horizon();
        Ok(Found {
            log: Log { alloc, redo },
            journal: judge.into_journal(),
            is_opened,
            has_horizon,
        })
    }

    /// Reads the record behind those where the log ends, also behind a stop, and ends behind it
    /// then.
    ///
    /// With none more it is live, and goes on with the disk; before that nothing may be added. Time
    /// and memory grow with the record alone.
    pub fn next<D: Disk>(&mut self, disk: &mut D) -> Result<Option<Record>, LogFault>
        requires { IsBehind self.old (D.state disk.old).now.seen }
        ensures next { (is_opened has_horizon : Bool) (journal : Held)
            → Trails is_opened has_horizon journal self.old (D.state disk.old).now.seen
            → IfOk result (λ found. IfSome found
            (λ one. HasReadOn is_opened has_horizon journal one self.new
            (D.state disk.old).now.seen)) }
        ensures fitting { IfOk result (λ found. IfSome found FitsRecord) }
        ensures rises { IfOk result (λ found.
            IfSome found (λ _. (tail_of self.old.redo < tail_of self.new.redo)
            × (tail_of self.new.redo < length (D.state disk.old).now.seen))) }

        // At the end all records were read.
        ensures end { (is_opened has_horizon : Bool) (journal : Held)
            → Trails is_opened has_horizon journal self.old (D.state disk.old).now.seen
            → IfOk result (λ found. IfNone found (so_far_of (D.state disk.old).now.seen
            ≡ Ok (Begun journal is_opened has_horizon))) }
        ensures ready { IsSettled (D.state disk.old)
            → IfOk result (λ found. IfNone found (CanAdd self.new (D.state disk.new))) }
        ensures stays { IsErrOf result LogFault.Stopped → self.new ≡ self.old }
        ensures whole { (place : ℕ) → IsErrOf result (LogFault.Damaged place) → ⊥ }
        ensures only_reads { OnlyReads (IsErrOf result LogFault.Stopped) (D.state disk.old)
            (D.state disk.new) }
    {
        let mut walk = Walk::behind(self.alloc, self.redo.tail(), self.redo.count());
        let payload = walk.next(disk)?;
        self.redo = walk.finish();
        match payload {
            Some(payload) => Ok(Some(known_record(self.alloc, &payload)?)),
            None => Ok(None),
        }
    }

    // The log that ends behind the base of a store. The bytes of the base are read and thrown away,
    // and none of its rows is made.
    pub(crate) fn behind_base<D: Disk>(alloc: Global, disk: &mut D) -> Result<Log, LogFault>
        requires { (journal : Held) × (journal_of (D.state disk.old).now.seen ≡ Ok journal) }
        ensures behind { IfOk result (λ log. IsBehindBase log (D.state disk.old).now.seen) }
        ensures whole { (place : ℕ) → IsErrOf result (LogFault.Damaged place) → ⊥ }
        ensures only_reads { OnlyReads (IsErrOf result LogFault.Stopped) (D.state disk.old)
            (D.state disk.new) }
    {
        let mut walk = Walk::begin(alloc, disk)?;
        walk.next(disk)?;
        Ok(Log {
            alloc,
            redo: walk.finish(),
        })
    }

    /// Opens the store: reads the journal, stores the horizon where it rises, and adds an opening
    /// with the next incarnation, each in four device calls.
    ///
    /// A store that has no horizon gets this one, whichever it is. The sessions of incarnations
    /// below the horizon are forgotten for good. The journal is the one with the horizon and this
    /// opening. It costs what `read` does.
    pub fn open<D: Disk>(
        alloc: Global,
        disk: &mut D,
        horizon: u64,
    ) -> Result<(Log, Journal), LogFault>
        requires settled { IsSettled (D.state disk.old) }
        requires room { (journal : Held) → journal_of (D.state disk.old).now.seen ≡ Ok journal
            → (journal.incarnation < 2 ^ 63) × (horizon ≤ journal.incarnation + 1) }

        // The records that the opening adds are there, and the journal and the log are those of the
        // disk.
        ensures added { IfOk result (λ _. HasAdded (D.state disk.old).now.seen
            (opening_of horizon (so_far_of (D.state disk.old).now.seen))
            (D.state disk.new).now.seen) }
        ensures opened { IfOk result (λ opened. with_opening horizon
            (journal_of (D.state disk.old).now.seen) ≡ Ok opened.1) }
        ensures journal { IfOk result (λ opened. journal_of (D.state disk.new).now.seen
            ≡ Ok opened.1) }
        ensures ready { IfOk result (λ opened. CanLog opened.0 (D.state disk.new)) }

        // A damaged store is not written, and the place is the first at which the bytes are no
        // journal.
        ensures damaged { (place : ℕ) → IsErrOf result (LogFault.Damaged place)
            → journal_of (D.state disk.old).now.seen ≡ Err place }
        ensures unwritten { (place : ℕ) → journal_of (D.state disk.old).now.seen ≡ Err place
            → SameBytes (D.state disk.old) (D.state disk.new) }

        // For want of memory there is at most the horizon more, and nothing is pending.
        ensures refused { IsErrOf result LogFault.NoMemory
            → IsGrown (D.state disk.old).now.seen
            (first_of_opening horizon (so_far_of (D.state disk.old).now.seen))
            (D.state disk.new).now.seen × IsSettled (D.state disk.new) }

        // A crash at any moment of the call leaves the old records, or these with the horizon, if
        // it is stored, or with all that the opening adds. That the same is so of the time since it
        // began, and of what a read gives when it has ended, is `disk_model::laws::leaves`.
        ensures any_moment { let old = (D.state disk.old).now.seen in
            Meanwhile (D.state disk.old) (D.state disk.new)
            (IsGrown old (opening_of horizon (so_far_of old))) }

        // It succeeds only with no stop or one of at least four, or eight where the horizon is
        // stored; with either a quiet disk has no fault.
        ensures stop { Lowers (4 * length (first_of_opening horizon
            (so_far_of (D.state disk.old).now.seen)) + 4) result (D.state disk.old).stop
            (D.state disk.new).stop }
        ensures cause { Caused (IsErrOf result LogFault.Stopped) (D.state disk.old)
            (D.state disk.new) }
    {
        let (redo, judge) = judge_all(alloc, disk)?;
        let mut log = Log { alloc, redo };
        let mut journal = log.raise(disk, judge, horizon)?;
        let incarnation = journal.incarnation + 1;
        log.extend(disk, Adding::Opened(incarnation))?;
        journal.incarnation = incarnation;
        Ok((log, journal))
    }

    // Stores the horizon, where it rises or is the first, and gives the journal with it.
    fn raise<D: Disk>(
        &mut self,
        disk: &mut D,
        judge: Judge,
        horizon: u64,
    ) -> Result<Journal, LogFault>
        requires ready { CanAppend self.old.redo (D.state disk.old) }
        requires judged { so_far_of (D.state disk.old).now.seen ≡ Ok (so_far_in judge) }
        requires kept { Keeps judge }
        requires room { horizon ≤ judge.journal.incarnation + 1 }
        ensures raised { IfOk result (λ journal. HasRaised horizon judge journal self.new
            (D.state disk.old) (D.state disk.new)) }
        ensures refused { IsErrOf result LogFault.NoMemory
            → HasAdded (D.state disk.old).now.seen [] (D.state disk.new).now.seen
            × IsSettled (D.state disk.new) }
        ensures any_moment { Meanwhile (D.state disk.old) (D.state disk.new)
            (IsGrown (D.state disk.old).now.seen
            (horizon_of horizon judge.journal judge.has_horizon)) }
        ensures stop { Lowers (4 * length (horizon_of horizon judge.journal judge.has_horizon))
            result (D.state disk.old).stop (D.state disk.new).stop }
        ensures cause { Caused (IsErrOf result LogFault.Stopped) (D.state disk.old)
            (D.state disk.new) }
        ensures whole { (place : ℕ) → IsErrOf result (LogFault.Damaged place) → ⊥ }
    {
        if !judge.is_below(horizon) {
            return Ok(judge.into_journal());
        }
        self.extend(disk, Adding::Horizon(horizon))?;
        let mut journal = judge.into_journal();
        journal.horizon = horizon;
        Ok(journal)
    }
}
