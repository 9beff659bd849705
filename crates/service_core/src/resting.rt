//! What is kept of a service that is down, and how it comes up to what the store holds.
ghost use Rattle.std.specs.Prelude.{◌≡◌, ◌||◌, ℕ, None, Ok, OnOk, IsErrOf};
ghost use Rattle.disk_model.specs.Disk.{IsSettled, OnlyReads};
ghost use Rattle.commit_log.specs.declared.journal.Journal.{Journal as Held};
ghost use Rattle.commit_log.specs.meaning.Journals.{journal_of};
ghost use Rattle.commit_log.specs.meaning.Rules.{is_horizon};
ghost use Rattle.service_core.specs.Keeping.{IsCurrent, KnowsAll, Rests, Steps, rested, rests_of, rises_on};

use commit_log::{LogFault, Record};
use disk_model::Disk;
use server_session::Core;
use std::alloc::Global;
use svc_values::NoMemory;

/// What sessions shared, true of the first records of a store: those where its log ends.
#[derive(Drop)]
pub struct Resting {
    pub core: Core,
    /// A horizon is stored among these records.
    pub has_horizon: bool,
}

/// Goes down, and keeps what the sessions shared.
pub(crate) fn put_to_rest(core: &mut Option<Core>, resting: &mut Option<Resting>)
    ensures down { core.new ≡ None }
    ensures rests { resting.new ≡ rested core.old resting.old }
{
    if let Some(core) = core.take() {
        *resting = Some(Resting::of(core));
    }
}

/// Whether a horizon is stored with this record behind others.
fn has_horizon(before: bool, next: &Record) -> bool
    ensures { result ≡ (before || is_horizon next.now) }
{
    before || matches!(next, Record::Horizon(_))
}

impl Resting {
    /// What the sessions of a service shared, whose store was opened with a horizon.
    pub(crate) fn of(core: Core) -> Resting
        ensures { result ≡ rests_of core }
    {
        Resting {
            core,
            has_horizon: true,
        }
    }

    /// Whether the horizon is above the one that was stored last, or is the first.
    pub(crate) fn is_below(&self, horizon: u64) -> bool
        ensures { result ≡ rises_on self.now horizon }
    {
        !self.has_horizon || self.core.book.horizon() < horizon
    }

    /// Reads the record behind those that it knows, and takes over what it says. False where there
    /// is none more.
    fn read_on<D: Disk>(&mut self, alloc: Global, disk: &mut D) -> Result<bool, LogFault>
        requires rests { Rests (D.state disk.old).now.seen self.old }
        requires journal { (last : Held) × (journal_of (D.state disk.old).now.seen ≡ Ok last) }
        ensures { Steps result self.old self.new (D.state disk.old) (D.state disk.new) }
    {
        match self.core.log.next(disk) {
            Ok(Some(record)) => {
                self.has_horizon = has_horizon(self.has_horizon, &record);
                match self.core.follow(alloc, &record) {
                    Ok(()) => Ok(true),
                    Err(NoMemory) => Err(LogFault::NoMemory),
                }
            }
            Ok(None) => Ok(false),
            Err(fault) => Err(fault),
        }
    }

    /// Reads the records behind those that it knows, and takes over what they say. Time and memory
    /// grow with these records alone.
    pub(crate) fn catch_up<D: Disk>(&mut self, alloc: Global, disk: &mut D) -> Result<(), LogFault>
        requires rests { Rests (D.state disk.old).now.seen self.old }
        requires journal { (last : Held) × (journal_of (D.state disk.old).now.seen ≡ Ok last) }
        ensures knows { OnOk result (KnowsAll (D.state disk.old).now.seen self.new) }
        ensures current { IsSettled (D.state disk.old)
            → OnOk result (IsCurrent self.new (D.state disk.new)) }
        ensures rests { IsErrOf result LogFault.Stopped
            → Rests (D.state disk.old).now.seen self.new }
        ensures grants { self.new.core.grants ≡ self.old.core.grants }
        ensures whole { (place : ℕ) → IsErrOf result (LogFault.Damaged place) → ⊥ }
        ensures only_reads { OnlyReads (IsErrOf result LogFault.Stopped) (D.state disk.old)
            (D.state disk.new) }
    {
        while self.read_on(alloc, disk)? {}
        Ok(())
    }
}
