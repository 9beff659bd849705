//! What an opening adds to its store, and what its sessions share from then on.
ghost use Rattle.std.specs.Prelude.{◌≡◌, ◌+◌, ◌≤◌, ◌<◌, ◌^◌, All, IsTrue, Ok};
ghost use Rattle.disk_model.specs.Disk.{IsSettled};
ghost use Rattle.mutable_values.specs.Sources.{are_sequences};
ghost use Rattle.commit_log.specs.declared.journal.Journal.{Journal as Held};
ghost use Rattle.commit_log.specs.meaning.Journals.{journal_of};
ghost use Rattle.server_model.specs.Core.{reopened};
ghost use Rattle.service_core.specs.Keeping.{IsCurrent, Rests};
ghost use Rattle.service_core.specs.Opening.{CanOpen};
ghost use Rattle.service_core.specs.Resting.{Begins, IsRenewed, Opens, Raises, leaves_room};

use crate::resting::Resting;
use commit_log::LogFault;
use commit_log::laws::raises_horizon;
use disk_model::Disk;
use mutable_values::{SeqState, Source};
use server_session::Core;
use std::alloc::Global;

impl Resting {
    /// Adds the records of an opening to the store, behind all that stand there: the horizon, where
    /// it rises or is the first, and then the incarnation. A stop leaves what it knows by then.
    ///
    /// It takes the memory for these records, and for those behind the ones that it knew. The cost
    /// is theirs, and where the horizon rises the number of sessions that the book knows.
    pub(crate) fn open<D: Disk>(
        &mut self,
        alloc: Global,
        disk: &mut D,
        horizon: u64,
    ) -> Result<(), LogFault>
        requires settled { IsSettled (D.state disk.old) }
        requires rests { Rests (D.state disk.old).now.seen self.old }
        requires journal { CanOpen horizon (D.state disk.old).now.seen }
        ensures { Opens horizon result self.old self.new (D.state disk.old) (D.state disk.new) }
    {
        match self.catch_up(alloc, disk) {
            Ok(()) => self.add_opening(disk, horizon),
            Err(fault) => Err(fault),
        }
    }

    /// Adds the records of an opening to a store of which it knows all.
    fn add_opening<D: Disk>(&mut self, disk: &mut D, horizon: u64) -> Result<(), LogFault>
        requires current { IsCurrent self.old (D.state disk.old) }
        requires journal { CanOpen horizon (D.state disk.old).now.seen }
        ensures { Opens horizon result self.old self.new (D.state disk.old) (D.state disk.new) }
    {
        raises_horizon();
        match self.raise(disk, horizon) {
            Ok(()) => self.begin(disk),
            Err(fault) => Err(fault),
        }
    }

    /// Stores the horizon, where it rises or is the first, and forgets what is below it.
    fn raise<D: Disk>(&mut self, disk: &mut D, horizon: u64) -> Result<(), LogFault>
        requires current { IsCurrent self.old (D.state disk.old) }
        requires may { (journal : Held) → journal_of (D.state disk.old).now.seen ≡ Ok journal
            → horizon ≤ journal.incarnation + 1 }
        ensures { Raises horizon result self.old self.new (D.state disk.old) (D.state disk.new) }
    {
        if !self.is_below(horizon) {
            return Ok(());
        }
        match self.core.log.forget(disk, horizon) {
            Ok(()) => {
                self.core.book.forget(horizon);
                self.has_horizon = true;
                Ok(())
            }
            Err(fault) => Err(fault),
        }
    }

    /// Stores the incarnation after the last.
    fn begin<D: Disk>(&mut self, disk: &mut D) -> Result<(), LogFault>
        requires current { IsCurrent self.old (D.state disk.old) }
        requires horizon { IsTrue self.old.has_horizon }
        requires few { self.old.core.source.incarnation < 2 ^ 63 }
        ensures { Begins result self.old self.new (D.state disk.old) (D.state disk.new) }
    {
        let incarnation = self.core.source.incarnation() + 1;
        self.core.log.begin(disk, incarnation)
    }
}

/// What the sessions of the next opening share. It takes no memory, and costs the number of
/// sequences.
pub(crate) fn renewed(core: Core) -> Core
    requires few { core.source.incarnation < 2 ^ 63 }
    requires sequences { IsTrue (are_sequences core.source.sequences) }
    requires room { All (λ sequence. IsTrue (leaves_room sequence)) core.source.sequences }
    ensures { IsRenewed core result }
{
    let Core {
        tables,
        changes,
        book,
        source,
        log,
        grants,
    } = core;
    let incarnation = source.incarnation() + 1;
    let mut sequences = source.into_sequences();
    for sequence in sequences.iter_mut() {
        go_behind(sequence);
    }
    Core {
        tables,
        changes,
        book,
        source: Source::new(incarnation, sequences),
        log,
        grants,
    }
}

/// Has the sequence go on behind its last reservation.
fn go_behind(sequence: &mut SeqState)
    requires { IsTrue (leaves_room sequence.old) }
    ensures { sequence.new ≡ reopened sequence.old }
{
    sequence.next = sequence.upto + 1;
}
