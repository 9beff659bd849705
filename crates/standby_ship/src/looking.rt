//! What the first store of a pair holds.
ghost use Rattle.std.specs.Prelude.{◌≡◌, ◌≢◌, ◌<◌, ◌^◌, true, false, None, IfOk, IsErrOf, Ok};
ghost use Rattle.commit_log.specs.meaning.Journals.{journal_of};
ghost use Rattle.server_model.specs.ServiceCalls.{Looked, StoppedLook};
ghost use Rattle.service_calls.specs.Answers.{Ends, NotMemory};
ghost use Rattle.service_calls.specs.Ended.{IsEndOf};
ghost use Rattle.service_calls.specs.Kept.{Goes};
ghost use Rattle.standby_ship.specs.Seeing.{SeesPair, bytes_in};
ghost use Rattle.standby_ship.specs.Twins.{state_in};

use crate::pair::Pair;
use commit_log::Journal;
use disk_model::StopDisk;
use server_model::ServeFault;
use service_calls::Ended;
use std::alloc::Global;

impl<D: StopDisk + Drop> Pair<D> {
    /// What the first store holds at the end, or the only one, as its service tells it. The second
    /// goes first.
    pub(crate) fn read_at_end(self, alloc: Global) -> Result<Ended, ServeFault>
        requires live { self.is_spent ≡ false }
        ensures told { IfOk result (IsEndOf (bytes_in self)) }
        ensures cause { IsErrOf result ServeFault.Stopped → (state_in self).is_quiet ≡ true
            → (state_in self).stop ≢ None }
    {
        let Pair {
            primary,
            second,
            lost,
            ..
        } = self;
        drop(second);
        drop(lost);
        let (read, _disk) = primary.read_at_end(alloc);
        read
    }
}

impl<D: StopDisk> Pair<D> {
    /// What the first store holds, or the only one. It writes nothing, and reads the whole store.
    pub(crate) fn read_journal(&mut self, alloc: Global) -> Result<Journal, ServeFault>
        requires live { self.old.is_spent ≡ false }
        requires few { (state_in self.old).calls < 2 ^ 48 }
        ensures told { IfOk result (λ journal. journal_of (bytes_in self.new) ≡ Ok journal) }
        ensures unwritten { NotMemory result (bytes_in self.new ≡ bytes_in self.old) }
        ensures looked { Ends result (λ journal. Goes (SeesPair self.old) (SeesPair self.new)
            Looked) (Goes (SeesPair self.old) (SeesPair self.new) StoppedLook) }
    {
        match self.primary.read_journal(alloc) {
            Ok(journal) => {
                self.primary.keeps_to_it();
                Ok(journal)
            }
            Err(ServeFault::Stopped) => {
                self.primary.keeps_to_it();
                Err(ServeFault::Stopped)
            }
            Err(ServeFault::NoMemory) => {
                self.is_spent = true;
                Err(ServeFault::NoMemory)
            }
        }
    }

    /// The bytes of the first store, or of the only one. It writes nothing.
    pub(crate) fn read_image(&mut self, alloc: Global) -> Result<Vec<u8>, ServeFault>
        requires live { self.old.is_spent ≡ false }
        requires few { (state_in self.old).calls < 2 ^ 48 }
        ensures told { IfOk result (λ image. image.items ≡ bytes_in self.new) }
        ensures unwritten { NotMemory result (bytes_in self.new ≡ bytes_in self.old) }
        ensures looked { Ends result (λ image. Goes (SeesPair self.old) (SeesPair self.new) Looked)
            (Goes (SeesPair self.old) (SeesPair self.new) StoppedLook) }
    {
        match self.primary.read_image(alloc) {
            Ok(image) => {
                self.primary.keeps_to_it();
                Ok(image)
            }
            Err(ServeFault::Stopped) => {
                self.primary.keeps_to_it();
                Err(ServeFault::Stopped)
            }
            Err(ServeFault::NoMemory) => {
                self.is_spent = true;
                Err(ServeFault::NoMemory)
            }
        }
    }
}
