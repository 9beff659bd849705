//! Openings of a service.
ghost use Rattle.std.specs.Prelude.{◌≡◌, ◌<◌, ◌^◌, IfOk, IsErrOf, false, true};
ghost use Rattle.server_model.specs.ServiceCalls.{MayForget, Opened, StoppedOpening};
ghost use Rattle.service_calls.specs.Answers.{Ends, NotMemory};
ghost use Rattle.service_calls.specs.Kept.{Goes, HaveOneBase};
ghost use Rattle.service_core.specs.Seeing.{LeavesIn, SeesIn, bytes_in, state_in};
ghost use Rattle.service_core.specs.Shipping.{Broke, GrewBy};
ghost use Rattle.service_core.specs.Unanswered.{HaltedOpening, IsHaltedAs, MayHalt, StandsBetween};

use crate::one::OneService;
use crate::opening::open;
use commit_log::laws::{keeps_journal, raises_horizon};
use disk_model::StopDisk;
use server_model::ServeFault;
use std::alloc::Global;

impl<D: StopDisk> OneService<D> {
    /// Opens the store for the next incarnation, and forgets the outcomes of all incarnations below
    /// `horizon`. The cost is that of `open`: where it was open before, that of the records since
    /// the last ones that it knows.
    pub fn reopen(&mut self, alloc: Global, horizon: u64) -> Result<(), ServeFault>
        requires live { self.old.notes.is_spent ≡ false }
        requires few { self.old.notes.calls < 2 ^ 48 }
        requires down { ((state_in self.old).is_up ≡ false)
            × ((state_in self.old).is_settled ≡ true) }
        requires may { MayForget (state_in self.old) horizon }
        ensures opened { Ends result (λ done. Goes (SeesIn self.old) (SeesIn self.new)
            (λ old new. Opened old horizon new))
            (Goes (SeesIn self.old) (SeesIn self.new)
            (λ old new. StoppedOpening old horizon (LeavesIn self.new) new)) }
        ensures base { NotMemory result (HaveOneBase (bytes_in self.old) (bytes_in self.new)) }
        ensures grew { IfOk result (λ _. GrewBy self.old self.new) }
        ensures broke { IsErrOf result ServeFault.Stopped → Broke self.old self.new }
        ensures halted { MayHalt result self.old self.new
            → Goes (SeesIn self.old) (IsHaltedAs self.old self.new)
            (λ old new. HaltedOpening old horizon (StandsBetween self.old self.new) new) }
        ensures uncounted { IsErrOf result ServeFault.NoMemory
            → self.new.disk.faults ≡ self.old.disk.faults }
    {
        keeps_journal();
        raises_horizon();
        self.notes.kept = self.disk.left();
        self.notes.calls += 1;
        match open(
            alloc,
            &mut self.disk,
            &mut self.resting,
            horizon,
            self.grants,
            &self.indexes,
        ) {
            Ok(core) => {
                self.core = Some(core);
                self.notes.is_opened = true;
                self.notes.sessions = 0;
                Ok(())
            }
            Err(ServeFault::Stopped) => {
                self.notes.is_settled = false;
                Err(ServeFault::Stopped)
            }
            Err(ServeFault::NoMemory) => {
                self.notes.is_spent = true;
                Err(ServeFault::NoMemory)
            }
        }
    }
}
