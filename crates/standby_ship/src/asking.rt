//! Outcomes that are asked for from outside, and blocked in both stores.
ghost use Rattle.std.specs.Prelude.{◌≡◌, ◌<◌, ◌^◌, false, true};
ghost use Rattle.svc_values.specs.Identifiers.{IsLtxid};
ghost use Rattle.server_model.specs.ServiceCalls.{AskedOne, StoppedAsk};
ghost use Rattle.service_calls.specs.Answers.{Ends, NotMemory};
ghost use Rattle.service_calls.specs.Kept.{Goes, HaveOneBase};
ghost use Rattle.standby_ship.specs.Seeing.{LeavesPair, SeesPair, bytes_in};
ghost use Rattle.standby_ship.specs.Twins.{state_in};

use crate::pair::Pair;
use crate::shipping::ship_behind;
use disk_model::StopDisk;
use ltxid_book::Verdict;
use server_model::ServeFault;
use std::alloc::Global;
use svc_values::Ltxid;

impl<D: StopDisk> Pair<D> {
    /// Tells the outcome of an identifier. One that may still commit is blocked first, in both
    /// stores, and told as blocked.
    pub(crate) fn tell(&mut self, alloc: Global, x: &Ltxid) -> Result<Verdict, ServeFault>
        requires live { self.old.is_spent ≡ false }
        requires few { (state_in self.old).calls < 2 ^ 48 }
        requires up { (state_in self.old).is_up ≡ true }
        requires identifier { IsLtxid x.now }
        ensures asked { Ends result (λ told. Goes (SeesPair self.old) (SeesPair self.new)
            (λ old new. AskedOne old x.now told new))
            (Goes (SeesPair self.old) (SeesPair self.new)
            (λ old new. StoppedAsk old x.now (LeavesPair self.new) new)) }
        ensures base { NotMemory result (HaveOneBase (bytes_in self.old) (bytes_in self.new)) }
    {
        match self.primary.tell(x) {
            Ok(told) => {
                self.primary.keeps_to_it();
                match ship_behind(alloc, &mut self.primary, &mut self.second) {
                    Ok(()) => Ok(told),
                    Err(ServeFault::Stopped) => Err(ServeFault::Stopped),
                    Err(ServeFault::NoMemory) => {
                        self.is_spent = true;
                        Err(ServeFault::NoMemory)
                    }
                }
            }
            Err(ServeFault::Stopped) => {
                self.primary.keeps_to_it();
                Err(ServeFault::Stopped)
            }
            Err(ServeFault::NoMemory) => {
                self.is_spent = true;
                Err(ServeFault::NoMemory)
            }
        }
    }
}
