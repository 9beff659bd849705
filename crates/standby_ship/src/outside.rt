//! Calls that are run from outside, on both stores.
ghost use Rattle.std.specs.Prelude.{◌≡◌, ◌<◌, ◌^◌, false, true};
ghost use Rattle.std.specs.List.{AllByRecursion};
ghost use Rattle.svc_values.specs.Calls.{IsMade};
ghost use Rattle.server_model.specs.ServiceCalls.{RanOutside, StoppedOutside};
ghost use Rattle.service_calls.specs.Answers.{Ends, NotMemory, runs_of};
ghost use Rattle.service_calls.specs.Kept.{Goes, HaveOneBase};
ghost use Rattle.standby_ship.specs.Seeing.{LeavesPair, SeesPair, bytes_in};
ghost use Rattle.standby_ship.specs.Twins.{state_in};

use crate::pair::Pair;
use crate::shipping::ship_behind;
use disk_model::StopDisk;
use outage_schedule::OutsideNote;
use server_model::ServeFault;
use std::alloc::Global;
use svc_values::Call;

impl<D: StopDisk> Pair<D> {
    /// Runs calls in a session of their own, up to the first that is answered Blocked. They are
    /// told once what they stored is in both stores.
    pub(crate) fn run_outside(
        &mut self,
        alloc: Global,
        calls: &[Call],
        now: u64,
    ) -> Result<OutsideNote, ServeFault>
        requires live { self.old.is_spent ≡ false }
        requires few { (state_in self.old).calls < 2 ^ 48 }
        requires up { (state_in self.old).is_up ≡ true }
        requires made { AllByRecursion IsMade calls.now }
        ensures ran { Ends result (λ ran. Goes (SeesPair self.old) (SeesPair self.new)
            (λ old new. RanOutside old calls.now now ran.ltxid (runs_of ran) new))
            (Goes (SeesPair self.old) (SeesPair self.new)
            (λ old new. StoppedOutside old (LeavesPair self.new) new)) }
        ensures base { NotMemory result (HaveOneBase (bytes_in self.old) (bytes_in self.new)) }
    {
        match self.primary.run_outside(alloc, calls, now) {
            Ok(ran) => {
                self.primary.keeps_to_it();
                match ship_behind(alloc, &mut self.primary, &mut self.second) {
                    Ok(()) => Ok(ran),
                    Err(ServeFault::Stopped) => Err(ServeFault::Stopped),
                    Err(ServeFault::NoMemory) => {
                        self.is_spent = true;
                        Err(ServeFault::NoMemory)
                    }
                }
            }
            Err(ServeFault::Stopped) => {
                self.primary.keeps_to_it();
                Err(ServeFault::Stopped)
            }
            Err(ServeFault::NoMemory) => {
                self.is_spent = true;
                Err(ServeFault::NoMemory)
            }
        }
    }
}
