//! A frame, served on both stores.
ghost use Rattle.std.specs.Prelude.{◌≡◌, ◌<◌, ◌^◌, IfOk, IfSome, false};
ghost use Rattle.canon_bytes.specs.UpBytes.{IsMadeUp};
ghost use Rattle.canon_bytes.specs.DownBytes.{IsMadeDown};
ghost use Rattle.server_model.specs.Seen.{Lives};
ghost use Rattle.server_model.specs.ServiceCalls.{ServedOne};
ghost use Rattle.service_calls.specs.Answers.{IfTold, NotMemory};
ghost use Rattle.service_calls.specs.Kept.{Goes, HaveOneBase};
ghost use Rattle.standby_ship.specs.Seeing.{LeavesPair, SeesPair, bytes_in};
ghost use Rattle.standby_ship.specs.Twins.{state_in};

use crate::pair::Pair;
use crate::shipping::ship_behind;
use disk_model::StopDisk;
use server_model::ServeFault;
use std::alloc::Global;
use svc_values::{Down, Up};

impl<D: StopDisk> Pair<D> {
    /// Serves one frame of a living connection, by its session: the one that it has, or the next.
    /// It is answered once what it stored is in both stores.
    pub(crate) fn serve_frame(
        &mut self,
        alloc: Global,
        connection: u64,
        frame: &Up,
        now: u64,
    ) -> Result<Option<Down>, ServeFault>
        requires live { self.old.is_spent ≡ false }
        requires few { (state_in self.old).calls < 2 ^ 48 }
        requires lives { Lives (state_in self.old) connection }
        requires made { IsMadeUp frame.now }
        ensures made { IfOk result (λ told. IfSome told IsMadeDown) }
        ensures served { IfTold result (λ told. Goes (SeesPair self.old) (SeesPair self.new)
            (λ old new. ServedOne old connection now frame.now told (LeavesPair self.new) new)) }
        ensures base { NotMemory result (HaveOneBase (bytes_in self.old) (bytes_in self.new)) }
    {
        match self.primary.serve_frame(alloc, connection, frame, now) {
            Ok(told) => {
                self.primary.keeps_to_it();
                match ship_behind(alloc, &mut self.primary, &mut self.second) {
                    Ok(()) => Ok(told),
                    Err(ServeFault::Stopped) => Err(ServeFault::Stopped),
                    Err(ServeFault::NoMemory) => {
                        self.is_spent = true;
                        Err(ServeFault::NoMemory)
                    }
                }
            }
            Err(ServeFault::Stopped) => {
                self.primary.keeps_to_it();
                Err(ServeFault::Stopped)
            }
            Err(ServeFault::NoMemory) => {
                self.is_spent = true;
                Err(ServeFault::NoMemory)
            }
        }
    }
}
