//! Openings that are stopped.
ghost use Rattle.std.specs.Prelude.{◌≡◌, ◌+◌, ◌<◌, ◌^◌, false, true, [], OnOk, IfOk};
ghost use Rattle.server_model.specs.meaning.ServiceCalls.{is_failover};
ghost use Rattle.server_model.specs.ServiceCalls.{MayForget};
ghost use Rattle.service_calls.specs.Kept.{Goes, HaveOneBase};
ghost use Rattle.world_core.specs.Making.{MakesBelow, IsSomewhere};
ghost use Rattle.world_core.specs.Stopping.{BegunOpening, IsSeen};

use crate::ground::Ground;
use outage_schedule::{Event, Note};
use service_calls::{ServeFault, Service};
use std::alloc::Global;
use svc_values::NoMemory;
use world_model::laws::orderly_is_kept;

impl<S: Service + Drop> Ground<S> {
    /// Begins to open the store, where the server is down, under a stop after so many device calls,
    /// and then crashes the service with this pick, which is that of no failover. The cost is that
    /// of the service's opening.
    pub fn up_crash(
        &mut self,
        alloc: Global,
        horizon: u64,
        after: u64,
        pick: u8,
    ) -> Result<Note, NoMemory>
        requires events { self.old.traffic.event < 2 ^ 45 }
        requires there { IsSomewhere (S.sees self.old.service) self.old.traffic }
        requires may { MayForget (S.state self.old.service) horizon }
        requires one_store { is_failover pick ≡ false }
        ensures made { IfOk result (λ note.
            MakesBelow horizon (S.sees self.old.service) self.old.traffic (S.sees self.new.service)
            self.new.traffic (Event.UpCrash after pick) note []) }
        ensures base { OnOk result
            (HaveOneBase (S.bytes self.old.service) (S.bytes self.new.service)) }
    {
        orderly_is_kept();
        self.traffic.begin();
        if self.service.is_up() {
            return Ok(Note::UpCrash { made: false });
        }
        self.begin_opening(alloc, horizon, after)?;
        self.service.crash(pick);
        Ok(Note::UpCrash { made: true })
    }

    /// Begins to open the store under a stop after so many device calls, whether it is reached or
    /// not.
    fn begin_opening(&mut self, alloc: Global, horizon: u64, after: u64) -> Result<(), NoMemory>
        requires seen { IsSeen (S.sees self.old.service) }
        requires few { (S.state self.old.service).calls + 2 < 2 ^ 48 }
        requires down { (S.state self.old.service).is_up ≡ false }
        requires may { MayForget (S.state self.old.service) horizon }
        ensures traffic { self.new.traffic ≡ self.old.traffic }
        ensures begun { OnOk result
            (Goes (S.sees self.old.service) (S.sees self.new.service)
            (λ old new. BegunOpening old horizon after (S.leaves self.new.service) new)) }
        ensures base { OnOk result
            (HaveOneBase (S.bytes self.old.service) (S.bytes self.new.service)) }
    {
        self.service.stop_after(Some(after));
        match self.service.up(alloc, horizon) {
            Ok(()) => Ok(()),
            Err(ServeFault::Stopped) => Ok(()),
            Err(ServeFault::NoMemory) => Err(NoMemory),
        }
    }
}
