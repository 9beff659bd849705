//! Events that no client makes.
ghost use Rattle.std.specs.Prelude.{◌≡◌, ◌<◌, ◌+◌, ◌^◌, ℕ, false, IfOk, OnOk, option_to_list};
ghost use Rattle.server_model.specs.ServiceCalls.{MayForget};
ghost use Rattle.service_calls.specs.Kept.{HaveOneBase};
ghost use Rattle.world_model.specs.Matching.{is_go};
ghost use Rattle.world_core.specs.Allowing.{IsAllowed};
ghost use Rattle.world_core.specs.CutBytes.{CutsFirst};
ghost use Rattle.world_core.specs.Making.{MakesBelow, IsSomewhere};

use crate::ground::Ground;
use outage_schedule::{Event, Note, Served};
use service_calls::Service;
use std::alloc::Global;
use svc_values::NoMemory;

impl<S: Service + Drop> Ground<S> {
    /// Makes an event that is no step of a client, with its note and the item of the frame that it
    /// served. An opening forgets the outcomes of all incarnations below the horizon, and a cut
    /// leaves the first of the bytes on their way.
    pub fn make(
        &mut self,
        alloc: Global,
        horizon: u64,
        event: &Event,
    ) -> Result<(Note, Option<Served>), NoMemory>
        requires events { self.old.traffic.event < 2 ^ 45 }
        requires there { IsSomewhere (S.sees self.old.service) self.old.traffic }
        requires may { MayForget (S.state self.old.service) horizon }
        requires allowed { (clients : ℕ) × IsAllowed clients event.now }
        requires other { is_go event.now ≡ false }
        ensures made { IfOk result (λ made.
            MakesBelow horizon (S.sees self.old.service) self.old.traffic (S.sees self.new.service)
            self.new.traffic event.now made.0 (option_to_list made.1)) }
        ensures bytes { OnOk result (CutsFirst event.now self.old.traffic self.new.traffic) }
        ensures base { OnOk result
            (HaveOneBase (S.bytes self.old.service) (S.bytes self.new.service)) }
    {
        match event {
            Event::Go { .. } => unreachable!(),
            Event::Serve { connection } => self.serve(alloc, *connection),
            Event::Cut {
                connection,
                up,
                down,
            } => Ok((self.cut(*connection, *up, *down), None)),
            Event::Reap { connection } => Ok((self.reap(*connection), None)),
            Event::Crash {
                connection,
                after,
                pick,
            } => self.crash(alloc, *connection, *after, *pick),
            Event::Up => Ok((self.up(alloc, horizon)?, None)),
            Event::UpCrash { after, pick } => {
                Ok((self.up_crash(alloc, horizon, *after, *pick)?, None))
            }
            Event::Tick => Ok((self.tick(), None)),
            Event::Outside { calls } => Ok((self.outside(alloc, calls.as_slice())?, None)),
            Event::Ask { ltxid } => Ok((self.ask(alloc, *ltxid)?, None)),
            Event::Drain => Ok((self.drain()?, None)),
        }
    }
}
