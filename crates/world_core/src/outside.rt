//! Calls from outside.
ghost use Rattle.std.specs.Prelude.{◌<◌, ◌^◌, [], IfOk, OnOk};
ghost use Rattle.std.specs.List.{AllByRecursion};
ghost use Rattle.svc_values.specs.Calls.{IsMade};
ghost use Rattle.service_calls.specs.Kept.{HaveOneBase};
ghost use Rattle.world_core.specs.Making.{Makes, IsSomewhere};

use crate::ground::Ground;
use outage_schedule::{Event, Note};
use service_calls::{ServeFault, Service};
use std::alloc::Global;
use svc_values::laws::compares_exactly;
use svc_values::{Call, NoMemory};
use world_model::laws::orderly_is_kept;

impl<S: Service + Drop> Ground<S> {
    /// Runs calls in a session of their own, where the server is up, to the first that is answered
    /// Blocked.
    pub fn outside(&mut self, alloc: Global, calls: &[Call]) -> Result<Note, NoMemory>
        requires events { self.old.traffic.event < 2 ^ 45 }
        requires there { IsSomewhere (S.sees self.old.service) self.old.traffic }
        requires calls { AllByRecursion IsMade calls.now }
        ensures made { IfOk result (λ note.
            Makes (S.sees self.old.service) self.old.traffic (S.sees self.new.service)
            self.new.traffic (Event.Outside calls.now) note []) }
        ensures base { OnOk result
            (HaveOneBase (S.bytes self.old.service) (S.bytes self.new.service)) }
    {
        compares_exactly();
        orderly_is_kept();
        self.traffic.begin();
        if !self.service.is_up() {
            return Ok(Note::Outside { ran: None });
        }
        let ran = match self.service.outside(alloc, calls, self.traffic.tick) {
            Ok(ran) => ran,
            Err(ServeFault::NoMemory) => return Err(NoMemory),
            Err(ServeFault::Stopped) => unreachable!(),
        };
        Ok(Note::Outside { ran: Some(ran) })
    }
}
