//! Questions from outside.
ghost use Rattle.std.specs.Prelude.{◌<◌, ◌^◌, [], IfOk, OnOk};
ghost use Rattle.svc_values.specs.Identifiers.{IsLtxid};
ghost use Rattle.service_calls.specs.Kept.{HaveOneBase};
ghost use Rattle.world_core.specs.Making.{Makes, IsSomewhere};

use crate::answering::result_of;
use crate::ground::Ground;
use outage_schedule::{Event, Note};
use service_calls::{ServeFault, Service};
use std::alloc::Global;
use svc_values::laws::compares_exactly;
use svc_values::{Ltxid, NoMemory};
use world_model::laws::orderly_is_kept;

impl<S: Service + Drop> Ground<S> {
    /// Asks for the outcome of an identifier from outside, where the server is up. One that may
    /// still commit is blocked first.
    pub fn ask(&mut self, alloc: Global, ltxid: Ltxid) -> Result<Note, NoMemory>
        requires events { self.old.traffic.event < 2 ^ 45 }
        requires there { IsSomewhere (S.sees self.old.service) self.old.traffic }
        requires identifier { IsLtxid ltxid }
        ensures made { IfOk result (λ note.
            Makes (S.sees self.old.service) self.old.traffic (S.sees self.new.service)
            self.new.traffic (Event.Ask ltxid) note []) }
        ensures base { OnOk result
            (HaveOneBase (S.bytes self.old.service) (S.bytes self.new.service)) }
    {
        compares_exactly();
        orderly_is_kept();
        self.traffic.begin();
        if !self.service.is_up() {
            return Ok(Note::Ask { ltxid, told: None });
        }
        let verdict = match self.service.ask(alloc, &ltxid) {
            Ok(verdict) => verdict,
            Err(ServeFault::NoMemory) => return Err(NoMemory),
            Err(ServeFault::Stopped) => unreachable!(),
        };
        Ok(Note::Ask {
            ltxid,
            told: Some(result_of(verdict)),
        })
    }
}
