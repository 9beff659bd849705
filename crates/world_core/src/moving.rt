//! The steps of clients, as events.
ghost use Rattle.std.specs.Prelude.{◌≡◌, ◌<◌, ◌^◌, IfOk, OnOk};
ghost use Rattle.std.specs.List.{AllByRecursion};
ghost use Rattle.service_calls.specs.Kept.{HaveOneBase};
ghost use Rattle.world_core.specs.Coursing.{IsFit};
ghost use Rattle.world_core.specs.Beside.{opened_in, SomeBeside, MakesStep};

use crate::client::Client;
use crate::ground::Ground;
use outage_schedule::{GoNote, Note, Request};
use request_bounds::BoundRule;
use service_calls::Service;
use std::alloc::Global;
use svc_values::NoMemory;
use world_model::laws::orderly_is_kept;

/// The connection that a step opened, if it opened one.
fn opened_by(did: GoNote) -> Option<u64>
    ensures { result ≡ opened_in did }
{
    match did {
        GoNote::Open { connection } => Some(connection),
        _ => None,
    }
}

impl<S: Service + Drop> Ground<S> {
    /// One step of a client. A connection that it opens is told to the service. Linear in what goes
    /// out and comes in, and in the waiters of the pool.
    pub fn go<R: BoundRule + Copy>(
        &mut self,
        alloc: Global,
        client: &mut Client<R>,
        script: &[Request],
        number: u64,
    ) -> Result<Note, NoMemory>
        requires events { self.old.traffic.event < 2 ^ 45 }
        requires there { SomeBeside R (λ rule. R.rules rule) (S.sees self.old.service) script.now
            number self.old.traffic client.old }
        requires fit { AllByRecursion IsFit script.now }
        ensures made { IfOk result (λ note.
            MakesStep R (λ rule. R.rules rule) (S.sees self.old.service) self.old.traffic
            (S.sees self.new.service) self.new.traffic script.now number client.old client.new
            note) }
        ensures base { OnOk result
            (HaveOneBase (S.bytes self.old.service) (S.bytes self.new.service)) }
    {
        orderly_is_kept();
        self.traffic.begin();
        let is_up = self.service.is_up();
        let did = client.go(alloc, &mut self.traffic, script, number, is_up)?;
        let note = Note::Go {
            client: number,
            did,
        };
        let Some(connection) = opened_by(did) else {
            return Ok(note);
        };
        self.service.connect(alloc, connection)?;
        Ok(note)
    }
}
