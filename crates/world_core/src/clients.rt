//! All clients of a run.
ghost use Rattle.std.specs.Prelude.{◌<◌, ◌≤◌, ◌^◌, length, IfOk, OnOk};
ghost use Rattle.std.specs.List.{AllByRecursion};
ghost use Rattle.driver_core.specs.Driving.{terms_of};
ghost use Rattle.service_calls.specs.Kept.{HaveOneBase};
ghost use Rattle.world_core.specs.Among.{IsFitScript, SomeAmong, MakesAmong, StayEach, BeginEach};

use crate::client::Client;
use crate::ground::Ground;
use driver_core::stays_past;
use outage_schedule::{Client as Script, Note};
use request_bounds::{BoundRule, Clocked};
use service_calls::Service;
use std::alloc::Global;
use svc_values::NoMemory;

/// The clients of these scripts before the first event, each with its own driver.
pub fn first_clients<R: BoundRule + Copy>(
    alloc: Global,
    rule: R,
    limits: Clocked,
    recorded: u64,
    scripts: &[Script],
) -> Result<Vec<Client<R>>, NoMemory>
    ensures { IfOk result (λ clients.
        BeginEach R (λ rule. R.rules rule) (terms_of (R.rules rule) limits recorded) scripts.now
        clients.items) }
{
    let mut clients = Vec::new(alloc);
    for script in scripts {
        let requests = script.requests.as_slice();
        clients.push(Client::new(alloc, rule, limits, recorded, requests))?;
    }
    Ok(clients)
}

/// A law, with nothing to run: what stands for all clients does so still behind an event that is no
/// step of one.
pub fn clients_stay<R: BoundRule + Copy>()
    ensures { StayEach R (λ rule. R.rules rule) }
{
    stays_past();
}

impl<S: Service + Drop> Ground<S> {
    /// One step of the client of this number, by its script. Clients are numbered from 1.
    pub fn go_one<R: BoundRule + Copy>(
        &mut self,
        alloc: Global,
        clients: &mut Vec<Client<R>>,
        scripts: &[Script],
        number: u64,
    ) -> Result<Note, NoMemory>
        requires events { self.old.traffic.event < 2 ^ 45 }
        requires there { SomeAmong R (λ rule. R.rules rule) (S.sees self.old.service) scripts.now
            self.old.traffic clients.old.items }
        requires fit { AllByRecursion IsFitScript scripts.now }
        requires numbered { (0 < number) × (number ≤ length scripts.now) }
        ensures made { IfOk result (λ note.
            MakesAmong R (λ rule. R.rules rule) (S.sees self.old.service) self.old.traffic
            (S.sees self.new.service) self.new.traffic scripts.now number clients.old.items
            clients.new.items note) }
        ensures base { OnOk result
            (HaveOneBase (S.bytes self.old.service) (S.bytes self.new.service)) }
    {
        let at = (number - 1) as usize;
        let script = &scripts[at];
        self.go(alloc, &mut clients[at], script.requests.as_slice(), number)
    }
}
