//! The finish of a run: the events behind its schedule.

ghost use Rattle.std.specs.Prelude.{◌≡◌, ◌<◌, ◌≤◌, ℕ, false, length, slice_get, Some, IfSome, OnOk, option_map};
ghost use Rattle.std.specs.Option.{option_map_or};
ghost use Rattle.std.specs.List.{AllByRecursion};
ghost use Rattle.server_model.specs.Seen.{Seen};
ghost use Rattle.service_calls.specs.Kept.{HaveOneBase};
ghost use Rattle.world_model.specs.meaning.Clients.{is_unfinished as is_unfinished_def};
ghost use Rattle.world_model.specs.meaning.Finishing.{first_behind, serves_or_ticks as serves_or_ticks_def, goes_or_serves as goes_or_serves_def, next_round as next_round_def, reaps_or_goes as reaps_or_goes_def, next_finish};
ghost use Rattle.world_model.specs.meaning.Machines.{Machine};
ghost use Rattle.world_model.specs.Traced.{Traced};
ghost use Rattle.world_core.specs.Among.{IsFitScript};
ghost use Rattle.world_run.specs.Places.{place_of, led_to, IsShort, Finishes};
ghost use Rattle.world_core.specs.Underway.{IsUnderway};
ghost use Rattle.world_core.specs.Allowing.{IsAllowed};
ghost use Rattle.world_run.specs.Running.{StandBeside};

use crate::world::World;
use outage_schedule::{Client as Script, Event};
use request_bounds::BoundRule;
use service_calls::Service;
use std::alloc::Global;
use svc_values::NoMemory;
use world_model::laws::{finish_falls, finish_goes_on};

/// How far the finish has come: before all, at the orphans, at the start of a round, in a round at
/// the clients behind the last one, or at the connections.
#[derive(Clone, Copy)]
pub enum Place {
    Server,
    Orphans,
    Round,
    Clients { last: u64 },
    Links,
}

impl<S: Service + Drop, R: BoundRule + Copy> World<S, R> {
    /// Whether the client at this place is not finished.
    fn is_unfinished(&self, scripts: &[Script], at: usize) -> bool
        requires client { at < length self.now.clients }
        requires script { at < length scripts.now }
        ensures { (seen : Seen) (t : Traced)
            → StandBeside S R S.sees (λ rule. R.rules rule) scripts.now self.now seen t
            → result ≡ option_map_or is_unfinished_def (slice_get t.machine.clients at) false }
    {
        let script = scripts[at].requests.as_slice();
        self.clients[at].is_unfinished(script)
    }

    /// The number of the first client behind so many that is not finished.
    fn next_unfinished(&self, scripts: &[Script], passed: u64) -> Option<u64>
        requires { length self.now.clients ≡ length scripts.now }
        ensures next { (seen : Seen) (t : Traced)
            → StandBeside S R S.sees (λ rule. R.rules rule) scripts.now self.now seen t
            → result ≡ first_behind is_unfinished_def passed t.machine.clients }
        ensures there { IfSome result (λ client. IsAllowed (length scripts.now) (Event.Go client)) }
    {
        for at in passed as usize..self.clients.len() {
            if self.is_unfinished(scripts, at) {
                return Some(at as u64 + 1);
            }
        }
        None
    }

    /// The first connection on which a frame may be served, and else one tick.
    fn serves_or_ticks(&self) -> (Event, Place)
        ensures next { (m : Machine) → IsUnderway self.now.traffic m
            → Some (led_to result) ≡ serves_or_ticks_def m }
        ensures allowed { (clients : ℕ) → IsAllowed clients result.0 }
    {
        match self.ground.first_front() {
            Some(connection) => (Event::Serve { connection }, Place::Links),
            None => (Event::Tick, Place::Round),
        }
    }

    /// The next client that is not finished, and else the connections.
    fn goes_or_serves(&self, scripts: &[Script], last: u64) -> (Event, Place)
        requires { length self.now.clients ≡ length scripts.now }
        ensures next { (seen : Seen) (t : Traced)
            → StandBeside S R S.sees (λ rule. R.rules rule) scripts.now self.now seen t
            → Some (led_to result) ≡ goes_or_serves_def t.machine last }
        ensures allowed { IsAllowed (length scripts.now) result.0 }
    {
        match self.next_unfinished(scripts, last) {
            Some(client) => (Event::Go { client }, Place::Clients { last: client }),
            None => self.serves_or_ticks(),
        }
    }

    /// A round, as long as a client is not finished.
    fn next_round(&self, scripts: &[Script]) -> Option<(Event, Place)>
        requires { length self.now.clients ≡ length scripts.now }
        ensures next { (seen : Seen) (t : Traced)
            → StandBeside S R S.sees (λ rule. R.rules rule) scripts.now self.now seen t
            → option_map led_to result ≡ next_round_def t.machine }
        ensures allowed { IfSome result (λ next. IsAllowed (length scripts.now) next.0) }
    {
        let client = self.next_unfinished(scripts, 0)?;
        Some((Event::Go { client }, Place::Clients { last: client }))
    }

    /// The next orphan, and else the rounds.
    fn reaps_or_goes(&self, scripts: &[Script]) -> Option<(Event, Place)>
        requires { length self.now.clients ≡ length scripts.now }
        ensures next { (seen : Seen) (t : Traced)
            → StandBeside S R S.sees (λ rule. R.rules rule) scripts.now self.now seen t
            → option_map led_to result ≡ reaps_or_goes_def t.machine }
        ensures allowed { IfSome result (λ next. IsAllowed (length scripts.now) next.0) }
    {
        match self.ground.first_orphan() {
            Some(connection) => Some((Event::Reap { connection }, Place::Orphans)),
            None => self.next_round(scripts),
        }
    }

    /// The next event of the finish, if there is one, and how far it has come then.
    fn next_event(&self, scripts: &[Script], place: Place) -> Option<(Event, Place)>
        requires { length self.now.clients ≡ length scripts.now }
        ensures next { (seen : Seen) (t : Traced)
            → StandBeside S R S.sees (λ rule. R.rules rule) scripts.now self.now seen t
            → option_map led_to result ≡ next_finish t.machine (place_of place) }
        ensures allowed { IfSome result (λ next. IsAllowed (length scripts.now) next.0) }
    {
        match place {
            Place::Server if !self.ground.is_up() => Some((Event::Up, Place::Orphans)),
            Place::Server => self.reaps_or_goes(scripts),
            Place::Orphans => self.reaps_or_goes(scripts),
            Place::Round => self.next_round(scripts),
            Place::Clients { last } => Some(self.goes_or_serves(scripts, last)),
            Place::Links => Some(self.serves_or_ticks()),
        }
    }

    /// Finishes the run behind its schedule: the server is opened if it is down, the orphans are
    /// reaped, and then come rounds, as long as a client is not finished: a step of each client
    /// that is not, each frame that may be served, and one tick.
    pub fn finish(&mut self, alloc: Global, scripts: &[Script]) -> Result<(), NoMemory>
        requires fit { AllByRecursion IsFitScript scripts.now }
        requires events { length self.old.notes ≤ 100000 }
        requires short { IsShort S R S.sees (λ rule. R.rules rule) scripts.now self.old }
        ensures finishes { OnOk result
            (Finishes S R S.sees (λ rule. R.rules rule) scripts.now self.old self.new) }
        ensures base { OnOk result
            (HaveOneBase (S.bytes self.old.service) (S.bytes self.new.service)) }
    {
        finish_falls();
        finish_goes_on();
        let mut place = Place::Server;
        for _ in 0..u64::MAX {
            let Some((event, next)) = self.next_event(scripts, place) else {
                return Ok(());
            };
            self.step(alloc, scripts, &event)?;
            place = next;
        }
        unreachable!()
    }
}
