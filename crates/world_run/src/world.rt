//! A run: its service, the traffic to it, and its clients.
ghost use Rattle.std.specs.Prelude.{◌≡◌, ◌+◌, ◌<◌, ◌^◌, map, length, [], IfOk, OnOk, option_to_list};
ghost use Rattle.std.specs.List.{AllByRecursion};
ghost use Rattle.outage_schedule.specs.declared.document.Document.{Document};
ghost use Rattle.server_model.specs.Seen.{Seen};
ghost use Rattle.service_calls.specs.Kept.{HaveOneBase};
ghost use Rattle.world_model.specs.meaning.Settings.{limits_of as limits_def};
ghost use Rattle.world_core.specs.Among.{IsFitScript};
ghost use Rattle.world_run.specs.Starting.{IsOf, IsOfSome, HasRoom, StandsAtStart};
ghost use Rattle.world_core.specs.Forgetting.{IsTracked, NotesOpening};
ghost use Rattle.world_core.specs.Allowing.{IsAllowed};
ghost use Rattle.world_core.specs.CutBytes.{CutsFirst};
ghost use Rattle.world_run.specs.Running.{StandsSomewhere, Leads, MakesOne, Notes};

use outage_schedule::{
    Client as Script, Event, Note, Notes, Served, ServedItems, ServiceOf, Transcript, Transcripts,
};
use request_bounds::{BoundRule, Clocked};
use server_model::ServeFault;
use service_calls::Service;
use std::alloc::Global;
use std::marker::Model;
use svc_values::{Listed, NoMemory};
use world_core::{Client, Ground, Openings, Traffic, clients_stay, first_clients};
use world_model::laws::orderly_is_kept;

/// A run so far: its service with the traffic to it, its clients in the order of their numbers, the
/// openings of its store, and what its events did.
#[derive(Drop)]
pub struct World<S: Service + Drop, R: BoundRule + Copy> {
    pub(crate) ground: Ground<S>,
    pub(crate) clients: Vec<Client<R>>,
    openings: Openings,
    notes: Vec<Note>,
    served: Vec<Served>,
}

/// What a run leaves: its service, what each event did, what was served, and the reports of each
/// client.
#[derive(Drop)]
pub struct Ran<S: Service + Drop> {
    pub service: S,
    pub notes: Notes,
    pub served: ServedItems,
    pub clients: Transcripts,
}

/// The limits of a service's drivers.
fn limits_of(of: &ServiceOf) -> Clocked
    ensures { result ≡ limits_def of.now }
{
    Clocked {
        retries: of.retries,
        delay: of.delay,
        timeout: of.timeout,
        replays: of.replays,
        wait: of.pool.wait,
    }
}

/// The reports of each of these clients.
fn transcripts_of<R: BoundRule + Copy>(
    alloc: Global,
    clients: Vec<Client<R>>,
) -> Result<Transcripts, NoMemory>
    ensures { IfOk result (λ transcripts. transcripts ≡ map (λ client. client.past) clients.items) }
{
    let mut transcripts = Vec::new(alloc);
    for client in clients {
        transcripts.push(Transcript::from_vec(client.into_reports()))?;
    }
    Ok(Listed::from_vec(transcripts))
}

impl<S: Service + Drop, R: BoundRule + Copy> Model for World<S, R> {
    ghost use Rattle.world_run.specs.Running.{Parts};

    ghost Value = { Parts S R };

    ghost view = { λ w.
        record {
          service = w.ground.service;
          traffic = w.ground.traffic;
          clients = w.clients.items;
          openings = w.openings;
          notes = w.notes.items;
          served = w.served.items;
        } };
}

impl<S: Service + Drop, R: BoundRule + Copy> World<S, R> {
    /// The run before its first event: the service is opened, and nothing was submitted. `opened`
    /// tells whether the store was opened before.
    pub fn new(
        alloc: Global,
        of: &ServiceOf,
        scripts: &[Script],
        mut service: S,
        rule: R,
        opened: bool,
    ) -> Result<World<S, R>, NoMemory>
        requires begins { IsOfSome (S.sees service) (R.rules rule) of.now scripts.now opened }
        requires room { HasRoom of.now }
        ensures start { IfOk result (λ world. (document : Document) (seen : Seen)
            → IsOf (S.sees service) (R.rules rule) of.now scripts.now opened document seen
            → StandsAtStart S R S.sees (λ rule. R.rules rule) scripts.now document world) }
        ensures base { IfOk result
            (λ world. HaveOneBase (S.bytes service) (S.bytes world.service)) }
    {
        orderly_is_kept();
        match service.up(alloc, 0) {
            Ok(()) => {}
            Err(ServeFault::NoMemory) => return Err(NoMemory),
            Err(ServeFault::Stopped) => unreachable!(),
        }
        let last = service.incarnation() - 1;
        let clients = first_clients(alloc, rule, limits_of(of), of.record_limit, scripts)?;
        Ok(World {
            ground: Ground::new(service, Traffic::new(alloc, of.pool.max)),
            clients,
            openings: Openings::new(alloc, of.retention, opened, last),
            notes: Vec::new(alloc),
            served: Vec::new(alloc),
        })
    }

    /// One step of the client of this number.
    fn go(&mut self, alloc: Global, scripts: &[Script], number: u64) -> Result<Note, NoMemory>
        requires events { length self.old.notes < 2 ^ 45 }
        requires there { StandsSomewhere S R S.sees (λ rule. R.rules rule) scripts.now self.old }
        requires fit { AllByRecursion IsFitScript scripts.now }
        requires client { IsAllowed (length scripts.now) (Event.Go number) }
        ensures led { IfOk result (λ note.
            Leads S R S.sees (λ rule. R.rules rule) scripts.now (Event.Go number) note [] self.old
            self.new) }
        ensures base { OnOk result
            (HaveOneBase (S.bytes self.old.service) (S.bytes self.new.service)) }
    {
        let World {
            ground,
            clients,
            ..
        } = self;
        ground.go_one(alloc, clients, scripts, number)
    }

    /// Makes the event, with its note and the item of the frame that it served.
    fn make(
        &mut self,
        alloc: Global,
        scripts: &[Script],
        event: &Event,
    ) -> Result<(Note, Option<Served>), NoMemory>
        requires events { length self.old.notes < 2 ^ 45 }
        requires there { StandsSomewhere S R S.sees (λ rule. R.rules rule) scripts.now self.old }
        requires fit { AllByRecursion IsFitScript scripts.now }
        requires allowed { IsAllowed (length scripts.now) event.now }
        ensures led { IfOk result (λ made.
            Leads S R S.sees (λ rule. R.rules rule) scripts.now event.now made.0
            (option_to_list made.1) self.old self.new) }
        ensures bytes { OnOk result (CutsFirst event.now self.old.traffic self.new.traffic) }
        ensures base { OnOk result
            (HaveOneBase (S.bytes self.old.service) (S.bytes self.new.service)) }
    {
        clients_stay::<R>();
        let Event::Go { client } = event else {
            let horizon = self.openings.wanted();
            return self.ground.make(alloc, horizon, event);
        };
        let note = self.go(alloc, scripts, *client)?;
        Ok((note, None))
    }

    /// Notes what an event did.
    fn note(&mut self, note: Note, served: Option<Served>) -> Result<(), NoMemory>
        requires tracked { IsTracked self.old.openings }
        requires ticks { self.old.openings.tick < 2 ^ 48 }
        requires room { NotesOpening (λ incarnation. incarnation < 2 ^ 63) note }
        ensures { OnOk result (Notes note (option_to_list served) self.old self.new) }
    {
        self.openings.follow(&note)?;
        self.notes.push(note)?;
        if let Some(served) = served {
            self.served.push(served)?;
        }
        Ok(())
    }

    /// Makes one event. An opening stores the horizon that is wanted then, each crash is counted
    /// with its pick and its stop, and a cut leaves exactly the first bytes that it names. Beside
    /// what the service does it costs the logarithm of the connections and the bytes that are
    /// moved. A crash also takes the connections that were opened since the last one times the idle
    /// ones, a client's step the waiters of the pool, and a drain or a cut the idle connections.
    pub fn step(&mut self, alloc: Global, scripts: &[Script], event: &Event) -> Result<(), NoMemory>
        requires events { length self.old.notes < 2 ^ 45 }
        requires there { StandsSomewhere S R S.sees (λ rule. R.rules rule) scripts.now self.old }
        requires fit { AllByRecursion IsFitScript scripts.now }
        requires allowed { IsAllowed (length scripts.now) event.now }
        ensures made { OnOk result
            (MakesOne S R S.sees (λ rule. R.rules rule) scripts.now event.now self.old self.new) }
        ensures bytes { OnOk result (CutsFirst event.now self.old.traffic self.new.traffic) }
        ensures base { OnOk result
            (HaveOneBase (S.bytes self.old.service) (S.bytes self.new.service)) }
    {
        let (note, served) = self.make(alloc, scripts, event)?;
        self.note(note, served)
    }

    /// What the run leaves.
    pub fn into_ran(self, alloc: Global) -> Result<Ran<S>, NoMemory>
        ensures { IfOk result (λ ran.
            (ran.service ≡ self.service)
            × ((ran.notes ≡ self.notes)
            × ((ran.served ≡ self.served)
            × (ran.clients ≡ map (λ client. client.past) self.clients)))) }
    {
        let World {
            ground,
            clients,
            notes,
            served,
            ..
        } = self;
        Ok(Ran {
            service: ground.into_service(),
            notes: Listed::from_vec(notes),
            served: Listed::from_vec(served),
            clients: transcripts_of(alloc, clients)?,
        })
    }
}
