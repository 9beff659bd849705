//! The service of a run, and the traffic to it.
ghost use Rattle.std.specs.Prelude.{◌≡◌, ◌<◌, ◌^◌, [], IfOk, OnOk, is_some, option_to_list};
ghost use Rattle.server_model.specs.Seen.{Seen};
ghost use Rattle.server_model.specs.ServiceCalls.{MayForget};
ghost use Rattle.service_calls.specs.Kept.{HaveOneBase};
ghost use Rattle.world_model.specs.meaning.Finishing.{first_behind};
ghost use Rattle.world_model.specs.meaning.Links.{is_orphan};
ghost use Rattle.world_model.specs.meaning.Machines.{Machine};
ghost use Rattle.world_model.specs.meaning.Serving.{front_of};
ghost use Rattle.world_model.specs.Traced.{Traced};
ghost use Rattle.world_core.specs.Underway.{IsUnderway};
ghost use Rattle.world_core.specs.CutBytes.{CutsFirst};
ghost use Rattle.world_core.specs.Making.{IsAt, Makes, MakesBelow, IsSomewhere};

use crate::answering::frame_name;
use crate::traffic::Traffic;
use outage_schedule::{Event, Note, Served};
use service_calls::{ServeFault, Service};
use std::alloc::Global;
use svc_values::NoMemory;
use svc_values::laws::compares_exactly;
use world_model::laws::orderly_is_kept;

/// The service of a run, and the traffic to it: what an event finds beside the clients.
///
/// Each event gives its note. Whatever was seen of the service, and wherever the machine stood
/// orderly, they go on together by that event and note (`OneEvent`), and the machine stands orderly
/// behind it. A service that is ready stays so, and is stopped in none of these.
#[derive(Drop)]
pub struct Ground<S: Service + Drop> {
    pub service: S,
    pub traffic: Traffic,
}

impl<S: Service + Drop> Ground<S> {
    /// This service with this traffic to it.
    pub fn new(service: S, traffic: Traffic) -> Ground<S>
        ensures service { result.service ≡ service }
        ensures traffic { result.traffic ≡ traffic }
    {
        Ground { service, traffic }
    }

    /// Whether the server is up.
    pub fn is_up(&self) -> bool
        ensures { (seen : Seen) (t : Traced)
            → IsAt (S.sees self.now.service) self.now.traffic seen t
            → result ≡ t.machine.server.is_up }
    {
        self.service.is_up()
    }

    /// The first connection that was cut and whose session lives on. Linear in those whose session
    /// lives.
    pub fn first_orphan(&self) -> Option<u64>
        ensures { (m : Machine) → IsUnderway self.now.traffic m
            → result ≡ first_behind is_orphan 0 m.links }
    {
        self.traffic.connections.first_orphan()
    }

    /// The first connection on which a frame may be served. Linear in those whose session lives.
    pub fn first_front(&self) -> Option<u64>
        ensures { (m : Machine) → IsUnderway self.now.traffic m
            → result ≡ first_behind (λ link. is_some (front_of link)) 0 m.links }
    {
        self.traffic.connections.first_front()
    }

    /// The service.
    pub fn into_service(self) -> S
        ensures { result ≡ self.service }
    {
        self.service
    }

    /// One tick passes.
    pub fn tick(&mut self) -> Note
        requires events { self.old.traffic.event < 2 ^ 45 }
        requires there { IsSomewhere (S.sees self.old.service) self.old.traffic }
        ensures made { Makes (S.sees self.old.service) self.old.traffic (S.sees self.new.service)
            self.new.traffic Event.Tick result [] }
        ensures base { HaveOneBase (S.bytes self.old.service) (S.bytes self.new.service) }
    {
        orderly_is_kept();
        self.traffic.begin();
        self.traffic.pass();
        Note::Tick
    }

    /// Serves the frame that stands first on a connection, if one may be served there, and gives
    /// its item.
    pub fn serve(
        &mut self,
        alloc: Global,
        connection: u64,
    ) -> Result<(Note, Option<Served>), NoMemory>
        requires events { self.old.traffic.event < 2 ^ 45 }
        requires there { IsSomewhere (S.sees self.old.service) self.old.traffic }
        ensures made { IfOk result (λ made.
            Makes (S.sees self.old.service) self.old.traffic (S.sees self.new.service)
            self.new.traffic (Event.Serve connection) made.0 (option_to_list made.1)) }
        ensures base { OnOk result
            (HaveOneBase (S.bytes self.old.service) (S.bytes self.new.service)) }
    {
        compares_exactly();
        orderly_is_kept();
        self.traffic.begin();
        let first = self.traffic.first_up(connection)?;
        let Some(frame) = first else {
            let note = Note::Serve {
                connection,
                frame: None,
            };
            return Ok((note, None));
        };
        let name = frame_name(&frame);
        let reply = match self
            .service
            .serve(alloc, connection, &frame, self.traffic.tick)
        {
            Ok(reply) => reply,
            Err(ServeFault::NoMemory) => return Err(NoMemory),
            Err(ServeFault::Stopped) => unreachable!(),
        };
        let served = self.traffic.answer(connection, frame, reply)?;
        let note = Note::Serve {
            connection,
            frame: Some(name),
        };
        Ok((note, Some(served)))
    }

    /// Cuts a connection, if it is open: of the bytes on their way the first `up` still reach the
    /// server and the first `down` the client.
    pub fn cut(&mut self, connection: u64, up: u64, down: u64) -> Note
        requires events { self.old.traffic.event < 2 ^ 45 }
        ensures made { Makes (S.sees self.old.service) self.old.traffic (S.sees self.new.service)
            self.new.traffic (Event.Cut connection up down) result [] }
        ensures bytes { CutsFirst (Event.Cut connection up down) self.old.traffic self.new.traffic }
        ensures base { HaveOneBase (S.bytes self.old.service) (S.bytes self.new.service) }
    {
        orderly_is_kept();
        self.traffic.begin();
        Note::Cut {
            connection,
            reached: self.traffic.cut(connection, up, down),
        }
    }

    /// Ends the session of an orphan, if the connection is one. It takes no memory.
    pub fn reap(&mut self, connection: u64) -> Note
        requires events { self.old.traffic.event < 2 ^ 45 }
        requires there { IsSomewhere (S.sees self.old.service) self.old.traffic }
        ensures made { Makes (S.sees self.old.service) self.old.traffic (S.sees self.new.service)
            self.new.traffic (Event.Reap connection) result [] }
        ensures base { HaveOneBase (S.bytes self.old.service) (S.bytes self.new.service) }
    {
        orderly_is_kept();
        self.traffic.begin();
        if !self.traffic.reap(connection) {
            return Note::Reap {
                connection,
                reaped: false,
            };
        }
        self.service.reap(connection);
        Note::Reap {
            connection,
            reaped: true,
        }
    }

    /// Opens the store, where the server is down, and forgets the outcomes of all incarnations
    /// below the horizon. The cost is that of the service's opening.
    pub fn up(&mut self, alloc: Global, horizon: u64) -> Result<Note, NoMemory>
        requires events { self.old.traffic.event < 2 ^ 45 }
        requires there { IsSomewhere (S.sees self.old.service) self.old.traffic }
        requires may { MayForget (S.state self.old.service) horizon }
        ensures made { IfOk result (λ note.
            MakesBelow horizon (S.sees self.old.service) self.old.traffic (S.sees self.new.service)
            self.new.traffic Event.Up note []) }
        ensures base { OnOk result
            (HaveOneBase (S.bytes self.old.service) (S.bytes self.new.service)) }
    {
        orderly_is_kept();
        self.traffic.begin();
        if self.service.is_up() {
            return Ok(Note::Up { incarnation: None });
        }
        match self.service.up(alloc, horizon) {
            Ok(()) => {}
            Err(ServeFault::NoMemory) => return Err(NoMemory),
            Err(ServeFault::Stopped) => unreachable!(),
        }
        let incarnation = self.service.incarnation();
        Ok(Note::Up {
            incarnation: Some(incarnation),
        })
    }

    /// Closes the idle connections, and lets the others go once they are given back. Linear in the
    /// idle connections.
    pub fn drain(&mut self) -> Result<Note, NoMemory>
        requires events { self.old.traffic.event < 2 ^ 45 }
        requires there { IsSomewhere (S.sees self.old.service) self.old.traffic }
        ensures made { IfOk result (λ note.
            Makes (S.sees self.old.service) self.old.traffic (S.sees self.new.service)
            self.new.traffic Event.Drain note []) }
        ensures base { OnOk result
            (HaveOneBase (S.bytes self.old.service) (S.bytes self.new.service)) }
    {
        orderly_is_kept();
        self.traffic.begin();
        let closed = self.traffic.drain()?;
        Ok(Note::Drain { closed })
    }
}
