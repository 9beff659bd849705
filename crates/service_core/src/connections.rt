//! The connections of a service, each with its session once a frame was served on it.
ghost use Rattle.std.specs.Prelude.{◌≡◌, ◌≢◌, [], OnOk, Some, None};
ghost use Rattle.service_core.specs.Held.{Holds, held_at};

use indexmap::IndexMap;
use server_session::Session;
use std::alloc::Global;
use std::marker::Model;
use svc_values::NoMemory;

/// The connections that live, by number. A session that is taken out leaves its connection in its
/// place, so that serving a frame takes and frees no memory here. Each call takes the same time
/// however many there are, but that `clear` is linear in their number, and so is a `put` that grows
/// the map.
#[derive(Drop)]
pub struct Connections {
    held: IndexMap<u64, Option<Session>>,
}

impl Model for Connections {
    ghost use Rattle.service_core.specs.Held.{Held};

    ghost Value = { Held };

    ghost view = { λ c. c.held.entries };
}

impl Connections {
    /// None at all. It takes no memory.
    pub fn new(alloc: Global) -> Connections
        ensures { result ≡ [] }
    {
        Connections {
            held: IndexMap::new(alloc),
        }
    }

    /// Holds a connection, with this session or none yet, in the place of what stood there.
    pub fn put(&mut self, connection: u64, session: Option<Session>) -> Result<(), NoMemory>
        ensures { OnOk result (Holds connection (Some session) self.old self.new) }
    {
        self.held.insert(connection, session)?;
        Ok(())
    }

    /// Takes the session of a connection out. The connection lives on, as one that has none yet.
    pub fn take(&mut self, connection: u64) -> Option<Option<Session>>
        ensures taken { result ≡ held_at self.old connection }
        ensures left { held_at self.old connection ≢ None
            → Holds connection (Some None) self.old self.new }
    {
        match self.held.get_mut(&connection) {
            Some(session) => Some(session.take()),
            None => None,
        }
    }

    /// Gives a living connection its session.
    pub fn give(&mut self, connection: u64, session: Session)
        requires { held_at self.old connection ≢ None }
        ensures { Holds connection (Some (Some session)) self.old self.new }
    {
        match self.held.get_mut(&connection) {
            Some(place) => *place = Some(session),
            None => unreachable!(),
        }
    }

    /// Ends a connection, with its session.
    pub fn end(&mut self, connection: u64)
        ensures gone { Holds connection None self.old self.new }
        ensures same { held_at self.old connection ≡ None → self.new ≡ self.old }
    {
        self.held.swap_remove(&connection);
    }

    /// Ends all connections.
    pub fn clear(&mut self)
        ensures { self.new ≡ [] }
    {
        self.held.clear();
    }
}
