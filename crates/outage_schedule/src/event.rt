//! The events of a schedule.

use std::alloc::Global;
use svc_values::{Call, Listed, Ltxid, NoMemory, TryCopy};

/// Calls of one request or of one `outside`, in order, without a limit.
pub type Calls = Listed<Call>;

/// One event of the schedule. Clients and connections are numbered from 1, and connection 0 is
/// none.
#[derive(Drop)]
pub enum Event {
    /// One step of a client.
    Go {
        client: u64,
    },
    /// The session of a connection serves its first whole frame.
    Serve {
        connection: u64,
    },
    /// The connection ends. Of the bytes on their way the first `up` still reach the server, and
    /// the first `down` the client.
    Cut {
        connection: u64,
        up: u64,
        down: u64,
    },
    /// The session of a connection that was cut ends.
    Reap {
        connection: u64,
    },
    /// A `Serve` whose disk stops after this many device calls (writes and syncs), and then a crash
    /// that leaves the image of this pick, 0 to 3. The document's `failover` is read as a crash
    /// with its pick plus 4: the first store is lost for good, and the second one, left as the
    /// image of the pick less 4, is the only one.
    Crash {
        connection: u64,
        after: u64,
        pick: u8,
    },
    /// The store is opened.
    Up,
    /// An opening whose disk stops after this many device calls, and then a crash.
    UpCrash {
        after: u64,
        pick: u8,
    },
    /// The tick goes up by one.
    Tick,
    /// A session of its own runs the calls at once, and ends.
    Outside {
        calls: Calls,
    },
    /// The outcome of an identifier is asked from outside.
    Ask {
        ltxid: Ltxid,
    },
    /// The pool closes its idle connections, and marks all others.
    Drain,
}

/// The events of a schedule, in order, without a limit.
pub type Events = Listed<Event>;

impl TryCopy for Event {
    fn copy(&self, alloc: Global) -> Result<Event, NoMemory> {
        match self {
            Event::Go { client } => Ok(Event::Go { client: *client }),
            Event::Serve { connection } => Ok(Event::Serve {
                connection: *connection,
            }),
            Event::Cut {
                connection,
                up,
                down,
            } => Ok(Event::Cut {
                connection: *connection,
                up: *up,
                down: *down,
            }),
            Event::Reap { connection } => Ok(Event::Reap {
                connection: *connection,
            }),
            Event::Crash {
                connection,
                after,
                pick,
            } => Ok(Event::Crash {
                connection: *connection,
                after: *after,
                pick: *pick,
            }),
            Event::Up => Ok(Event::Up),
            Event::UpCrash { after, pick } => Ok(Event::UpCrash {
                after: *after,
                pick: *pick,
            }),
            Event::Tick => Ok(Event::Tick),
            Event::Outside { calls } => Ok(Event::Outside {
                calls: calls.copy(alloc)?,
            }),
            Event::Ask { ltxid } => Ok(Event::Ask { ltxid: *ltxid }),
            Event::Drain => Ok(Event::Drain),
        }
    }
}
