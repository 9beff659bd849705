//! The events: steps of clients, frames that are served, ticks and cuts.
ghost use Rattle.std.specs.Prelude.{◌≡◌, ◌≤◌, IfOk};
ghost use Rattle.load_document.specs.meaning.Loads.{connection_drawn as connection_def, client_drawn as client_def, event_at as event_at_def, behind_event as behind_event_def, events as events_def};

use crate::drawing::{drawn, next};
use outage_schedule::{Event, Events};
use std::alloc::Global;
use svc_values::NoMemory;

/// One of the connections, which are counted as twice as many as the clients.
fn connection_drawn(clients: u64, state: u64) -> u64
    requires some { 1 ≤ clients }
    requires few { clients ≤ 64 }
    ensures { result ≡ connection_def clients state }
{
    1 + drawn(2 * clients, state)
}

/// The client that this state draws, numbered from 1.
fn client_drawn(clients: u64, state: u64) -> u64
    requires some { 1 ≤ clients }
    requires few { clients ≤ 64 }
    ensures { result ≡ client_def clients state }
{
    1 + drawn(clients, state)
}

/// The event whose first draw led to this state.
#[tactic(auto, unfolding(crate::specs::meaning::Loads::event_at))]
fn event_at(clients: u64, state: u64) -> Event
    requires some { 1 ≤ clients }
    requires few { clients ≤ 64 }
    ensures { result ≡ event_at_def clients state }
{
    let of_sixteen = drawn(16, state);
    if of_sixteen == 0 {
        return Event::Cut {
            connection: connection_drawn(clients, next(state)),
            up: 0,
            down: 0,
        };
    }
    if of_sixteen == 1 {
        return Event::Tick;
    }
    if of_sixteen <= 8 {
        return Event::Go {
            client: client_drawn(clients, next(state)),
        };
    }
    Event::Serve {
        connection: connection_drawn(clients, next(state)),
    }
}

/// The state behind that event.
#[tactic(auto, unfolding(crate::specs::meaning::Loads::behind_event))]
fn behind_event(state: u64) -> u64
    ensures { result ≡ behind_event_def state }
{
    if drawn(16, state) == 1 {
        state
    } else {
        next(state)
    }
}

/// So many events of so many clients, drawn from this state on.
pub(crate) fn events(
    alloc: Global,
    clients: u64,
    count: u64,
    first: u64,
) -> Result<Events, NoMemory>
    requires some { 1 ≤ clients }
    requires few { clients ≤ 64 }
    ensures { IfOk result (λ all. all ≡ events_def clients count first) }
{
    let mut all = Vec::new(alloc);
    let mut state = first;
    for _ in 0..count {
        let kind = next(state);
        all.push(event_at(clients, kind))?;
        state = behind_event(kind);
    }
    Ok(Events::from_vec(all))
}
