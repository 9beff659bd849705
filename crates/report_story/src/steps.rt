//! Steps of the clients.

use outage_schedule::{GoNote, Served};
use svc_values::SessionId;

/// A step of a client: its event, what it did, the reply that it took, and the session that it
/// acquired.
#[derive(Clone, Copy)]
pub struct Step<'a> {
    pub event: u64,
    pub client: u64,
    pub did: GoNote,
    pub taken: Option<&'a Served>,
    pub session: Option<SessionId>,
}
