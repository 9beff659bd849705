//! What a driver is handed, and what it wants.
ghost use Rattle.std.specs.Prelude.{◌≡◌};
ghost use Rattle.client_model.specs.Conversation.{is_wanted};

use svc_values::{Down, Ltxid};

/// What comes to a driver at one step.
#[derive(Drop)]
pub enum Input {
    /// The request begins.
    Start,
    /// No slot is free: the request stands in the pool's queue.
    Waiting,
    /// The request got a slot with an idle connection, whose session has this identifier.
    Lent { connection: u64, ltxid: Ltxid },
    /// The request has a slot, and a connection was opened for it.
    Opened { connection: u64 },
    /// The request has a slot, and no connection could be opened, since the server is down.
    TryFailed,
    /// A whole frame arrived; `alive` is false exactly where its connection has ended.
    Took { frame: Down, alive: bool },
    /// The connection has ended by this event, and nothing is left to arrive on it.
    Gone { event: u64 },
}

/// What may be handed to a driver next.
#[derive(Clone, Copy, PartialEq, Eq)]
pub enum Wants {
    /// Nothing, since there is no request.
    Idle,
    /// `Start`: a request is there that has not begun.
    Request,
    /// `Waiting`, `Lent`, `Opened` or `TryFailed`: a begun request has no slot.
    Slot,
    /// `Opened` or `TryFailed`: a request with a slot may try to open a connection.
    Try,
    /// Nothing: a request with a slot may not try yet.
    Early,
    /// `Took` or `Gone`: the request has a connection.
    Frame,
}

impl Wants {
    /// Whether this input is one that is wanted.
    pub fn is_served_by(self, input: &Input) -> bool
        ensures { result ≡ is_wanted self input.now }
    {
        match input {
            Input::Start => matches!(self, Wants::Request),
            Input::Waiting | Input::Lent { .. } => matches!(self, Wants::Slot),
            Input::Opened { .. } | Input::TryFailed => matches!(self, Wants::Slot | Wants::Try),
            Input::Took { .. } | Input::Gone { .. } => matches!(self, Wants::Frame),
        }
    }
}
