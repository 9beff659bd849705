//! How far a request has come.
ghost use Rattle.std.specs.Prelude.{◌≡◌};
ghost use Rattle.client_model.specs.meaning.Talk.{loses, lost_of};
ghost use Rattle.driver_core.specs.Talking.{phase_of, losing_of};

use replay_core::{Asked, Live, Lost, Replaying};

/// How far the request of a driver has come. From its first Begin on, a request without a session
/// knows by `lost` whose outcome to ask.
#[derive(Drop)]
pub(crate) enum Phase {
    /// No request is there.
    Idle,
    /// One is there and has not begun.
    Unbegun,
    /// It has no slot; it was told to wait at this tick first, if at all.
    Queued { from: Option<u64> },
    /// It has a slot, and no connection.
    Seeking { lost: Option<Lost> },
    /// It opened a connection, and awaits Hello.
    Greeting { lost: Option<Lost> },
    /// It asked for an outcome, and awaits it.
    Asked(Asked),
    /// It sent a call, and awaits the reply.
    Running(Live),
    /// It sent a recorded call again, and awaits the reply.
    Replaying(Replaying),
}

impl Phase {
    /// The connection has ended by this event.
    pub(crate) fn lose(self, event: u64) -> Phase
        ensures { phase_of result ≡ loses (phase_of self) event }
    {
        match self {
            Phase::Greeting { lost } => Phase::Seeking { lost },
            Phase::Asked(asked) => Phase::Seeking {
                lost: Some(asked.lose()),
            },
            Phase::Running(live) => Phase::Seeking {
                lost: Some(live.lose(event)),
            },
            Phase::Replaying(replaying) => Phase::Seeking {
                lost: Some(replaying.lose(event)),
            },
            Phase::Idle => Phase::Idle,
            Phase::Unbegun => Phase::Unbegun,
            Phase::Queued { from } => Phase::Queued { from },
            Phase::Seeking { lost } => Phase::Seeking { lost },
        }
    }

    /// What was lost, of a request without a session.
    pub(crate) fn lost(self) -> Option<Lost>
        ensures { losing_of result ≡ lost_of (phase_of self) }
    {
        match self {
            Phase::Seeking { lost } | Phase::Greeting { lost } => lost,
            _ => None,
        }
    }
}
