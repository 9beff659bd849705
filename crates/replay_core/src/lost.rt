//! A request without a session.
ghost use Rattle.std.specs.Prelude.{◌≡◌};
ghost use Rattle.client_model.specs.meaning.States.{asked_on};

use crate::asked::Asked;
use client_model::Track;
use std::marker::Model;
use svc_values::Ltxid;

/// A request whose connection was lost. Nothing is known of its last transaction but the
/// identifier, whose outcome is to be asked on a new session.
#[derive(Drop)]
pub struct Lost {
    track: Track,
    ltxid: Ltxid,
    event: u64,
}

impl Model for Lost {
    ghost use Rattle.client_model.specs.meaning.States.{Losing};

    ghost Value = { Losing };

    ghost view = { λ s. record { track = s.track; ltxid = s.ltxid; event = s.event } };
}

impl Lost {
    /// A request that lost the session with this identifier, by this event.
    pub(crate) fn new(track: Track, ltxid: Ltxid, event: u64) -> Lost
        ensures { result ≡ record { track = track; ltxid = ltxid; event = event } }
    {
        Lost {
            track,
            ltxid,
            event,
        }
    }

    /// The identifier whose outcome is to be asked.
    pub fn ltxid(&self) -> &Ltxid
        ensures { result.now ≡ self.now.ltxid }
    {
        &self.ltxid
    }

    /// The event that ended the connection of the lost session.
    pub fn event(&self) -> u64
        ensures { result ≡ self.now.event }
    {
        self.event
    }

    /// The outcome was asked on a new session, which has the identifier `fresh`.
    pub fn ask(self, fresh: Ltxid) -> Asked
        ensures { result ≡ asked_on self fresh }
    {
        Asked::new(self.track, self.ltxid, fresh, self.event)
    }
}
