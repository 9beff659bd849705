//! A request on a session.
ghost use Rattle.std.specs.Prelude.{◌≡◌, []};
ghost use Rattle.std.specs.Borrow.{sem};
ghost use Rattle.client_model.specs.meaning.States.{lost_by};
ghost use Rattle.replay_core.specs.Lending.{LiveLends};

use crate::held::Held;
use crate::lost::Lost;
use client_model::Track;
use std::marker::Model;
use svc_values::Ltxid;

/// A request on a session that is there, as far as is known. It holds the session's identifier.
#[derive(Drop)]
pub struct Live {
    track: Track,
    ltxid: Ltxid,
}

impl Model for Live {
    ghost use Rattle.client_model.specs.meaning.States.{Living};

    ghost Value = { Living };

    ghost view = { λ s. record { track = s.track; ltxid = s.ltxid } };
}

impl Live {
    /// The state at a request's first Begin, with nothing recorded.
    pub fn start(track: Track, ltxid: Ltxid) -> Live
        requires { track.recorder.calls ≡ [] }
        ensures { result ≡ record { track = track; ltxid = ltxid } }
    {
        Live::resumed(track, ltxid)
    }

    /// The state in which a request goes on, on this session.
    pub(crate) fn resumed(track: Track, ltxid: Ltxid) -> Live
        ensures { result ≡ record { track = track; ltxid = ltxid } }
    {
        Live { track, ltxid }
    }

    /// The identifier of the session.
    pub fn ltxid(&self) -> &Ltxid
        ensures { result.now ≡ self.now.ltxid }
    {
        &self.ltxid
    }

    /// Takes the identifier that a reply carries.
    pub fn moved(&mut self, ltxid: Ltxid)
        ensures { self.new ≡ record self.old { ltxid = ltxid } }
    {
        self.ltxid = ltxid;
    }

    /// Lends the track. The identifier stays.
    pub fn track(&mut self) -> &mut Track
        ensures* writes_back { sem 𝓛 (LiveLends self.entry result) }
        ensures value { result.now ≡ self.old.track }
    {
        &mut self.track
    }

    /// Takes the track out, to be changed by value and put back by `Held::join`.
    pub fn part(self) -> (Track, Held)
        ensures { result ≡ (self.track, self.ltxid) }
    {
        (self.track, Held::new(self.ltxid))
    }

    /// The connection is gone, by this event.
    pub fn lose(self, event: u64) -> Lost
        ensures { result ≡ lost_by self event }
    {
        Lost::new(self.track, self.ltxid, event)
    }
}
