//! What an outcome leads to.
ghost use Rattle.std.specs.Prelude.{◌≡◌};
ghost use Rattle.std.specs.Borrow.{sem};
ghost use Rattle.client_model.specs.meaning.States.{resumed};
ghost use Rattle.replay_core.specs.Lending.{FreshLends};

use crate::live::Live;
use crate::replaying::Replaying;
use client_model::{Over, Track};
use request_bounds::Why;
use std::marker::Model;
use svc_values::Ltxid;

/// A request whose lost call was committed and completed, on the session that answered: the call is
/// shown as committed, and the request goes on behind it.
#[derive(Drop)]
pub struct Fresh {
    track: Track,
    ltxid: Ltxid,
    event: u64,
}

impl Model for Fresh {
    ghost use Rattle.client_model.specs.meaning.States.{Resuming};

    ghost Value = { Resuming };

    ghost view = { λ s. record { track = s.track; ltxid = s.ltxid; event = s.event } };
}

impl Fresh {
    /// On the session with this identifier, after the loss by the event.
    pub(crate) fn new(track: Track, ltxid: Ltxid, event: u64) -> Fresh
        ensures { result ≡ record { track = track; ltxid = ltxid; event = event } }
    {
        Fresh {
            track,
            ltxid,
            event,
        }
    }

    /// The identifier of the session that answered.
    pub fn ltxid(&self) -> &Ltxid
        ensures { result.now ≡ self.now.ltxid }
    {
        &self.ltxid
    }

    /// The event that ended the connection of the lost session.
    pub fn event(&self) -> u64
        ensures { result ≡ self.now.event }
    {
        self.event
    }

    /// Lends the track. The identifier stays.
    pub fn track(&mut self) -> &mut Track
        ensures* writes_back { sem 𝓛 (FreshLends self.entry result) }
        ensures value { result.now ≡ self.old.track }
    {
        &mut self.track
    }

    /// The request goes on with its next call.
    pub fn resume(self) -> Live
        ensures { result ≡ resumed self }
    {
        Live::resumed(self.track, self.ltxid)
    }
}

/// What the outcome of a lost identifier leads to.
#[derive(Drop)]
pub enum Told {
    /// The lost call was committed and completed.
    Committed(Fresh),
    /// It was committed, and the answers of its statements are lost.
    Incomplete(Over),
    /// It was not committed, and there is a reason against a replay.
    Disabled(Over, Why),
    /// As many replays were started as may be.
    Replays(Over),
    /// Too many ticks have passed since the first submitted call.
    Late(Over),
    Replay(Replaying),
}
