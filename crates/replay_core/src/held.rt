//! A session's place for a track.
ghost use Rattle.std.specs.Prelude.{◌≡◌};

use crate::live::Live;
use client_model::Track;
use std::marker::Model;
use svc_values::Ltxid;

/// What is left of a `Live` while its track is elsewhere: the identifier of its session.
#[derive(Drop)]
pub struct Held {
    ltxid: Ltxid,
}

impl Model for Held {
    ghost use Rattle.svc_values.specs.declared.entry.Ltxid.{Ltxid as Identifier};

    ghost Value = { Identifier };

    ghost view = { λ h. h.ltxid };
}

impl Held {
    /// On the session with this identifier.
    pub(crate) fn new(ltxid: Ltxid) -> Held
        ensures { result ≡ ltxid }
    {
        Held { ltxid }
    }

    /// The track is put back, and the request is on its session again.
    pub fn join(self, track: Track) -> Live
        ensures { result ≡ record { track = track; ltxid = self } }
    {
        Live::resumed(track, self.ltxid)
    }
}
