//! The replay of recorded calls on a new session.
ghost use Rattle.std.specs.Prelude.{◌≡◌, ◌≤◌, ◌<◌, ◌+◌, ◌^◌, ◌↔◌, length, Some, IsSome, IsNone, IsTrue};
ghost use Rattle.std.specs.Option.{option_copied};
ghost use Rattle.call_recorder.specs.declared.recorded.Recorded.{Recorded};
ghost use Rattle.client_model.specs.meaning.States.{next_of, lost_in_replay};
ghost use Rattle.client_model.specs.States.{IsRepeating};
ghost use Rattle.client_model.specs.meaning.Verifying.{compared};
ghost use Rattle.replay_core.specs.Verifying.{is_done, ready_of, VerifiesAll};

use crate::live::Live;
use crate::lost::Lost;
use call_recorder::Recorded;
use client_model::{Mismatch, Over, Track};
use std::marker::Model;
use svc_values::Ltxid;

/// A request that repeats its recorded calls, one after the other, on a new session.
#[derive(Drop)]
pub struct Replaying {
    track: Track,
    ltxid: Ltxid,
    event: u64,
    verified: usize,
}

impl Model for Replaying {
    ghost use Rattle.client_model.specs.meaning.States.{Repeating};
    ghost use Rattle.client_model.specs.States.{IsRepeating};

    ghost Value = { Repeating };

    ghost view = { λ s. record {
      track = s.track;
      ltxid = s.ltxid;
      event = s.event;
      verified =
          s.verified;
    } };

    ghost invariant = { λ s. IsRepeating
        (record { track = s.track; ltxid = s.ltxid; event = s.event; verified = s.verified }) };
}

/// A request whose recorded calls were all answered as before.
#[derive(Drop)]
pub struct Ready {
    track: Track,
    ltxid: Ltxid,
}

impl Model for Ready {
    ghost use Rattle.client_model.specs.meaning.States.{Living};

    ghost Value = { Living };

    ghost view = { λ s. record { track = s.track; ltxid = s.ltxid } };
}

impl Replaying {
    /// One replay more, on the session with this identifier, with no call verified yet.
    pub(crate) fn start(mut track: Track, ltxid: Ltxid, event: u64) -> Replaying
        requires another { track.replays + 1 < 2 ^ 64 }
        requires before { length track.recorder.calls ≤ track.call }
        ensures { result ≡ record {
          track = record track { replays = track.replays + 1 };
          ltxid =
              ltxid;
          event = event;
          verified = 0;
        } }
    {
        track.replays += 1;
        Replaying {
            track,
            ltxid,
            event,
            verified: 0,
        }
    }

    /// The identifier of the session on which the calls are repeated.
    pub fn ltxid(&self) -> &Ltxid
        ensures { result.now ≡ self.now.ltxid }
    {
        &self.ltxid
    }

    /// The event that ended the connection of the session that was lost before.
    pub fn event(&self) -> u64
        ensures { result ≡ self.now.event }
    {
        self.event
    }

    /// The recorded call to be repeated next, and `None` exactly where all are verified.
    pub fn next(&self) -> Option<&Recorded>
        ensures next { option_copied result ≡ next_of self.now }
        ensures all { IsNone result ↔ IsTrue (is_done self.now) }
        ensures repeating { IsRepeating self.now }
    {
        self.track.recorder.entry(self.verified)
    }

    /// Takes the digest of the next call's answers: refused exactly where it is another one than
    /// the recorded one, and then the request is over.
    pub fn verify(mut self, now: &[u8; 32]) -> Result<Replaying, (Over, Mismatch)>
        requires { IsSome (next_of self) }
        ensures { (one : Recorded) → next_of self ≡ Some one → result ≡ compared one self now.now }
    {
        let Some(recorded) = self.next() else {
            unreachable!();
        };
        let seen = recorded.seen.digest;
        if seen == *now {
            self.verified += 1;
            return Ok(self);
        }
        let left = self.track.recorder.len() - self.verified;
        let call = self.track.call - left as u64;
        let over = Over {
            track: self.track,
            event: self.event,
        };
        let now = *now;
        Err((over, Mismatch { call, seen, now }))
    }

    /// The connection is gone, by this event. An outcome was taken on its session, so the
    /// identifier of that session is the one to be asked.
    pub fn lose(self, event: u64) -> Lost
        ensures { result ≡ lost_in_replay self event }
    {
        Lost::new(self.track, self.ltxid, event)
    }

    /// Ready exactly where all recorded calls are verified. Else the replay is handed back.
    pub fn ready(self) -> Result<Ready, Replaying>
        ensures { result ≡ ready_of self }
    {
        if self.verified < self.track.recorder.len() {
            return Err(self);
        }
        Ok(Ready {
            track: self.track,
            ltxid: self.ltxid,
        })
    }
}

impl Ready {
    /// The identifier of the session on which the calls were repeated.
    pub fn ltxid(&self) -> &Ltxid
        ensures { result.now ≡ self.now.ltxid }
    {
        &self.ltxid
    }

    /// The state in which the lost call is sent, without the mark.
    pub fn submit(self) -> Live
        ensures { result ≡ self }
    {
        Live::resumed(self.track, self.ltxid)
    }
}

/// A law, with nothing to run: a replay that is done repeated every recorded call, and each was
/// answered with the digest that was recorded.
pub fn verifies_all()
    ensures { VerifiesAll }
{}
