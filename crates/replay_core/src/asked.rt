//! A request that asked for an outcome.
ghost use Rattle.std.specs.Prelude.{◌≡◌, ◌≤◌, length};
ghost use Rattle.request_bounds.specs.Limits.{IsPast};
ghost use Rattle.client_model.specs.meaning.States.{lost_again};
ghost use Rattle.client_model.specs.meaning.Told.{over as over_def, is_late as is_late_def, uncommitted as uncommitted_def, told_of};
ghost use Rattle.replay_core.specs.Telling.{as_told};

use crate::lost::Lost;
use crate::replaying::Replaying;
use crate::told::{Fresh, Told};
use client_model::{Over, Track};
use request_bounds::Clocked;
use std::marker::Model;
use svc_values::Ltxid;

/// A request that asked for the outcome of the identifier that it lost, and waits for the answer on
/// a session with an identifier of its own.
#[derive(Drop)]
pub struct Asked {
    track: Track,
    ltxid: Ltxid,
    fresh: Ltxid,
    event: u64,
}

impl Model for Asked {
    ghost use Rattle.client_model.specs.meaning.States.{Asking};

    ghost Value = { Asking };

    ghost view = { λ s. record {
      track = s.track;
      ltxid = s.ltxid;
      fresh = s.fresh;
      event =
          s.event;
    } };
}

/// Whether it is too late for a replay. Where no call was submitted it never is.
fn is_late(first: Option<u64>, limits: &Clocked, now: u64) -> bool
    requires { IsPast first now }
    ensures { result ≡ is_late_def limits.now.timeout first now }
{
    match first {
        None => false,
        Some(first) => limits.late(first, now),
    }
}

impl Asked {
    /// A request that lost the session of `ltxid` by the event, and asks on the one of `fresh`.
    pub(crate) fn new(track: Track, ltxid: Ltxid, fresh: Ltxid, event: u64) -> Asked
        ensures { result ≡ record { track = track; ltxid = ltxid; fresh = fresh; event = event } }
    {
        Asked {
            track,
            ltxid,
            fresh,
            event,
        }
    }

    /// The identifier whose outcome was asked.
    pub fn ltxid(&self) -> &Ltxid
        ensures { result.now ≡ self.now.ltxid }
    {
        &self.ltxid
    }

    /// The event that ended the connection of the lost session.
    pub fn event(&self) -> u64
        ensures { result ≡ self.now.event }
    {
        self.event
    }

    /// The connection is gone before the outcome was taken. The same identifier is to be asked
    /// again, and the event of the first loss stands.
    pub fn lose(self) -> Lost
        ensures { result ≡ lost_again self }
    {
        Lost::new(self.track, self.ltxid, self.event)
    }

    /// Takes the outcome: whether the lost transaction was committed, and then whether its call was
    /// completed. A replay that starts is counted. The track's first tick is not above `now`, and
    /// no more calls are recorded than stand before the one to be sent.
    pub fn answer(self, committed: bool, completed: bool, limits: &Clocked, now: u64) -> Told
        requires past { IsPast self.track.first now }
        requires before { length self.track.recorder.calls ≤ self.track.call }
        ensures { told_of self committed completed limits.now now ≡ as_told result }
    {
        match (committed, completed) {
            (true, true) => Told::Committed(Fresh::new(self.track, self.fresh, self.event)),
            (true, false) => Told::Incomplete(self.over()),
            (false, _) => self.uncommitted(limits, now),
        }
    }

    /// The first that holds decides.
    fn uncommitted(self, limits: &Clocked, now: u64) -> Told
        requires past { IsPast self.track.first now }
        requires before { length self.track.recorder.calls ≤ self.track.call }
        ensures { uncommitted_def self.track.why self limits.now now ≡ as_told result }
    {
        if let Some(why) = self.track.why {
            return Told::Disabled(self.over(), why);
        }
        if self.track.replays >= limits.replays {
            return Told::Replays(self.over());
        }
        if is_late(self.track.first, limits, now) {
            return Told::Late(self.over());
        }
        Told::Replay(Replaying::start(self.track, self.fresh, self.event))
    }

    /// The request ends.
    fn over(self) -> Over
        ensures { result ≡ over_def self }
    {
        Over {
            track: self.track,
            event: self.event,
        }
    }
}
