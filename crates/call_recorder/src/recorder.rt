//! The recorder of a request.
ghost use Rattle.std.specs.Prelude.{◌≡◌, ◌≤◌, ◌↔◌, [], length, OnOk, OnErr, IsErrOf, slice_get, ◌==◌};
ghost use Rattle.std.specs.Option.{option_copied};
ghost use Rattle.svc_values.specs.Calls.{IsMade};
ghost use Rattle.call_recorder.specs.meaning.Recording.{noted, purged};
ghost use Rattle.call_recorder.specs.History.{HoldsNotedCalls};

use crate::recorded::{NoteFault, Recorded, Seen};
use std::alloc::Global;
use std::marker::Model;
use svc_values::{Call, Draws};

/// The calls of a request that are to be repeated after an outage, in order: at most `limit`.
#[derive(Drop)]
pub struct Recorder {
    limit: u64,
    calls: Vec<Recorded>,
}

impl Model for Recorder {
    ghost use Rattle.std.specs.Prelude.{length, ◌≤◌};
    ghost use Rattle.call_recorder.specs.meaning.Recording.{Recording};

    ghost Value = { Recording };

    ghost view = { λ r. record { limit = r.limit; calls = r.calls.items } };

    ghost invariant = { λ r. length r.calls.items ≤ r.limit };
}

impl Recorder {
    /// A recorder without calls, which takes this many. It takes no memory before the first call.
    pub fn new(alloc: Global, limit: u64) -> Recorder
        ensures { result ≡ record { limit = limit; calls = [] } }
    {
        Recorder {
            limit,
            calls: Vec::new(alloc),
        }
    }

    /// Notes a call that was answered. `Full` comes exactly where `limit` calls stand here. After a
    /// fault the recorder is as it was, and what was handed in is dropped.
    pub fn note(&mut self, call: Call, seen: Seen, draws: Draws) -> Result<(), NoteFault>
        requires { IsMade call }
        ensures ok { OnOk result (self.new
            ≡ noted self.old (record { call = call; seen = seen; draws = draws })) }
        ensures full { IsErrOf result NoteFault.Full ↔ (length self.old.calls ≡ self.old.limit) }
        ensures err { OnErr result (self.new ≡ self.old) }
    {
        if self.calls.len() as u64 >= self.limit {
            return Err(NoteFault::Full);
        }
        match self.calls.push(Recorded { call, seen, draws }) {
            Ok(()) => Ok(()),
            Err(_) => Err(NoteFault::NoMemory),
        }
    }

    /// Drops all calls. It takes no memory.
    pub fn purge(&mut self)
        ensures { self.new ≡ purged self.old }
    {
        self.calls.clear();
    }

    /// How many calls stand here. It takes no memory.
    pub fn len(&self) -> usize
        ensures is_length { result ≡ length self.now.calls }
        ensures within { result ≤ self.now.limit }
    {
        self.calls.len()
    }

    /// Whether no call stands here.
    pub fn is_empty(&self) -> bool
        ensures { result ≡ (length self.now.calls == 0) }
    {
        self.calls.is_empty()
    }

    /// The call at this place, from 0, and `None` exactly past the end. It takes no memory.
    pub fn entry(&self, at: usize) -> Option<&Recorded>
        ensures { option_copied result ≡ slice_get self.now.calls at }
    {
        self.calls.get(at)
    }
}

/// A law, with nothing to run: after any notes that were taken, and purges, a recorder holds the
/// calls noted since the last purge, in order. A note that is refused changes nothing.
pub fn follows_notes()
    ensures { HoldsNotedCalls }
{}
