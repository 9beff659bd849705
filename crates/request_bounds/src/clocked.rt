//! Limits by count and by the clock.
ghost use Rattle.std.specs.Prelude.{◌≡◌, ◌↔◌, ◌≤◌, ◌<◌, ◌-◌, IsTrue};
ghost use Rattle.request_bounds.specs.meaning.Limits.{has_waited};
ghost use Rattle.request_bounds.specs.Limits.{IsPast};

/// The limits of a service. `retries` is how many tries in a row may fail, `replays` how many
/// replays a request may start. `delay`, `timeout` and `wait` are ticks: between a failed try and
/// the next, from a request's first submitted call to a replay, and in the queue of the pool. No
/// method takes memory, and a tick that is handed in as an earlier one is not above `now`.
#[derive(Clone, Copy)]
pub struct Clocked {
    pub retries: u64,
    pub delay: u64,
    pub timeout: u64,
    pub replays: u64,
    pub wait: u64,
}

impl Clocked {
    /// Whether a request may try to connect now, where `last` is the tick of its last failed try.
    pub fn may_try(&self, now: u64, last: Option<u64>) -> bool
        requires { IsPast last now }
        ensures { result ≡ has_waited last now self.now.delay }
    {
        match last {
            None => true,
            Some(last) => now - last >= self.delay,
        }
    }

    /// Whether this many tries in a row are all that may fail.
    pub fn spent(&self, tries: u64) -> bool
        ensures { IsTrue result ↔ (self.now.retries ≤ tries) }
    {
        tries >= self.retries
    }

    /// Whether it is too late for a replay, where `first` is the tick of the request's first
    /// submitted call.
    pub fn late(&self, first: u64, now: u64) -> bool
        requires { first ≤ now }
        ensures { IsTrue result ↔ (self.now.timeout < now - first) }
    {
        now - first > self.timeout
    }

    /// Whether a request has waited for the pool as long as it may, where it waits since `from`.
    pub fn waited(&self, from: u64, now: u64) -> bool
        requires { from ≤ now }
        ensures { IsTrue result ↔ (self.now.wait ≤ now - from) }
    {
        now - from >= self.wait
    }
}
