//! Between which numbers a number of a document lies.
ghost use Rattle.std.specs.Prelude.{◌≡◌};
ghost use Rattle.document_limits.specs.Limits.{number_limit};

/// A number of a document.
#[derive(Clone, Copy)]
pub enum Number {
    /// The tries in a row to connect: `retries`.
    Tries,
    /// The ticks between two of them: `delay`.
    Delay,
    /// The ticks from a request's first call within which its replay may begin: `timeout`.
    Timeout,
    /// The replays of one request: `replays`.
    Replays,
    /// The calls that are recorded for a replay: `record`.
    Recorded,
    /// The connections in use at once: `max` of the pool.
    Slots,
    /// The ticks for which a request waits for a connection: `wait` of the pool.
    Wait,
    /// The ticks for which outcomes are kept: `retention`.
    Retention,
    /// The first value of a sequence.
    Start,
    /// The further submissions of a request: `again`.
    Again,
    /// A connection, a number of bytes or of device calls, a part of an identifier: at most 2^62.
    Place,
    /// Which image a crash leaves.
    Pick,
    /// The end of a reservation in an image: at most 2^62.
    Reserved,
}

/// The least and the greatest number.
#[derive(Clone, Copy)]
pub struct NumberLimit {
    pub least: u64,
    pub most: u64,
}

/// So many at least, and so many at most.
fn between(least: u64, most: u64) -> NumberLimit
    ensures { result ≡ record { least = least; most = most } }
{
    NumberLimit { least, most }
}

impl Number {
    /// Between which numbers it lies.
    pub fn limit(self) -> NumberLimit
        ensures { result ≡ number_limit self }
    {
        match self {
            Number::Tries => between(1, 1_000),
            Number::Delay => between(0, 1_000),
            Number::Timeout => between(0, 1_000_000),
            Number::Replays => between(0, 4),
            Number::Recorded => between(1, 256),
            Number::Slots => between(1, 64),
            Number::Wait => between(1, 1_000_000),
            Number::Retention => between(0, 1_000_000),
            Number::Start => between(0, 1_000_000_000),
            Number::Again => between(0, 4),
            Number::Place => between(0, 4_611_686_018_427_387_904),
            Number::Pick => between(0, 3),
            Number::Reserved => between(0, 4_611_686_018_427_387_904),
        }
    }
}
