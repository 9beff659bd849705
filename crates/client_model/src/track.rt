//! What is kept of a request through all its states.

use call_recorder::Recorder;
use request_bounds::Why;

/// What a request goes by when its connection is lost: the calls to repeat; the first reason
/// against it; how many replays were started; the tick of the first submitted call; whether a `set`
/// was shown; and the index in the request, from 0, of the call that is sent next.
#[derive(Drop)]
pub struct Track {
    pub recorder: Recorder,
    pub why: Option<Why>,
    pub replays: u64,
    pub first: Option<u64>,
    pub set_shown: bool,
    pub call: u64,
}

/// A request that ends: its track, and the event of the loss.
#[derive(Drop)]
pub struct Over {
    pub track: Track,
    pub event: u64,
}

/// A repeated call that was answered otherwise than before: its index in the request, from 0, and
/// the digests of both answers.
#[derive(Clone, Copy)]
pub struct Mismatch {
    pub call: u64,
    pub seen: [u8; 32],
    pub now: [u8; 32],
}
