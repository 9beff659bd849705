//! What a driver does at one step.

use request_bounds::Why;
use svc_values::{Answers, Draws, Listed, Ltxid, Up};

/// Frames to the server, the first one sent first.
pub type Frames = Listed<Up>;

/// What becomes of a request's slot and connection.
#[derive(Clone, Copy, PartialEq, Eq)]
pub enum Hold {
    /// The request goes on with what it has.
    Keep,
    /// The request ended with its last reply. Its connection is open and goes back to the pool.
    GiveBack,
    /// The request ended, and its connection is used no more: its slot is given up, or its place in
    /// the queue where it has no slot.
    Drop,
}

/// A call as the client sees it answered.
#[derive(Drop)]
pub struct Shown {
    pub answers: Answers,
    pub draws: Draws,
    pub ltxid: Ltxid,
}

/// How a request fails.
#[derive(Clone, Copy, PartialEq, Eq)]
pub enum Failed {
    /// There is a reason against its replay, and this event ended its connection.
    Disabled {
        why: Why,
        event: u64,
    },
    /// A repeated call was answered otherwise than before: its index in the request, from 0, and
    /// the digests of the answers then and now.
    Mismatch {
        call: u64,
        seen: [u8; 32],
        now: [u8; 32],
    },
    /// The transaction of this identifier is committed, but the answers of its last call are lost.
    Incomplete {
        ltxid: Ltxid,
    },
    /// No connection could be opened in so many tries in a row.
    Retries {
        tries: u64,
    },
    /// A replay could have started at the tick `ready`, too late after that of the first submitted
    /// call.
    ReplayTimeout {
        first: u64,
        ready: u64,
    },
    /// All replays that a request may have were started, and this event ended the last connection.
    Replays {
        limit: u64,
        event: u64,
    },
    /// The request waited for a slot from the tick `first` to the tick `now`.
    PoolWait {
        first: u64,
        now: u64,
    },
    /// The outcome of this identifier is no longer kept.
    Unknown {
        ltxid: Ltxid,
    },
    /// A frame came, with this tag, that no server sends there.
    BadPeer {
        tag: u8,
    },
}

/// One step of a driver: the frames that it sends on its connection, the call that is shown, how
/// the request fails if it does, and what becomes of its slot and connection.
#[derive(Drop)]
pub struct Act {
    pub send: Frames,
    pub shown: Option<Shown>,
    pub failed: Option<Failed>,
    pub hold: Hold,
}
