//! What a request that did not reach its last reply shows.

use std::alloc::Global;
use svc_values::{Ltxid, NoMemory, TryCopy};

/// Why a request is not replayed. The numbers are the index of the call in its request, at `Full`
/// the limit of the recorder.
#[derive(Clone, Copy)]
pub enum Reason {
    Off,
    AfterCommit,
    Restricted(u64),
    Settings(u64),
    Asked(u64),
    Full(u64),
    StateLost(u64),
}

/// The error that a request shows.
#[derive(Clone, Copy)]
pub enum Failure {
    /// Replay was disabled. The event is the one that ended the connection.
    Disabled {
        why: Reason,
        event: u64,
    },
    /// At the replay a call answered otherwise: the digests of what was seen and of what came now.
    Mismatch {
        call: u64,
        seen: [u8; 32],
        now: [u8; 32],
    },
    /// The transaction is committed, and the call that committed it did more than that.
    Incomplete {
        ltxid: Ltxid,
    },
    /// So many tries to connect failed in a row.
    Retries {
        tries: u64,
    },
    /// The ticks of the first call and of the replay that came too late.
    ReplayTimeout {
        first: u64,
        ready: u64,
    },
    /// So many replays were begun. The event is the one that ended the connection.
    Replays {
        limit: u64,
        event: u64,
    },
    /// The ticks at which the request first asked the pool, and at which it gave up.
    PoolWait {
        first: u64,
        now: u64,
    },
    /// The outcome of this identifier is kept no more.
    Unknown {
        ltxid: Ltxid,
    },
}

impl TryCopy for Reason {
    fn copy(&self, _alloc: Global) -> Result<Reason, NoMemory> {
        Ok(*self)
    }
}

impl TryCopy for Failure {
    fn copy(&self, _alloc: Global) -> Result<Failure, NoMemory> {
        Ok(*self)
    }
}
