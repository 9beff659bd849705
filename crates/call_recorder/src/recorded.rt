//! Recorded calls.

use svc_values::{Call, Draws};
use thiserror::Error;

/// What a client saw of a reply: the digest of its answers, which tells at a replay whether they
/// are the same again. The answers themselves are not kept.
#[derive(Clone, Copy)]
pub struct Seen {
    pub digest: [u8; 32],
}

/// A call as it was submitted, with what was seen of its reply and the values that it drew.
#[derive(Drop)]
pub struct Recorded {
    pub call: Call,
    pub seen: Seen,
    pub draws: Draws,
}

/// Why a call was not noted.
#[derive(Clone, Copy, Debug, Error)]
pub enum NoteFault {
    #[error("out of memory")]
    NoMemory,
    #[error("the recorder is full")]
    Full,
}
