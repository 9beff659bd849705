//! The frames between a client and its session.

use crate::answer::Answers;
use crate::call::Call;
use crate::draw::Draws;
use crate::entry::Ltxid;
use crate::memory::{NoMemory, TryCopy};
use crate::settings::Settings;
use std::alloc::Global;

/// A frame to the server. `Call` carries the replay mark and the draws that are to be kept.
#[derive(PartialEq, Eq, Drop)]
pub enum Up {
    Connect,
    Begin {
        settings: Settings,
    },
    Call {
        replay: bool,
        kept: Draws,
        call: Call,
    },
    Outcome {
        ltxid: Ltxid,
    },
    End,
    Close,
}

/// Why the outcome of an identifier can't be told: the server is ahead where it is of an older
/// transaction, the client where the server has not come so far, and it is forgotten where its
/// incarnation is below the horizon of what is kept.
#[derive(Clone, Copy, Debug, PartialEq, Eq)]
pub enum Ahead {
    Server,
    Client,
    Forgotten,
}

/// A frame to the client. The `next` of an `OutcomeRefused` is the session's next number, and the
/// horizon where the identifier is forgotten. The cause of a `Refused` is 1 for bytes that are no
/// frame and 2 for a frame out of order.
#[derive(PartialEq, Eq, Drop)]
pub enum Down {
    Hello {
        ltxid: Ltxid,
    },
    Reply {
        answers: Answers,
        draws: Draws,
        ltxid: Ltxid,
    },
    OutcomeIs {
        committed: bool,
        completed: bool,
    },
    OutcomeRefused {
        ahead: Ahead,
        next: u64,
    },
    Blocked,
    Refused {
        cause: u8,
    },
}

impl TryCopy for Up {
    fn copy(&self, alloc: Global) -> Result<Up, NoMemory> {
        match self {
            Up::Connect => Ok(Up::Connect),
            Up::Begin { settings } => Ok(Up::Begin {
                settings: settings.copy(alloc)?,
            }),
            Up::Call { replay, kept, call } => Ok(Up::Call {
                replay: *replay,
                kept: kept.copy(alloc)?,
                call: call.copy(alloc)?,
            }),
            Up::Outcome { ltxid } => Ok(Up::Outcome { ltxid: *ltxid }),
            Up::End => Ok(Up::End),
            Up::Close => Ok(Up::Close),
        }
    }
}

impl TryCopy for Down {
    fn copy(&self, alloc: Global) -> Result<Down, NoMemory> {
        match self {
            Down::Hello { ltxid } => Ok(Down::Hello { ltxid: *ltxid }),
            Down::Reply {
                answers,
                draws,
                ltxid,
            } => Ok(Down::Reply {
                answers: answers.copy(alloc)?,
                draws: draws.copy(alloc)?,
                ltxid: *ltxid,
            }),
            Down::OutcomeIs {
                committed,
                completed,
            } => Ok(Down::OutcomeIs {
                committed: *committed,
                completed: *completed,
            }),
            Down::OutcomeRefused { ahead, next } => Ok(Down::OutcomeRefused {
                ahead: *ahead,
                next: *next,
            }),
            Down::Blocked => Ok(Down::Blocked),
            Down::Refused { cause } => Ok(Down::Refused { cause: *cause }),
        }
    }
}

impl TryCopy for Ahead {
    fn copy(&self, _alloc: Global) -> Result<Ahead, NoMemory> {
        Ok(*self)
    }
}
