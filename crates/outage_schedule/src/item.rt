//! What the sessions served.

use crate::note::AskResult;
use std::alloc::Global;
use svc_values::{Answers, Call, Draws, Listed, Ltxid, NoMemory, SessionId, Settings, TryCopy};

/// Sessions in order, without a limit.
pub type Sessions = Listed<SessionId>;

/// A frame that a session served, with what it answered.
#[derive(Drop)]
pub enum Item {
    Connect,
    Begin {
        settings: Settings,
    },
    /// `replay` is the frame's replay mark.
    Call {
        replay: bool,
        call: Call,
        answers: Answers,
        draws: Draws,
    },
    /// The call's commit found its identifier blocked.
    Blocked {
        call: Call,
    },
    Outcome {
        ltxid: Ltxid,
        result: AskResult,
    },
    End,
    Close,
    Refused {
        cause: u8,
    },
    /// A call that a crash stopped before its reply.
    CrashedCall {
        replay: bool,
        call: Call,
    },
    /// A question for an outcome that a crash stopped before its answer.
    CrashedOutcome {
        ltxid: Ltxid,
    },
}

/// What a session served, and the number of the event at which it did.
#[derive(Drop)]
pub struct Served {
    pub event: u64,
    pub session: SessionId,
    pub item: Item,
}

/// What all sessions served, in order, without a limit.
pub type ServedItems = Listed<Served>;

impl TryCopy for Item {
    fn copy(&self, alloc: Global) -> Result<Item, NoMemory> {
        match self {
            Item::Connect => Ok(Item::Connect),
            Item::Begin { settings } => Ok(Item::Begin {
                settings: settings.copy(alloc)?,
            }),
            Item::Call {
                replay,
                call,
                answers,
                draws,
            } => Ok(Item::Call {
                replay: *replay,
                call: call.copy(alloc)?,
                answers: answers.copy(alloc)?,
                draws: draws.copy(alloc)?,
            }),
            Item::Blocked { call } => Ok(Item::Blocked {
                call: call.copy(alloc)?,
            }),
            Item::Outcome { ltxid, result } => Ok(Item::Outcome {
                ltxid: *ltxid,
                result: *result,
            }),
            Item::End => Ok(Item::End),
            Item::Close => Ok(Item::Close),
            Item::Refused { cause } => Ok(Item::Refused { cause: *cause }),
            Item::CrashedCall { replay, call } => Ok(Item::CrashedCall {
                replay: *replay,
                call: call.copy(alloc)?,
            }),
            Item::CrashedOutcome { ltxid } => Ok(Item::CrashedOutcome { ltxid: *ltxid }),
        }
    }
}

impl TryCopy for Served {
    fn copy(&self, alloc: Global) -> Result<Served, NoMemory> {
        Ok(Served {
            event: self.event,
            session: self.session,
            item: self.item.copy(alloc)?,
        })
    }
}
