//! What the requests of a client were shown.

use crate::failure::Failure;
use crate::item::Sessions;
use std::alloc::Global;
use svc_values::{Answers, Draws, Listed, Ltxid, NoMemory, TryCopy};

/// Identifiers in order, without a limit.
pub type Ltxids = Listed<Ltxid>;

/// A call that was shown to the client, with the identifier that its driver holds afterwards.
#[derive(Drop)]
pub struct ShownCall {
    pub answers: Answers,
    pub draws: Draws,
    pub ltxid: Ltxid,
}

/// The calls that were shown, in order, without a limit.
pub type ShownCalls = Listed<ShownCall>;

/// An outcome that the driver was told of an identifier.
#[derive(Clone, Copy)]
pub struct Outcome {
    pub ltxid: Ltxid,
    pub committed: bool,
    pub completed: bool,
}

/// Outcomes in the order in which they were told, without a limit.
pub type Outcomes = Listed<Outcome>;

/// For each transaction of a request the identifiers under which it may have committed, without a
/// limit.
pub type Tried = Listed<Ltxids>;

/// What one request was shown, and what its driver did for it.
#[derive(Drop)]
pub struct RequestReport {
    pub calls: ShownCalls,
    pub failed: Option<Failure>,
    pub outcomes: Outcomes,
    pub sessions: Sessions,
    pub tried: Tried,
}

/// The requests of one client, in order, without a limit.
pub type Transcript = Listed<RequestReport>;

/// The transcripts of all clients, in order, without a limit.
pub type Transcripts = Listed<Transcript>;

impl TryCopy for ShownCall {
    fn copy(&self, alloc: Global) -> Result<ShownCall, NoMemory> {
        Ok(ShownCall {
            answers: self.answers.copy(alloc)?,
            draws: self.draws.copy(alloc)?,
            ltxid: self.ltxid,
        })
    }
}

impl TryCopy for Outcome {
    fn copy(&self, _alloc: Global) -> Result<Outcome, NoMemory> {
        Ok(*self)
    }
}

impl TryCopy for RequestReport {
    fn copy(&self, alloc: Global) -> Result<RequestReport, NoMemory> {
        Ok(RequestReport {
            calls: self.calls.copy(alloc)?,
            failed: self.failed,
            outcomes: self.outcomes.copy(alloc)?,
            sessions: self.sessions.copy(alloc)?,
            tried: self.tried.copy(alloc)?,
        })
    }
}
