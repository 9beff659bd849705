//! The things that happened at a service.

use outage_schedule::AskResult;
use svc_values::{Answer, Call, Draw, Ltxid, SessionId, Settings};

/// What a session did with a frame. The two last are of frames that a stop left without an
/// answer.
#[derive(Clone, Copy)]
pub enum Thing<'a> {
    Connected,
    /// A session of an `outside` begins without settings: `None`.
    Began {
        settings: Option<&'a Settings>,
    },
    /// `replay` is the frame's replay mark. With it the frame brings the draws that are kept for
    /// it.
    Called {
        replay: bool,
        kept: &'a [Draw],
        call: &'a Call,
        answers: &'a [Answer],
        draws: &'a [Draw],
    },
    /// The call's commit found its identifier blocked.
    MetBlock {
        replay: bool,
        call: &'a Call,
    },
    ToldOutcome {
        ltxid: Ltxid,
        told: AskResult,
    },
    EndedRequest,
    Closed,
    Refused,
    CallStopped {
        replay: bool,
        call: &'a Call,
    },
    OutcomeStopped {
        ltxid: Ltxid,
    },
}

/// What a session did at an event, with the ticks before it, or an identifier that was asked from
/// outside.
#[derive(Clone, Copy)]
pub enum Item<'a> {
    Did {
        event: u64,
        now: u64,
        session: SessionId,
        thing: Thing<'a>,
    },
    AskTold {
        event: u64,
        ltxid: Ltxid,
        told: AskResult,
    },
}
