//! A call that was served.

use svc_values::{Answer, Call, Draw, SessionId};

/// A call that was served, with its answers and draws, and with the draws that were kept for it.
#[derive(Clone, Copy)]
pub(crate) struct Performed<'a> {
    pub(crate) session: SessionId,
    pub(crate) now: u64,
    pub(crate) replay: bool,
    pub(crate) kept: &'a [Draw],
    pub(crate) call: &'a Call,
    pub(crate) answers: &'a [Answer],
    pub(crate) draws: &'a [Draw],
}
