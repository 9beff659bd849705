//! What the requests of a client are reported to have shown, noted step by step while its driver
//! goes on, and which request comes next. No step is kept.
#![tactic(auto)]

mod attempts;
mod draft;
mod failures;
mod heard;
mod next_request;

pub use draft::ReportDraft;
pub use heard::Heard;
pub use next_request::{NextRequest, is_repeated};
