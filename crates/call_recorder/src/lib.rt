//! The recorder: the calls of a request that a replay repeats.
#![tactic(auto)]

mod recorded;
mod recorder;

pub use recorded::{NoteFault, Recorded, Seen};
pub use recorder::{Recorder, follows_notes};
