//! Judge of what a report tells of its service: whether what was served is legal, with the report's
//! entries and alerts.
#![tactic(auto)]

mod handed;
mod judge;
mod place;
mod sequences;
mod walked;

pub use judge::judge_legal;
