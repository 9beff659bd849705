//! Judge of what a report tells as stored: outcomes, answers, the horizon, blocks and the image,
//! beside the journal.
#![tactic(auto)]

mod answers;
mod blocks;
mod completed;
mod judge;
mod known;
mod opened;
mod place;
mod told;

pub use judge::judge_stored;
