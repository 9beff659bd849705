//! What a report that was read keeps to: its served items stand in order at events that serve them,
//! the names of settings rise, and calls can be made.
#![tactic(auto)]

mod place;

pub use place::{ServedWord, fits_event};
