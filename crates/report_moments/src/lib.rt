//! What a report tells of its run's sessions, in the order of events: the served items, and the
//! notes of `outside` and `ask`.
#![tactic(auto)]

mod moments;

pub use moments::{At, Moment, What, moments_of};
