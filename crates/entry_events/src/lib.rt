//! When the entries of a run were stored: how many of each session's there are up to an event.
#![tactic(auto)]

mod commits;
mod numbers;
mod stored;

pub use numbers::Numbers;
