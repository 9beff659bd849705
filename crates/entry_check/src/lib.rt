//! Judges of a report's entries: whether each transaction stands in the journal at most once, and
//! as its client knows it.
#![tactic(auto)]

mod copies;
mod found;
mod gather;
mod granting;
mod known;
mod once;
mod outside;
mod place;
mod requests;
mod same;
mod stored;
mod tried;

pub use once::judge_once;
pub use same::judge_same;
