//! Whether what a service did is legal, item after item, by what was told of it alone.
#![tactic(auto)]

mod attempt;
mod counts;
mod judging;
mod ledger;
mod ongoing;
mod performed;
mod service;
mod sessions;
mod start;
mod storing;
mod telling;
mod walk;
mod walker;

pub use start::Start;
pub use walk::{Unlawful, first_unlawful};
