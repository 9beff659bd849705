//! The bounds of a protected request: the rules that end its protection, and the limits of tries,
//! replays and waiting.
#![tactic(auto)]

mod bound;
mod clocked;
mod rule;
mod rules;

pub use bound::BoundRule;
pub use clocked::Clocked;
pub use rule::{After, Why};
pub use rules::{DynamicRule, OffRule, StaticRule};
