//! The rule of a service that finds the bounds of a request by itself: each transaction is a part
//! that
//! is replayed alone, and a new session begins with the settings that are known. And how many
//! calls of a
//! request were protected, under this rule or another.
#![tactic(auto)]

mod coverage;
mod rule;

pub use coverage::Coverage;
pub use rule::AutoRule;
