//! The calls of a session, run again from what was told of them.
#![tactic(auto)]

mod going;
mod running;

pub use going::Going;
