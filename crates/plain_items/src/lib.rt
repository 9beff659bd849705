//! What a service did, as a report tells it: one item for each thing that happened.
#![tactic(auto)]

mod item;

pub use item::{Item, Thing};
