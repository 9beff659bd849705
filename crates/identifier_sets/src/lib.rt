//! Sets of transaction identifiers.
#![tactic(auto)]

mod ids;

pub use ids::{Ids, Key, is_same, key_of};
