//! A pair of stores as one service: what the first store's service adds is in the second store
//! before it is answered.
#![tactic(auto)]

mod asking;
mod falling;
mod looking;
mod making;
mod opening;
mod outside;
mod pair;
mod service;
mod serving;
mod shipping;

pub use pair::Pair;
