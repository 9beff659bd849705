//! The pool: slots that requests hold, clients that wait for one, and connections that are lent
//! again.
#![tactic(auto)]

mod answers;
mod pool;

pub use answers::{Back, Take};
pub use pool::{Pool, lends_in_order};
