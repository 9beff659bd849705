//! Transactions over committed tables: a session's own writes, what it read, and conflicts.
#![tactic(auto)]

mod changes;
mod effects;
mod found;
mod known;
mod latest;
mod own;
mod readings;
mod scanning;
mod selecting;
mod txn;

pub use changes::Changes;
pub use known::Known;
pub use stmt_meaning::{DrawFrom, DrawFromFault, ListDraws, TxnFault};
pub use svc_values::Place;
pub use txn::{Ran, Txn};
