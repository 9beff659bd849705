//! What the notes and the served items of a run tell is what its machine did: the events that a
//! report gives, its connections, and the steps of its clients. So the clauses `Caused` and `Whole`
//! hold of the report of every whole run.
//!
//! It has definitions and their laws, and no code. A law is the contract of a function that does
//! nothing.
#![tactic(auto)]

pub mod laws;
pub mod reports;
pub mod turns;
pub mod whole;
