//! What holds of a whole run beside its requests: answers, blocks, entries and the horizon that its
//! report tells of are those of the store, and its finish is short. It has definitions and their
//! laws, and no code: a law is the contract of a function that does nothing.
#![tactic(auto)]

pub mod finish_laws;
pub mod stored_laws;
