//! Each transaction that a client submitted stands in the journal at most once, no call is stored
//! twice, and what a client was told and shown of its calls is what was stored. It has definitions
//! and their laws, and no code: a law is the contract of a function that does nothing.
#![tactic(auto)]

pub mod laws;
