//! What a report tells of a run has the form that reports have: its items stand at events that
//! serve them, and each call that it tells is one of its document. It has definitions and their
//! laws, and no code: a law is the contract of a function that does nothing.
#![tactic(auto)]

pub mod laws;
