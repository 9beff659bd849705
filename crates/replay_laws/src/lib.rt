//! A request opens each connection once, and a replay repeats in order the calls that its client
//! was shown before it opened the connection. It has definitions and their laws, and no code: a law
//! is the contract of a function that does nothing.
#![tactic(auto)]

pub mod laws;
