//! The entries of a request as stretches of its script: the clause `scripted`, which rests on no
//! digests. It has definitions and their law, and no code: the law is the contract of a function
//! that does nothing.
#![tactic(auto)]

pub mod laws;
