//! The entries of a run have the calls of the scripts, with the answers, granted draws and settings
//! that the clients were shown: the clause `Same`. It has laws, and no code: a law is the contract
//! of a function that does nothing.
#![tactic(auto)]

pub mod laws;
