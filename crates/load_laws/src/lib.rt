//! In every run of a load the balances sum up to 16,000 at the end: each transaction takes 1 from
//! an account and adds 1 to one. It has laws, and no code: a law is the contract of a function that
//! does nothing.
#![tactic(auto)]

pub mod laws;
