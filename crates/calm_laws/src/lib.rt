//! Where a schedule has no outage, every request is answered: in a run without `cut`, `crash`,
//! `failover`, `upcrash` and `ask`, whose image blocks nothing that may come, each request is shown
//! all its answers, or waits too long for a connection.
//!
//! It has definitions and their law, and no code. The law is the contract of a function that does
//! nothing.
#![tactic(auto)]

pub mod laws;
