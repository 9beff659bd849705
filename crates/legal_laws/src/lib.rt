//! What a report tells of its service, read off the report alone, is what the service did, and what
//! it tells of repeated calls is what their frames brought: so the clause `Legal` holds of the
//! report of each whole run.
//!
//! It has definitions and their laws, and no code. A law is the contract of a function that does
//! nothing.
#![tactic(auto)]

pub mod judged;
pub mod laws;
