//! A written report is read again, and read as no other: what `run` prints of a report is what
//! `check` reads. It has definitions and their laws, and no code.
#![tactic(auto)]

pub mod laws;
