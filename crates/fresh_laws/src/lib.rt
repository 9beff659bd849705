//! Each value that a run draws anew is given to one call of one request, so none stands twice among
//! the entries: the clause `Fresh`. It has definitions and their laws, and no code: a law is the
//! contract of a function that does nothing.
#![tactic(auto)]

pub mod laws;
