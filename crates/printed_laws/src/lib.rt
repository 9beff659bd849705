//! What the clauses say of a report that was printed, which shows no writes of its entries. It has
//! laws, and no code.
#![tactic(auto)]

pub mod laws;
