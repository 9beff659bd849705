//! The tables of a journal: those of its base, with what its entries wrote.
#![tactic(auto)]

mod tables;

pub use tables::{indexed_tables_of, tables_of};
