//! What stands before event 1 of a document: the journal of its image, or a new one of its tables,
//! and the columns by which these are indexed.
#![tactic(auto)]

mod base;
mod indexes;
mod journal;

pub use indexes::indexes_of;
pub use journal::journal_before;
