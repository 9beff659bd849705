//! The limits of a document: how many of each thing it may have, and between which numbers a number
//! of it lies.
#![tactic(auto)]

mod count;
mod number;

pub use count::{Count, CountLimit, DOCUMENT_LIMIT};
pub use number::{Number, NumberLimit};
