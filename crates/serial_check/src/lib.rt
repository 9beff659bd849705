//! Where the entries of a report are no serial run that leaves its tables, and where a value stands
//! twice among them.
#![tactic(auto)]

mod again;
mod asked;
mod fresh;
pub mod laws;
mod place;
mod printed;
mod serial;
mod transaction;

pub use asked::indexes_for;
pub use fresh::judge_fresh;
pub use printed::are_printed;
pub use serial::{judge_serial, names_of};
