//! How the program ends, and what it tells of it.
#![tactic(auto)]

mod clause;
mod ending;
mod line;
mod status;

pub use clause::Clause;
pub use ending::{exit_status, without_words};
pub use line::{Line, tell};
pub use status::Status;
