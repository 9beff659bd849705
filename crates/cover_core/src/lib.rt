//! How many calls of a report's requests were protected, and the JSON text that tells it.
#![tactic(auto)]

mod counts;
pub mod laws;
mod text;
mod walk;

pub use counts::Counts;
pub use text::cover_bytes;
pub use walk::{ClientCounts, counts_of_run};
