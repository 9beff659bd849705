//! The document that `load` makes of three numbers, and the line that it prints of the run's
//! report.
#![tactic(auto)]

mod counts;
mod document;
mod drawing;
mod line;
mod parts;
mod schedule;
mod text;

pub use document::load_document;
pub use line::{LoadLine, line_of};
pub use text::line_bytes;
