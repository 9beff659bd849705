//! Reading of reports from JSON values and from tokens: the report of a document, or the first
//! place at fault.
#![tactic(auto)]

pub mod laws;
mod report;
mod streamed;

pub use report::report_from;
pub use streamed::report_ahead;
