//! A report as JSON: its values, calls, notes, served items, requests, entries and tables.
#![tactic(auto)]

mod answer;
mod call;
mod entry;
mod failure;
mod identifier;
mod item;
pub mod laws;
mod note;
mod operand;
mod part;
mod report;
mod request;
mod statement;
mod table;
mod value;

pub use report::{report_bytes, report_of};
