//! The limits that the types of a report keep: numbers have 64 bits, names are names, texts and
//! octets have at most 64 bytes, rows at most 8 values, answers at most 32 rows, and the names of
//! settings rise. A value is looked through, and nothing is tested, since its types leave nothing
//! to test. Whoever holds a report knows its limits behind `report_kept`.
#![tactic(auto)]

mod call;
mod entry;
mod kept;
mod note;
mod report;
mod request;
mod served;
mod value;

pub use report::report_kept;
