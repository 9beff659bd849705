//! A run from the bytes in to the bytes out.
#![tactic(auto)]

mod answer;
mod check;
pub mod laws;
mod leaving;
mod load;
mod reporting;
mod run;
mod store;
mod top;

pub use run::run_document;
pub use top::continuity;
