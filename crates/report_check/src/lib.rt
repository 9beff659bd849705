//! Judging of a report with its document: which of the clauses is the first that does not hold, and
//! where.
#![tactic(auto)]

mod pair;
mod verdict;

pub use pair::{CHECK_LIMIT, pair_from};
pub use verdict::{Verdict, judge};
