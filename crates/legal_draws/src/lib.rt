//! Which values the calls that were served drew anew, told from what was served alone.
//!
//! Numbers are kept in 64 bits, and one that needs more of them is told as want of memory. No
//! report comes to that: a sequence begins at most at 1,000,000,000, or behind 2^62 where an image
//! left it, and a call moves it on by at most 64 values and as many blocks of 16.
#![tactic(auto)]

mod asked;
mod change;
mod count;
mod kept;
mod numbers;
mod search;
mod sequence;
mod ways;

pub use asked::{asked_by_call, drawn_whole};
pub use kept::{Kept, granted};
pub use numbers::Numbers;
pub use search::{Trial, meets_with};
pub use sequence::Sequence;
