//! Whether each request of a report was shown its whole script in order, by what sessions of its
//! own served.
#![tactic(auto)]

mod alike;
mod client;
mod judge;
mod line;
mod owned;
mod part;
mod place;
mod script;
mod shown;
mod steps;
mod turn;

pub use judge::judge_whole;
