//! The story of a report: what each step of a client took, what each session served since a
//! `begin`, and what each served item repeats.
#![tactic(auto)]

mod change;
mod connections;
mod line;
mod passing;
mod seen;
mod steps;
mod telling;
mod turns;
mod which;

pub use line::{Repeated, is_hello};
pub use passing::is_marked;
pub use steps::Step;
pub use telling::{Story, story_of};
pub use turns::{Acquired, Marked, Turn};
