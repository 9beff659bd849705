//! The submissions of a report's clients, each with its steps, and the draws that a repeated call
//! was shown with.
#![tactic(auto)]

mod kept;
mod looking;
mod parts;
mod showing;
mod submitting;

pub use kept::kept_draws;
pub use looking::ends_decided;
pub use parts::{Part, left_of, parts_of, steps_of};
pub use showing::{is_showing, shows};
pub use submitting::{Submission, Submissions, submissions_of};
