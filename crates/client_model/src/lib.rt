//! A client as a function of what comes to it: which frames it sends, which call it shows, which
//! error it ends with, and what becomes of its slot.
//!
//! `specs/meaning/Talk` is that function, over the states of a request whose connection may be lost
//! (`specs/States`, `specs/Told`, `specs/Verifying`) and by the rules of `request_bounds`.
//! `specs/Account`, `specs/Reasons` and `specs/Tried` tell from inputs and acts alone what came of
//! a conversation. `specs/Laws` ties the two, over every list of inputs that may come: nothing is
//! asked of whoever answers, of the ticks, of the rule or of the digest.
#![tactic(auto)]

mod act;
mod input;
mod laws;
mod track;

pub use act::{Act, Failed, Frames, Hold, Shown};
pub use input::{Input, Wants};
pub use laws::{
    begun_with, cause_of_failure, failure_at_cause, few_replays, one_cause, reason_is_first,
    recorded_is_shown, releases_rightly, replays_only_verified, tried_is_held,
};
pub use track::{Mismatch, Over, Track};
