//! One client's driver: it sends a request's calls, keeps what a replay needs, and after each
//! outage asks for the outcome before it sends anything again.
//!
//! A step is the function `talk_step` of `client_model`, over the states of `replay_core`, so each
//! law of `client_model` holds of it over any server.
#![tactic(auto)]

mod driver;
mod frames;
mod going;
mod outcomes;
mod phase;
mod replies;
mod request;
mod showing;
mod slots;
mod stepping;
mod taking;
mod terms;
mod turn;

pub use client_model::{Act, Failed, Frames, Hold, Input, Shown, Wants};
pub use driver::{Driver, stays_past};
