//! The states of a request that an outage may interrupt, each a type of its own, so that no call is
//! sent where it may not be: a lost request asks for the outcome first, a replay starts only from
//! an outcome that says uncommitted, and the lost call is sent again only once every recorded call
//! was answered as before.
//!
//! ```text
//! Live ── lose ──► Lost ── ask ──► Asked ── answer ──► Fresh ── resume ──► Live
//!                   ▲                │       └───────► Replaying ── verify, ready ──► Ready
//!                   └───── lose ─────┴─────────────────────┘           Live ◄── submit ──┘
//! ```
//!
//! What each call does is a function of `client_model` on the plain states. No call takes memory.
#![tactic(auto)]

mod asked;
mod held;
mod live;
mod lost;
mod replaying;
mod told;

pub use asked::Asked;
pub use client_model::{Mismatch, Over, Track};
pub use held::Held;
pub use live::Live;
pub use lost::Lost;
pub use replaying::{Ready, Replaying, verifies_all};
pub use told::{Fresh, Told};
