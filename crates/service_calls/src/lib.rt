//! What may be asked of a service, and what each call promises of what is seen of it.
//!
//! The world that runs clients against a service stands on this alone, so it runs them against one
//! store as against a pair, and no proof of the world opens a session.
#![tactic(auto)]

mod ended;
mod service;

pub use ended::Ended;
pub use outage_schedule::{NoteRun as Run, NoteRuns as Runs, OutsideNote as Outside};
pub use server_model::ServeFault;
pub use service::Service;
