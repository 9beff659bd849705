//! Why the judge of `Caused` finds the requests of a client right: it goes by what is shown of a
//! client's steps, and comes to the end of each request at the step at which its conversation
//! ended, with the failure that the report has.
//!
//! `specs/Replies` says which items answer a client's frames, `specs/Telling` what a step that is
//! shown has of the client's own inputs, and `specs/Laws` what the judge makes of it.
#![tactic(auto)]

mod laws;

pub use laws::{client_is_caused, conversation_is_judged, report_is_caused};
