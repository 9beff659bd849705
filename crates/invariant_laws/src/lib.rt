//! The invariant of a run (`Invariant`), which is kept as a whole: what stands on itself, what
//! requests were shown, what became of the connections that they lost and of their sendings, and
//! what sessions ran. It has definitions and their laws, and no code: a law is the contract of a
//! function that does nothing.
#![tactic(auto)]

pub mod frame_laws;
pub mod history_laws;
pub mod kept_laws;
pub mod once_laws;
pub mod request_laws;
