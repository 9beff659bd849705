//! Whether the lines that were handed to a service make its alerts, in time linear in lines times
//! alerts.
#![tactic(auto)]

pub mod laws;
mod standing;

pub use standing::{Line, Standing};
