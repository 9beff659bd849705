//! A run: a schedule, event by event, over a service and clients, and its finish.
#![tactic(auto)]

mod finishing;
mod world;

pub use world::{Ran, World};
