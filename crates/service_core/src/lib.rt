//! One service on one store: its sessions, its connections and its disk.
#![tactic(auto)]

mod again;
mod asking;
mod connections;
mod crash;
mod ended;
mod looking;
mod making;
mod notes;
mod one;
mod opening;
mod outside;
mod resting;
mod service;
mod serving;
mod shipping;
mod up;

pub use one::OneService;
