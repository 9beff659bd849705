//! The world: connections with their sessions, clients and the pool, run event by event over any
//! service.
#![tactic(auto)]

mod answering;
mod asking;
mod choosing;
mod client;
mod clients;
mod connection;
mod connections;
mod crashing;
mod going;
mod ground;
mod making;
mod moving;
mod openings;
mod outside;
mod stopped_opening;
mod traffic;
mod wire;

pub use client::{Client, Said};
pub use clients::{clients_stay, first_clients};
pub use connection::Connection;
pub use connections::Connections;
pub use ground::Ground;
pub use openings::Openings;
pub use traffic::Traffic;
