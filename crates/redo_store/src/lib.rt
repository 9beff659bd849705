//! A store of records on a disk, into which records are only added, and which survives a crash at
//! any moment.
//!
//! # Format
//!
//! The bytes begin with the eight of `TGSTORE1`. Records follow, back to back: a gate byte, the
//! payload's length as eight bytes with the most significant first, and the payload. A gate is open
//! where its byte is 1. The records end at the first closed gate, and what stands behind it has no
//! meaning.
//!
//! # Durability
//!
//! A record is added in four device calls: its bytes are written behind the closed gate at the end,
//! with a closed gate behind them; a sync makes them durable; the gate before them is opened; a
//! second sync makes that durable. Opening a gate changes a single byte, so after a crash it is
//! open or closed, and what it opens is durable by then.
#![tactic(auto)]

mod fault;
mod record;
mod redo;
mod walk;

pub use fault::RedoFault;
pub use redo::Redo;
pub use walk::Walk;
