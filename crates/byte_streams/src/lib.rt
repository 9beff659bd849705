//! Bytes that come in and go out: sources and sinks that count their faults, what is read and
//! written whole over them, and such over any reader and writer and in memory.
#![tactic(auto)]

mod adapters;
mod memory;
mod outside;
mod whole;

pub use adapters::{Input, Output};
pub use memory::{MemSink, MemSource};
pub use outside::{Failed, Sink, Source};
pub use whole::{ReadError, read_to_limit, write_whole};
