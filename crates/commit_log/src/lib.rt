//! The journal of a service: what it began with, its openings, its committed transactions and what
//! else it has to remember, as the records of a store that survives a crash at any moment.
//!
//! # Records
//!
//! The payload of a record is a tag byte and canonical bytes:
//!
//! 1. A base. The first record is one, and no other is.
//! 2. The incarnation of an opening. Incarnations rise and are at most 2^63.
//! 3. The entry of a committed transaction. It comes in a store that was opened with its
//! incarnation or a later one, where
//!    this is not below the horizon; its identifier has its session's next number and is not blocked, and its writes fit
//!    the tables of the base.
//! 4. An identifier that is blocked, and can commit no more. Its incarnation is not below the
//! horizon, and it has its
//!    session's next number and is not blocked yet.
//! 5. A reservation of a sequence: its name, and the value `upto` with which it ends. The sequence
//! is one of the base,
//!    and `upto` is 16 more than that of its reservation before, or its start and 15 for its first.
//! 6. A line of text, at most 64 bytes, which comes anywhere behind the base.
//! 7. A horizon: what became of the sessions of all incarnations below it is forgotten. Horizons
//! rise, and each is at most
//!    one more than the incarnation of the last opening before it, or 1 where there is none.
//!
//! A store without a record of the last kind is of format 1, and its horizon is 0. An opening gives
//! it one.
//!
//! # Damage
//!
//! A store that is read is judged from its first byte on. The place of a damage is the offset of
//! the first gate with no whole record behind it, or with one that may not come next; it is 8 where
//! there is no record, and 0 where the bytes don't begin as those of a store.
#![tactic(auto)]

mod adding;
mod base;
mod base_bytes;
mod checks;
mod ends;
mod journal;
mod judge;
mod judging;
pub mod laws;
mod log;
mod named;
mod recorded;
mod records;

pub use base::{Base, BaseRows, BaseSequence, BaseSequences, BaseTable, BaseTables};
pub use journal::{Blocks, Entries, Journal, Lines, Ltxids, Reservation};
pub use log::{Found, Log};
pub use recorded::Recorded;
pub use records::Record;
pub use redo_store::RedoFault as LogFault;
