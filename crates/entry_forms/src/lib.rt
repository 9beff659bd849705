//! How the entries and tables of a report are read, and what it tells that clients were shown, from
//! JSON values and from tokens.
#![tactic(auto)]

mod entry;
mod failure;
mod object_ahead;
mod request;

pub use entry::{EntriesReader, TablesReader, entries_ahead, tables_ahead};
pub use request::{ClientsReader, clients_ahead};
