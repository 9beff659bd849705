//! How the notes of a report are read, and the served items that stand at them, from JSON values
//! and from tokens.
#![tactic(auto)]

mod go;
mod item;
mod items_ahead;
mod note;
mod note_ahead;
mod told;

pub use item::ItemsReader;
pub use items_ahead::served_ahead;
pub use note::{NotesReader, notes_ahead};
