//! Values that differ at each drawing: sequences, the clock and new identifiers, with the ones that
//! a replay keeps.
//!
//! A draw that the service grants takes the first value that was kept of its kind, and for a
//! sequence of its name; each other draw is new. The values of a sequence are reserved, 16 at a
//! time, by whoever owns the store: a source asks for a reservation and goes on once it is told
//! that it is stored.
#![tactic(auto)]

mod grants;
mod kept;
mod laws;
mod source;

pub use grants::Grants;
pub use kept::Kept;
pub use laws::{
    counts_on, gives_as_asked, gives_once_reserved, keeps_room, none_twice, sequences_stay,
};
pub use source::{DrawFault, Drawn, SeqState, Source};
