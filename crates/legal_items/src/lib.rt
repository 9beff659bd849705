//! The plain items of a report that was read: what its service did, in the order of events.
#![tactic(auto)]

mod fitting;
mod items;
mod outside;
mod placed;
mod served;
mod ticks;

pub use fitting::misfit;
pub use items::items_of;
pub use placed::PlacedItem;
