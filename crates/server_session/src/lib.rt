//! A session of the service: what it does with each frame, over the tables, the book, the source of
//! values and the log that all sessions share.
#![tactic(auto)]

mod alter;
mod calling;
mod calls;
mod commit;
mod desk;
mod following;
mod life;
mod outcome;
mod running;
mod serving;
mod session;
mod shared;
mod store;

pub use outcome::tell_outcome;
pub use session::Session;
pub use shared::Core;
