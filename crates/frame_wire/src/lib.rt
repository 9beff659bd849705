//! Frames on the wire, written whole and read from bytes that arrive in pieces.
//!
//! A frame is its payload's length as a `u64`, most significant byte first, and the payload: a tag
//! byte and the fields in canonical bytes, and nothing more.
#![tactic(auto)]

mod encode;
mod feed;
mod law;

pub use encode::{encode_down, encode_up};
pub use feed::{DownFeed, Feed, FrameFault, UpFeed};
pub use law::{any_cut, cut_leaves_whole_frames};
pub use svc_values::{Ahead, Down, Up};
