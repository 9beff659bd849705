//! Digests of what a call was answered.
#![tactic(auto)]

mod digest;

pub use digest::{Digesting, digest_of};
