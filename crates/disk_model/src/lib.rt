//! A disk that may fail, stop and crash: the trait [`Disk`] with all that its users may rely on,
//! the trait [`StopDisk`] for a disk that can be stopped and crashed on purpose, and [`MemDisk`],
//! one in memory.
//!
//! A disk is honest about one thing: after a sync that succeeds a crash leaves what a read gives.
//! Until then each range that was written, and the part past the old end, may hold any bytes after
//! a crash.
#![tactic(auto)]

mod crash;
mod disk;
mod kept;
pub mod laws;
mod mem;

pub use disk::{Disk, DiskFault, StopDisk};
pub use mem::MemDisk;
