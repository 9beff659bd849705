//! What a driver goes by.

use request_bounds::{BoundRule, Clocked};
use std::alloc::Global;

/// The rule of a driver's requests, the limits of the service, and how many calls are recorded at
/// most.
#[derive(Clone, Copy)]
pub(crate) struct Terms<R: BoundRule + Copy> {
    pub(crate) alloc: Global,
    pub(crate) rule: R,
    pub(crate) limits: Clocked,
    pub(crate) recorded: u64,
}

/// Where a step is taken: whether the connection is there, and the tick.
#[derive(Clone, Copy)]
pub(crate) struct Here {
    pub(crate) alive: bool,
    pub(crate) now: u64,
}
