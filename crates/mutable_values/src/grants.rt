//! What the service keeps for a replay.

/// Which kinds of values are kept for a replay. Of the sequences those are kept that are declared
/// so besides.
#[derive(Clone, Copy)]
pub struct Grants {
    pub seq: bool,
    pub clock: bool,
    pub id: bool,
}
