//! What a service leaves at its end.

use commit_log::Recorded;
use table_store::Tables;

/// What a service leaves at its end: what its store holds, as far as a report tells of it.
#[derive(Drop)]
pub struct Ended {
    /// What the records behind the base say.
    pub recorded: Recorded,
    /// The tables after the last entry.
    pub tables: Tables,
}
