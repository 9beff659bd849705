//! What a service begins with.

use legal_draws::Sequence;
use mutable_values::Grants;
use svc_values::{Entry, Ltxid, Names};
use table_store::Tables;

/// What the store of a service has of the time before: the tables with what `entries` wrote, the
/// names of the sequences, and each sequence. `incarnation` is that of the last opening, and 0
/// where there was none.
#[derive(Drop)]
pub struct Start<'a> {
    pub tables: Tables,
    pub names: Names,
    pub sequences: Vec<Sequence>,
    pub grants: Grants,
    pub entries: &'a [Entry],
    pub blocked: &'a [Ltxid],
    pub incarnation: u64,
}
