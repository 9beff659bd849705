//! What the sessions of a service share.

use commit_log::Log;
use ltxid_book::Book;
use mutable_values::{Grants, Source};
use table_store::Tables;
use table_txn::Changes;

/// What the sessions of a service share: the committed tables, the book of commits and blocks, the
/// source of drawn values, the log, and which draws are kept for a replay.
#[derive(Drop)]
pub struct Core {
    pub tables: Tables,
    /// Which tables the sessions' commits have written since the tables were made.
    pub changes: Changes,
    pub book: Book,
    pub source: Source,
    pub log: Log,
    pub grants: Grants,
}
