//! What a transaction knows of the places that it read.
ghost use Rattle.std.specs.Prelude.{◌≡◌, ℕ, List};
ghost use Rattle.table_txn.specs.Changes.{is_unwritten};
ghost use Rattle.table_txn.specs.Knowing.{is_known};

use crate::changes::Changes;
use svc_values::Name;

/// Of which tables a transaction knows that each place it read has what it had: of all, or of those
/// that no commit has written since a number of them.
#[derive(Clone, Copy)]
pub enum Known<'a> {
    All,
    Since(&'a Changes, u64),
}

impl Changes {
    /// What a transaction knows that began to read at this number of commits, or has read nothing.
    pub fn since(&self, since: Option<u64>) -> Known<'_>
        ensures { (table : List ℕ) → is_known result table ≡ is_unwritten self.now since table }
    {
        match since {
            None => Known::All,
            Some(since) => Known::Since(self, since),
        }
    }
}

impl Known<'_> {
    /// Whether each place of the table that was read has what it had.
    pub(crate) fn is_known(&self, table: &Name) -> bool
        ensures { result ≡ is_known self.now table.now }
    {
        match self {
            Known::All => true,
            Known::Since(changes, since) => changes.is_unwritten(*since, table),
        }
    }
}
