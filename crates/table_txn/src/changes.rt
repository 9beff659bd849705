//! Which tables commits have written.
ghost use Rattle.std.specs.Prelude.{◌≡◌, ℕ, List, Some, OnOk, if◌then◌else◌};
ghost use Rattle.table_txn.specs.Changes.{HasNoted, change_of, has_write, last_change, is_unwritten};

use std::alloc::Global;
use std::collections::BTreeMap;
use std::marker::Model;
use svc_values::{Name, NoMemory, Writes};

/// How many commits were applied to tables, and which of them was the last that wrote each table.
/// The largest number stands for all above it. It is seen as these two.
#[derive(Drop)]
pub struct Changes {
    commits: u64,
    last: BTreeMap<Name, u64>,
}

impl Model for Changes {
    ghost use Rattle.table_txn.specs.Changes.{Written};

    ghost Value = { Written };

    ghost view = { λ c. record { commits = c.commits; last = c.last.entries } };
}

/// The last commit that wrote each of these tables is this one.
fn mark(last: &mut BTreeMap<Name, u64>, writes: &Writes, commits: u64) -> Result<(), NoMemory>
    ensures { OnOk result ((table : List ℕ) → change_of last.new.entries table
        ≡ (if has_write writes.now table then Some commits else change_of last.old.entries table)) }
{
    for write in writes.as_slice() {
        last.insert(write.table.copied(), commits)?;
    }
    Ok(())
}

impl Changes {
    /// No commit. It takes no memory.
    pub fn new(alloc: Global) -> Changes
        ensures commits { result.commits ≡ 0 }
        ensures last { (table : List ℕ) → last_change result table ≡ None }
    {
        Changes {
            commits: 0,
            last: BTreeMap::new(alloc),
        }
    }

    /// How many commits were applied.
    pub fn commits(&self) -> u64
        ensures { result ≡ self.now.commits }
    {
        self.commits
    }

    /// One commit more, with these writes: the logarithm of the tables for each.
    pub fn note(&mut self, writes: &Writes) -> Result<(), NoMemory>
        ensures { OnOk result (HasNoted self.old writes.now self.new) }
    {
        let commits = self.commits.saturating_add(1);
        mark(&mut self.last, writes, commits)?;
        self.commits = commits;
        Ok(())
    }

    /// Whether no commit behind this number of them has written the table. At the largest number
    /// that is known of no table.
    pub(crate) fn is_unwritten(&self, since: u64, table: &Name) -> bool
        ensures { result ≡ is_unwritten self.now (Some since) table.now }
    {
        if since == u64::MAX {
            return false;
        }
        match self.last.get(table) {
            None => true,
            Some(at) => *at <= since,
        }
    }
}
