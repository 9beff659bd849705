//! Which entries there are, and whether each is completed.
ghost use Rattle.std.specs.Prelude.{◌≡◌, ◌++◌, IfOk, OnOk, Option, Bool};
ghost use Rattle.svc_values.specs.declared.entry.Ltxid.{Ltxid as Id};
ghost use Rattle.run_clauses.specs.meaning.Outcomes.{completed_of};
ghost use Rattle.stored_check.specs.Keys.{mark_of, first_of, or_else};

use identifier_sets::{Key, key_of};
use std::alloc::Global;
use std::marker::Model;
use svc_values::{Entry, KeyMap, Ltxid, NoMemory};

/// Whether the first entry of each identifier is completed, seen as a list of keys and marks. Each
/// look takes the logarithm of their number.
#[derive(Drop)]
pub(crate) struct Completed {
    marks: KeyMap<Key, bool>,
}

impl Model for Completed {
    ghost use Rattle.std.specs.Prelude.{List, ℕ, Bool};

    ghost Value = { List ((ℕ × ℕ × ℕ) × Bool) };

    ghost view = { λ s. s.marks };
}

impl Completed {
    /// Whether the entry of an identifier is completed, if there is one.
    pub(crate) fn find(&self, ltxid: &Ltxid) -> Option<bool>
        ensures { result ≡ mark_of self.now ltxid.now }
    {
        match self.marks.get(&key_of(ltxid)) {
            Some(mark) => Some(*mark),
            None => None,
        }
    }

    /// Adds an entry, where none of its identifier is there.
    fn add(&mut self, entry: &Entry) -> Result<(), NoMemory>
        ensures { OnOk result ((x : Id) → mark_of self.new x
            ≡ first_of (mark_of self.old x) entry.now x) }
    {
        let key = key_of(&entry.ltxid);
        if self.marks.has(&key) {
            return Ok(());
        }
        self.marks.put(key, entry.completed)?;
        Ok(())
    }

    /// Adds entries, in their order.
    fn add_all(&mut self, entries: &[Entry]) -> Result<(), NoMemory>
        ensures { OnOk result ((x : Id) → mark_of self.new x
            ≡ or_else (mark_of self.old x) (completed_of entries.now x)) }
    {
        for entry in entries {
            self.add(entry)?;
        }
        Ok(())
    }

    /// Those of a journal and behind it those of a report. n log n.
    pub(crate) fn of(
        alloc: Global,
        before: &[Entry],
        entries: &[Entry],
    ) -> Result<Completed, NoMemory>
        ensures { IfOk result (λ all. (x : Id) → mark_of all x
            ≡ completed_of (before.now ++ entries.now) x) }
    {
        let mut all = Completed {
            marks: KeyMap::new(alloc),
        };
        all.add_all(before)?;
        all.add_all(entries)?;
        Ok(all)
    }
}
