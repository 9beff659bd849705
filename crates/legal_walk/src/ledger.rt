//! The entries that were stored so far, and those that are still to come.
ghost use Rattle.std.specs.Prelude.{◌≡◌, IfOk, OnOk};
ghost use Rattle.std.specs.Option.{option_copied};
ghost use Rattle.svc_values.specs.meaning.Identifiers.{ltxid_of};
ghost use Rattle.server_model.specs.meaning.Legal.{all_stored};
ghost use Rattle.server_model.specs.meaning.Walk.{number_of};
ghost use Rattle.legal_walk.specs.Stored.{first_of, with_first};

use crate::counts::{Counts, count_at, count_one, counts_of, key_of};
use std::alloc::Global;
use std::marker::Model;
use svc_values::{Entry, Ltxid, NoMemory, SessionId};

/// Entries of the time before and of a run, of which some were stored. They are seen as those that
/// stand, and those that are left.
#[derive(Drop)]
pub(crate) struct Ledger<'a> {
    before: &'a [Entry],
    entries: &'a [Entry],
    taken: usize,
    counts: Counts,
}

impl<'a> Model for Ledger<'a> {
    ghost use Rattle.legal_walk.specs.Stored.{Stored, stored_so_far, IsLedger};

    ghost Value = { Stored };

    ghost view = { λ l. stored_so_far l.before.now l.entries.now l.taken };

    ghost invariant = { λ l. IsLedger l.before.now l.entries.now l.taken l.counts };
}

impl<'a> Ledger<'a> {
    /// The entries of the time before stand, and the others are left. n log n for those before.
    pub(crate) fn new(
        alloc: Global,
        before: &'a [Entry],
        entries: &'a [Entry],
    ) -> Result<Ledger<'a>, NoMemory>
        ensures { IfOk result (λ made. made ≡ record { stored = before.now; left = entries.now }) }
    {
        Ok(Ledger {
            before,
            entries,
            taken: 0,
            counts: counts_of(alloc, before)?,
        })
    }

    /// The identifier that the session commits under next.
    pub(crate) fn next_of(&self, session: &SessionId) -> Ltxid
        ensures { result ≡ ltxid_of session.now (number_of self.now.stored session.now) }
    {
        Ltxid {
            incarnation: session.incarnation,
            session: session.session,
            number: count_at(&self.counts, &key_of(session)),
        }
    }

    /// The entry that is stored next.
    pub(crate) fn first(&self) -> Option<&'a Entry>
        ensures { option_copied result ≡ first_of self.now.left }
    {
        self.entries.get(self.taken)
    }

    /// How many entries of the run were stored.
    pub(crate) fn taken(&self) -> usize {
        self.taken
    }

    /// Whether none is left.
    pub(crate) fn is_done(&self) -> bool
        ensures { result ≡ all_stored self.now.left }
    {
        self.first().is_none()
    }

    /// The entry that comes next is stored, if one is left.
    pub(crate) fn store(&mut self) -> Result<(), NoMemory>
        ensures { OnOk result (self.new ≡ with_first self.old) }
    {
        let Some(entry) = self.entries.get(self.taken) else {
            return Ok(());
        };
        count_one(&mut self.counts, &entry.ltxid)?;
        self.taken += 1;
        Ok(())
    }
}
