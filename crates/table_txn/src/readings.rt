//! What a transaction read.
ghost use Rattle.std.specs.Prelude.{◌≡◌, ◌||◌, not, true, [], OnOk, OnErr, IfOk, IsTrue, MatchBool};
ghost use Rattle.std.specs.Option.{option_copied};
ghost use Rattle.table_txn.specs.Knowing.{is_known};
ghost use Rattle.table_txn.specs.Readings.{HasRead, HasReadIfAny, HasStood, HadThere, AreApart, StandWhere, first_changed, has_changed, table_in};
ghost use Rattle.table_txn.specs.Found.{kept, is_for, are_for, found_rows, reading, same_found, HasBefore, IsFoundIfAny, IsRead, IsNotRead};

use crate::found::{Committed, Found, committed_at};
use crate::known::Known;
use std::alloc::Global;
use std::collections::BTreeMap;
use std::marker::Model;
use svc_values::{Name, NoMemory, Place};
use table_store::Tables;

/// What the first read of a place found, and whether a later one found something else.
#[derive(Drop)]
pub(crate) struct ReadPlace {
    pub(crate) found: Found,
    pub(crate) is_torn: bool,
}

impl ReadPlace {
    /// Whether something else was found at a later read, or is committed now.
    fn has_changed(&self, committed: Committed) -> bool
        ensures { result ≡ (self.now.is_torn
            || not (same_found self.now.found (kept committed.entry))) }
    {
        self.is_torn || !self.found.is(committed)
    }
}

type ReadPlaces = BTreeMap<Place, ReadPlace>;

fn table_of(at: &Place) -> &Name
    ensures { result.now ≡ table_in at.now }
{
    match at {
        Place::Row { table, .. } => table,
        Place::Table { table } => table,
    }
}

/// Whether something else was found at a place at a later read, or is committed there now. One that
/// is known to have what it had is not compared.
fn has_changed_at(tables: &Tables, known: Known, at: &Place, there: &ReadPlace) -> bool
    requires kind { is_for at.now there.now.found ≡ true }
    requires stands { IsTrue (is_known known (table_in at.now))
        → HasStood tables.now.rows (reading (at.now, there.now)) }
    ensures { result ≡ has_changed tables.now.rows (reading (at.now, there.now)) }
{
    if known.is_known(table_of(at)) {
        return false;
    }
    there.has_changed(committed_at(tables, at))
}

/// The places that a transaction read.
#[derive(Drop)]
pub(crate) struct Readings {
    places: ReadPlaces,
    alloc: Global,
}

impl Model for Readings {
    ghost use Rattle.std.specs.Prelude.{◌≡◌, List, true};
    ghost use Rattle.table_txn.specs.Readings.{Reading};

    ghost Value = { List Reading };

    ghost use Rattle.table_txn.specs.Found.{readings_of, are_for};

    ghost view = { λ a. readings_of a.places.entries };

    ghost invariant = { λ a. are_for a.places.entries ≡ true };
}

/// One more read of a place, if it was read before, and whether it was.
fn read_again(places: &mut ReadPlaces, at: &Place, committed: Committed) -> bool
    requires kind { is_for at.now (kept committed) ≡ true }
    requires kinds { are_for places.old.entries ≡ true }
    ensures { MatchBool result (IsRead places.old.entries at.now (kept committed.entry)
        places.new.entries) (IsNotRead places.old.entries at.now places.new.entries) }
{
    let Some(there) = places.get_mut(at) else {
        return false;
    };
    there.is_torn = there.has_changed(committed);
    true
}

/// Reads a place that was not read before, or has what it had: then its reading has the same again.
fn read_as_before(
    alloc: Global,
    places: &mut ReadPlaces,
    at: Place,
    committed: Committed,
) -> Result<(), NoMemory>
    requires kind { is_for at (kept committed) ≡ true }
    requires before { HasBefore (kept committed) at places.old.entries }
    requires kinds { are_for places.old.entries ≡ true }
    ensures ok { OnOk result (IsRead places.old.entries at (kept committed.entry)
        places.new.entries) }
    ensures err { OnErr result (places.new.entries ≡ places.old.entries) }
{
    let found = Found::new(alloc, committed)?;
    let is_torn = false;
    places.insert(at, ReadPlace { found, is_torn })?;
    Ok(())
}

impl Readings {
    pub(crate) fn new(alloc: Global) -> Readings
        ensures { result ≡ [] }
    {
        Readings {
            places: BTreeMap::new(alloc),
            alloc,
        }
    }

    /// Reads what is committed at a place: the logarithm of the places, and for a table that was
    /// read before, linear in its rows.
    fn add(&mut self, at: Place, committed: Committed) -> Result<(), NoMemory>
        requires { is_for at (kept committed) ≡ true }
        ensures { OnOk result
            (HasRead self.old at (found_rows at (kept committed.entry)) self.new) }
    {
        if read_again(&mut self.places, &at, committed) {
            return Ok(());
        }
        read_as_before(self.alloc, &mut self.places, at, committed)
    }

    /// Reads a place that has what it had, if it was read before: the logarithm of the places, also
    /// for a table. A reading that was there has the same again.
    fn add_unchanged(&mut self, at: Place, committed: Committed) -> Result<(), NoMemory>
        requires kind { is_for at (kept committed) ≡ true }
        requires had { HadThere self.old at (found_rows at (kept committed)) }
        ensures { OnOk result
            (HasRead self.old at (found_rows at (kept committed.entry)) self.new) }
    {
        read_as_before(self.alloc, &mut self.places, at, committed)
    }

    /// Reads a place. One that is known to have what it had is not compared.
    fn add_known(&mut self, known: Known, at: Place, committed: Committed) -> Result<(), NoMemory>
        requires kind { is_for at (kept committed) ≡ true }
        requires had { IsTrue (is_known known (table_in at))
            → HadThere self.old at (found_rows at (kept committed)) }
        ensures { OnOk result
            (HasRead self.old at (found_rows at (kept committed.entry)) self.new) }
    {
        if known.is_known(table_of(&at)) {
            self.add_unchanged(at, committed)
        } else {
            self.add(at, committed)
        }
    }

    /// Reads a place, if there is one, and gives what is committed there: the logarithm of the rows
    /// and of the places, and for a table that was read before and is not known to have what it
    /// had, linear in its rows.
    pub(crate) fn add_if_any<'t>(
        &mut self,
        tables: &'t Tables,
        known: Known,
        at: Option<Place>,
    ) -> Result<Option<Committed<'t>>, NoMemory>
        requires { StandWhere (is_known known) tables.now.rows self.old }
        ensures read { OnOk result (HasReadIfAny tables.now.rows self.old at self.new) }
        ensures found { IfOk result (IsFoundIfAny tables.now.rows at) }
    {
        let Some(at) = at else {
            return Ok(None);
        };
        let committed = committed_at(tables, &at);
        self.add_known(known, at, committed)?;
        Ok(Some(committed))
    }

    /// The first place that has another reading, or where something else is committed now. Linear
    /// in the places, and in the rows of the tables that were read whole and are not known to have
    /// what they had. No memory is taken.
    pub(crate) fn first_changed(&self, tables: &Tables, known: Known) -> Option<&Place>
        requires { StandWhere (is_known known) tables.now.rows self.now }
        ensures first { option_copied result ≡ first_changed tables.now.rows self.now }
        ensures apart { AreApart self.now }
    {
        for (at, there) in &self.places {
            if has_changed_at(tables, known, at, there) {
                return Some(at);
            }
        }
        None
    }
}
