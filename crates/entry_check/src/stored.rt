//! The entries of a report, found by their identifiers.
ghost use Rattle.std.specs.Prelude.{◌≡◌, ◌∷◌, [], IfOk, true};
ghost use Rattle.std.specs.Option.{option_map};
ghost use Rattle.run_clauses.specs.meaning.Once.{entries_differ, entries_in};
ghost use Rattle.entry_check.specs.Ids.{as_list};

use identifier_sets::{Key, key_of};
use std::alloc::Global;
use std::marker::Model;
use svc_values::{Entry, KeyMap, Ltxid, NoMemory};

/// Entries whose identifiers differ, seen as the list of them.
#[derive(Drop)]
pub(crate) struct Stored<'a> {
    entries: &'a [Entry],
    places: KeyMap<Key, usize>,
}

impl<'a> Model for Stored<'a> {
    ghost use Rattle.std.specs.Prelude.{List};
    ghost use Rattle.svc_values.specs.declared.entry.Entry.{Entry};
    ghost use Rattle.entry_check.specs.InnerPlaces.{Finds};

    ghost Value = { List Entry };

    ghost view = { λ s. s.entries.now };

    ghost invariant = { λ s. Finds s.places s.entries.now };
}

/// An entry, and its place among the others.
#[derive(Clone, Copy)]
pub(crate) struct Placed<'a> {
    pub(crate) place: usize,
    pub(crate) entry: &'a Entry,
}

impl<'a> Stored<'a> {
    /// These entries. n log n.
    pub(crate) fn new(alloc: Global, entries: &'a [Entry]) -> Result<Stored<'a>, NoMemory>
        requires { entries_differ entries.now ≡ true }
        ensures { IfOk result (λ stored. stored ≡ entries.now) }
    {
        let mut places = KeyMap::new(alloc);
        for (at, entry) in entries.iter().enumerate() {
            places.put(key_of(&entry.ltxid), at)?;
        }
        Ok(Stored { entries, places })
    }

    /// The entry of an identifier, if there is one. It takes the logarithm of their number.
    pub(crate) fn find(&self, ltxid: &Ltxid) -> Option<Placed<'a>>
        ensures { as_list (option_map (λ found. found.entry.now) result) ≡ entries_in self.now
            (ltxid.now ∷ []) }
    {
        let Some(place) = self.places.get(&key_of(ltxid)) else {
            return None;
        };
        let place = *place;
        let Some(entry) = self.entries.get(place) else {
            return None;
        };
        Some(Placed { place, entry })
    }
}
