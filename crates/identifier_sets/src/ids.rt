//! Identifiers, the keys by which they are looked up, and sets of them.
ghost use Rattle.std.specs.Prelude.{◌≡◌, ◌||◌, [], OnOk};
ghost use Rattle.svc_values.specs.meaning.Identifiers.{same_ltxid};
ghost use Rattle.svc_values.specs.declared.entry.Ltxid.{Ltxid as Id};
ghost use Rattle.ltxid_book.specs.meaning.Journal.{is_blocked};
ghost use Rattle.run_clauses.specs.meaning.Tried.{holds};
ghost use Rattle.identifier_sets.specs.Keys.{key_of as key_of_def};

use std::alloc::Global;
use std::marker::Model;
use svc_values::{KeySet, Ltxid, NoMemory};

/// The three numbers of an identifier: incarnation, session and number.
pub type Key = (u64, u64, u64);

/// Identifiers, seen as a list of them. Each call takes the logarithm of their number.
#[derive(Drop)]
pub struct Ids {
    keys: KeySet<Key>,
}

impl Model for Ids {
    ghost use Rattle.std.specs.Prelude.{List, map};
    ghost use Rattle.svc_values.specs.declared.entry.Ltxid.{Ltxid};
    ghost use Rattle.identifier_sets.specs.Keys.{ltxid_at};

    ghost Value = { List Ltxid };

    ghost view = { λ s. map ltxid_at s.keys };
}

/// The key of an identifier.
pub fn key_of(ltxid: &Ltxid) -> Key
    ensures { result ≡ key_of_def ltxid.now }
{
    (ltxid.incarnation, ltxid.session, ltxid.number)
}

/// Whether two identifiers are one.
pub fn is_same(one: &Ltxid, other: &Ltxid) -> bool
    ensures { result ≡ same_ltxid one.now other.now }
{
    one == other
}

impl Ids {
    /// None. It takes no memory.
    pub fn new(alloc: Global) -> Ids
        ensures { result ≡ [] }
    {
        Ids {
            keys: KeySet::new(alloc),
        }
    }

    /// Whether the identifier is among them.
    pub fn has(&self, ltxid: &Ltxid) -> bool
        ensures held { result ≡ holds self.now ltxid.now }
        ensures blocked { result ≡ is_blocked self.now ltxid.now }
    {
        self.keys.has(&key_of(ltxid))
    }

    /// The identifier is among them from now on.
    pub fn add(&mut self, ltxid: &Ltxid) -> Result<(), NoMemory>
        ensures held { OnOk result ((x : Id)
            → holds self.new x ≡ (holds self.old x || same_ltxid x ltxid.now)) }
        ensures blocked { OnOk result ((x : Id)
            → is_blocked self.new x ≡ (is_blocked self.old x || same_ltxid ltxid.now x)) }
    {
        self.keys.add(key_of(ltxid))?;
        Ok(())
    }
}
