//! Sessions with their transactions.
ghost use Rattle.std.specs.Prelude.{◌≡◌, [], false, if◌then◌else◌, IfOk, OnOk};
ghost use Rattle.svc_values.specs.declared.entry.SessionId.{SessionId as Session};
ghost use Rattle.svc_values.specs.meaning.Identifiers.{same_session};
ghost use Rattle.calls_again.specs.OnWay.{probed};
ghost use Rattle.legal_walk.specs.Going.{ongoing_in};

use crate::counts::{Key, key_of};
use crate::ongoing::Ongoing;
use calls_again::Going;
use std::alloc::Global;
use std::collections::BTreeMap;
use std::marker::Model;
use svc_values::{NoMemory, SessionId, Settings};

/// The transaction of each session that was met, seen as a list of keys and transactions. Each call
/// takes the logarithm of their number.
#[derive(Drop)]
pub(crate) struct Sessions {
    ongoings: BTreeMap<Key, Ongoing>,
    alloc: Global,
}

impl Model for Sessions {
    ghost use Rattle.std.specs.Prelude.{List, ℕ};
    ghost use Rattle.legal_walk.specs.declared.ongoing.Ongoing.{Ongoing};

    ghost Value = { List ((ℕ × ℕ) × Ongoing) };

    ghost view = { λ s. s.ongoings.entries };
}

impl Sessions {
    /// No session was met. It takes no memory.
    pub(crate) fn new(alloc: Global) -> Sessions
        ensures { result ≡ [] }
    {
        Sessions {
            ongoings: BTreeMap::new(alloc),
            alloc,
        }
    }

    /// The transaction of a session, moved out: a new one without settings where it was not met.
    pub(crate) fn take(&mut self, session: &SessionId) -> Ongoing
        ensures ongoing { result ≡ ongoing_in self.old session.now }
        ensures others { (other : Session) → same_session session.now other ≡ false
            → ongoing_in self.new other ≡ ongoing_in self.old other }
    {
        match self.ongoings.remove(&key_of(session)) {
            Some(ongoing) => ongoing,
            None => Ongoing::new(self.alloc, Settings::new(self.alloc)),
        }
    }

    /// A session has this transaction, in the place of the one before.
    pub(crate) fn put(&mut self, session: &SessionId, ongoing: Ongoing) -> Result<(), NoMemory>
        ensures { OnOk result ((other : Session) → ongoing_in self.new other
            ≡ (if same_session session.now other then ongoing else ongoing_in self.old other)) }
    {
        self.ongoings.insert(key_of(session), ongoing)?;
        Ok(())
    }

    /// The settings and the writes of a session, so that a call can be tried.
    pub(crate) fn probe(&self, session: &SessionId) -> Result<Going, NoMemory>
        ensures { IfOk result (λ made. made ≡ probed (ongoing_in self.now session.now).going) }
    {
        match self.ongoings.get(&key_of(session)) {
            Some(ongoing) => Ok(ongoing.going.probe(self.alloc)?),
            None => Ok(Going::new(self.alloc, Settings::new(self.alloc))),
        }
    }
}
