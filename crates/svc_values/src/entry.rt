//! What the journal keeps of a transaction that committed.
ghost use Rattle.std.specs.Prelude.{◌≡◌, ◌↔◌, IsTrue};
ghost use Rattle.svc_values.specs.meaning.Identifiers.{session_of};
ghost use Rattle.svc_values.specs.Identifiers.{IsLtxid, is_ltxid};

use crate::answer::Answers;
use crate::call::Call;
use crate::draw::Draws;
use crate::list::Listed;
use crate::memory::{NoMemory, TryCopy};
use crate::settings::Settings;
use crate::text::Name;
use crate::value::{Row, Value};
use std::alloc::Global;

/// A logical transaction identifier: the opening of the store, the session of that opening, and the
/// number of the session's commits before this transaction. The functions that rest on it require
/// that its three parts are at most 2^63.
#[derive(Clone, Copy, Debug, PartialEq, Eq)]
pub struct Ltxid {
    pub incarnation: u64,
    pub session: u64,
    pub number: u64,
}

/// A session: the opening of the store, and the session's number in it, from 1.
#[derive(Clone, Copy, Debug, PartialEq, Eq)]
pub struct SessionId {
    pub incarnation: u64,
    pub session: u64,
}

/// A call with its answers and the values that it drew.
#[derive(PartialEq, Eq, Drop)]
pub struct Piece {
    pub call: Call,
    pub answers: Answers,
    pub draws: Draws,
}

/// The calls of one transaction, in order.
pub type Pieces = Listed<Piece>;

/// A row put in the place of the one with this key, if any, or with `None` taken away.
#[derive(PartialEq, Eq, Drop)]
pub struct Write {
    pub table: Name,
    pub key: Value,
    pub row: Option<Row>,
}

/// Writes in the order in which they were made.
pub type Writes = Listed<Write>;

/// A committed transaction. `completed` tells that the committing call had no statements, and
/// `settings` are those of the session before the first piece.
#[derive(PartialEq, Eq, Drop)]
pub struct Entry {
    pub ltxid: Ltxid,
    pub completed: bool,
    pub settings: Settings,
    pub pieces: Pieces,
    pub writes: Writes,
}

impl Ltxid {
    /// Whether its three parts are at most 2^63.
    pub fn is_ltxid(&self) -> bool
        ensures test { result ≡ is_ltxid self.now }
        ensures within { IsTrue result ↔ IsLtxid self.now }
    {
        let limit = 1 << 63;
        self.incarnation <= limit && self.session <= limit && self.number <= limit
    }

    /// The session whose identifier it is.
    pub fn session_of(&self) -> SessionId
        ensures { result ≡ session_of self.now }
    {
        SessionId {
            incarnation: self.incarnation,
            session: self.session,
        }
    }
}

impl TryCopy for SessionId {
    fn copy(&self, _alloc: Global) -> Result<SessionId, NoMemory> {
        Ok(*self)
    }
}

impl TryCopy for Ltxid {
    fn copy(&self, _alloc: Global) -> Result<Ltxid, NoMemory> {
        Ok(*self)
    }
}

impl TryCopy for Piece {
    fn copy(&self, alloc: Global) -> Result<Piece, NoMemory> {
        Ok(Piece {
            call: self.call.copy(alloc)?,
            answers: self.answers.copy(alloc)?,
            draws: self.draws.copy(alloc)?,
        })
    }
}

impl TryCopy for Write {
    fn copy(&self, alloc: Global) -> Result<Write, NoMemory> {
        let row = match &self.row {
            None => None,
            Some(row) => Some(row.copy(alloc)?),
        };
        Ok(Write {
            table: self.table.copied(),
            key: self.key.copy(alloc)?,
            row,
        })
    }
}

impl TryCopy for Entry {
    fn copy(&self, alloc: Global) -> Result<Entry, NoMemory> {
        Ok(Entry {
            ltxid: self.ltxid,
            completed: self.completed,
            settings: self.settings.copy(alloc)?,
            pieces: self.pieces.copy(alloc)?,
            writes: self.writes.copy(alloc)?,
        })
    }
}
