//! What a journal holds.
ghost use Rattle.std.specs.Prelude.{◌≡◌};
ghost use Rattle.commit_log.specs.meaning.Rules.{new_journal};

use crate::base::Base;
use std::alloc::Global;
use svc_values::{Entry, Listed, Ltxid, Name, NoMemory, Text, TryCopy};

/// Committed transactions, in the order in which they were stored.
pub type Entries = Listed<Entry>;

/// Identifiers that can commit no more, in the order in which they were blocked.
pub type Ltxids = Listed<Ltxid>;

/// A reservation: a part of a sequence that was set aside for an opening, the values up to and with
/// `upto`.
#[derive(PartialEq, Eq, Drop)]
pub struct Reservation {
    pub name: Name,
    pub upto: i64,
}

/// Reservations, in the order in which they were made.
pub type Blocks = Listed<Reservation>;

/// Lines of text, in the order in which they were stored.
pub type Lines = Listed<Text>;

/// What the records of a store say. `incarnation` is that of the last opening, and 0 where there
/// was none. What became of the sessions of incarnations below `horizon` is forgotten; it is 0
/// where no record stores one.
#[derive(PartialEq, Eq, Drop)]
pub struct Journal {
    pub base: Base,
    pub incarnation: u64,
    pub horizon: u64,
    pub entries: Entries,
    pub blocked: Ltxids,
    pub reserved: Blocks,
    pub alerts: Lines,
}

impl Journal {
    /// A journal of nothing but its base. It takes no memory.
    pub fn new(alloc: Global, base: Base) -> Journal
        ensures { result ≡ new_journal base }
    {
        Journal {
            base,
            incarnation: 0,
            horizon: 0,
            entries: Entries::new(alloc),
            blocked: Ltxids::new(alloc),
            reserved: Blocks::new(alloc),
            alerts: Lines::new(alloc),
        }
    }
}

impl TryCopy for Reservation {
    fn copy(&self, alloc: Global) -> Result<Reservation, NoMemory> {
        Ok(Reservation {
            name: self.name.copy(alloc)?,
            upto: self.upto,
        })
    }
}

impl TryCopy for Journal {
    fn copy(&self, alloc: Global) -> Result<Journal, NoMemory> {
        Ok(Journal {
            base: self.base.copy(alloc)?,
            incarnation: self.incarnation,
            horizon: self.horizon,
            entries: self.entries.copy(alloc)?,
            blocked: self.blocked.copy(alloc)?,
            reserved: self.reserved.copy(alloc)?,
            alerts: self.alerts.copy(alloc)?,
        })
    }
}
