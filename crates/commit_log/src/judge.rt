//! A journal under way: records are judged one by one and added to it.
ghost use Rattle.std.specs.Prelude.{◌≡◌, Some, None, OnOk, IfOk, IsErrOf, false};
ghost use Rattle.svc_values.specs.meaning.Fitting.{writes_fit as writes_fit_def};
ghost use Rattle.canon_bytes.specs.Entries.{FitsEntry};
ghost use Rattle.commit_log.specs.meaning.Rules.{Empty, after, rises, may_forget, may_commit, may_block, may_reserve};
ghost use Rattle.commit_log.specs.meaning.Journals.{after_payload};
ghost use Rattle.commit_log.specs.Judging.{so_far_in, Keeps};

use crate::checks::{is_base, shape_of};
use crate::ends::{first_ends, is_next, note};
use crate::journal::{Journal, Reservation};
use crate::records::{Record, record_of};
use ltxid_book::Book;
use redo_store::RedoFault;
use std::alloc::Global;
use stmt_meaning::write_fits;
use svc_values::{Entry, ListFault, Ltxid, NoMemory, Shape, Text, Write};

// Why a record was not added. The judge is of no more use.
#[derive(Clone, Copy)]
pub enum Misfit {
    NoMemory,
    Misplaced,
}

impl Misfit {
    // The fault of a store with such a record at the place.
    pub fn at(self, place: u64) -> RedoFault
        ensures no_memory { self ≡ Misfit.NoMemory → result ≡ RedoFault.NoMemory }
        ensures misplaced { self ≡ Misfit.Misplaced → result ≡ RedoFault.Damaged place }
    {
        match self {
            Misfit::NoMemory => RedoFault::NoMemory,
            Misfit::Misplaced => RedoFault::Damaged(place),
        }
    }
}

impl From<NoMemory> for Misfit {
    ghost use Rattle.commit_log.specs.declared.judge.Misfit.TheVariants as misfit;

    ghost from_gives = { λ _ e. e ≡ misfit.NoMemory };

    fn from(_: NoMemory) -> Misfit {
        Misfit::NoMemory
    }
}

impl From<ListFault> for Misfit {
    ghost use Rattle.commit_log.specs.declared.judge.Misfit.TheVariants as misfit;

    ghost from_gives = { λ _ e. e ≡ misfit.NoMemory };

    fn from(_: ListFault) -> Misfit {
        Misfit::NoMemory
    }
}

// A journal under way. Beside it stands what judges the next record at once: the state of each
// session, the declarations of the base, and for each of its sequences where the values end that
// were set aside.
#[derive(Drop)]
pub struct Judge {
    journal: Journal,
    is_opened: bool,
    has_horizon: bool,
    book: Book,
    shape: Shape,
    ends: Vec<i64>,
}

// Whether each write fits what is declared.
fn writes_fit(shape: &Shape, writes: &[Write]) -> bool
    ensures { result ≡ writes_fit_def shape.now.schemas writes.now }
{
    writes.iter().all(|write| write_fits(shape, write))
}

impl Judge {
    // Judges the first record, which has to be a base that keeps its rules.
    pub fn begin(alloc: Global, payload: &[u8]) -> Result<Judge, Misfit>
        ensures begun { IfOk result (λ judge. after_payload Empty payload.now
            ≡ Some (so_far_in judge)) }
        ensures kept { IfOk result Keeps }
        ensures misplaced { IsErrOf result Misfit.Misplaced
            → after_payload Empty payload.now ≡ None }
    {
        let Some(Record::Base(base)) = record_of(alloc, payload)? else {
            return Err(Misfit::Misplaced);
        };
        if !is_base(alloc, &base)? {
            return Err(Misfit::Misplaced);
        }
        let shape = shape_of(alloc, &base)?;
        let ends = first_ends(alloc, base.sequences.as_slice())?;
        Ok(Judge {
            journal: Journal::new(alloc, base),
            is_opened: false,
            has_horizon: false,
            book: Book::new(alloc),
            shape,
            ends,
        })
    }

    // Judges one more record, and adds it. Beside the record's bytes it looks at its session, at
    // the declarations and at the ends of the sequences alone.
    pub fn take(&mut self, alloc: Global, payload: &[u8]) -> Result<(), Misfit>
        requires { Keeps self.old }
        ensures taken { OnOk result (after_payload (so_far_in self.old) payload.now
            ≡ Some (so_far_in self.new)) }
        ensures kept { OnOk result (Keeps self.new) }
        ensures misplaced { IsErrOf result Misfit.Misplaced
            → after_payload (so_far_in self.old) payload.now ≡ None }
    {
        match record_of(alloc, payload)? {
            None => Err(Misfit::Misplaced),
            Some(Record::Base(_)) => Err(Misfit::Misplaced),
            Some(Record::Opened(incarnation)) => self.open(incarnation),
            Some(Record::Commit(entry)) => self.commit(entry),
            Some(Record::Blocked(x)) => self.block(x),
            Some(Record::Reserved(reservation)) => self.reserve(reservation),
            Some(Record::Alert(line)) => self.alert(line),
            Some(Record::Horizon(horizon)) => self.forget(horizon),
        }
    }

    // Adds an opening.
    fn open(&mut self, incarnation: u64) -> Result<(), Misfit>
        requires { Keeps self.old }
        ensures taken { OnOk result (after (so_far_in self.old) (Record.Opened incarnation)
            ≡ Some (so_far_in self.new)) }
        ensures kept { OnOk result (Keeps self.new) }
        ensures misplaced { IsErrOf result Misfit.Misplaced
            → after (so_far_in self.old) (Record.Opened incarnation) ≡ None }
    {
        if incarnation > 1 << 63 {
            return Err(Misfit::Misplaced);
        }
        if self.is_opened && self.journal.incarnation >= incarnation {
            return Err(Misfit::Misplaced);
        }
        self.journal.incarnation = incarnation;
        self.is_opened = true;
        Ok(())
    }

    // Whether the commit may come next in a journal that was opened.
    pub fn can_commit(&self, entry: &Entry) -> bool
        requires { Keeps self.now }
        ensures { result ≡ may_commit self.now.journal entry.now }
    {
        entry.ltxid.incarnation <= self.journal.incarnation
            && (self.book.may_commit(&entry.ltxid)
                && writes_fit(&self.shape, entry.writes.as_slice()))
    }

    // Adds a commit.
    fn commit(&mut self, entry: Entry) -> Result<(), Misfit>
        requires kept { Keeps self.old }
        requires fits { FitsEntry entry }
        ensures taken { OnOk result (after (so_far_in self.old) (Record.Commit entry)
            ≡ Some (so_far_in self.new)) }
        ensures kept { OnOk result (Keeps self.new) }
        ensures misplaced { IsErrOf result Misfit.Misplaced
            → after (so_far_in self.old) (Record.Commit entry) ≡ None }
    {
        if !self.is_opened {
            return Err(Misfit::Misplaced);
        }
        if !self.can_commit(&entry) {
            return Err(Misfit::Misplaced);
        }
        self.book.commit(&entry.ltxid, entry.completed)?;
        self.journal.entries.push(entry)?;
        Ok(())
    }

    // Whether the identifier may be blocked next.
    pub fn can_block(&self, x: &Ltxid) -> bool
        requires { Keeps self.now }
        ensures { result ≡ may_block self.now.journal x.now }
    {
        self.book.may_commit(x)
    }

    // Adds the block of an identifier.
    fn block(&mut self, x: Ltxid) -> Result<(), Misfit>
        requires { Keeps self.old }
        ensures taken { OnOk result (after (so_far_in self.old) (Record.Blocked x)
            ≡ Some (so_far_in self.new)) }
        ensures kept { OnOk result (Keeps self.new) }
        ensures misplaced { IsErrOf result Misfit.Misplaced
            → after (so_far_in self.old) (Record.Blocked x) ≡ None }
    {
        if !self.can_block(&x) {
            return Err(Misfit::Misplaced);
        }
        self.book.block(&x)?;
        self.journal.blocked.push(x)?;
        Ok(())
    }

    // Whether the reservation may be set aside next: linear in the sequences of the base, of which
    // there are at most 32.
    #[tactic(auto, unfolding(crate::specs::meaning::Rules::may_reserve))]
    pub fn can_reserve(&self, reservation: &Reservation) -> bool
        requires { Keeps self.now }
        ensures { result ≡ may_reserve self.now.journal reservation.now }
    {
        is_next(
            self.journal.base.sequences.as_slice(),
            &self.ends,
            reservation,
        )
    }

    // Adds a reservation of a sequence's values.
    fn reserve(&mut self, reservation: Reservation) -> Result<(), Misfit>
        requires { Keeps self.old }
        ensures taken { OnOk result (after (so_far_in self.old) (Record.Reserved reservation)
            ≡ Some (so_far_in self.new)) }
        ensures kept { OnOk result (Keeps self.new) }
        ensures misplaced { IsErrOf result Misfit.Misplaced
            → after (so_far_in self.old) (Record.Reserved reservation) ≡ None }
    {
        if !self.can_reserve(&reservation) {
            return Err(Misfit::Misplaced);
        }
        note(
            self.journal.base.sequences.as_slice(),
            &mut self.ends,
            &reservation,
        );
        self.journal.reserved.push(reservation)?;
        Ok(())
    }

    // Adds a line of text, which may come wherever it likes.
    fn alert(&mut self, line: Text) -> Result<(), Misfit>
        requires { Keeps self.old }
        ensures taken { OnOk result (after (so_far_in self.old) (Record.Alert line)
            ≡ Some (so_far_in self.new)) }
        ensures kept { OnOk result (Keeps self.new) }
        ensures misplaced { IsErrOf result Misfit.Misplaced
            → after (so_far_in self.old) (Record.Alert line) ≡ None }
    {
        self.journal.alerts.push(line)?;
        Ok(())
    }

    // Adds a horizon. Linear in the sessions.
    fn forget(&mut self, horizon: u64) -> Result<(), Misfit>
        requires { Keeps self.old }
        ensures taken { OnOk result (after (so_far_in self.old) (Record.Horizon horizon)
            ≡ Some (so_far_in self.new)) }
        ensures kept { OnOk result (Keeps self.new) }
        ensures misplaced { IsErrOf result Misfit.Misplaced
            → after (so_far_in self.old) (Record.Horizon horizon) ≡ None }
    {
        if !self.can_forget(horizon) {
            return Err(Misfit::Misplaced);
        }
        self.book.forget(horizon);
        self.journal.horizon = horizon;
        self.has_horizon = true;
        Ok(())
    }

    // Whether the horizon may come next.
    fn can_forget(&self, horizon: u64) -> bool
        ensures { result ≡ may_forget self.now.journal self.now.has_horizon horizon }
    {
        horizon.saturating_sub(1) <= self.journal.incarnation && self.is_below(horizon)
    }

    // Whether the horizon is above the one that was stored last, or is the first.
    pub fn is_below(&self, horizon: u64) -> bool
        ensures { result ≡ rises self.now.journal self.now.has_horizon horizon }
    {
        !self.has_horizon || self.journal.horizon < horizon
    }

    // Whether the store was opened in the journal.
    pub fn is_opened(&self) -> bool
        ensures { result ≡ self.now.is_opened }
    {
        self.is_opened
    }

    // Whether a horizon was stored in the journal.
    pub fn has_horizon(&self) -> bool
        ensures { result ≡ self.now.has_horizon }
    {
        self.has_horizon
    }

    // The journal. It takes no memory.
    pub fn into_journal(self) -> Journal
        ensures { result ≡ self.journal }
    {
        let Judge { journal, .. } = self;
        journal
    }
}
