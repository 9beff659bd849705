//! What all sessions of a service share, as far as what was served tells it.
ghost use Rattle.std.specs.Prelude.{◌≡◌, true, None, IsTrue, IfOk, OnOk};
ghost use Rattle.std.specs.List.{last_or};
ghost use Rattle.std.specs.Option.{option_copied};
ghost use Rattle.svc_values.specs.declared.entry.Ltxid.{Ltxid as Id};
ghost use Rattle.svc_values.specs.meaning.Fitting.{writes_fit};
ghost use Rattle.ltxid_book.specs.meaning.Journal.{is_blocked};
ghost use Rattle.server_model.specs.meaning.Base.{Base};
ghost use Rattle.server_model.specs.meaning.Legal.{all_stored, draws_hold, is_of_now};
ghost use Rattle.server_model.specs.meaning.Walk.{Walk, if_commits, if_uncommitted, next_of, stopped, walk_of, with_numbers, with_perhaps};
ghost use Rattle.shown_clauses.specs.meaning.Things.{outcome_of};
ghost use Rattle.legal_walk.specs.Beside.{Beside, Moves};
ghost use Rattle.legal_walk.specs.Items.{standing};
ghost use Rattle.legal_walk.specs.Moving.{entered_at, may_block, passed, performed_as, stopped_at};
ghost use Rattle.legal_walk.specs.Starting.{IsStart};

use crate::ledger::Ledger;
use crate::performed::Performed;
use crate::start::Start;
use identifier_sets::{Ids, is_same};
use legal_draws::{Numbers, Sequence, granted};
use mutable_values::Grants;
use outage_schedule::AskResult;
use std::alloc::Global;
use svc_values::{Call, Entry, Ltxid, Names, NoMemory, Piece, SessionId, Writes};
use table_store::Tables;
use table_txn::Changes;

/// The tables, the entries, the identifiers that are or may be blocked, and the numbers that were
/// drawn. `is_over` tells that nothing more can come of this opening.
#[derive(Drop)]
pub(crate) struct Service<'a> {
    pub(crate) alloc: Global,
    pub(crate) tables: Tables,
    /// Which tables the commits have written.
    pub(crate) changes: Changes,
    pub(crate) names: Names,
    sequences: Vec<Sequence>,
    grants: Grants,
    pub(crate) ledger: Ledger<'a>,
    pub(crate) blocked: Ids,
    perhaps: Ids,
    pub(crate) numbers: Numbers,
    is_over: bool,
}

/// The set of these identifiers. n log n.
fn ids_of(alloc: Global, ltxids: &[Ltxid]) -> Result<Ids, NoMemory>
    ensures { IfOk result (λ ids. (x : Id) → is_blocked ltxids.now x ≡ is_blocked ids x) }
{
    let mut ids = Ids::new(alloc);
    for ltxid in ltxids {
        ids.add(ltxid)?;
    }
    Ok(ids)
}

/// The last of an entry's pieces.
fn last_piece(entry: &Entry) -> Option<&Piece>
    ensures { option_copied result ≡ last_or None entry.now.pieces }
{
    entry.pieces.as_slice().last()
}

impl<'a> Service<'a> {
    /// A service that begins so, with these entries to come. n log n for what stood before.
    pub(crate) fn new(
        alloc: Global,
        start: Start<'a>,
        entries: &'a [Entry],
    ) -> Result<Service<'a>, NoMemory>
        ensures { IfOk result (λ made. (base : Base) → IsStart base start.entry
            → Beside base (walk_of base entries.now) made) }
    {
        let Start {
            tables,
            names,
            sequences,
            grants,
            entries: before,
            blocked,
            incarnation,
        } = start;
        let numbers = Numbers::of(alloc, incarnation, sequences.as_slice())?;
        Ok(Service {
            alloc,
            tables,
            changes: Changes::new(alloc),
            names,
            sequences,
            grants,
            ledger: Ledger::new(alloc, before, entries)?,
            blocked: ids_of(alloc, blocked)?,
            perhaps: Ids::new(alloc),
            numbers,
            is_over: true,
        })
    }

    /// Whether no entry is left.
    pub(crate) fn is_done(&self) -> bool
        ensures { (base : Base) (walk : Walk) → Beside base walk self.now
            → result ≡ all_stored walk.left }
    {
        self.ledger.is_done()
    }

    /// A session of this incarnation comes: behind the opening, where it is a later one.
    pub(crate) fn enter(&mut self, session: &SessionId) -> Result<(), NoMemory>
        ensures { OnOk result (Moves self.old (λ walk. entered_at walk session.now) self.new) }
    {
        if self.numbers.incarnation() >= session.incarnation {
            return Ok(());
        }
        self.numbers.open(self.alloc, session.incarnation)?;
        self.is_over = false;
        Ok(())
    }

    /// Whether something may come of the session: openings come one after the other, and nothing
    /// of an opening comes behind a stop in it.
    pub(crate) fn is_of_now(&self, session: &SessionId) -> bool
        ensures { (base : Base) (walk : Walk) → Beside base walk self.now
            → result ≡ is_of_now walk session.now }
    {
        !self.is_over && session.incarnation == self.numbers.incarnation()
    }

    /// The identifier that a session commits under next.
    pub(crate) fn next_of(&self, session: &SessionId) -> Ltxid
        ensures { (base : Base) (walk : Walk) → Beside base walk self.now
            → result ≡ next_of walk session.now }
    {
        self.ledger.next_of(session)
    }

    /// Whether an identifier is blocked, or may be.
    pub(crate) fn may_block(&self, ltxid: &Ltxid) -> bool
        ensures { (base : Base) (walk : Walk) → Beside base walk self.now
            → result ≡ may_block walk ltxid.now }
    {
        self.blocked.has(ltxid) || self.perhaps.has(ltxid)
    }

    /// The outcome of an identifier was told: one that is told uncommitted is blocked.
    pub(crate) fn tell(&mut self, ltxid: &Ltxid, told: &AskResult) -> Result<(), NoMemory>
        ensures { OnOk result (Moves self.old
            (λ walk. if_uncommitted walk ltxid.now (outcome_of told.now)) self.new) }
    {
        match told {
            AskResult::Uncommitted => self.blocked.add(ltxid),
            AskResult::Committed { .. } => Ok(()),
            AskResult::ServerAhead { .. } => Ok(()),
            AskResult::ClientAhead { .. } => Ok(()),
            AskResult::Forgotten { .. } => Ok(()),
        }
    }

    /// A question was stopped: its identifier may be blocked.
    pub(crate) fn stop_question(&mut self, ltxid: &Ltxid) -> Result<(), NoMemory>
        ensures { OnOk result (Moves self.old (λ walk. stopped (with_perhaps walk ltxid.now))
            self.new) }
    {
        self.perhaps.add(ltxid)?;
        self.is_over = true;
        Ok(())
    }

    /// The last piece of the entry that a stopped call stored: it is a commit without the mark, and
    /// the entry that comes next is its session's.
    pub(crate) fn stands(&self, session: &SessionId, replay: bool, call: &Call) -> Option<&'a Piece>
        ensures { (base : Base) (walk : Walk) → Beside base walk self.now
            → option_copied result ≡ standing walk session.now replay call.now }
    {
        if !call.has_commit() || replay {
            return None;
        }
        let entry = self.ledger.first()?;
        if !is_same(&entry.ltxid, &self.next_of(session)) {
            return None;
        }
        last_piece(entry)
    }

    /// A call was stopped of which no entry stands.
    pub(crate) fn stop_call(&mut self, call: &Call) -> Result<(), NoMemory>
        ensures { OnOk result (Moves self.old (λ walk. stopped_at walk call.now) self.new) }
    {
        self.numbers.stop(self.alloc, call)
    }

    /// Something was stopped in this opening.
    pub(crate) fn stop(&mut self)
        ensures { Moves self.old stopped self.new }
    {
        self.is_over = true;
    }

    /// A call met a block: it drew what it asks for, and was told nothing.
    pub(crate) fn pass(&mut self, call: &Call) -> Result<(), NoMemory>
        ensures { OnOk result (Moves self.old (λ walk. passed walk call.now) self.new) }
    {
        self.numbers.pass(self.alloc, call)
    }

    /// Whether the draws of a call are as they have to be. The numbers move on behind them.
    pub(crate) fn draw(&mut self, performed: &Performed<'_>) -> Result<bool, NoMemory>
        ensures holds { IfOk result (λ holds. (base : Base) (walk : Walk)
            → Beside base walk self.old
            → holds ≡ draws_hold base walk (performed_as performed.entry.now)) }
        ensures moves { OnOk result ((base : Base) (walk : Walk) → Beside base walk self.old
            → Beside base (with_numbers base walk (performed_as performed.entry.now)) self.new) }
        ensures tables { self.new.tables ≡ self.old.tables }
        ensures changes { self.new.changes ≡ self.old.changes }
    {
        let kept = granted(
            self.alloc,
            self.grants,
            self.sequences.as_slice(),
            performed.replay,
            performed.kept,
        )?;
        let are_right = self
            .numbers
            .draw(self.alloc, performed.now, kept, performed.draws)?;
        Ok(are_right)
    }

    /// The entry that comes next is stored, with these writes.
    pub(crate) fn commit(&mut self, writes: &Writes) -> Result<(), NoMemory>
        requires { IsTrue (writes_fit self.old.tables.schemas writes.now) }
        ensures { OnOk result (Moves self.old (λ walk. if_commits true walk writes.now) self.new) }
    {
        let _ = self.tables.schemas();
        self.tables.apply(writes)?;
        self.changes.note(writes)?;
        self.ledger.store()?;
        Ok(())
    }
}
