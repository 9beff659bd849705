//! A commit that is reached.
ghost use Rattle.std.specs.Prelude.{◌≡◌, [], List, IsTrue, IfOk};
ghost use Rattle.std.specs.Option.{option_copied};
ghost use Rattle.svc_values.specs.declared.frame.Down.TheVariants as down;
ghost use Rattle.svc_values.specs.Calls.{IsMade};
ghost use Rattle.svc_values.specs.meaning.Fitting.{writes_fit};
ghost use Rattle.ltxid_book.specs.meaning.Sessions.{can_commit, may_commit};
ghost use Rattle.ltxid_book.specs.Sessions.{sessions_in};
ghost use Rattle.canon_bytes.specs.Entries.{IsMadeEntry};
ghost use Rattle.commit_log.specs.declared.records.Record.TheVariants as kept;
ghost use Rattle.stmt_meaning.specs.Laws.{closed_by};
ghost use Rattle.stmt_meaning.specs.meaning.Reads.{Read};
ghost use Rattle.stmt_meaning.specs.Reads.{IsConflict};
ghost use Rattle.table_txn.specs.Readings.{AreReadings};
ghost use Rattle.server_model.specs.Serve.{with_last as with_last_def};
ghost use Rattle.server_model.specs.Sessions.{entry_of};
ghost use Rattle.server_session.specs.Fits.{Fits, Belongs};
ghost use Rattle.server_session.specs.SeenSession.{begun_so, sess_of, started_with};
ghost use Rattle.server_session.specs.Serving.{Serves, commits_as, stores_as};
ghost use Rattle.server_session.specs.Storing.{Stores};

use crate::session::Session;
use crate::shared::Core;
use crate::store::stored;
use disk_model::Disk;
use server_model::ServeFault;
use std::alloc::Global;
use std::mem;
use stmt_meaning::ends_refused;
use svc_values::{
    Answer, Answers, Call, Down, Draws, Entry, ListFault, NoMemory, Piece, Place, Settings, TryCopy,
};
use table_txn::Txn;

/// The answers of statements, and that of a commit behind them where one is asked for and none of
/// them was refused.
pub(crate) fn closed(mut answers: Answers, commit: bool) -> Result<Answers, NoMemory>
    ensures { IfOk result (λ all. all ≡ closed_by commit answers) }
{
    if commit && !ends_refused(answers.as_slice()) {
        match answers.push(Answer::Committed) {
            Ok(()) => {}
            Err(ListFault::NoMemory) => return Err(NoMemory),
            Err(ListFault::TooMany) => unreachable!(),
        }
    }
    Ok(answers)
}

/// The answers with another last one.
fn with_last(answers: Answers, last: Answer) -> Result<Answers, NoMemory>
    ensures { IfOk result (λ all. all ≡ with_last_def answers last) }
{
    let mut all = answers.into_vec();
    if all.pop().is_none() {
        return Ok(Answers::from_vec(all));
    }
    all.push(last)?;
    Ok(Answers::from_vec(all))
}

/// The settings before the transaction's first call.
fn settings_before(
    alloc: Global,
    earlier: Option<Settings>,
    now: &Settings,
) -> Result<Settings, NoMemory>
    ensures { IfOk result (λ settings. settings ≡ started_with earlier now.now) }
{
    match earlier {
        Some(earlier) => Ok(earlier),
        None => now.copy(alloc),
    }
}

/// Stores an entry. The tables and the book have it once its record is written, so a stop leaves
/// both as the records before it have them.
fn store_entry<D: Disk>(core: &mut Core, disk: &mut D, entry: &Entry) -> Result<(), ServeFault>
    requires fits { Fits core.old (D.state disk.old) }
    requires made { IsMadeEntry entry.now }
    requires here { entry.now.ltxid.incarnation ≡ core.old.source.incarnation }
    requires may { IsTrue (may_commit (sessions_in core.old.book) entry.now.ltxid) }
    requires writes { IsTrue (writes_fit core.old.tables.schemas entry.now.writes) }
    ensures { Stores (kept.Commit entry.now) result core.old (D.state disk.old) core.new
        (D.state disk.new) }
{
    let _ = core.tables.schemas();
    stored(core.log.commit(disk, entry))?;
    core.tables.apply(&entry.writes)?;
    core.book.commit(&entry.ltxid, entry.completed)?;
    core.changes.note(&entry.writes)?;
    Ok(())
}

impl Session {
    /// Commits the session's transaction, of which this call with these answers is the last. A
    /// replay makes no commit, a blocked identifier ends the session, and a place that was read and
    /// has changed makes a conflict; else the transaction is stored.
    pub(crate) fn commit<D: Disk>(
        &mut self,
        core: &mut Core,
        disk: &mut D,
        replay: bool,
        call: &Call,
        answers: Answers,
        draws: Draws,
    ) -> Result<Option<Down>, ServeFault>
        requires fits { Fits core.old (D.state disk.old) }
        requires belongs { Belongs core.old self.old }
        requires made { IsMade call.now }
        ensures { Serves (commits_as replay call.now answers draws) 1 result self.old core.old
            (D.state disk.old) self.new core.new (D.state disk.new) }
    {
        if replay {
            let told = self.give_up(answers, Answer::CommitInReplay, draws)?;
            return Ok(Some(told));
        }
        if !core.book.can_commit(&self.ltxid) {
            self.close();
            return Ok(Some(Down::Blocked));
        }
        if self.conflicts(core).is_some() {
            let told = self.give_up(answers, Answer::Conflict, draws)?;
            return Ok(Some(told));
        }
        self.store(core, disk, call, answers, draws)
    }

    /// A place that was read and has something else committed now; `None` exactly where there is no
    /// such place. Where no commit has written a table since the transaction began to read, nothing
    /// of it is compared.
    fn conflicts(&self, core: &Core) -> Option<&Place>
        requires { Belongs core.now self.now }
        ensures { (reads : List Read) → AreReadings self.now.txn.readings reads
            → IsConflict reads core.now.tables.rows (option_copied result) }
    {
        self.txn
            .conflicts(&core.tables, core.changes.since(self.since))
    }

    /// Rolls the transaction back, and answers the call so.
    fn give_up(&mut self, answers: Answers, last: Answer, draws: Draws) -> Result<Down, NoMemory>
        ensures told { IfOk result (λ told. told
            ≡ down.Reply (with_last_def answers last) draws self.old.ltxid) }
        ensures seen { IfOk result (λ _. self.new
            ≡ begun_so self.old self.old.life self.old.settings) }
    {
        let answers = with_last(answers, last)?;
        self.drop_transaction();
        Ok(Down::Reply {
            answers,
            draws,
            ltxid: self.ltxid,
        })
    }

    /// Stores the transaction, and answers the call that committed it.
    fn store<D: Disk>(
        &mut self,
        core: &mut Core,
        disk: &mut D,
        call: &Call,
        answers: Answers,
        draws: Draws,
    ) -> Result<Option<Down>, ServeFault>
        requires fits { Fits core.old (D.state disk.old) }
        requires belongs { Belongs core.old self.old }
        requires made { IsMade call.now }
        requires free { IsTrue (can_commit (sessions_in core.old.book) self.old.ltxid) }
        ensures { Serves (stores_as call.now answers draws) 1 result self.old core.old
            (D.state disk.old) self.new core.new (D.state disk.new) }
    {
        if !self.ltxid.is_ltxid() {
            return Err(ServeFault::NoMemory);
        }
        let entry = self.take_entry(call, &answers, &draws)?;
        store_entry(core, disk, &entry)?;
        self.ltxid.number += 1;
        Ok(Some(Down::Reply {
            answers,
            draws,
            ltxid: self.ltxid,
        }))
    }

    /// The transaction as it is to be stored, with this call last, moved out: the session then has
    /// an empty one.
    fn take_entry(
        &mut self,
        call: &Call,
        answers: &Answers,
        draws: &Draws,
    ) -> Result<Entry, NoMemory>
        ensures entry { IfOk result (λ entry. entry
            ≡ entry_of (sess_of self.old []) call.now answers.now draws.now) }
        ensures seen { IfOk result (λ _. self.new
            ≡ begun_so self.old self.old.life self.old.settings) }
    {
        let piece = Piece {
            call: call.copy(self.alloc)?,
            answers: answers.copy(self.alloc)?,
            draws: draws.copy(self.alloc)?,
        };
        self.txn.note(piece)?;
        let settings = settings_before(self.alloc, self.earlier.take(), &self.state.settings)?;
        let txn = mem::replace(&mut self.txn, Txn::new(self.alloc));
        self.since = None;
        let (pieces, writes) = txn.into_parts();
        Ok(Entry {
            ltxid: self.ltxid,
            completed: call.is_lone_commit(),
            settings,
            pieces,
            writes,
        })
    }
}
