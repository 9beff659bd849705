//! Records that are added to a store one by one, each where it may come next in its journal.
ghost use Rattle.std.specs.Prelude.{◌≡◌, ◌+ℤ◌, true, [], IfOk, IsTrue, Ok};
ghost use Rattle.std.specs.Ordering.{int_eq};
ghost use Rattle.svc_values.specs.Identifiers.{IsLtxid};
ghost use Rattle.canon_bytes.specs.Entries.{IsMadeEntry};
ghost use Rattle.ltxid_book.specs.Sessions.{sessions_in};
ghost use Rattle.commit_log.specs.Bases.{IsBase};
ghost use Rattle.commit_log.specs.meaning.Rules.{sessions_of, reservation_size, may_commit as may_commit_def, may_block as may_block_def, may_reserve as may_reserve_def};
ghost use Rattle.commit_log.specs.meaning.Journals.{journal_of};
ghost use Rattle.commit_log.specs.Logs.{CanLog};

use commit_log::{
    Base, BaseSequence, BaseSequences, BaseTables, Journal, Log, LogFault, Reservation,
};
use disk_model::Disk;
use ltxid_book::Book;
use std::alloc::Global;
use std::process::Abort;
use svc_values::{Entry, Ltxid, Name, NoMemory};

/// A base of no table and one sequence `s`, which begins at 1.
#[tactic(auto, unfolding(commit_log::specs::meaning::Bases::is_base))]
pub fn one_sequence(rt: &impl Abort, alloc: Global) -> Base
    ensures { IsBase result }
{
    let mut sequences = BaseSequences::new(alloc);
    sequences
        .push(BaseSequence {
            name: Name::new(alloc, "s").expect(rt, "memory"),
            start: 1,
            keep: false,
        })
        .expect(rt, "memory");
    Base {
        tables: BaseTables::new(alloc),
        sequences,
    }
}

/// What the journal says of each session.
fn book_of(alloc: Global, journal: &Journal) -> Result<Book, NoMemory>
    ensures { IfOk result (λ book. sessions_in book ≡ sessions_of journal.now) }
{
    let entries = journal.entries.as_slice();
    Book::of_journal(alloc, journal.horizon, entries, journal.blocked.as_slice())
}

/// Whether the commit, which writes no row, may come next.
fn may_commit(alloc: Global, journal: &Journal, entry: &Entry) -> Result<bool, NoMemory>
    requires { entry.now.writes ≡ [] }
    ensures { IfOk result (λ may. may ≡ true → IsTrue (may_commit_def journal.now entry.now)) }
{
    if entry.ltxid.incarnation > journal.incarnation {
        return Ok(false);
    }
    let book = book_of(alloc, journal)?;
    Ok(book.may_commit(&entry.ltxid))
}

/// Whether the block may come next.
fn may_block(alloc: Global, journal: &Journal, x: &Ltxid) -> Result<bool, NoMemory>
    ensures { IfOk result (λ may. may ≡ may_block_def journal.now x.now) }
{
    let book = book_of(alloc, journal)?;
    Ok(book.may_commit(x))
}

/// Whether a reservation of a sequence whose values end here ends there.
fn follows(end: i64, upto: i64) -> bool
    ensures { result ≡ int_eq upto (end +ℤ reservation_size) }
{
    match end.checked_add(16) {
        Some(next) => upto == next,
        None => false,
    }
}

/// Whether the reservation is the next one of the only sequence.
#[tactic(auto, unfolding(commit_log::specs::meaning::Rules::may_reserve))]
fn may_reserve(journal: &Journal, reservation: &Reservation) -> bool
    ensures { result ≡ true → IsTrue (may_reserve_def journal.now reservation.now) }
{
    let [sequence] = journal.base.sequences.as_slice() else {
        return false;
    };
    if sequence.start < 0 || sequence.start > 1_000_000_000 {
        return false;
    }
    sequence.name == reservation.name && follows(journal.end_of(sequence), reservation.upto)
}

/// Commits the entry, which writes no row, if it may come next.
pub fn commit_next<D: Disk>(
    alloc: Global,
    log: &mut Log,
    disk: &mut D,
    journal: &Journal,
    entry: &Entry,
) -> Result<bool, LogFault>
    requires ready { CanLog log.old (D.state disk.old) }
    requires read { journal_of (D.state disk.old).now.seen ≡ Ok journal.now }
    requires made { IsMadeEntry entry.now }
    requires plain { entry.now.writes ≡ [] }
    ensures { IfOk result (λ _. CanLog log.new (D.state disk.new)) }
{
    let Ok(may) = may_commit(alloc, journal, entry) else {
        return Err(LogFault::NoMemory);
    };
    if may {
        log.commit(disk, entry)?;
    }
    Ok(may)
}

/// Blocks the identifier, if it may be blocked next.
pub fn block_next<D: Disk>(
    alloc: Global,
    log: &mut Log,
    disk: &mut D,
    journal: &Journal,
    x: &Ltxid,
) -> Result<bool, LogFault>
    requires ready { CanLog log.old (D.state disk.old) }
    requires read { journal_of (D.state disk.old).now.seen ≡ Ok journal.now }
    requires made { IsLtxid x.now }
    ensures { IfOk result (λ _. CanLog log.new (D.state disk.new)) }
{
    let Ok(may) = may_block(alloc, journal, x) else {
        return Err(LogFault::NoMemory);
    };
    if may {
        log.block(disk, x)?;
    }
    Ok(may)
}

/// Sets the reservation aside, if it is the next one of the only sequence.
pub fn reserve_next<D: Disk>(
    log: &mut Log,
    disk: &mut D,
    journal: &Journal,
    reservation: &Reservation,
) -> Result<bool, LogFault>
    requires ready { CanLog log.old (D.state disk.old) }
    requires read { journal_of (D.state disk.old).now.seen ≡ Ok journal.now }
    ensures { IfOk result (λ _. CanLog log.new (D.state disk.new)) }
{
    let may = may_reserve(journal, reservation);
    if may {
        log.reserve(disk, &reservation.name, reservation.upto)?;
    }
    Ok(may)
}
