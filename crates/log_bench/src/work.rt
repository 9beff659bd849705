//! The work itself.
ghost use Rattle.std.specs.Prelude.{◌≤◌, ◌^◌, IfOk, Ok};
ghost use Rattle.canon_bytes.specs.Entries.{IsMadeEntry};
ghost use Rattle.commit_log.specs.Bases.{IsBase};
ghost use Rattle.commit_log.specs.Logs.{CanLog};
ghost use Rattle.log_bench.specs.Following.{IsFollowed, IsPlain};

use commit_log::{Base, BaseSequences, BaseTables, Log, LogFault};
use disk_model::{Disk, MemDisk};
use ltxid_book::Book;
use std::alloc::Global;
use svc_values::{Entry, Ltxid, Pieces, Settings, Writes};

#[tactic(auto, unfolding(commit_log::specs::meaning::Bases::is_base))]
fn no_tables(alloc: Global) -> Base
    ensures { IsBase result }
{
    Base {
        tables: BaseTables::new(alloc),
        sequences: BaseSequences::new(alloc),
    }
}

/// The commit with this number of the first session of the first opening, which writes no row.
fn commit_of(alloc: Global, number: u64) -> Entry
    requires { number ≤ 2 ^ 63 }
    ensures made { IsMadeEntry result }
    ensures plain { IsPlain result }
{
    Entry {
        ltxid: Ltxid {
            incarnation: 1,
            session: 1,
            number,
        },
        completed: true,
        settings: Settings::new(alloc),
        pieces: Pieces::new(alloc),
        writes: Writes::new(alloc),
    }
}

/// Adds the commit, if it is the next one of its session by the book, and notes it there.
fn commit_next<D: Disk>(
    log: &mut Log,
    disk: &mut D,
    book: &mut Book,
    entry: &Entry,
) -> Result<bool, LogFault>
    requires ready { CanLog log.old (D.state disk.old) }
    requires made { IsMadeEntry entry.now }
    requires plain { IsPlain entry.now }
    requires followed { IsFollowed book.old (D.state disk.old).now.seen }
    ensures ready { IfOk result (λ _. CanLog log.new (D.state disk.new)) }
    ensures followed { IfOk result (λ _. IsFollowed book.new (D.state disk.new).now.seen) }
{
    if !book.may_commit(&entry.ltxid) {
        return Ok(false);
    }
    log.commit(disk, entry)?;
    match book.commit(&entry.ltxid, entry.completed) {
        Ok(()) => Ok(true),
        Err(_) => Err(LogFault::NoMemory),
    }
}

/// Adds so many commits to a new store, opens it again, and counts those that its journal has.
pub fn commits_read(alloc: Global, count: u64) -> Result<u64, LogFault> {
    let mut disk = MemDisk::new(alloc);
    Log::create(alloc, &mut disk, &no_tables(alloc))?;
    let (mut log, _) = Log::open(alloc, &mut disk, 0)?;
    let mut book = Book::new(alloc);
    for number in 0..count.min(1 << 63) {
        let entry = commit_of(alloc, number);
        if !commit_next(&mut log, &mut disk, &mut book, &entry)? {
            break;
        }
    }
    let (_, journal) = Log::open(alloc, &mut disk, 0)?;
    Ok(journal.entries.len() as u64)
}
