//! A record of each kind, added by its call: its bytes, what a stop in each device call leaves, and
//! what is refused.
ghost use Rattle.std.specs.Prelude.{◌≡◌, ◌<◌, [], IfOk, Ok};
ghost use Rattle.svc_values.specs.Identifiers.{IsLtxid};
ghost use Rattle.canon_bytes.specs.Entries.{IsMadeEntry};
ghost use Rattle.disk_model.specs.Mem.{mem_state};
ghost use Rattle.commit_log.specs.meaning.Journals.{journal_of};
ghost use Rattle.commit_log.specs.Logs.{CanLog};

use crate::adding::{block_next, commit_next, one_sequence, reserve_next};
use commit_log::{Journal, Log, LogFault, Reservation};
use disk_model::{Disk, MemDisk, StopDisk};
use std::alloc::Global;
use std::process::Abort;
use svc_values::{Entry, Ltxid, Name, Pieces, Settings, Text, Writes};

// A record that is to be added: a commit or a block, each by the parts of its identifier, a
// reservation, or a line.
#[derive(Clone, Copy, Debug)]
enum Next {
    Commit(u8, u8, u8),
    Block(u8, u8, u8),
    Reserve(&'static str, i64),
    Alert(&'static str),
}

// One of each kind.
const KINDS: [Next; 4] = [
    Next::Commit(1, 1, 0),
    Next::Block(1, 2, 0),
    Next::Reserve("s", 16),
    Next::Alert("lag"),
];

// The payloads of the records, by hand.
const PAYLOADS: [&[u8]; 4] = [
    // The commit 1, 1, 0 of a lone call, without settings, pieces and writes.
    &[
        3, 0, 0, 0, 0, 0, 0, 0, 1, 0, 0, 0, 0, 0, 0, 0, 1, 0, 0, 0, 0, 0, 0, 0, 0, // tag, identifier
        1, 0, 0, 0, 0, 0, 0, 0, 0, 0, 0, 0, 0, 0, 0, 0, 0, 0, 0, 0, 0, 0, 0, 0, 0,
    ],
    // The block of 1, 2, 0.
    &[
        4, 0, 0, 0, 0, 0, 0, 0, 1, 0, 0, 0, 0, 0, 0, 0, 2, 0, 0, 0, 0, 0, 0, 0, 0,
    ],
    // The values of `s` up to 16.
    &[5, 0, 0, 0, 0, 0, 0, 0, 1, b's', 0, 0, 0, 0, 0, 0, 0, 16],
    // The line `lag`.
    &[6, 0, 0, 0, 0, 0, 0, 0, 3, b'l', b'a', b'g'],
];

fn ltxid(incarnation: u8, session: u8, number: u8) -> Ltxid
    ensures { IsLtxid result }
{
    Ltxid {
        incarnation: incarnation.into(),
        session: session.into(),
        number: number.into(),
    }
}

/// The commit of an identifier by a lone call, which writes no row.
fn commit_of(alloc: Global, ltxid: Ltxid) -> Entry
    requires { IsLtxid ltxid }
    ensures made { IsMadeEntry result }
    ensures plain { result.writes ≡ [] }
{
    Entry {
        ltxid,
        completed: true,
        settings: Settings::new(alloc),
        pieces: Pieces::new(alloc),
        writes: Writes::new(alloc),
    }
}

fn reservation_of(alloc: Global, name: &str, upto: i64) -> Result<Reservation, LogFault> {
    match Name::new(alloc, name) {
        Ok(name) => Ok(Reservation { name, upto }),
        Err(_) => Err(LogFault::NoMemory),
    }
}

/// Adds the line, which may come wherever it likes.
fn alert_next<D: Disk>(
    alloc: Global,
    log: &mut Log,
    disk: &mut D,
    text: &str,
) -> Result<bool, LogFault>
    requires { CanLog log.old (D.state disk.old) }
    ensures { IfOk result (λ _. CanLog log.new (D.state disk.new)) }
{
    let Ok(line) = Text::new(alloc, text) else {
        return Err(LogFault::NoMemory);
    };
    log.alert(disk, &line)?;
    Ok(true)
}

/// Adds the record, if it may come next in the journal of the disk, and says whether it may.
fn add<D: Disk>(
    alloc: Global,
    log: &mut Log,
    disk: &mut D,
    journal: &Journal,
    next: Next,
) -> Result<bool, LogFault>
    requires ready { CanLog log.old (D.state disk.old) }
    requires read { journal_of (D.state disk.old).now.seen ≡ Ok journal.now }
    ensures { IfOk result (λ _. CanLog log.new (D.state disk.new)) }
{
    match next {
        Next::Commit(incarnation, session, number) => {
            let entry = commit_of(alloc, ltxid(incarnation, session, number));
            commit_next(alloc, log, disk, journal, &entry)
        }
        Next::Block(incarnation, session, number) => {
            let x = ltxid(incarnation, session, number);
            block_next(alloc, log, disk, journal, &x)
        }
        Next::Reserve(name, upto) => {
            let reservation = reservation_of(alloc, name, upto)?;
            reserve_next(log, disk, journal, &reservation)
        }
        Next::Alert(text) => alert_next(alloc, log, disk, text),
    }
}

/// How many commits, blocks, reservations and lines a journal has.
fn counts(journal: &Journal) -> [usize; 4] {
    [
        journal.entries.len(),
        journal.blocked.len(),
        journal.reserved.len(),
        journal.alerts.len(),
    ]
}

/// So many of the kind at this place of `KINDS`, and none of another.
fn only(place: usize, count: usize) -> [usize; 4]
    requires { place < 4 }
{
    let mut counts = [0; 4];
    counts[place] = count;
    counts
}

// What the payload stands in: an open gate, its length, and behind it a closed gate.
fn framed(rt: &impl Abort, alloc: Global, payload: &[u8]) -> Vec<u8> {
    let mut bytes = vec![in alloc; 1].expect(rt, "memory");
    bytes
        .extend_from_slice(&(payload.len() as u64).to_be_bytes())
        .expect(rt, "memory");
    bytes.extend_from_slice(payload).expect(rt, "memory");
    bytes.push(0).expect(rt, "memory");
    bytes
}

/// Makes a store with one sequence on an empty disk, and opens it.
fn opened(rt: &impl Abort, alloc: Global, disk: &mut MemDisk) -> (Log, Journal)
    requires { (mem_state disk.old).now.seen ≡ [] }
    ensures ready { CanLog result.0 (mem_state disk.new) }
    ensures read { journal_of (mem_state disk.new).now.seen ≡ Ok result.1 }
{
    Log::create(alloc, disk, &one_sequence(rt, alloc)).expect(rt, "a store");
    Log::open(alloc, disk, 0).expect(rt, "a store")
}

// The bytes that the call of the kind at this place adds, with the closed gate in front of which
// they came.
fn added_by(rt: &impl Abort, alloc: Global, place: usize) -> Vec<u8>
    requires { place < 4 }
{
    let mut disk = MemDisk::new(alloc);
    let (mut log, journal) = opened(rt, alloc, &mut disk);
    let gate = disk.bytes().len().saturating_sub(1);
    add(alloc, &mut log, &mut disk, &journal, KINDS[place]).expect(rt, "an answer");
    let behind = disk.bytes().get(gate..).unwrap_or_default();
    behind.to_vec(alloc).expect(rt, "memory")
}

#[test]
fn each_call_adds_the_bytes_of_its_record(rt: HostRuntime) {
    let alloc = rt.alloc();
    for (place, payload) in PAYLOADS.into_iter().enumerate() {
        assert!(rt;
            added_by(&rt, alloc, place) == framed(&rt, alloc, payload),
            "{place}"
        );
    }
}

/// What the journal has after a call that is stopped after so many writes and syncs, and a crash;
/// and whether the log was live behind the call, and how many records it counted.
fn left_by(
    rt: &impl Abort,
    alloc: Global,
    place: usize,
    stop: u64,
    pick: u8,
) -> ([usize; 4], bool, u64)
    requires place { place < 4 }
    requires pick { pick < 4 }
{
    let mut disk = MemDisk::new(alloc);
    let (mut log, journal) = opened(rt, alloc, &mut disk);
    disk.stop_after(Some(stop));
    // It is stopped before its end, or else done: what is left is looked at.
    let _ = add(alloc, &mut log, &mut disk, &journal, KINDS[place]);
    disk.crash(pick);
    let left = Log::read(alloc, &mut disk).expect(rt, "a journal");
    (counts(&left), log.is_live(), log.count())
}

/// Sees what the journal has after a call of the kind at this place that is stopped after so many
/// writes and syncs, and a crash: so many of its kind.
fn is_left(rt: &impl Abort, alloc: Global, place: usize, stop: u64, pick: u8, count: usize)
    requires place { place < 4 }
    requires pick { pick < 4 }
{
    let (found, live, records) = left_by(rt, alloc, place, stop, pick);
    assert_eq!(rt;
        found,
        only(place, count),
        "{place}, stop {stop}, pick {pick}"
    );
    assert_eq!(rt; live, stop == 4, "{place}, stop {stop}");
    assert_eq!(rt;
        records,
        if stop == 4 { 4 } else { 3 },
        "{place}, stop {stop}"
    );
}

#[test]
fn a_stop_in_each_device_call_of_each_kind(rt: HostRuntime) {
    for (stop, left) in [
        (0, [0, 0, 0, 0]),
        (1, [0, 0, 0, 0]),
        (2, [0, 0, 0, 0]),
        (3, [1, 0, 1, 0]),
        (4, [1, 1, 1, 1]),
    ] {
        for place in 0..4 {
            for pick in 0..4 {
                is_left(&rt, rt.alloc(), place, stop, pick, left[pick as usize]);
            }
        }
    }
}

// Records in the order in which they are tried on one store, and whether each may come next.
const TRIED: [(Next, bool); 18] = [
    // A commit with its session's next number, once, in an opening that there was.
    (Next::Commit(1, 1, 1), false),
    (Next::Commit(1, 1, 0), true),
    (Next::Commit(1, 1, 0), false),
    (Next::Commit(2, 1, 0), false),
    (Next::Commit(1, 2, 0), true),
    // A block of an identifier that did not commit, once, in whichever opening; and then it commits
    // no more.
    (Next::Block(1, 1, 0), false),
    (Next::Block(1, 1, 2), false),
    (Next::Block(1, 1, 1), true),
    (Next::Block(1, 1, 1), false),
    (Next::Commit(1, 1, 1), false),
    (Next::Block(7, 3, 0), true),
    // Sixteen values at a time, of a sequence that there is.
    (Next::Reserve("s", 32), false),
    (Next::Reserve("s", 16), true),
    (Next::Reserve("s", 16), false),
    (Next::Reserve("s", 32), true),
    (Next::Reserve("u", 16), false),
    // Any line, as often as it likes.
    (Next::Alert("lag"), true),
    (Next::Alert("lag"), true),
];

/// Tries to add a record, and sees whether it may come next.
fn try_next(
    rt: &impl Abort,
    alloc: Global,
    log: &mut Log,
    disk: &mut MemDisk,
    next: Next,
    may: bool,
)
    requires { CanLog log.old (mem_state disk.old) }
    ensures { CanLog log.new (mem_state disk.new) }
{
    let journal = Log::read(alloc, disk).expect(rt, "a journal");
    let added = add(alloc, log, disk, &journal, next).expect(rt, "an answer");
    assert_eq!(rt; added, may, "{next:?}");
}

/// Sees what the journal has behind all that were tried.
fn are_added(rt: &impl Abort, alloc: Global, disk: &mut MemDisk) {
    let journal = Log::read(alloc, disk).expect(rt, "a journal");
    assert_eq!(rt; counts(&journal), [2, 2, 2, 2]);
    assert!(rt; journal.blocked.as_slice() == [ltxid(1, 1, 1), ltxid(7, 3, 0)].as_slice());
}

#[test]
fn records_that_may_come_next_and_others(rt: HostRuntime) {
    let mut disk = MemDisk::new(rt.alloc());
    let (mut log, _) = opened(&rt, rt.alloc(), &mut disk);
    'tried: for (next, may) in TRIED {
        try_next(&rt, rt.alloc(), &mut log, &mut disk, next, may);
    }
    are_added(&rt, rt.alloc(), &mut disk);
    assert_eq!(rt; log.count(), 11);
}
