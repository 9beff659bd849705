//! Records on a disk: that calls succeed, what a stop in each of them leaves, and the bytes of a
//! store.
ghost use Rattle.std.specs.Prelude.{◌<◌};
ghost use Rattle.disk_model.specs.Disk.{IsSettled};
ghost use Rattle.disk_model.specs.Mem.{mem_state};

use disk_model::{MemDisk, StopDisk};
use redo_store::{Redo, RedoFault, Walk};
use std::alloc::Global;
use std::process::Abort;

/// A disk with a store without a record.
fn created(rt: &impl Abort, alloc: Global) -> MemDisk
    ensures { IsSettled (mem_state result) }
{
    let mut disk = MemDisk::new(alloc);
    Redo::create(&mut disk).expect(rt, "a store");
    disk
}

/// Appends the byte aa, which is stopped after so many writes and syncs.
fn append_until(rt: &impl Abort, alloc: Global, disk: &mut MemDisk, stop: u64)
    requires { IsSettled (mem_state disk.old) }
{
    let (mut redo, _) = Redo::open(alloc, disk).expect(rt, "a store");
    disk.stop_after(Some(stop));
    // It is stopped before its end, or else done: what is left is looked at.
    let _ = redo.append(disk, &[0xaa]);
}

fn spelled(rt: &impl Abort, alloc: Global, records: &[Vec<u8>]) -> String {
    let mut text = String::new(alloc);
    for payload in records {
        spell(rt, &mut text, payload.as_slice());
    }
    text
}

/// Adds the payload in hexadecimal digits, and a comma.
fn spell(rt: &impl Abort, text: &mut String, payload: &[u8]) {
    for byte in payload {
        write!(text, "{byte:02x}").expect(rt, "memory");
    }
    text.push(',').expect(rt, "memory");
}

/// The payloads of the records on a disk, each in hexadecimal digits and followed by a comma.
fn spelled_on(rt: &impl Abort, alloc: Global, disk: &mut MemDisk) -> String {
    let (_, records) = Redo::open(alloc, disk).expect(rt, "a store");
    spelled(rt, alloc, records.as_slice())
}

/// The records after an append that is stopped after so many writes and syncs and then crashed.
fn left_by(rt: &impl Abort, alloc: Global, stop: u64, pick: u8) -> String
    requires { pick < 4 }
{
    let mut disk = created(rt, alloc);
    append_until(rt, alloc, &mut disk, stop);
    disk.crash(pick);
    spelled_on(rt, alloc, &mut disk)
}

#[test]
fn a_stop_in_each_call_of_an_append(rt: HostRuntime) {
    let alloc = rt.alloc();
    for (stop, left) in [
        (0, ["", "", "", ""]),
        (1, ["", "", "", ""]),
        (2, ["", "", "", ""]),
        (3, ["aa,", "", "aa,", ""]),
        (4, ["aa,", "aa,", "aa,", "aa,"]),
    ] {
        for pick in 0..4 {
            assert_eq!(rt;
                left_by(&rt, alloc, stop, pick).as_str(),
                left[pick as usize],
                "stop {stop}, pick {pick}"
            );
        }
    }
}

// A store with the records aa and bbcc, by hand.
const TWO: [u8; 30] = [
    0x54, 0x47, 0x53, 0x54, 0x4f, 0x52, 0x45, 0x31, // TGSTORE1
    1, 0, 0, 0, 0, 0, 0, 0, 1, 0xaa, // at 8
    1, 0, 0, 0, 0, 0, 0, 0, 2, 0xbb, 0xcc, // at 18
    0, // the closed gate at 29
];

/// What an opening of the bytes says: the records, or the place of the damage.
fn opened(rt: &impl Abort, alloc: Global, bytes: &[u8]) -> String {
    let mut disk = MemDisk::of(alloc, bytes).expect(rt, "memory");
    match Redo::open(alloc, &mut disk) {
        Ok((_, records)) => spelled(rt, alloc, records.as_slice()),
        Err(RedoFault::Damaged(place)) => {
            format!(in alloc; "damaged at {place}").expect(rt, "memory")
        }
        Err(fault) => panic!(rt; "{fault}"),
    }
}

/// Sees that an opening of the bytes says this.
fn is_said(rt: &impl Abort, alloc: Global, bytes: &[u8], said: &str) {
    assert_eq!(rt; opened(rt, alloc, bytes).as_str(), said, "{bytes:?}");
}

/// What an opening says of so many of the bytes of the two records.
fn cut_at(count: usize) -> &'static str {
    match count {
        0..=7 => "damaged at 0",
        8..=18 => "damaged at 8",
        _ => "damaged at 18",
    }
}

#[test]
fn a_store_cut_short_is_damaged_at_the_gate_that_lost_its_record(rt: HostRuntime) {
    let alloc = rt.alloc();
    is_said(&rt, alloc, &TWO, "aa,bbcc,");
    for (count, _) in TWO.iter().enumerate() {
        is_said(&rt, alloc, &TWO[..count], cut_at(count));
    }
}

// Bytes, and what an opening says of them.
const CASES: [(&[u8], &str); 10] = [
    // Another front.
    (b"TGSTORE2\0", "damaged at 0"),
    (b"tGSTORE1\0", "damaged at 0"),
    // A closed gate, which any byte but 1 is, and bytes without a meaning behind it.
    (b"TGSTORE1\0", ""),
    (b"TGSTORE1\xff\x01", ""),
    // An empty payload.
    (b"TGSTORE1\x01\0\0\0\0\0\0\0\0\0", ","),
    // Lengths that are too large by one, by much, and by so much that a sum with them would
    // wrap.
    (b"TGSTORE1\x01\0\0\0\0\0\0\0\x02\xaa\0", "damaged at 8"),
    (b"TGSTORE1\x01\x7f\0\0\0\0\0\0\0\xaa\0", "damaged at 8"),
    (
        b"TGSTORE1\x01\xff\xff\xff\xff\xff\xff\xff\xf6\xaa\0",
        "damaged at 8",
    ),
    (
        b"TGSTORE1\x01\xff\xff\xff\xff\xff\xff\xff\xff\xaa\0",
        "damaged at 8",
    ),
    // The second record alone is damaged.
    (
        b"TGSTORE1\x01\0\0\0\0\0\0\0\x01\xaa\x01\0\0\0\0\0\0\0\x01\xbb",
        "damaged at 18",
    ),
];

#[test]
fn bytes_and_what_an_opening_says_of_them(rt: HostRuntime) {
    for (bytes, said) in CASES {
        is_said(&rt, rt.alloc(), bytes, said);
    }
}

/// Adds the records aa and bbcc to a store without a record.
fn append_two(rt: &impl Abort, alloc: Global, disk: &mut MemDisk)
    requires { IsSettled (mem_state disk.old) }
{
    let (mut redo, _) = Redo::open(alloc, disk).expect(rt, "a store");
    assert_eq!(rt; redo.count(), 0);
    redo.append(disk, &[0xaa]).expect(rt, "a record");
    redo.append(disk, &[0xbb, 0xcc]).expect(rt, "a record");
    assert!(rt; redo.is_live());
    assert_eq!(rt; redo.count(), 2);
}

/// How many records an opening counts.
fn counted(rt: &impl Abort, alloc: Global, disk: &mut MemDisk) -> u64 {
    let (redo, _) = Redo::open(alloc, disk).expect(rt, "a store");
    redo.count()
}

#[test]
fn the_bytes_and_the_number_of_records_that_were_added(rt: HostRuntime) {
    let mut disk = created(&rt, rt.alloc());
    assert_eq!(rt; disk.bytes(), b"TGSTORE1\0".as_slice());
    append_two(&rt, rt.alloc(), &mut disk);
    assert_eq!(rt; disk.bytes(), TWO.as_slice());
    assert_eq!(rt; counted(&rt, rt.alloc(), &mut disk), 2);
}

/// Sees that this record stands at a gate, and the next gate behind it.
fn is_record(
    rt: &impl Abort,
    alloc: Global,
    disk: &mut MemDisk,
    gate: u64,
    payload: &[u8],
    next: u64,
) {
    let found = Redo::record_at(alloc, disk, gate).expect(rt, "a read");
    let (read, behind) = found.expect(rt, "a record");
    assert_eq!(rt; read.as_slice(), payload);
    assert_eq!(rt; behind, next);
}

#[test]
fn the_records_gate_by_gate(rt: HostRuntime) {
    let alloc = rt.alloc();
    let mut disk = MemDisk::of(alloc, &TWO).expect(&rt, "memory");
    is_record(&rt, alloc, &mut disk, 8, &[0xaa], 18);
    is_record(&rt, alloc, &mut disk, 18, &[0xbb, 0xcc], 29);
    let closed = Redo::record_at(alloc, &mut disk, 29).expect(&rt, "a read");
    assert!(rt; closed.is_none());
}

/// The place behind the only record of these bytes.
fn tail_of(rt: &impl Abort, alloc: Global, bytes: &[u8]) -> u64 {
    let mut disk = MemDisk::of(alloc, bytes).expect(rt, "memory");
    let (redo, _) = Redo::open(alloc, &mut disk).expect(rt, "a store");
    assert_eq!(rt; redo.count(), 1);
    redo.tail()
}

/// The records of a walk over the two, and the place where it ends.
fn rest_of(rt: &impl Abort, alloc: Global, mut walk: Walk) -> (String, u64) {
    let mut disk = MemDisk::of(alloc, &TWO).expect(rt, "memory");
    let rest = walk.rest(&mut disk).expect(rt, "a store");
    (spelled(rt, alloc, rest.as_slice()), walk.place())
}

#[test]
fn the_records_behind_the_tail_of_an_earlier_store(rt: HostRuntime) {
    let earlier = b"TGSTORE1\x01\0\0\0\0\0\0\0\x01\xaa\0";
    assert_eq!(rt; tail_of(&rt, rt.alloc(), earlier), 18);
    let (rest, place) = rest_of(&rt, rt.alloc(), Walk::behind(rt.alloc(), 18, 1));
    assert_eq!(rt; rest.as_str(), "bbcc,");
    assert_eq!(rt; place, 29);
}

/// More bytes than one call reads.
fn long_payload(rt: &impl Abort, alloc: Global) -> Vec<u8> {
    let mut payload = Vec::new(alloc);
    for number in 0..10_000u32 {
        payload.push((number % 251) as u8).expect(rt, "memory");
    }
    payload
}

fn append(rt: &impl Abort, alloc: Global, disk: &mut MemDisk, payload: &[u8])
    requires { IsSettled (mem_state disk.old) }
{
    let (mut redo, _) = Redo::open(alloc, disk).expect(rt, "a store");
    redo.append(disk, payload).expect(rt, "a record");
}

/// Sees that a store has this record alone.
fn has_one(rt: &impl Abort, alloc: Global, disk: &mut MemDisk, payload: &[u8]) {
    let (_, records) = Redo::open(alloc, disk).expect(rt, "a store");
    assert_eq!(rt; records.len(), 1);
    assert!(rt; records[0].as_slice() == payload);
}

#[test]
fn a_payload_of_more_bytes_than_one_call_reads(rt: HostRuntime) {
    let payload = long_payload(&rt, rt.alloc());
    let mut disk = created(&rt, rt.alloc());
    append(&rt, rt.alloc(), &mut disk, payload.as_slice());
    has_one(&rt, rt.alloc(), &mut disk, payload.as_slice());
}
