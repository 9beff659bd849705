//! Images made by hand, and what a reading says of them.

use crate::opening::{no_tables, open_with};
use commit_log::{Journal, Log, LogFault};
use disk_model::MemDisk;
use std::alloc::Global;
use std::process::Abort;

// A store over a base without tables and sequences, opened once.
const OPENED: [u8; 71] = [
    0x54, 0x47, 0x53, 0x54, 0x4f, 0x52, 0x45, 0x31, // TGSTORE1
    1, 0, 0, 0, 0, 0, 0, 0, 17, // at 8
    1, 0, 0, 0, 0, 0, 0, 0, 0, 0, 0, 0, 0, 0, 0, 0, 0, // two empty lists
    1, 0, 0, 0, 0, 0, 0, 0, 9, // at 34
    7, 0, 0, 0, 0, 0, 0, 0, 0, // the horizon 0
    1, 0, 0, 0, 0, 0, 0, 0, 9, // at 52
    2, 0, 0, 0, 0, 0, 0, 0, 1, // the first opening
    0, // the closed gate at 70
];

// The same of format 1, which has no horizon.
const OPENED_IN_FORMAT_1: [u8; 53] = [
    0x54, 0x47, 0x53, 0x54, 0x4f, 0x52, 0x45, 0x31, // TGSTORE1
    1, 0, 0, 0, 0, 0, 0, 0, 17, // at 8
    1, 0, 0, 0, 0, 0, 0, 0, 0, 0, 0, 0, 0, 0, 0, 0, 0, // two empty lists
    1, 0, 0, 0, 0, 0, 0, 0, 9, // at 34
    2, 0, 0, 0, 0, 0, 0, 0, 1, // the first opening
    0, // the closed gate at 52
];

// The same, opened a second time with the horizon 0.
const OPENED_TWICE: [u8; 89] = [
    0x54, 0x47, 0x53, 0x54, 0x4f, 0x52, 0x45, 0x31, // TGSTORE1
    1, 0, 0, 0, 0, 0, 0, 0, 17, // at 8
    1, 0, 0, 0, 0, 0, 0, 0, 0, 0, 0, 0, 0, 0, 0, 0, 0, // two empty lists
    1, 0, 0, 0, 0, 0, 0, 0, 9, // at 34
    2, 0, 0, 0, 0, 0, 0, 0, 1, // the first opening
    1, 0, 0, 0, 0, 0, 0, 0, 9, // at 52
    7, 0, 0, 0, 0, 0, 0, 0, 0, // the horizon 0
    1, 0, 0, 0, 0, 0, 0, 0, 9, // at 70
    2, 0, 0, 0, 0, 0, 0, 0, 2, // the second opening
    0, // the closed gate at 88
];

/// What is said of a journal: the last opening, the number of entries, and a horizon that is not 0.
fn of_journal(rt: &impl Abort, alloc: Global, journal: &Journal) -> String {
    let incarnation = journal.incarnation;
    let count = journal.entries.len();
    let horizon = journal.horizon;
    let mut text = format!(in alloc; "opened {incarnation}, entries {count}").expect(rt, "memory");
    if horizon > 0 {
        write!(text, ", horizon {horizon}").expect(rt, "memory");
    }
    text
}

/// What a reading of the bytes says: what the journal has, or the place of the damage.
fn said(rt: &impl Abort, alloc: Global, bytes: &[u8]) -> String {
    let mut disk = MemDisk::of(alloc, bytes).expect(rt, "memory");
    match Log::read(alloc, &mut disk) {
        Ok(journal) => of_journal(rt, alloc, &journal),
        Err(LogFault::Damaged(place)) => {
            format!(in alloc; "damaged at {place}").expect(rt, "memory")
        }
        Err(fault) => panic!(rt; "{fault}"),
    }
}

/// Sees that a reading of the bytes says this.
fn is_said(rt: &impl Abort, alloc: Global, bytes: &[u8], wanted: &str) {
    assert_eq!(rt; said(rt, alloc, bytes).as_str(), wanted, "{bytes:?}");
}

#[test]
fn the_bytes_of_a_store_that_was_made_and_opened(rt: HostRuntime) {
    let alloc = rt.alloc();
    let mut disk = MemDisk::new(alloc);
    Log::create(alloc, &mut disk, &no_tables(alloc)).expect(&rt, "a store");
    is_said(&rt, alloc, disk.bytes(), "opened 0, entries 0");
    let (log, journal) = Log::open(alloc, &mut disk, 0).expect(&rt, "a store");
    assert!(rt; log.is_live());
    assert_eq!(rt; log.count(), 3);
    assert_eq!(rt; journal.incarnation, 1);
    assert_eq!(rt; disk.bytes(), OPENED.as_slice());
}

#[test]
fn an_opening_gives_a_store_of_format_1_a_horizon(rt: HostRuntime) {
    let alloc = rt.alloc();
    let mut disk = MemDisk::of(alloc, &OPENED_IN_FORMAT_1).expect(&rt, "memory");
    let opened = open_with(alloc, &mut disk, 0).expect(&rt, "a store");
    assert!(rt; opened.is_some_and(|(log, journal)| log.count() == 4 && journal.horizon == 0));
    assert_eq!(rt; disk.bytes(), OPENED_TWICE.as_slice());
}

/// What a reading says of so many bytes of the store of format 1.
fn cut_at(count: usize) -> &'static str {
    match count {
        0..=7 => "damaged at 0",
        8..=34 => "damaged at 8",
        _ => "damaged at 34",
    }
}

#[test]
fn each_part_of_a_store_is_damaged_at_the_gate_that_lost_its_record(rt: HostRuntime) {
    let alloc = rt.alloc();
    is_said(&rt, alloc, &OPENED_IN_FORMAT_1, "opened 1, entries 0");
    for (count, _) in OPENED_IN_FORMAT_1.iter().enumerate() {
        is_said(&rt, alloc, &OPENED_IN_FORMAT_1[..count], cut_at(count));
    }
}

/// What a reading says where the byte at this place is one more.
fn expected(place: usize) -> &'static str {
    match place {
        // The magic.
        0..=7 => "damaged at 0",
        // The first gate closed, its length, the tag, and the counts of two lists.
        8..=33 => "damaged at 8",
        // The second gate closed: the store was never opened.
        34 => "opened 0, entries 0",
        // Its length, and its tag.
        35..=43 => "damaged at 34",
        // Another incarnation.
        44 => "opened 72057594037927937, entries 0",
        45 => "opened 281474976710657, entries 0",
        46 => "opened 1099511627777, entries 0",
        47 => "opened 4294967297, entries 0",
        48 => "opened 16777217, entries 0",
        49 => "opened 65537, entries 0",
        50 => "opened 257, entries 0",
        51 => "opened 2, entries 0",
        // The last gate open, with nothing behind it.
        _ => "damaged at 52",
    }
}

#[test]
fn each_byte_of_a_store_changed(rt: HostRuntime) {
    for (place, byte) in OPENED_IN_FORMAT_1.iter().enumerate() {
        let mut bytes = OPENED_IN_FORMAT_1;
        bytes[place] = byte.wrapping_add(1);
        is_said(&rt, rt.alloc(), &bytes, expected(place));
    }
}

fn push_number(rt: &impl Abort, out: &mut Vec<u8>, number: u8) {
    out.extend_from_slice(&[0, 0, 0, 0, 0, 0, 0, number])
        .expect(rt, "memory");
}

/// The value of a digit, where a letter is one too: a is 10, g is 16.
fn digit_of(byte: u8) -> u8 {
    if byte.is_ascii_digit() {
        byte.wrapping_sub(b'0')
    } else {
        byte.wrapping_sub(b'a').wrapping_add(10)
    }
}

/// Adds what a digit or a letter describes: a number, a byte, or a name or a text of that letter.
fn push_described(rt: &impl Abort, out: &mut Vec<u8>, byte: u8, is_number: bool) {
    if is_number {
        push_number(rt, out, digit_of(byte));
    } else if byte.is_ascii_digit() {
        out.push(digit_of(byte)).expect(rt, "memory");
    } else {
        push_number(rt, out, 1);
        out.push(byte).expect(rt, "memory");
    }
}

/// The bytes of a record that a text describes: a digit is a byte, a digit behind a point is a
/// number of eight bytes (there a letter is a digit too), a letter is a name or a text of that
/// letter, and a dash is nothing.
fn bytes_of(rt: &impl Abort, alloc: Global, text: &str) -> Vec<u8> {
    let mut out = Vec::new(alloc);
    let mut is_number = false;
    for byte in text.as_bytes() {
        match byte {
            b'.' => is_number = true,
            b'-' => {}
            _ => {
                push_described(rt, &mut out, *byte, is_number);
                is_number = false;
            }
        }
    }
    out
}

/// Adds an open gate, a payload's length and the payload.
fn push_record(rt: &impl Abort, out: &mut Vec<u8>, payload: &[u8]) {
    out.push(1).expect(rt, "memory");
    out.extend_from_slice(&(payload.len() as u64).to_be_bytes())
        .expect(rt, "memory");
    out.extend_from_slice(payload).expect(rt, "memory");
}

/// A store of records that stand apart in a text, with this gate behind them.
fn store_of(rt: &impl Abort, alloc: Global, records: &str, gate: u8) -> Vec<u8> {
    let mut bytes = b"TGSTORE1".to_vec(alloc).expect(rt, "memory");
    for record in records.split_whitespace() {
        push_record(rt, &mut bytes, bytes_of(rt, alloc, record).as_slice());
    }
    bytes.push(gate).expect(rt, "memory");
    bytes
}

// Stores, each by its records and by what a reading says; and lines that say what they are.
const STORES: &str = "\
 => damaged at 8
1.0.0 => opened 0, entries 0
1.0.00 => damaged at 8
2.1 => damaged at 8
- => damaged at 8
1.0.0 - => damaged at 34
1.0.0 1.0.0 => damaged at 34
# incarnations rise, and the first may be 0
1.0.0 2.0 => opened 0, entries 0
1.0.0 2.0 2.0 => damaged at 52
1.0.0 2.1 2.3 => opened 3, entries 0
1.0.0 2.3 2.1 => damaged at 52
1.0.0 2.10 => damaged at 34
# a commit needs an opening that is not below its incarnation, and its session's next number
1.0.0 3.1.1.01.0.0.0 => damaged at 34
1.0.0 2.1 3.1.1.01.0.0.0 => opened 1, entries 1
1.0.0 2.3 3.1.1.01.0.0.0 => opened 3, entries 1
1.0.0 2.1 3.2.1.01.0.0.0 => damaged at 52
1.0.0 2.1 3.1.1.01.0.0.0 3.1.1.10.0.0.0 => opened 1, entries 2
1.0.0 2.1 3.1.1.01.0.0.0 3.1.2.01.0.0.0 => opened 1, entries 2
1.0.0 2.1 3.1.1.01.0.0.0 3.1.1.01.0.0.0 => damaged at 111
1.0.0 2.1 3.1.1.11.0.0.0 => damaged at 52
1.0.0 2.1 3.1.1.02.0.0.0 => damaged at 52
# tags without a record
1.0.0 2.1 0 => damaged at 52
1.0.0 2.1 8k => damaged at 52
# an identifier of any incarnation is blocked once, where its number is its session's next, and then commits no more
1.0.0 4.1.1.0 => opened 0, entries 0
1.0.0 2.1 4.9.1.0 4.1.1.0 4.1.2.0 => opened 1, entries 0
1.0.0 2.1 4.1.1.0 4.1.1.0 => damaged at 86
1.0.0 2.1 4.1.1.1 => damaged at 52
1.0.0 2.1 4.1.1.00 => damaged at 52
1.0.0 2.1 3.1.1.01.0.0.0 4.1.1.0 => damaged at 111
1.0.0 2.1 3.1.1.01.0.0.0 4.1.1.1 => opened 1, entries 1
1.0.0 2.1 4.1.1.0 3.1.1.01.0.0.0 => damaged at 86
# horizons rise, the first may be 0, and none is above the incarnation that comes next
7.0 => damaged at 8
1.0.0 7.0 => opened 0, entries 0
1.0.0 7.1 => opened 0, entries 0, horizon 1
1.0.0 7.2 => damaged at 34
1.0.0 7.0 7.0 => damaged at 52
1.0.0 7.0 7.1 7.1 => damaged at 70
1.0.0 2.3 7.4 => opened 3, entries 0, horizon 4
1.0.0 2.3 7.5 => damaged at 52
1.0.0 2.3 7.2 7.1 => damaged at 70
1.0.0 2.1 7k => damaged at 52
# an identifier below the horizon neither commits nor is blocked, and the others go on
1.0.0 2.1 7.2 2.2 3.1.1.01.0.0.0 => damaged at 88
1.0.0 2.1 7.2 4.1.1.0 => damaged at 70
1.0.0 2.1 7.2 4.2.1.0 => opened 1, entries 0, horizon 2
1.0.0 2.1 3.1.1.01.0.0.0 7.1 3.1.1.01.0.0.0 => damaged at 129
1.0.0 2.1 3.1.1.01.0.0.0 7.1 3.1.1.11.0.0.0 => opened 1, entries 2, horizon 1
1.0.0 2.1 3.1.1.01.0.0.0 7.2 2.2 3.2.1.01.0.0.0 => opened 2, entries 2, horizon 2
# the values of a sequence s that begins at 1 are set aside by sixteen, and those of a sequence t at 0
1.0.1s.10 5s.g 5s.w => opened 0, entries 0
1.0.1s.10 5s.h => damaged at 52
1.0.1s.10 5s.w => damaged at 52
1.0.1s.10 5s.g 5s.g => damaged at 79
1.0.1s.10 5t.g => damaged at 52
1.0.2s.10t.00 5s.g 5t.f 5s.w => opened 0, entries 0
1.0.2s.10t.00 5s.g 5t.v => damaged at 97
# a line of text comes anywhere behind the base
6k => damaged at 8
1.0.0 6k 2.1 6k 6k => opened 1, entries 0
# a base with a table t, a column k of integers, a row of key 5 and a sequence s
1.1t.1k1.1.11.5.1s.91 => opened 0, entries 0
1.1t.1k1.2.11.5.11.6.0 => opened 0, entries 0
# a key, a column, a table and a sequence twice
1.1t.1k1.2.11.5.11.5.0 => damaged at 8
1.1t.2k1k1.0.0 => damaged at 8
1.2t.1k1.0t.1k1.0.0 => damaged at 8
1.0.2s.01s.01 => damaged at 8
# no column, no value, and a value of another kind
1.1t.0.0.0 => damaged at 8
1.1t.1k1.1.0.0 => damaged at 8
1.1t.1k1.1.12k.0 => damaged at 8
# a row of key 5 written, and taken away
1.1t.1k1.1.11.5.1s.91 2.1 3.1.1.01.0.0.1t1.51.11.5 => opened 1, entries 1
1.1t.1k1.1.11.5.1s.91 2.1 3.1.1.01.0.0.1t1.50 => opened 1, entries 1
# no such table, a key of another kind, another key, two values, a second write that does not fit
1.1t.1k1.1.11.5.1s.91 2.1 3.1.1.01.0.0.1u1.50 => damaged at 122
1.1t.1k1.1.11.5.1s.91 2.1 3.1.1.01.0.0.1t2k0 => damaged at 122
1.1t.1k1.1.11.5.1s.91 2.1 3.1.1.01.0.0.1t1.51.11.6 => damaged at 122
1.1t.1k1.1.11.5.1s.91 2.1 3.1.1.01.0.0.1t1.51.21.51.5 => damaged at 122
1.1t.1k1.1.11.5.1s.91 2.1 3.1.1.01.0.0.2t1.50t2k0 => damaged at 122
";

/// Sees what a reading says of the store of a line.
fn is_so(rt: &impl Abort, alloc: Global, line: &str) {
    if let Some((records, wanted)) = line.split_once(" => ") {
        let bytes = store_of(rt, alloc, records, 0);
        assert_eq!(rt;
            said(rt, alloc, bytes.as_slice()).as_str(),
            wanted,
            "{line}"
        );
    }
}

#[test]
fn records_and_what_a_reading_says_of_them(rt: HostRuntime) {
    for line in STORES.lines() {
        is_so(&rt, rt.alloc(), line);
    }
}

/// A store with a line of so many bytes.
fn with_line(rt: &impl Abort, alloc: Global, length: u8) -> Vec<u8> {
    let mut bytes = store_of(rt, alloc, "1.0.0", 1);
    push_number(rt, &mut bytes, length.wrapping_add(9));
    bytes.push(6).expect(rt, "memory");
    push_number(rt, &mut bytes, length);
    for _ in 0..length {
        bytes.push(b'k').expect(rt, "memory");
    }
    bytes.push(0).expect(rt, "memory");
    bytes
}

/// A store with a record whose length is eight bytes ff.
fn with_long_record(rt: &impl Abort, alloc: Global) -> Vec<u8> {
    let mut bytes = store_of(rt, alloc, "1.0.0", 1);
    bytes.extend_from_slice(&[0xff; 8]).expect(rt, "memory");
    bytes
        .extend_from_slice(&[2, 0, 0, 0, 0, 0, 0, 0, 1, 0])
        .expect(rt, "memory");
    bytes
}

#[test]
fn the_first_damage_is_told(rt: HostRuntime) {
    let alloc = rt.alloc();
    // An open gate with nothing behind it, behind records that may come next and behind one that
    // may not.
    is_said(
        &rt,
        alloc,
        &store_of(&rt, alloc, "1.0.0 2.1", 1),
        "damaged at 52",
    );
    is_said(
        &rt,
        alloc,
        &store_of(&rt, alloc, "1.0.0 4", 1),
        "damaged at 34",
    );
    is_said(
        &rt,
        alloc,
        &with_line(&rt, alloc, 64),
        "opened 0, entries 0",
    );
    is_said(&rt, alloc, &with_line(&rt, alloc, 65), "damaged at 34");
    is_said(&rt, alloc, &with_long_record(&rt, alloc), "damaged at 34");
}
