//! Limits on lengths, and on what is counted over the whole document.

use crate::makers::{is_told, read, told};
use doc_reader::DOCUMENT_LIMIT;
use std::alloc::Global;
use std::process::Abort;

fn add(rt: &impl Abort, text: &mut String, part: &str) {
    text.push_str(part).expect(rt, "memory");
}

/// Adds a comma between items: before each but the first.
fn add_comma(rt: &impl Abort, text: &mut String, at: usize) {
    if at > 0 {
        add(rt, text, ",");
    }
}

/// The part so often, with commas between.
fn repeated(rt: &impl Abort, alloc: Global, part: &str, count: usize) -> String {
    let mut text = String::new(alloc);
    for at in 0..count {
        add_comma(rt, &mut text, at);
        add(rt, &mut text, part);
    }
    text
}

/// The numbers below `count` between two texts, with commas between.
fn numbered(rt: &impl Abort, alloc: Global, around: [&str; 2], count: usize) -> String {
    let [before, after] = around;
    let mut text = String::new(alloc);
    for at in 0..count {
        add_comma(rt, &mut text, at);
        write!(text, "{before}{at}{after}").expect(rt, "memory");
    }
    text
}

/// A list of a document: what stands around it, its item, how often it stands there, and what is
/// told.
type List = ([&'static str; 2], &'static str, usize, (u8, &'static str));

/// Sees what is told of a part between two texts.
fn is_told_of(rt: &impl Abort, alloc: Global, around: [&str; 2], part: &str, wanted: (u8, &str)) {
    let [before, after] = around;
    let (code, path) = wanted;
    let text = format!(in alloc; "{before}{part}{after}").expect(rt, "memory");
    is_told(rt, alloc, text.as_str(), code, path);
}

const CLIENTS: [&str; 2] = [r#"{"clients":["#, "]}"];

const EVENTS: [&str; 2] = [r#"{"clients":[],"schedule":["#, "]}"];

const CALLS: [&str; 2] = [r#"{"clients":[{"requests":[{"calls":["#, "]}]}]}"];

const CLIENT: &str = r#"{"requests":[]}"#;

const UP: &str = r#"["up"]"#;

const CALL: &str = r#"[["commit"]]"#;

const LISTS: [List; 6] = [
    (CLIENTS, CLIENT, 64, (0, "")),
    (CLIENTS, CLIENT, 65, (6, "/clients")),
    (EVENTS, UP, 100_000, (0, "")),
    (EVENTS, UP, 100_001, (6, "/schedule")),
    (CALLS, CALL, 1_024, (0, "")),
    (CALLS, CALL, 1_025, (6, "/clients/0/requests/0/calls")),
];

#[test]
fn lists_have_their_limits(rt: HostRuntime) {
    let alloc = rt.alloc();
    for (around, part, count, wanted) in LISTS {
        let text = repeated(&rt, alloc, part, count);
        is_told_of(&rt, alloc, around, text.as_str(), wanted);
    }
}

/// The same of a list whose items are numbered: each number stands between two texts.
type NumberedList = (
    [&'static str; 2],
    [&'static str; 2],
    usize,
    (u8, &'static str),
);

const TABLES: [&str; 2] = [r#"{"clients":[],"tables":["#, "]}"];

const TABLE: [&str; 2] = [r#"{"name":"t"#, r#"","columns":[["id","int"]]}"#];

const SEQUENCES: [&str; 2] = [r#"{"clients":[],"sequences":["#, "]}"];

const SEQUENCE: [&str; 2] = [r#"{"name":"s"#, r#"","start":1}"#];

const ROWS: [&str; 2] = [
    r#"{"clients":[],"tables":[{"name":"t","columns":[["id","int"]],"rows":["#,
    "]}]}",
];

const ROW: [&str; 2] = ["[", "]"];

const KEYS: [NumberedList; 6] = [
    (TABLES, TABLE, 32, (0, "")),
    (TABLES, TABLE, 33, (6, "/tables")),
    (SEQUENCES, SEQUENCE, 32, (0, "")),
    (SEQUENCES, SEQUENCE, 33, (6, "/sequences")),
    (ROWS, ROW, 10_000, (0, "")),
    (ROWS, ROW, 10_001, (6, "/tables/0/rows")),
];

#[test]
fn names_and_keys_have_their_limits(rt: HostRuntime) {
    let alloc = rt.alloc();
    for (around, part, count, wanted) in KEYS {
        let text = numbered(&rt, alloc, part, count);
        is_told_of(&rt, alloc, around, text.as_str(), wanted);
    }
}

/// A document of a request with 1,024 calls, one with so many, and these events.
fn two_requests(rt: &impl Abort, alloc: Global, count: usize, events: &str) -> String {
    let mut text = String::new(alloc);
    add(rt, &mut text, r#"{"clients":[{"requests":[{"calls":["#);
    add(rt, &mut text, repeated(rt, alloc, CALL, 1_024).as_str());
    add(rt, &mut text, r#"]},{"calls":["#);
    add(rt, &mut text, repeated(rt, alloc, CALL, count).as_str());
    add(rt, &mut text, r#"]}]}],"schedule":["#);
    add(rt, &mut text, events);
    add(rt, &mut text, "]}");
    text
}

const OUTSIDE: &str = r#"["outside",[[["commit"]]]]"#;

const OUTSIDE_AND_PAUSE: &str = r#"["outside",[[["commit"]]]],["pause"]"#;

#[test]
fn calls_are_counted_over_the_whole_document(rt: HostRuntime) {
    for (count, events, code, path) in [
        (1_024, "", 0, ""),
        (1_024, OUTSIDE, 6, ""),
        (1_023, OUTSIDE, 0, ""),
        (1_024, OUTSIDE_AND_PAUSE, 5, "/schedule/1"),
    ] {
        let text = two_requests(&rt, rt.alloc(), count, events);
        is_told(&rt, rt.alloc(), text.as_str(), code, path);
    }
}

/// A document with blanks behind it, of so many bytes.
fn padded(rt: &impl Abort, alloc: Global, length: usize) -> Vec<u8> {
    let mut bytes = br#"{"clients":[]}"#.to_vec(alloc).expect(rt, "memory");
    bytes.resize(length, b' ').expect(rt, "memory");
    bytes
}

#[test]
fn a_document_has_at_most_8_mib(rt: HostRuntime) {
    for (length, code) in [(DOCUMENT_LIMIT, 0), (DOCUMENT_LIMIT + 1, 1)] {
        let read = read(rt.alloc(), &padded(&rt, rt.alloc(), length));
        assert_eq!(rt; told(&read), (code, ""));
    }
}
