//! Values of RFC 8259, and places of faults by RFC 6901.

use json_form::{
    DocCode, DocFault, Flag, Integer, Members, Reader, TextWriter, Whole, array_at, fixed,
    head_from, json_from, object_with, octets_in,
};
use serde_json::Value;
use std::alloc::Global;
use std::process::Abort;

/// The number of the code and the place of a fault.
fn told<T>(read: &Result<T, DocFault>) -> (u8, &str) {
    match read {
        Ok(_) => (0, "read"),
        Err(DocFault::NoMemory) => (0, "no memory"),
        Err(DocFault::At { code, path }) => (code.number(), path.as_str()),
    }
}

/// Sees that what was read has this code, or none, and this place.
fn is_told<T: Drop>(rt: &impl Abort, read: Result<T, DocFault>, number: u8, place: &str) {
    assert_eq!(rt; told(&read), (number, place));
}

/// Sees that what was read has this code, or none.
fn has_code<T: Drop>(rt: &impl Abort, read: Result<T, DocFault>, number: u8) {
    assert_eq!(rt; told(&read).0, number);
}

fn parsed(rt: &impl Abort, alloc: Global, bytes: &[u8]) -> Value {
    json_from(alloc, bytes, 256).expect(rt, "JSON")
}

const BYTES: [(&[u8], u8); 6] = [
    (b"\"\\ud800\"", 2),
    (b"1e400", 2),
    (&[34, 255, 34], 2),
    (b"1", 0),
    (b"", 2),
    (&[32; 257], 1),
];

#[test]
fn bytes_are_json_or_not(rt: HostRuntime) {
    for (bytes, number) in BYTES {
        has_code(&rt, json_from(rt.alloc(), bytes, 256), number);
    }
    let twice = parsed(&rt, rt.alloc(), b"{\"clients\":1,\"\\u0063lients\":2}");
    assert_eq!(rt; twice.get("clients").and_then(Value::as_u64), Some(2));
}

/// As many opened arrays, and as many closed ones.
fn nested(rt: &impl Abort, alloc: Global, depth: u8) -> Vec<u8> {
    let mut bytes = Vec::new(alloc);
    for bracket in [b'[', b']'] {
        for _ in 0..depth {
            bytes.push(bracket).expect(rt, "memory");
        }
    }
    bytes
}

#[test]
fn arrays_nest_127_deep(rt: HostRuntime) {
    for (depth, number) in [(127, 0), (128, 2)] {
        let bytes = nested(&rt, rt.alloc(), depth);
        has_code(&rt, json_from(rt.alloc(), bytes.as_slice(), 256), number);
    }
}

/// Numbers, and what is said of each as one from 2 to 3 and as an integer.
const NUMBERS: [(&[u8], u8, u8); 10] = [
    (b"1.0", 3, 3),
    (b"1e3", 3, 3),
    (b"-0", 3, 3),
    (b"18446744073709551616", 3, 3),
    (b"18446744073709551615", 6, 6),
    (b"-9223372036854775808", 6, 0),
    (b"1", 6, 0),
    (b"2", 0, 0),
    (b"3", 0, 0),
    (b"4", 6, 0),
];

#[test]
fn whole_numbers_are_told_apart(rt: HostRuntime) {
    let alloc = rt.alloc();
    let few = Whole { low: 2, high: 3 };
    for (bytes, as_few, as_integer) in NUMBERS {
        has_code(&rt, few.read(alloc, parsed(&rt, alloc, bytes)), as_few);
        has_code(
            &rt,
            Integer.read(alloc, parsed(&rt, alloc, bytes)),
            as_integer,
        );
    }
}

#[test]
fn pointers_escape_names(rt: HostRuntime) {
    for (name, place) in [
        ("", "/"),
        ("a/b", "/a~1b"),
        ("c%d", "/c%d"),
        (" ", "/ "),
        ("m~n", "/m~0n"),
        ("~1", "/~01"),
    ] {
        let read: Result<(), DocFault> = Err(DocFault::at_member(
            rt.alloc(),
            name,
            DocCode::Missing,
        ));
        is_told(&rt, read, 4, place);
    }
}

const OBJECT: &[u8] = b"{\"m~n\":true,\"a/b\":[5,6,70]}";

/// Sees whether the member `m~n` is set, where it is still there.
fn is_flag(rt: &impl Abort, alloc: Global, members: &mut Members, wanted: bool) {
    let flag = members.optional(alloc, "m~n", &Flag, false);
    assert!(rt; flag.expect(rt, "a flag") == wanted);
}

#[test]
fn members_are_asked_for(rt: HostRuntime) {
    let alloc = rt.alloc();
    let value = parsed(&rt, alloc, OBJECT);
    is_told(&rt, object_with(alloc, value, &["m~n"]), 5, "/a~1b");
    let value = parsed(&rt, alloc, OBJECT);
    let mut members = object_with(alloc, value, &["m~n", "a/b", "c"]).expect(&rt, "an object");
    is_told(&rt, members.required(alloc, "c"), 4, "/c");
    is_flag(&rt, alloc, &mut members, true);
    is_flag(&rt, alloc, &mut members, false);
    let list = members.required(alloc, "a/b").expect(&rt, "a list");
    let few = Whole::new(0, 9);
    is_told(&rt, array_at(alloc, "a/b", list, 0, 9, &few), 6, "/a~1b/2");
}

const ITEMS: &[u8] = b"[\"int\",\"0aFF\",7]";

/// Sees that the first item is one of two words, and none of one.
fn is_word(rt: &impl Abort, alloc: Global, value: &Value) {
    let words = [("text", 1u8), ("int", 2)];
    assert_eq!(rt; head_from(alloc, value, &words).expect(rt, "a word"), 2);
    is_told(rt, head_from(alloc, value, &[("text", 1u8)]), 5, "");
}

#[test]
fn items_stand_at_positions(rt: HostRuntime) {
    let alloc = rt.alloc();
    is_told(&rt, fixed(alloc, parsed(&rt, alloc, ITEMS), 2), 3, "");
    is_word(&rt, alloc, &parsed(&rt, alloc, ITEMS));
    let mut parts = fixed(alloc, parsed(&rt, alloc, ITEMS), 3).expect(&rt, "three items");
    is_told(&rt, parts.read(alloc, 1, &Flag), 3, "/1");
    is_told(&rt, parts.read(alloc, 2, &Whole::new(0, 6)), 6, "/2");
}

#[test]
fn octets_are_pairs_of_digits(rt: HostRuntime) {
    for (text, number) in [("int", 9), ("0aF", 9), ("0aFF", 0), ("", 0)] {
        has_code(&rt, octets_in(rt.alloc(), text), number);
    }
    let octets = octets_in(rt.alloc(), "0aFF").expect(&rt, "octets");
    assert_eq!(rt; octets.as_slice(), [10, 255].as_slice());
}

/// Writes an array.
fn write_array(rt: &impl Abort, out: &mut TextWriter) {
    out.begin_array().expect(rt, "memory");
    out.integer(-943).expect(rt, "memory");
    out.null().expect(rt, "memory");
    out.flag(false).expect(rt, "memory");
    out.end_array().expect(rt, "memory");
}

/// Writes an object of an array and of octets.
fn write_object(rt: &impl Abort, alloc: Global, out: &mut TextWriter) {
    out.begin_object().expect(rt, "memory");
    out.name("IDs").expect(rt, "memory");
    write_array(rt, out);
    out.name("Id").expect(rt, "memory");
    out.octets(alloc, &[0, 171]).expect(rt, "memory");
    out.end_object().expect(rt, "memory");
}

#[test]
fn a_text_is_written_piece_by_piece(rt: HostRuntime) {
    let mut out = TextWriter::new(rt.alloc());
    write_object(&rt, rt.alloc(), &mut out);
    let bytes = out.into_bytes();
    let expected = b"{\"IDs\":[-943,null,false],\"Id\":\"00ab\"}";
    assert_eq!(rt; bytes.as_slice(), expected.as_slice());
}
