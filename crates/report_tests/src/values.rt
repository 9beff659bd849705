//! The text of a report, and its JSON value.

use crate::makers::empty;
use crate::rare::{RARE, rare};
use outage_schedule::Report;
use report_text::{report_bytes, report_of};
use serde_json::Value as Json;
use std::alloc::Global;
use std::process::Abort;

fn bytes_of(rt: &impl Abort, alloc: Global, report: &Report) -> Vec<u8> {
    report_bytes(alloc, report).expect(rt, "memory")
}

fn value_of(rt: &impl Abort, alloc: Global, report: &Report) -> Json {
    report_of(alloc, report).expect(rt, "memory")
}

/// Checks that the bytes are these texts, one behind the other.
fn are_parts(rt: &impl Abort, bytes: &[u8], parts: &[&str]) {
    let mut rest = bytes;
    for part in parts {
        let (front, back) = rest
            .split_at_checked(part.len())
            .expect(rt, "a longer text");
        assert!(rt; front == part.as_bytes(), "in {part}");
        rest = back;
    }
    assert!(rt; rest.is_empty());
}

/// Checks that these are the bytes of the value's text.
fn is_text_of(rt: &impl Abort, alloc: Global, bytes: &[u8], value: &Json) {
    let text = value.to_string(alloc).expect(rt, "memory");
    assert!(rt; text.as_bytes() == bytes);
}

#[test]
fn the_text_of_a_report(rt: HostRuntime) {
    let report = rare(&rt, rt.alloc());
    let bytes = bytes_of(&rt, rt.alloc(), &report);
    are_parts(&rt, &bytes, &RARE);
    let value = value_of(&rt, rt.alloc(), &report);
    is_text_of(&rt, rt.alloc(), &bytes, &value);
}

fn has(value: &Json, path: &str) -> bool {
    value.pointer(path).is_some()
}

fn number_at(value: &Json, path: &str) -> Option<i64> {
    value.pointer(path).and_then(Json::as_i64)
}

fn is_text_at(value: &Json, path: &str, text: &str) -> bool {
    value.pointer(path).and_then(Json::as_str) == Some(text)
}

#[test]
fn the_value_of_the_same_report(rt: HostRuntime) {
    let value = value_of(&rt, rt.alloc(), &rare(&rt, rt.alloc()));
    for (path, number) in [
        ("/forgotten", 3),
        ("/tables/0/1/0/0", i64::MIN),
        ("/tables/0/1/1/0", 7),
    ] {
        assert!(rt; number_at(&value, path) == Some(number), "{path}");
    }
    for (path, text) in [
        ("/notes/0/2", "idle"),
        ("/tables/0/0", "t"),
        ("/tables/0/1/0/1", ""),
        ("/tables/0/1/0/2/hex", ""),
        ("/tables/0/1/1/1", "a \"b\""),
        ("/tables/0/1/1/2/hex", "00ab"),
    ] {
        assert!(rt; is_text_at(&value, path, text), "{path}");
    }
}

#[test]
fn members_that_are_not_there(rt: HostRuntime) {
    let some = value_of(&rt, rt.alloc(), &rare(&rt, rt.alloc()));
    let none = value_of(&rt, rt.alloc(), &empty(rt.alloc()));
    for path in ["/image", "/forgotten"] {
        assert!(rt; has(&some, path) && !has(&none, path), "{path}");
    }
    for path in ["/tables/0/1/2", "/tables/1"] {
        assert!(rt; !has(&some, path), "{path}");
    }
    assert!(rt; has(&none, "/notes"));
}
