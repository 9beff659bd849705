//! The line on standard error of each end without an answer.

use crate::runs::{Streams, ended};
use program_ends::{Line, Status};
use std::alloc::Global;
use std::process::Abort;

/// Sees the line of a status.
fn has_line(rt: &impl Abort, alloc: Global, status: &Status, line: &str) {
    let told = Line(status).to_string(alloc).expect(rt, "memory");
    assert_eq!(rt; told.as_str(), line);
}

/// Sees the line of a run's end. Its source gives five bytes a call, and its sink takes five.
fn ends_with(rt: &impl Abort, alloc: Global, word: &str, text: &str, line: &str) {
    let streams = Streams {
        gives: 5,
        takes: 5,
        fail: [0, 0, 0],
    };
    let (status, _) = ended(rt, alloc, &[word], text, streams);
    has_line(rt, alloc, &status, line);
}

const CUT_OFF: &str = r#"{"clients":["#;

#[test]
fn each_end_without_a_report_has_its_line(rt: HostRuntime) {
    for (status, line) in [
        (Status::NoMemory, "continuity: no memory\n"),
        (Status::Words, "continuity: words\n"),
        (Status::Read, "continuity: read\n"),
        (Status::Write, "continuity: write\n"),
    ] {
        has_line(&rt, rt.alloc(), &status, line);
    }
    ends_with(
        &rt,
        rt.alloc(),
        "run",
        CUT_OFF,
        "continuity: document: 2 at \n",
    );
}

const WITH_ANOTHER_TABLE: &str =
    r#"{"document":{"clients":[]},"report":{"alerts":[],"blocked":[],"clients":[],"entries":[],"notes":[],"served":[],"tables":[["t",[]]]}}"#;

#[test]
fn a_denied_report_has_its_line(rt: HostRuntime) {
    let line = "continuity: check: serial at /tables\n";
    ends_with(&rt, rt.alloc(), "check", WITH_ANOTHER_TABLE, line);
}
