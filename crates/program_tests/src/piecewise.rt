//! A source that gives a byte a read and a sink that takes a byte a write, and calls of theirs that
//! fail.

use crate::runs::{Streams, ended, ends};
use byte_streams::MemSink;
use std::alloc::Global;
use std::process::Abort;

/// A connection is cut before the call on it is served, so the call runs on another.
const CUT: &str =
    r#"{"tables":[{"name":"t","columns":[["id","int"],["name","text"]]}],"clients":[{"requests":[{"calls":[[["insert","t",[1,"a"]]],[["commit"]]]}]}],"schedule":[["go",1],["serve",1],["go",1],["cut",1,0,0]]}"#;

/// A source and a sink that give and take so many bytes a call. The read and the write with these
/// numbers fail, and 0 is the number of none.
fn streams(most: usize, read: u64, write: u64) -> Streams {
    Streams {
        gives: most,
        takes: most,
        fail: [read, write, 0],
    }
}

/// The sink of a run that reports.
fn reported(rt: &impl Abort, alloc: Global, most: usize) -> MemSink {
    let (status, sink) = ended(rt, alloc, &["run"], CUT, streams(most, 0, 0));
    assert_eq!(rt; status.number(), 0);
    sink
}

#[test]
fn bytes_that_come_and_go_one_by_one_give_the_same_report(rt: HostRuntime) {
    let whole = reported(&rt, rt.alloc(), 65536);
    assert_eq!(rt; whole.bytes().len(), 1024);
    let sink = reported(&rt, rt.alloc(), 1);
    assert_eq!(rt; sink.bytes(), whole.bytes());
}

#[test]
fn nothing_is_written_where_one_of_the_first_reads_fails(rt: HostRuntime) {
    for read in 1..=3 {
        let end = ends(&rt, rt.alloc(), &["run"], CUT, streams(1, read, 0));
        assert_eq!(rt; end, (3, 0), "{read}");
    }
}

#[test]
fn what_stood_before_a_failing_write_is_held(rt: HostRuntime) {
    for held in 0..20u8 {
        let write = u64::from(held) + 1;
        let end = ends(&rt, rt.alloc(), &["run"], CUT, streams(1, 0, write));
        assert_eq!(rt; end, (4, usize::from(held)));
    }
}
