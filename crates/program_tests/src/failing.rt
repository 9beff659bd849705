use crate::runs::{Streams, ends};
use std::alloc::Global;
use std::process::Abort;

const INSERTED: &str =
    r#"{"clients":[{"requests":[{"calls":[[["insert","t",[1,"a"]]],[["commit"]]]}]}],"tables":[{"name":"t","columns":[["id","int"],["name","text"]]}]}"#;

/// Sees how a run ends whose read, write or write of nothing with this number fails, and how many
/// bytes its sink then holds. A source gives seven bytes a call, and a sink takes five.
fn ends_so(rt: &impl Abort, alloc: Global, words: &[&str], fail: [u64; 3], wanted: (u8, usize)) {
    let streams = Streams {
        gives: 7,
        takes: 5,
        fail,
    };
    assert_eq!(rt;
        ends(rt, alloc, words, INSERTED, streams),
        wanted,
        "{words:?}, {fail:?}"
    );
}

/// Words, the numbers of the calls that fail, and the end.
const FAILING: [(&[&str], [u64; 3], (u8, usize)); 8] = [
    (&["fly"], [1, 0, 0], (2, 0)),
    (&[], [1, 0, 0], (2, 0)),
    (&["run", "now"], [1, 0, 0], (2, 0)),
    (&["run"], [1, 0, 0], (3, 0)),
    (&["run"], [3, 0, 0], (3, 0)),
    (&["run"], [0, 1, 0], (4, 0)),
    (&["run"], [0, 0, 1], (4, 0)),
    (&["run"], [0, 3, 0], (4, 10)),
];

#[test]
fn words_reads_and_writes_that_fail_have_their_status(rt: HostRuntime) {
    for (words, fail, wanted) in FAILING {
        ends_so(&rt, rt.alloc(), words, fail, wanted);
    }
}

/// A source whose first read fails tells of a read, so with status 2 nothing was read.
fn are_refused_unread(rt: &impl Abort, alloc: Global, lines: &[&[&str]]) {
    for words in lines {
        ends_so(rt, alloc, words, [1, 0, 0], (2, 0));
    }
}

const BESIDE_A_COMMAND: [&[&str]; 6] = [
    &["", "run"],
    &["help", "run"],
    &["run", ""],
    &["run", "now"],
    &["run", "run"],
    &["run", "help"],
];

#[test]
fn words_beside_a_command_are_refused_unread(rt: HostRuntime) {
    are_refused_unread(&rt, rt.alloc(), &BESIDE_A_COMMAND);
}

const WITH_A_HYPHEN: [&[&str]; 8] = [
    &["-"],
    &["-h"],
    &["--help"],
    &["-V"],
    &["--version"],
    &["--", "run"],
    &["run", "--"],
    &["run", "--help"],
];

#[test]
fn words_with_a_hyphen_are_refused_unread(rt: HostRuntime) {
    are_refused_unread(&rt, rt.alloc(), &WITH_A_HYPHEN);
}
