use crate::runs::{Streams, ends};

const RIGHT: &str =
    r#"{"document":{"clients":[]},"report":{"alerts":[],"blocked":[],"clients":[],"entries":[],"notes":[],"served":[],"tables":[]}}"#;

const WRONG: &str =
    r#"{"document":{"clients":[]},"report":{"alerts":[],"blocked":[],"clients":[],"entries":[],"notes":[],"served":[],"tables":[["t",[]]]}}"#;

const NO_ALERTS: &str =
    r#"{"document":{"clients":[]},"report":{"blocked":[],"clients":[],"entries":[],"notes":[],"served":[],"tables":[]}}"#;

/// Texts for `check`, the numbers of the read and of the write that fail, and the end.
const CASES: [(&str, u64, u64, (u8, usize)); 8] = [
    (RIGHT, 0, 0, (0, 4)),
    (WRONG, 0, 0, (6, 0)),
    (NO_ALERTS, 0, 0, (5, 0)),
    (RIGHT, 2, 0, (3, 0)),
    (WRONG, 2, 0, (3, 0)),
    (RIGHT, 0, 1, (4, 0)),
    (RIGHT, 0, 2, (4, 3)),
    (WRONG, 0, 1, (6, 0)),
];

/// A source gives seven bytes a call, and a sink takes three.
#[test]
fn a_report_is_right_or_wrong_or_none(rt: HostRuntime) {
    for (text, read, write, wanted) in CASES {
        let streams = Streams {
            gives: 7,
            takes: 3,
            fail: [read, write, 0],
        };
        assert_eq!(rt; ends(&rt, rt.alloc(), &["check"], text, streams), wanted);
    }
}
