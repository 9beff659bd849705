//! Calls from outside, and sessions that are reaped.

use crate::frames::Says::{Begin, Call, Connect};
use crate::script::Does::{Add, Commit, Count, Get, Insert};
use crate::steps::Step::{self, Asks, Holds, Joins, On, Reaps, Runs};
use crate::steps::play;

const BEHIND_A_READ: &[Step] = &[
    Joins(1),
    On(1, Connect, "hello 1.1.0"),
    On(1, Begin, "nothing"),
    On(1, Call(Get), "[1 100] at 1.1.0"),
    Runs(&[Add(5), Commit, Get], "1.2.0; done 1; committed; [1 105]"),
    Runs(&[Get, Add(1)], "1.3.0; [1 105]; done 1"),
    On(1, Call(Commit), "conflict at 1.1.0"),
    Holds("opened 1, horizon 0, entry 1.2.0 completed true"),
];

#[test]
fn calls_from_outside_run_in_a_session_of_their_own(rt: HostRuntime) {
    play(&rt, rt.alloc(), &[BEHIND_A_READ]);
}

const BEHIND_A_QUESTION: &[Step] = &[
    Asks((1, 1, 0), "committed false, completed false"),
    Runs(&[Insert(1), Commit, Count], "1.1.0; done 1"),
    Runs(&[Count], "1.2.0; number 0"),
    Holds("opened 1, horizon 0, blocked 1.1.0"),
];

#[test]
fn calls_from_outside_end_before_a_blocked_commit(rt: HostRuntime) {
    play(&rt, rt.alloc(), &[BEHIND_A_QUESTION]);
}

const REAPED: &[Step] = &[
    Joins(1),
    On(1, Connect, "hello 1.1.0"),
    On(1, Begin, "nothing"),
    On(1, Call(Insert(1)), "done 1 at 1.1.0"),
    Reaps(1),
    Joins(1),
    On(1, Connect, "hello 1.2.0"),
    On(1, Begin, "nothing"),
    On(1, Call(Count), "number 0 at 1.2.0"),
    Holds("opened 1, horizon 0"),
];

#[test]
fn a_session_that_is_reaped_leaves_nothing(rt: HostRuntime) {
    play(&rt, rt.alloc(), &[REAPED]);
}
