//! Outcomes of identifiers, from outside and by frames.

use crate::frames::Says::{Begin, Call, Connect, Outcome};
use crate::script::Does::{Commit, Insert, InsertCommit};
use crate::steps::Step::{self, Asks, Holds, Joins, On};
use crate::steps::play;

/// The second commit is one of a call that also writes.
const TWO_COMMITS: &[Step] = &[
    Joins(1),
    On(1, Connect, "hello 1.1.0"),
    On(1, Begin, "nothing"),
    On(1, Call(Insert(1)), "done 1 at 1.1.0"),
    On(1, Call(Commit), "committed at 1.1.1"),
    On(1, Call(InsertCommit(2)), "done 1, committed at 1.1.2"),
];

const BEHIND_A_BLOCK: &[Step] = &[
    Asks((1, 1, 2), "committed false, completed false"),
    Asks((1, 1, 0), "server ahead 2"),
    Asks((1, 1, 1), "committed true, completed false"),
    Asks((1, 1, 2), "committed false, completed false"),
    Asks((1, 1, 3), "client ahead 2"),
    Asks((1, 2, 0), "committed false, completed false"),
    Asks((1, 2, 1), "client ahead 0"),
    Holds(
        "opened 1, horizon 0, entry 1.1.0 completed true, entry 1.1.1 completed false, blocked 1.1.2, blocked 1.2.0",
    ),
];

#[test]
fn each_line_of_the_outcome_table(rt: HostRuntime) {
    play(&rt, rt.alloc(), &[TWO_COMMITS, BEHIND_A_BLOCK]);
}

const ONE_JOINS: &[Step] = &[Joins(1)];

const BOTH_JOIN: &[Step] = &[Joins(1), Joins(2)];

const FOUR_CALLS: &[Step] = &[
    On(1, Connect, "hello 1.1.0"),
    On(1, Begin, "nothing"),
    On(1, Call(Insert(1)), "done 1 at 1.1.0"),
    On(1, Call(Commit), "committed at 1.1.1"),
    On(1, Call(Insert(2)), "done 1 at 1.1.1"),
    On(1, Call(Commit), "committed at 1.1.2"),
];

const STORED: &[Step] = &[Holds(
    "opened 1, horizon 0, entry 1.1.0 completed true, entry 1.1.1 completed true, blocked 1.1.2, blocked 1.9.0",
)];

const FROM_OUTSIDE: &[Step] = &[
    Asks((1, 1, 0), "server ahead 2"),
    Asks((1, 1, 1), "committed true, completed true"),
    Asks((1, 1, 2), "committed false, completed false"),
    Asks((1, 1, 3), "client ahead 2"),
    Asks((1, 9, 0), "committed false, completed false"),
];

#[test]
fn identifiers_of_each_age_asked_from_outside(rt: HostRuntime) {
    play(
        &rt,
        rt.alloc(),
        &[ONE_JOINS, FOUR_CALLS, FROM_OUTSIDE, STORED],
    );
}

const BY_FRAMES: &[Step] = &[
    On(2, Connect, "hello 1.2.0"),
    On(2, Outcome(1, 1, 0), "server ahead 2"),
    On(2, Outcome(1, 1, 1), "committed true, completed true"),
    On(2, Outcome(1, 1, 2), "committed false, completed false"),
    On(2, Outcome(1, 1, 3), "client ahead 2"),
    On(2, Outcome(1, 9, 0), "committed false, completed false"),
];

#[test]
fn identifiers_of_each_age_asked_by_frames(rt: HostRuntime) {
    play(&rt, rt.alloc(), &[BOTH_JOIN, FOUR_CALLS, BY_FRAMES, STORED]);
}
