//! Outcomes that are kept no more, and identifiers of openings that are to come.

use crate::frames::Says::{Begin, Call, Connect, Outcome};
use crate::script::Does::{Commit, Insert};
use crate::steps::Step::{self, Asks, Crashes, Holds, Joins, On, Opens, Stops};
use crate::steps::play;

/// The first session commits in the last device calls before a crash.
const STORED: &[Step] = &[
    Joins(1),
    Stops(Some(4)),
    On(1, Connect, "hello 1.1.0"),
    On(1, Begin, "nothing"),
    On(1, Call(Insert(1)), "done 1 at 1.1.0"),
    On(1, Call(Commit), "committed at 1.1.1"),
    Crashes(0),
];

/// The next opening keeps nothing of the first.
const OPENED_FROM_2: &[Step] = &[Opens(2), Joins(2), On(2, Connect, "hello 2.1.0")];

const OPENED_FROM_0: &[Step] = &[Opens(0), Joins(2), On(2, Connect, "hello 2.1.0")];

const FORGOTTEN: &[Step] = &[
    On(2, Outcome(1, 1, 0), "forgotten 2"),
    Asks((1, 1, 0), "forgotten 2"),
    Holds("opened 2, horizon 2, entry 1.1.0 completed true"),
];

#[test]
fn an_outcome_below_the_horizon_is_forgotten(rt: HostRuntime) {
    play(&rt, rt.alloc(), &[STORED, OPENED_FROM_2, FORGOTTEN]);
}

const KEPT: &[Step] = &[
    On(2, Outcome(1, 1, 0), "committed true, completed true"),
    Asks((1, 1, 0), "committed true, completed true"),
    Holds("opened 2, horizon 0, entry 1.1.0 completed true"),
];

#[test]
fn an_outcome_above_the_horizon_is_kept(rt: HostRuntime) {
    play(&rt, rt.alloc(), &[STORED, OPENED_FROM_0, KEPT]);
}

const ABOUT_A_HORIZON: &[Step] = &[
    Asks((1, 1, 0), "forgotten 2"),
    Asks((1, 1, 1), "forgotten 2"),
    Asks((1, 1, 7), "forgotten 2"),
    Asks((1, 9, 0), "forgotten 2"),
    Asks((2, 1, 1), "client ahead 0"),
    Asks((2, 1, 0), "committed false, completed false"),
    Asks((2, 9, 0), "committed false, completed false"),
    Asks((3, 1, 0), "committed false, completed false"),
    Holds(
        "opened 2, horizon 2, entry 1.1.0 completed true, blocked 2.1.0, blocked 2.9.0, blocked 3.1.0",
    ),
];

/// The session of this opening and that of the next one were asked for, so neither may commit.
const NEITHER_COMMITS: &[Step] = &[
    On(2, Begin, "nothing"),
    On(2, Call(Commit), "blocked"),
    Crashes(1),
    Opens(1),
    Joins(1),
    On(1, Connect, "hello 3.1.0"),
    On(1, Begin, "nothing"),
    On(1, Call(Commit), "blocked"),
    Asks((1, 1, 0), "forgotten 2"),
];

#[test]
fn identifiers_on_both_sides_of_the_horizon(rt: HostRuntime) {
    play(
        &rt,
        rt.alloc(),
        &[STORED, OPENED_FROM_2, ABOUT_A_HORIZON, NEITHER_COMMITS],
    );
}
