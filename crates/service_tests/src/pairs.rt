//! A pair that is stopped in each of its device calls: what a crash leaves, and what it leaves
//! that takes the first store away.

use crate::bench::Bench;
use crate::frames::Says::{self, Begin, Call, Connect, Outcome};
use crate::pairing::pair;
use crate::script::Asks::Seq;
use crate::script::Does::{Alter, Commit, Insert, InsertCommit, Show, ShowCommit};
use crate::steps::Step::{self, Asks, Crashes, FailsToOpen, IsUp, Joins, On, Opens, Runs, Stops};
use crate::steps::go;
use service_calls::Service;
use std::alloc::Global;
use std::process::Abort;

/// What is tried under each stop and each pick, and what is wanted of it.
#[derive(Clone, Copy)]
struct Case {
    /// What comes before it.
    before: &'static [Step],
    /// What is tried, where it is not stopped.
    done: Step,
    /// The same, where it is stopped.
    stopped: Step,
    /// How many records it adds to the first store.
    records: u8,
    /// How many device calls it makes on both disks together: four for a record that is added, and
    /// four for one that is shipped.
    calls: u64,
    /// What is stored where none of its records stand, where one stands, and so on.
    stored: &'static [&'static str],
    /// An identifier, and its outcome in each of these cases.
    asked: (u8, u8, u8),
    outcomes: &'static [&'static str],
}

/// The first session has written a row.
const WRITTEN: &[Step] = &[
    Joins(1),
    On(1, Connect, "hello 1.1.0"),
    On(1, Begin, "nothing"),
    On(1, Call(Insert(1)), "done 1 at 1.1.0"),
];

/// The pair is down, and its second store lacks the two last records: it was stopped before the
/// first was shipped.
const LAGS: &[Step] = &[
    Stops(Some(8)),
    Runs(&[InsertCommit(7), InsertCommit(8)], "stopped"),
    Crashes(1),
];

/// How many of so many records stand in a store whose disk was stopped behind so many calls: at
/// least, and at most. The third call of a record opens its gate and the fourth makes that
/// durable. Between them a crash leaves it with the pick 0, and with 2 where it stands at an even
/// place.
fn standing(calls: u64, records: u8, pick: u8) -> (u64, u64) {
    let whole = (calls / 4).min(records.into());
    let is_between = calls % 4 == 3 && whole < records.into();
    let more = if is_between { whole + 1 } else { whole };
    match pick % 4 {
        0 => (more, more),
        2 => (whole, more),
        _ => (whole, whole),
    }
}

/// How many of a case's records stand behind this stop and this pick, at least and at most. The
/// second disk is called once the first store has them all.
fn left(case: &Case, stop: u64, pick: u8) -> (u64, u64) {
    let calls = if pick < 4 {
        stop
    } else {
        stop.saturating_sub(4 * u64::from(case.records))
    };
    standing(calls, case.records, pick)
}

fn text_at(texts: &'static [&'static str], at: u64) -> &'static str {
    texts.get(at as usize).copied().unwrap_or("no text")
}

/// How many of a case's records stand, of these two numbers.
fn found(rt: &impl Abort, held: &str, case: &Case, (least, most): (u64, u64)) -> u64 {
    if held == text_at(case.stored, least) {
        return least;
    }
    assert_eq!(rt; held, text_at(case.stored, most));
    most
}

/// Sees what a frame on the connection 2 is told at least.
fn begins_with<S: Service + Drop>(rt: &impl Abort, bench: &mut Bench<S>, says: Says, front: &str) {
    assert!(rt; bench.says(rt, 2, says).as_str().starts_with(front));
}

/// Sees that the store goes on: its next session commits.
fn goes_on<S: Service + Drop>(rt: &impl Abort, bench: &mut Bench<S>) {
    assert!(rt; bench.connect(rt, 2));
    begins_with(rt, bench, Connect, "hello");
    assert_eq!(rt; bench.says(rt, 2, Begin).as_str(), "nothing");
    begins_with(rt, bench, Call(InsertCommit(9)), "done 1, committed");
}

/// Sees that the second store, where there is one, has what the first one has: it is lost now.
fn loses_the_first<S: Service + Drop>(rt: &impl Abort, bench: &mut Bench<S>) {
    let kept = bench.keeps(rt);
    bench.crash(rt, 4);
    assert!(rt; bench.up(rt, 0));
    assert_eq!(rt; bench.keeps(rt).as_str(), kept.as_str());
}

/// Sees that a pair that was crashed with this pick goes on with what the stop left.
fn recovers<S: Service + Drop>(
    rt: &impl Abort,
    bench: &mut Bench<S>,
    case: &Case,
    stop: u64,
    pick: u8,
) {
    let crash = [Crashes(pick), IsUp(false), Opens(0)];
    go(rt, bench, (stop, pick), crash.as_slice());
    let stands = found(rt, bench.holds(rt).as_str(), case, left(case, stop, pick));
    loses_the_first(rt, bench);
    let question = [Asks(case.asked, text_at(case.outcomes, stands))];
    go(rt, bench, (stop, pick), question.as_slice());
    goes_on(rt, bench);
}

/// Tries a case under a stop. It is answered once all its calls were made.
fn stops<S: Service + Drop>(
    rt: &impl Abort,
    bench: &mut Bench<S>,
    case: &Case,
    stop: u64,
    pick: u8,
) {
    let is_answered = stop >= case.calls;
    let tried = if is_answered { case.done } else { case.stopped };
    let steps = [Stops(Some(stop)), tried, IsUp(is_answered)];
    go(rt, bench, (stop, pick), case.before);
    go(rt, bench, (stop, pick), steps.as_slice());
}

/// Tries a case under one stop and one pick.
fn try_once(rt: &impl Abort, alloc: Global, case: &Case, stop: u64, pick: u8) {
    let mut bench = pair(rt, alloc);
    stops(rt, &mut bench, case, stop, pick);
    if pick < 4 || bench.may_lose_a_store() {
        recovers(rt, &mut bench, case, stop, pick);
    }
}

fn try_each_stop(rt: &impl Abort, alloc: Global, case: &Case) {
    for stop in 0..case.calls.saturating_add(2) {
        for pick in 0..8 {
            try_once(rt, alloc, case, stop, pick);
        }
    }
}

const NOT_COMMITTED: &str = "committed false, completed false";

const A_COMMIT: Case = Case {
    before: WRITTEN,
    done: On(1, Call(Commit), "committed at 1.1.1"),
    stopped: On(1, Call(Commit), "stopped"),
    records: 1,
    calls: 8,
    stored: &[
        "opened 2, horizon 0",
        "opened 2, horizon 0, entry 1.1.0 completed true",
    ],
    asked: (1, 1, 0),
    outcomes: &[NOT_COMMITTED, "committed true, completed true"],
};

#[test]
fn a_commit_on_two_stores(rt: HostRuntime) {
    try_each_stop(&rt, rt.alloc(), &A_COMMIT);
}

const A_DRAW: Case = Case {
    before: WRITTEN,
    done: On(1, Call(Show(&[Seq("s")])), "[1], drew s 1 at 1.1.0"),
    stopped: On(1, Call(Show(&[Seq("s")])), "stopped"),
    records: 1,
    calls: 8,
    stored: &["opened 2, horizon 0", "opened 2, horizon 0, s to 16"],
    asked: (1, 1, 0),
    outcomes: &[NOT_COMMITTED, NOT_COMMITTED],
};

#[test]
fn a_reservation_on_two_stores(rt: HostRuntime) {
    try_each_stop(&rt, rt.alloc(), &A_DRAW);
}

const A_DRAW_AND_A_COMMIT: Case = Case {
    before: WRITTEN,
    done: On(
        1,
        Call(ShowCommit(&[Seq("s")])),
        "[1], committed, drew s 1 at 1.1.1",
    ),
    stopped: On(1, Call(ShowCommit(&[Seq("s")])), "stopped"),
    records: 2,
    calls: 16,
    stored: &[
        "opened 2, horizon 0",
        "opened 2, horizon 0, s to 16",
        "opened 2, horizon 0, entry 1.1.0 completed false, s to 16",
    ],
    asked: (1, 1, 0),
    outcomes: &[
        NOT_COMMITTED,
        NOT_COMMITTED,
        "committed true, completed false",
    ],
};

#[test]
fn a_reservation_and_a_commit_on_two_stores(rt: HostRuntime) {
    try_each_stop(&rt, rt.alloc(), &A_DRAW_AND_A_COMMIT);
}

const A_LINE: Case = Case {
    before: WRITTEN,
    done: On(1, Call(Alter), "done 1 at 1.1.0"),
    stopped: On(1, Call(Alter), "stopped"),
    records: 1,
    calls: 8,
    stored: &["opened 2, horizon 0", "opened 2, horizon 0, line flush"],
    asked: (1, 1, 0),
    outcomes: &[NOT_COMMITTED, NOT_COMMITTED],
};

#[test]
fn a_line_on_two_stores(rt: HostRuntime) {
    try_each_stop(&rt, rt.alloc(), &A_LINE);
}

const AN_OUTCOME: Case = Case {
    before: WRITTEN,
    done: On(1, Outcome(1, 9, 0), NOT_COMMITTED),
    stopped: On(1, Outcome(1, 9, 0), "stopped"),
    records: 1,
    calls: 8,
    stored: &["opened 2, horizon 0", "opened 2, horizon 0, blocked 1.9.0"],
    asked: (1, 9, 0),
    outcomes: &[NOT_COMMITTED, NOT_COMMITTED],
};

#[test]
fn an_outcome_by_a_frame_on_two_stores(rt: HostRuntime) {
    try_each_stop(&rt, rt.alloc(), &AN_OUTCOME);
}

const A_QUESTION: Case = Case {
    done: Asks((1, 9, 0), NOT_COMMITTED),
    stopped: Asks((1, 9, 0), "stopped"),
    ..AN_OUTCOME
};

#[test]
fn an_outcome_from_outside_on_two_stores(rt: HostRuntime) {
    try_each_stop(&rt, rt.alloc(), &A_QUESTION);
}

const CALLS_FROM_OUTSIDE: Case = Case {
    before: WRITTEN,
    done: Runs(
        &[InsertCommit(7), InsertCommit(8)],
        "1.2.0; done 1, committed; done 1, committed",
    ),
    stopped: Runs(&[InsertCommit(7), InsertCommit(8)], "stopped"),
    records: 2,
    calls: 16,
    stored: &[
        "opened 2, horizon 0",
        "opened 2, horizon 0, entry 1.2.0 completed false",
        "opened 2, horizon 0, entry 1.2.0 completed false, entry 1.2.1 completed false",
    ],
    asked: (1, 2, 1),
    outcomes: &[
        "client ahead 0",
        NOT_COMMITTED,
        "committed true, completed false",
    ],
};

#[test]
fn calls_from_outside_on_two_stores(rt: HostRuntime) {
    try_each_stop(&rt, rt.alloc(), &CALLS_FROM_OUTSIDE);
}

/// A crash in the opening takes no store away; behind it no record is lacked.
const AN_OPENING: Case = Case {
    before: LAGS,
    done: Opens(0),
    stopped: FailsToOpen(0),
    records: 1,
    calls: 16,
    stored: &[
        "opened 2, horizon 0, entry 1.1.0 completed false, entry 1.1.1 completed false",
        "opened 3, horizon 0, entry 1.1.0 completed false, entry 1.1.1 completed false",
    ],
    asked: (1, 1, 1),
    outcomes: &[
        "committed true, completed false",
        "committed true, completed false",
    ],
};

#[test]
fn an_opening_of_two_stores(rt: HostRuntime) {
    try_each_stop(&rt, rt.alloc(), &AN_OPENING);
}
