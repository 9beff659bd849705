//! Stops at each device call, and what each crash leaves.

use crate::bench::Bench;
use crate::frames::Says::{Begin, Call, Connect, Marked, Outcome};
use crate::script::Does::{Commit, Count, Insert};
use crate::steps::Step::{
    self, Asks, Crashes, FailsToOpen, Holds, IsOpening, IsUp, Joins, On, Opens, Stops,
};
use crate::steps::{go, play, play_case, play_to_end, played};
use service_calls::Service;
use std::alloc::Global;
use std::process::Abort;

/// The first session has written a row.
const WRITTEN: &[Step] = &[
    Joins(1),
    On(1, Connect, "hello 1.1.0"),
    On(1, Begin, "nothing"),
    On(1, Call(Insert(1)), "done 1 at 1.1.0"),
];

/// The first session commits under this stop. The service is crashed, and opened again.
fn recovers<S: Service + Drop>(rt: &impl Abort, bench: &mut Bench<S>, stop: u64, pick: u8) {
    let is_answered = stop >= 4;
    let told = if is_answered {
        "committed at 1.1.1"
    } else {
        "stopped"
    };
    let steps = [
        Stops(Some(stop)),
        On(1, Call(Commit), told),
        IsUp(is_answered),
        Crashes(pick),
        IsUp(false),
        Opens(0),
        IsOpening(2),
        Joins(2),
    ];
    go(rt, bench, (stop, pick), steps.as_slice());
}

const WAS_LOST: &[Step] = &[
    On(2, Connect, "hello 2.1.0"),
    On(2, Outcome(1, 1, 0), "committed false, completed false"),
    On(2, Begin, "nothing"),
    On(2, Marked(Insert(1), &[]), "done 1 at 2.1.0"),
    On(2, Call(Commit), "committed at 2.1.1"),
    Holds("opened 2, horizon 0, entry 2.1.0 completed true, blocked 1.1.0"),
];

const WAS_STORED: &[Step] = &[
    On(2, Connect, "hello 2.1.0"),
    On(2, Outcome(1, 1, 0), "committed true, completed true"),
    On(2, Begin, "nothing"),
    On(2, Call(Count), "number 1 at 2.1.0"),
    Holds("opened 2, horizon 0, entry 1.1.0 completed true"),
];

/// Whether the commit is stored after so many device calls with this pick, where the gate of its
/// record stands at this place. The third writes the gate and the fourth makes it durable. Between
/// them a crash leaves it with the pick 0, and with 2 where it stands at an even place.
fn is_stored(stop: u64, pick: u8, gate: usize) -> bool {
    match stop {
        0..=2 => false,
        3 => pick == 0 || (pick == 2 && gate % 2 == 0),
        _ => true,
    }
}

fn behind(is_stored: bool) -> &'static [Step] {
    if is_stored { WAS_STORED } else { WAS_LOST }
}

/// A commit of the first session, stopped behind so many device calls, and a crash with this pick.
fn try_commit(rt: &impl Abort, alloc: Global, stop: u64, pick: u8) {
    let mut bench = played(rt, alloc, (stop, pick), &[WRITTEN]);
    let gate = bench.image(rt).len().saturating_sub(1);
    recovers(rt, &mut bench, stop, pick);
    let steps = behind(is_stored(stop, pick % 4, gate));
    go(rt, &mut bench, (stop, pick), steps);
}

#[test]
fn a_commit_that_is_stopped_in_each_device_call(rt: HostRuntime) {
    for stop in 0..6 {
        for pick in 0..8 {
            try_commit(&rt, rt.alloc(), stop, pick);
        }
    }
}

/// The tables at the end of a service that is down are those that it kept, with what the crash
/// left behind them.
#[test]
fn what_a_stopped_commit_leaves_at_the_end(rt: HostRuntime) {
    for (pick, left) in [
        (
            0,
            "horizon 0, entry 1.1.0 completed true, acc [1 100], t [1 a]",
        ),
        (1, "horizon 0, acc [1 100], t no row"),
    ] {
        let stopped = [
            Stops(Some(3)),
            On(1, Call(Commit), "stopped"),
            Crashes(pick),
        ];
        let parts = [WRITTEN, stopped.as_slice()];
        play_to_end(&rt, rt.alloc(), (3, pick), parts.as_slice(), left);
    }
}

#[test]
fn an_opening_that_is_stopped_at_its_last_sync(rt: HostRuntime) {
    for (pick, number) in [(0, 3), (1, 2)] {
        let steps = [
            Crashes(0),
            Stops(Some(3)),
            FailsToOpen(0),
            IsUp(false),
            Crashes(pick),
            Opens(0),
            IsOpening(number),
        ];
        play_case(&rt, rt.alloc(), (3, pick), &[steps.as_slice()]);
    }
}

#[test]
fn a_question_that_is_stopped(rt: HostRuntime) {
    let (none, one) = ("opened 2, horizon 0", "opened 2, horizon 0, blocked 1.1.0");
    for (stop, pick, held) in [
        (0, 0, none),
        (1, 0, none),
        (2, 0, none),
        (3, 0, one),
        (3, 1, none),
        (3, 3, none),
    ] {
        let steps = [
            Stops(Some(stop)),
            Asks((1, 1, 0), "stopped"),
            IsUp(false),
            Crashes(pick),
            Opens(0),
            Holds(held),
        ];
        play_case(&rt, rt.alloc(), (stop, pick), &[steps.as_slice()]);
    }
}

const NO_STOP: &[Step] = &[
    Stops(Some(0)),
    Stops(None),
    Asks((1, 1, 0), "committed false, completed false"),
];

#[test]
fn a_stop_that_was_taken_away_stops_nothing(rt: HostRuntime) {
    play(&rt, rt.alloc(), &[NO_STOP]);
}
