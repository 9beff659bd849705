//! A pair of which one disk fails in one of its calls, and pairs that have lost a store.

use crate::bench::Bench;
use crate::frames::Says::{self, Begin, Call, Connect};
use crate::pairing::{pair, paired};
use crate::script::Does::{Commit, Insert};
use crate::steps::Step::{self, Crashes, Holds, Joins, On, Opens, Stops};
use crate::steps::go;
use service_calls::Service;
use std::alloc::Global;
use std::process::Abort;

/// Crashes a pair with this pick and opens it again. A disk may fail in the opening once.
fn recovers<S: Service + Drop>(rt: &impl Abort, bench: &mut Bench<S>, pick: u8) {
    bench.crash(rt, pick);
    if !bench.up(rt, 0) {
        bench.crash(rt, pick % 4);
        assert!(rt; bench.up(rt, 0));
    }
}

/// Opens a new pair. A disk may fail in it once.
fn begins<S: Service + Drop>(rt: &impl Abort, bench: &mut Bench<S>) {
    if !bench.up(rt, 0) {
        bench.crash(rt, 0);
        assert!(rt; bench.up(rt, 0));
    }
}

/// Sees that a frame of the first session does not stop the pair.
fn goes_on<S: Service + Drop>(rt: &impl Abort, bench: &mut Bench<S>, says: Says) {
    assert!(rt; bench.says(rt, 1, says).as_str() != "stopped");
}

/// Whether the first session's commit was answered. Where it was not, the pair was stopped.
fn is_answered<S: Service + Drop>(rt: &impl Abort, bench: &mut Bench<S>) -> bool {
    let told = bench.says(rt, 1, Call(Commit));
    let is_committed = told.as_str().starts_with("committed at ");
    assert!(rt; is_committed || told.as_str() == "stopped");
    is_committed
}

/// Whether a commit of the first session was answered.
fn commits<S: Service + Drop>(rt: &impl Abort, bench: &mut Bench<S>) -> bool {
    assert!(rt; bench.connect(rt, 1));
    goes_on(rt, bench, Connect);
    goes_on(rt, bench, Begin);
    goes_on(rt, bench, Call(Insert(1)));
    is_answered(rt, bench)
}

/// Whether the outcome of the first session of this opening tells a commit.
fn is_told<S: Service + Drop>(rt: &impl Abort, bench: &mut Bench<S>, opening: u8) -> bool {
    let told = bench.ask(rt, (opening, 1, 0));
    let is_committed = told.as_str() == "committed true, completed true";
    assert!(rt; is_committed || told.as_str() == "committed false, completed false");
    is_committed
}

/// Whether the commit of the first session of this opening stands, as the outcome tells, and an
/// entry where it does.
fn stands<S: Service + Drop>(rt: &impl Abort, bench: &mut Bench<S>, opening: u8) -> bool {
    let has_entry = bench.holds(rt).as_str().find("entry").is_some();
    assert_eq!(rt; has_entry, is_told(rt, bench, opening));
    has_entry
}

/// Sees that a commit that was answered stands behind a crash with this pick, and that its outcome
/// is told of any.
fn commit_stands<S: Service + Drop>(rt: &impl Abort, bench: &mut Bench<S>, pick: u8) {
    begins(rt, bench);
    let opening = u8::try_from(bench.incarnation()).expect(rt, "a small number");
    let was_answered = commits(rt, bench);
    recovers(rt, bench, pick);
    let stands = stands(rt, bench, opening);
    assert!(rt; stands || !was_answered);
}

/// The same on a pair whose disks fail in the calls with these numbers.
fn try_failing(rt: &impl Abort, alloc: Global, first: &[u64], second: &[u64], pick: u8) {
    let mut bench = paired(rt, alloc, first, second);
    commit_stands(rt, &mut bench, pick);
}

/// The calls that are tried have lower numbers.
const CALLS: u64 = 30;

#[test]
fn the_first_disk_fails_in_each_call(rt: HostRuntime) {
    for number in 1..CALLS {
        for pick in 0..8 {
            try_failing(&rt, rt.alloc(), &[number], &[], pick);
        }
    }
}

#[test]
fn the_second_disk_fails_in_each_call(rt: HostRuntime) {
    for number in 1..CALLS {
        for pick in 0..8 {
            try_failing(&rt, rt.alloc(), &[], &[number], pick);
        }
    }
}

/// Sees that the bytes of a pair's store are the same where the first one is lost.
fn loses_nothing<S: Service + Drop>(rt: &impl Abort, bench: &mut Bench<S>) {
    let first = bench.image(rt);
    bench.crash(rt, 4);
    assert_eq!(rt; bench.image(rt).as_slice(), first.as_slice());
}

#[test]
fn both_stores_have_the_same_bytes(rt: HostRuntime) {
    let mut bench = pair(&rt, rt.alloc());
    assert!(rt; commits(&rt, &mut bench));
    loses_nothing(&rt, &mut bench);
}

/// Has an opened pair go through a script.
fn play_pair(rt: &impl Abort, alloc: Global, steps: &[Step]) {
    let mut bench = pair(rt, alloc);
    go(rt, &mut bench, (0, 0), steps);
}

const STOPPED_AT_ONCE: &[Step] = &[
    Stops(Some(0)),
    Joins(1),
    On(1, Connect, "hello 1.1.0"),
    On(1, Begin, "nothing"),
    On(1, Call(Insert(1)), "done 1 at 1.1.0"),
    On(1, Call(Commit), "stopped"),
];

#[test]
fn a_call_that_stores_nothing_calls_no_disk(rt: HostRuntime) {
    play_pair(&rt, rt.alloc(), STOPPED_AT_ONCE);
}

/// A pair with one store takes four device calls for a record, and a crash takes that store away
/// no more.
const LOSES_ONE_STORE: &[Step] = &[
    Crashes(4),
    Opens(0),
    Joins(1),
    On(1, Connect, "hello 2.1.0"),
    On(1, Begin, "nothing"),
    On(1, Call(Insert(1)), "done 1 at 2.1.0"),
    Stops(Some(4)),
    On(1, Call(Commit), "committed at 2.1.1"),
    Crashes(7),
    Opens(0),
    Holds("opened 3, horizon 0, entry 2.1.0 completed true"),
];

#[test]
fn a_pair_that_lost_a_store_is_a_single_one(rt: HostRuntime) {
    play_pair(&rt, rt.alloc(), LOSES_ONE_STORE);
}
