//! Scripts: what is done with a service, step by step, and what is wanted of each step.

use crate::bench::{ALL, Bench, opened};
use crate::frames::Says;
use crate::images::SHOP;
use crate::script::Does;
use disk_model::MemDisk;
use service_calls::Service;
use service_core::OneService;
use std::alloc::Global;
use std::process::Abort;

/// A step: what is done, and what is wanted of it. A text is what is told.
#[derive(Clone, Copy)]
pub enum Step {
    /// A connection is made, 1 or 2.
    Joins(u64),
    /// None is made, since the service is down.
    FailsToJoin(u64),
    /// A session is reaped.
    Reaps(u64),
    /// A frame on a connection.
    On(u64, Says, &'static str),
    /// The outcome of the identifier with these parts, asked from outside.
    Asks((u8, u8, u8), &'static str),
    /// Calls from outside.
    Runs(&'static [Does], &'static str),
    /// A stop is set, or taken away.
    Stops(Option<u64>),
    /// A crash with this pick.
    Crashes(u8),
    /// An opening with this horizon.
    Opens(u64),
    /// One that is stopped.
    FailsToOpen(u64),
    /// Whether the service is up.
    IsUp(bool),
    /// The number of the opening.
    IsOpening(u64),
    /// What the store holds.
    Holds(&'static str),
    /// The bytes of the store.
    HasBytes(&'static [u8]),
}

/// A script, in parts that follow each other.
pub type Parts<'a> = &'a [&'a [Step]];

/// Two numbers that tell a case from the others of its test, as a stop and a pick.
pub type Case = (u64, u8);

/// A case, and the number of a step in its part.
type Place = (Case, usize);

fn is_so(rt: &impl Abort, holds: bool, place: Place) {
    assert!(rt; holds, "case and step: {place:?}");
}

fn is_told(rt: &impl Abort, told: &str, wanted: &str, place: Place) {
    assert_eq!(rt; told, wanted, "case and step: {place:?}");
}

/// Takes a step, and sees that it is as wanted.
fn take<S: Service + Drop>(rt: &impl Abort, bench: &mut Bench<S>, step: &Step, place: Place) {
    match step {
        Step::Joins(connection) => is_so(rt, bench.connect(rt, *connection), place),
        Step::FailsToJoin(connection) => is_so(rt, !bench.connect(rt, *connection), place),
        Step::Reaps(connection) => bench.reap(rt, *connection),
        Step::On(connection, says, wanted) => {
            is_told(
                rt,
                bench.says(rt, *connection, *says).as_str(),
                *wanted,
                place,
            );
        }
        Step::Asks(parts, wanted) => is_told(rt, bench.ask(rt, *parts).as_str(), *wanted, place),
        Step::Runs(script, wanted) => is_told(rt, bench.runs(rt, *script).as_str(), *wanted, place),
        Step::Stops(calls) => bench.stop_after(rt, *calls),
        Step::Crashes(pick) => bench.crash(rt, *pick),
        Step::Opens(horizon) => is_so(rt, bench.up(rt, *horizon), place),
        Step::FailsToOpen(horizon) => is_so(rt, !bench.up(rt, *horizon), place),
        Step::IsUp(is_up) => is_so(rt, bench.is_up() == *is_up, place),
        Step::IsOpening(number) => is_so(rt, bench.incarnation() == *number, place),
        Step::Holds(wanted) => is_told(rt, bench.holds(rt).as_str(), *wanted, place),
        Step::HasBytes(bytes) => is_so(rt, bench.image(rt).as_slice() == *bytes, place),
    }
}

/// Takes these steps, one after the other.
pub fn go<S: Service + Drop>(rt: &impl Abort, bench: &mut Bench<S>, case: Case, steps: &[Step]) {
    for (at, step) in steps.iter().enumerate() {
        take(rt, bench, step, (case, at));
    }
}

/// Goes through the parts of a script.
pub fn go_through<S: Service + Drop>(
    rt: &impl Abort,
    bench: &mut Bench<S>,
    case: Case,
    parts: Parts,
) {
    for steps in parts {
        go(rt, bench, case, steps);
    }
}

/// A service on the store of the shop, which keeps all kinds of draws and went through a script.
pub fn played(
    rt: &impl Abort,
    alloc: Global,
    case: Case,
    parts: Parts,
) -> Bench<OneService<MemDisk>> {
    let mut bench = opened(rt, alloc, &SHOP, ALL);
    go_through(rt, &mut bench, case, parts);
    bench
}

/// Has such a service go through a script, which is one of several cases.
pub fn play_case(rt: &impl Abort, alloc: Global, case: Case, parts: Parts) {
    let _bench = played(rt, alloc, case, parts);
}

/// Has such a service go through a script.
pub fn play(rt: &impl Abort, alloc: Global, parts: Parts) {
    play_case(rt, alloc, (0, 0), parts);
}

/// Has such a service go through a script, and sees what it leaves at its end.
pub fn play_to_end(rt: &impl Abort, alloc: Global, case: Case, parts: Parts, left: &str) {
    let bench = played(rt, alloc, case, parts);
    is_told(rt, bench.ends_with(rt).as_str(), left, (case, 0));
}
