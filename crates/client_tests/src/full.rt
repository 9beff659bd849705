//! A recorder that is full.
ghost use Rattle.std.specs.Prelude.{◌≤◌, length};

use crate::answers::Says::Number;
use crate::conversation::{LIMITS, goes_within};
use crate::lines::Acts::{Again, Begin, Call as Sends, Close, Drops, Fails, Shows};
use crate::lines::Came::{Outcome, Reply};
use crate::lines::Comes::{Frame, Gone};
use crate::lines::{ASKED, Line, OPENED, Parts};
use crate::script::Does::{self, Count};
use driver_core::Failed::Disabled;
use request_bounds::DynamicRule;
use request_bounds::Why::Full;
use std::alloc::Global;
use std::process::Abort;

/// One call more is answered. All calls are alike, so the next one may have any index.
const ONE_IS_SHOWN: &[Line] = &[(
    0,
    Frame(Reply(Number(0), (1, 1, 0))),
    &[Sends(1), Shows(Number(0), (1, 1, 0))],
)];

/// The next call is lost by this event.
const IS_LOST_BY_9: &[Line] = &[(0, Gone(9), &[])];

const IS_LOST_BY_11: &[Line] = &[(0, Gone(11), &[])];

const IS_LOST_BY_519: &[Line] = &[(0, Gone(519), &[])];

const FIRST_IS_REPEATED: &[Line] = &[(0, Frame(Outcome(false, false)), &[Begin, Again(0)])];

const NEXT_IS_REPEATED: &[Line] = &[(0, Frame(Reply(Number(0), (1, 2, 0))), &[Again(1)])];

/// Behind the last recorded call the lost one goes out.
const LOST_ONE_IS_SENT: &[Line] = &[(0, Frame(Reply(Number(0), (1, 2, 0))), &[Sends(1)])];

const TWO_ARE_TOO_FEW: &[Line] = &[(
    0,
    Frame(Outcome(false, false)),
    &[
        Close,
        Fails(Disabled {
            why: Full(2),
            event: 11,
        }),
        Drops,
    ],
)];

const ALL_ARE_TOO_FEW: &[Line] = &[(
    0,
    Frame(Outcome(false, false)),
    &[
        Close,
        Fails(Disabled {
            why: Full(256),
            event: 519,
        }),
        Drops,
    ],
)];

/// The parts go on with these lines, so many times.
fn go_on<'a>(
    rt: &impl Abort,
    parts: &mut Vec<&'a [Line<'a>]>,
    lines: &'a [Line<'a>],
    times: usize,
) {
    for _time in 0..times {
        parts.push(lines).expect(rt, "a part");
    }
}

/// So many counts are shown, the next one is lost, and so many are repeated before the last lines.
fn counts<'a>(
    rt: &impl Abort,
    alloc: Global,
    shown: usize,
    lost: &'a [Line<'a>],
    repeated: usize,
    last: &'a [Line<'a>],
) -> Vec<&'a [Line<'a>]> {
    let mut parts = Vec::new(alloc);
    go_on(rt, &mut parts, OPENED, 1);
    go_on(rt, &mut parts, ONE_IS_SHOWN, shown);
    go_on(rt, &mut parts, lost, 1);
    go_on(rt, &mut parts, ASKED, 1);
    if repeated > 0 {
        go_on(rt, &mut parts, FIRST_IS_REPEATED, 1);
        go_on(rt, &mut parts, NEXT_IS_REPEATED, repeated - 1);
    }
    go_on(rt, &mut parts, last, 1);
    parts
}

/// Whether a driver that records so many calls goes on like that with the counts of a script.
fn goes(rt: &impl Abort, alloc: Global, recorded: u64, script: &[Does], parts: Parts) -> bool
    requires some { 1 ≤ length script.now }
    requires few { length script.now ≤ 1024 }
{
    goes_within(rt, alloc, DynamicRule, LIMITS, recorded, script, parts)
}

#[test]
fn a_recorder_of_two_calls(rt: HostRuntime) {
    let alloc = rt.alloc();
    let script = [Count, Count, Count, Count];
    let two = counts(&rt, alloc, 2, IS_LOST_BY_9, 2, LOST_ONE_IS_SENT);
    assert!(rt; goes(&rt, alloc, 2, &script, two.as_slice()));
    let three = counts(&rt, alloc, 3, IS_LOST_BY_11, 0, TWO_ARE_TOO_FEW);
    assert!(rt; goes(&rt, alloc, 2, &script, three.as_slice()));
}

#[test]
fn a_recorder_of_256_calls(rt: HostRuntime) {
    let alloc = rt.alloc();
    let script = [Count; 258];
    let all = counts(&rt, alloc, 256, IS_LOST_BY_519, 256, LOST_ONE_IS_SENT);
    assert!(rt; goes(&rt, alloc, 256, &script, all.as_slice()));
    let one_more = counts(&rt, alloc, 257, IS_LOST_BY_519, 0, ALL_ARE_TOO_FEW);
    assert!(rt; goes(&rt, alloc, 256, &script, one_more.as_slice()));
}
