//! Frames out of order, and marks where none may be.

use crate::frames::Says::{self, Begin, Call, Close, Connect, End, Marked, Outcome};
use crate::script::Does::{Alter, Commit, Count, Disable, Insert, Rollback, SetLang};
use crate::steps::Step::{self, Holds, Joins, On};
use crate::steps::{play, play_case};

/// A session that was refused has ended, so its connection may be made anew, and gets the next
/// one.
const A_CALL_FIRST: &[Step] = &[
    Joins(1),
    On(1, Connect, "hello 1.1.0"),
    On(1, Call(Count), "refused 2"),
    Joins(1),
    On(1, Connect, "hello 1.2.0"),
    Holds("opened 1, horizon 0"),
];

#[test]
fn a_call_before_a_request_ends_the_session(rt: HostRuntime) {
    play(&rt, rt.alloc(), &[A_CALL_FIRST]);
}

const BEFORE_CONNECT: [(u64, Says); 7] = [
    (1, Begin),
    (2, Call(Count)),
    (3, Call(Alter)),
    (4, Marked(Commit, &[])),
    (5, Outcome(1, 9, 0)),
    (6, End),
    (7, Close),
];

#[test]
fn nothing_is_served_before_connect(rt: HostRuntime) {
    for (case, says) in BEFORE_CONNECT {
        let steps = [
            Joins(1),
            On(1, says, "refused 2"),
            Holds("opened 1, horizon 0"),
        ];
        play_case(&rt, rt.alloc(), (case, 0), &[steps.as_slice()]);
    }
}

/// A session has written in a request.
const WRITTEN: &[Step] = &[
    Joins(1),
    On(1, Connect, "hello 1.1.0"),
    On(1, Begin, "nothing"),
    On(1, Call(Insert(1)), "done 1 at 1.1.0"),
];

/// Frames that end such a session, with the line that they would store.
const IN_A_REQUEST: [(u64, Says); 2] = [(1, Connect), (2, Marked(Alter, &[]))];

const NOTHING_WAS_WRITTEN: &[Step] = &[
    Joins(1),
    On(1, Connect, "hello 1.2.0"),
    On(1, Begin, "nothing"),
    On(1, Call(Count), "number 0 at 1.2.0"),
    On(1, Call(Commit), "committed at 1.2.1"),
    Holds("opened 1, horizon 0, entry 1.2.0 completed true"),
];

#[test]
fn what_is_refused_in_a_request_rolls_back(rt: HostRuntime) {
    for (case, says) in IN_A_REQUEST {
        let refused = [On(1, says, "refused 2")];
        let parts = [WRITTEN, refused.as_slice(), NOTHING_WAS_WRITTEN];
        play_case(&rt, rt.alloc(), (case, 0), parts.as_slice());
    }
}

/// A line is the only call that may not be marked.
const MARKS: &[Step] = &[
    Joins(1),
    On(1, Connect, "hello 1.1.0"),
    On(1, Begin, "nothing"),
    On(1, Marked(SetLang, &[]), "done 1 at 1.1.0"),
    On(1, Marked(Disable, &[]), "done 0 at 1.1.0"),
    On(1, Marked(Rollback, &[]), "rolled back at 1.1.0"),
    On(1, Marked(Count, &[]), "number 0 at 1.1.0"),
    On(1, Call(Alter), "done 1 at 1.1.0"),
    On(1, Marked(Alter, &[]), "refused 2"),
    Holds("opened 1, horizon 0, line flush"),
];

#[test]
fn a_mark_is_refused_at_a_line_alone(rt: HostRuntime) {
    play(&rt, rt.alloc(), &[MARKS]);
}

/// Outside a request an outcome is told, and a request may be begun or ended twice; a call behind
/// the end is refused.
const BEHIND_THE_END: &[Step] = &[
    Joins(1),
    On(1, Connect, "hello 1.1.0"),
    On(1, End, "nothing"),
    On(1, Outcome(1, 9, 0), "committed false, completed false"),
    On(1, Begin, "nothing"),
    On(1, Begin, "nothing"),
    On(1, Call(Insert(1)), "done 1 at 1.1.0"),
    On(1, End, "nothing"),
    On(1, End, "nothing"),
    On(1, Call(Commit), "refused 2"),
    Holds("opened 1, horizon 0, blocked 1.9.0"),
];

#[test]
fn a_call_behind_the_end_of_a_request_is_refused(rt: HostRuntime) {
    play(&rt, rt.alloc(), &[BEHIND_THE_END]);
}

const CLOSED: &[Step] = &[
    Joins(1),
    On(1, Connect, "hello 1.1.0"),
    On(1, Close, "nothing"),
    Joins(1),
    On(1, Connect, "hello 1.2.0"),
];

#[test]
fn a_closed_connection_is_free_again(rt: HostRuntime) {
    play(&rt, rt.alloc(), &[CLOSED]);
}
