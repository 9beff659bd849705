//! An insert and a commit: without an outage, and with cuts, crashes and blocks, each at its place.
use crate::answers::Says::{Committed, Done, Named};
use crate::conversation::Rule::{Dynamic, Static};
use crate::conversation::{Conversation, all_go};
use crate::lines::Acts::{
    Again, Asks, Begin, Call as Sends, Close, Connect, Drops, End, Fails, GivesBack, Shows,
};
use crate::lines::Came::{Blocked, Forgotten, Hello, Outcome, Reply};
use crate::lines::Comes::{Frame, Gone, Last, Opened};
use crate::lines::{ASKED, ASKED_AFTER_A_CRASH, FIRST_IS_DONE, Line, OPENED, Parts};
use crate::script::Does::{self, Commit, Insert, InsertCommit, Read};
use driver_core::Failed::{Incomplete, Unknown};
use svc_values::Ltxid;

/// The identifier of the first session before its first commit.
const FIRST: Ltxid = Ltxid {
    incarnation: 1,
    session: 1,
    number: 0,
};

const WITHOUT_AN_OUTAGE: Parts = &[
    OPENED,
    FIRST_IS_DONE,
    &[
        (
            0,
            Frame(Reply(Named(1), (1, 1, 0))),
            &[Sends(2), Shows(Named(1), (1, 1, 0))],
        ),
        (
            0,
            Frame(Reply(Committed, (1, 1, 1))),
            &[End, Shows(Committed, (1, 1, 1)), GivesBack],
        ),
    ],
];

const TWO_TRANSACTIONS: Parts = &[
    OPENED,
    FIRST_IS_DONE,
    &[
        (
            0,
            Frame(Reply(Committed, (1, 1, 1))),
            &[Sends(2), Shows(Committed, (1, 1, 1))],
        ),
        (
            0,
            Frame(Reply(Done, (1, 1, 1))),
            &[Sends(3), Shows(Done, (1, 1, 1))],
        ),
        (
            0,
            Frame(Reply(Committed, (1, 1, 2))),
            &[End, Shows(Committed, (1, 1, 2)), GivesBack],
        ),
    ],
];

const TWO_INSERTS: &[Does] = &[Insert(1), Commit, Insert(2), Commit];

const UNDISTURBED: &[Conversation] = &[
    (Dynamic, &[Insert(1), Read, Commit], WITHOUT_AN_OUTAGE),
    (Dynamic, TWO_INSERTS, TWO_TRANSACTIONS),
    (Static, TWO_INSERTS, TWO_TRANSACTIONS),
];

#[test]
fn requests_without_an_outage(rt: HostRuntime) {
    all_go(&rt, rt.alloc(), UNDISTURBED);
}

const AN_INSERT: &[Does] = &[Insert(1), Commit];

/// Nothing was shown, so the first call goes out again as if it never had.
const RUNS_FROM_THE_START: &[Line] = &[
    (0, Frame(Outcome(false, false)), &[Begin, Sends(0)]),
    (
        0,
        Frame(Reply(Done, (1, 2, 0))),
        &[Sends(1), Shows(Done, (1, 2, 0))],
    ),
    (
        0,
        Frame(Reply(Committed, (1, 2, 1))),
        &[End, Shows(Committed, (1, 2, 1)), GivesBack],
    ),
];

/// The insert is repeated with the mark, then the commit goes out without it.
const REPEATS_THE_INSERT: &[Line] = &[
    (0, Frame(Outcome(false, false)), &[Begin, Again(0)]),
    (0, Frame(Reply(Done, (1, 2, 0))), &[Sends(1)]),
    (
        0,
        Frame(Reply(Committed, (1, 2, 1))),
        &[End, Shows(Committed, (1, 2, 1)), GivesBack],
    ),
];

const IS_COMMITTED: &[Line] = &[(
    0,
    Frame(Outcome(true, true)),
    &[End, Shows(Committed, (1, 2, 0)), GivesBack],
)];

const BEFORE_A_CALL_WAS_SERVED: Parts = &[OPENED, &[(0, Gone(4), &[])], ASKED, RUNS_FROM_THE_START];

const INSIDE_A_REPLY: Parts = &[OPENED, &[(0, Gone(6), &[])], ASKED, RUNS_FROM_THE_START];

const BEHIND_A_REPLY: Parts = &[
    OPENED,
    &[
        (0, Last(Reply(Done, (1, 1, 0))), &[Shows(Done, (1, 1, 0))]),
        (0, Gone(6), &[]),
    ],
    ASKED,
    REPEATS_THE_INSERT,
];

const AFTER_A_COMMIT: Parts = &[
    OPENED,
    FIRST_IS_DONE,
    &[(0, Gone(8), &[])],
    ASKED,
    IS_COMMITTED,
];

const COMMIT_OF_AN_ORPHAN_STANDS: Parts = &[
    OPENED,
    FIRST_IS_DONE,
    &[(0, Gone(7), &[])],
    ASKED,
    IS_COMMITTED,
];

const COMMIT_OF_AN_ORPHAN_IS_BLOCKED: Parts = &[
    OPENED,
    FIRST_IS_DONE,
    &[(0, Gone(7), &[])],
    ASKED,
    REPEATS_THE_INSERT,
];

const BLOCKED_FROM_OUTSIDE: Parts = &[
    OPENED,
    FIRST_IS_DONE,
    &[(0, Last(Blocked), &[]), (0, Gone(8), &[])],
    ASKED,
    REPEATS_THE_INSERT,
];

const CUTS_AND_BLOCKS: &[Conversation] = &[
    (Dynamic, AN_INSERT, BEFORE_A_CALL_WAS_SERVED),
    (Dynamic, AN_INSERT, INSIDE_A_REPLY),
    (Dynamic, AN_INSERT, BEHIND_A_REPLY),
    (Dynamic, AN_INSERT, AFTER_A_COMMIT),
    (Dynamic, AN_INSERT, COMMIT_OF_AN_ORPHAN_STANDS),
    (Dynamic, AN_INSERT, COMMIT_OF_AN_ORPHAN_IS_BLOCKED),
    (Dynamic, AN_INSERT, BLOCKED_FROM_OUTSIDE),
];

#[test]
fn cuts_and_blocks_around_an_insert_and_a_commit(rt: HostRuntime) {
    all_go(&rt, rt.alloc(), CUTS_AND_BLOCKS);
}

/// The commit was sent, and a crash came while it was served.
const CRASH_IN_A_COMMIT: &[Line] = &[(0, Gone(7), &[])];

const COMMIT_IS_STORED: Parts = &[
    OPENED,
    FIRST_IS_DONE,
    CRASH_IN_A_COMMIT,
    ASKED_AFTER_A_CRASH,
    &[(
        0,
        Frame(Outcome(true, true)),
        &[End, Shows(Committed, (2, 1, 0)), GivesBack],
    )],
];

const COMMIT_IS_NOT_STORED: Parts = &[
    OPENED,
    FIRST_IS_DONE,
    CRASH_IN_A_COMMIT,
    ASKED_AFTER_A_CRASH,
    &[
        (0, Frame(Outcome(false, false)), &[Begin, Again(0)]),
        (0, Frame(Reply(Done, (2, 1, 0))), &[Sends(1)]),
        (
            0,
            Frame(Reply(Committed, (2, 1, 1))),
            &[End, Shows(Committed, (2, 1, 1)), GivesBack],
        ),
    ],
];

/// An opening was stopped as well, so the next one is of the third incarnation.
const OPENING_IS_STOPPED: Parts = &[
    OPENED,
    FIRST_IS_DONE,
    &[
        (0, Gone(6), &[]),
        (0, Opened, &[Connect]),
        (0, Frame(Hello((3, 1, 0))), &[Asks((1, 1, 0))]),
        (0, Frame(Outcome(false, false)), &[Begin, Again(0)]),
        (0, Frame(Reply(Done, (3, 1, 0))), &[Sends(1)]),
        (
            0,
            Frame(Reply(Committed, (3, 1, 1))),
            &[End, Shows(Committed, (3, 1, 1)), GivesBack],
        ),
    ],
];

const OUTCOME_IS_FORGOTTEN: Parts = &[
    OPENED,
    FIRST_IS_DONE,
    CRASH_IN_A_COMMIT,
    &[
        (6, Opened, &[Connect]),
        (6, Frame(Hello((2, 1, 0))), &[Asks((1, 1, 0))]),
        (
            6,
            Frame(Forgotten),
            &[Close, Fails(Unknown { ltxid: FIRST }), Drops],
        ),
    ],
];

const CRASHES: &[Conversation] = &[
    (Dynamic, AN_INSERT, COMMIT_IS_STORED),
    (Dynamic, AN_INSERT, COMMIT_IS_NOT_STORED),
    (Dynamic, AN_INSERT, OPENING_IS_STOPPED),
    (Dynamic, AN_INSERT, OUTCOME_IS_FORGOTTEN),
];

#[test]
fn crashes_in_a_commit(rt: HostRuntime) {
    all_go(&rt, rt.alloc(), CRASHES);
}

const COMMITTED_BUT_NOT_COMPLETED: Parts = &[
    OPENED,
    &[(0, Gone(6), &[])],
    ASKED,
    &[(
        0,
        Frame(Outcome(true, false)),
        &[Close, Fails(Incomplete { ltxid: FIRST }), Drops],
    )],
];

const ALL_AT_ONCE: &[Conversation] = &[(Dynamic, &[InsertCommit], COMMITTED_BUT_NOT_COMPLETED)];

#[test]
fn an_insert_with_its_commit(rt: HostRuntime) {
    all_go(&rt, rt.alloc(), ALL_AT_ONCE);
}
