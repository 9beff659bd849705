//! Reasons against a replay, and settings that are kept or lost.
use crate::answers::Says::{Committed, Done, Setting};
use crate::conversation::Rule::{self, Auto, Dynamic, Static};
use crate::conversation::{Conversation, all_go};
use crate::lines::Acts::{
    Again, Asks, Begin, BeginSet, Call as Sends, Close, Connect, Drops, End, Fails, GivesBack,
    Shows,
};
use crate::lines::Came::{Hello, Outcome, Reply};
use crate::lines::Comes::{Frame, Gone, Last, Opened};
use crate::lines::{ASKED, Line, OPENED, Parts};
use crate::script::Does::{self, Alter, Commit, Count, Disable, Insert, Set, ShowSet};
use driver_core::Failed::Disabled;
use request_bounds::Why::{AfterCommit, Asked, Off, Restricted, Settings, StateLost};

/// The first call was shown, and the second is lost by event 7.
const SECOND_IS_LOST: &[Line] = &[
    (
        0,
        Frame(Reply(Done, (1, 1, 0))),
        &[Sends(1), Shows(Done, (1, 1, 0))],
    ),
    (0, Gone(7), &[]),
];

const ALTER_WAS_SHOWN: Parts = &[
    OPENED,
    SECOND_IS_LOST,
    ASKED,
    &[(
        0,
        Frame(Outcome(false, false)),
        &[
            Close,
            Fails(Disabled {
                why: Restricted(0),
                event: 7,
            }),
            Drops,
        ],
    )],
];

const ALTER_IS_LOST: Parts = &[
    OPENED,
    &[(0, Gone(6), &[])],
    ASKED,
    &[(
        0,
        Frame(Outcome(false, false)),
        &[
            Close,
            Fails(Disabled {
                why: Restricted(0),
                event: 6,
            }),
            Drops,
        ],
    )],
];

const SET_WHERE_STATIC: Parts = &[
    OPENED,
    SECOND_IS_LOST,
    ASKED,
    &[(
        0,
        Frame(Outcome(false, false)),
        &[
            Close,
            Fails(Disabled {
                why: Settings(0),
                event: 7,
            }),
            Drops,
        ],
    )],
];

const NOT_TO_BE_REPLAYED: Parts = &[
    OPENED,
    SECOND_IS_LOST,
    ASKED,
    &[(
        0,
        Frame(Outcome(false, false)),
        &[
            Close,
            Fails(Disabled {
                why: Asked(0),
                event: 7,
            }),
            Drops,
        ],
    )],
];

const NO_REPLAY_AT_ALL: Parts = &[
    OPENED,
    SECOND_IS_LOST,
    ASKED,
    &[(
        0,
        Frame(Outcome(false, false)),
        &[Close, Fails(Disabled { why: Off, event: 7 }), Drops],
    )],
];

/// Committed and completed comes before every reason.
const COMPLETED_ALL_THE_SAME: Parts = &[
    OPENED,
    SECOND_IS_LOST,
    ASKED,
    &[(
        0,
        Frame(Outcome(true, true)),
        &[End, Shows(Committed, (1, 2, 0)), GivesBack],
    )],
];

const NOT_REPEATED: &[Conversation] = &[
    (Dynamic, &[Alter, Count], ALTER_WAS_SHOWN),
    (Dynamic, &[Alter, Count], ALTER_IS_LOST),
    (Static, &[Set, Count], SET_WHERE_STATIC),
    (Static, &[Disable, Count], NOT_TO_BE_REPLAYED),
    (Rule::Off, &[Insert(1), Count], NO_REPLAY_AT_ALL),
    (Rule::Off, &[Insert(1), Commit], COMPLETED_ALL_THE_SAME),
];

#[test]
fn a_call_that_is_not_repeated(rt: HostRuntime) {
    all_go(&rt, rt.alloc(), NOT_REPEATED);
}

/// A commit was shown, and the call behind it is lost by event 9.
const THIRD_IS_LOST: &[Line] = &[
    (
        0,
        Frame(Reply(Done, (1, 1, 0))),
        &[Sends(1), Shows(Done, (1, 1, 0))],
    ),
    (
        0,
        Frame(Reply(Committed, (1, 1, 1))),
        &[Sends(2), Shows(Committed, (1, 1, 1))],
    ),
    (0, Gone(9), &[]),
    (0, Opened, &[Connect]),
    (0, Frame(Hello((1, 2, 0))), &[Asks((1, 1, 1))]),
];

const BEHIND_A_COMMIT: Parts = &[
    OPENED,
    THIRD_IS_LOST,
    &[(
        0,
        Frame(Outcome(false, false)),
        &[
            Close,
            Fails(Disabled {
                why: AfterCommit,
                event: 9,
            }),
            Drops,
        ],
    )],
];

/// Each transaction is replayed by itself.
const SECOND_TRANSACTION: Parts = &[
    OPENED,
    THIRD_IS_LOST,
    &[
        (0, Frame(Outcome(false, false)), &[Begin, Sends(2)]),
        (
            0,
            Frame(Reply(Done, (1, 2, 0))),
            &[Sends(3), Shows(Done, (1, 2, 0))],
        ),
        (
            0,
            Frame(Reply(Committed, (1, 2, 1))),
            &[End, Shows(Committed, (1, 2, 1)), GivesBack],
        ),
    ],
];

const TWO_INSERTS: &[Does] = &[Insert(1), Commit, Insert(2), Commit];

const TWO_TRANSACTIONS: &[Conversation] = &[
    (Dynamic, TWO_INSERTS, BEHIND_A_COMMIT),
    (Static, TWO_INSERTS, SECOND_TRANSACTION),
    (Auto, TWO_INSERTS, SECOND_TRANSACTION),
];

#[test]
fn a_second_transaction(rt: HostRuntime) {
    all_go(&rt, rt.alloc(), TWO_TRANSACTIONS);
}

/// The commit is lost behind a `set`, and is shown by its outcome.
const COMMIT_BEHIND_A_SET: &[Line] = &[
    (
        0,
        Frame(Reply(Done, (1, 1, 0))),
        &[Sends(1), Shows(Done, (1, 1, 0))],
    ),
    (0, Gone(8), &[]),
];

const SETTINGS_ARE_LOST: Parts = &[
    OPENED,
    COMMIT_BEHIND_A_SET,
    ASKED,
    &[(
        0,
        Frame(Outcome(true, true)),
        &[
            Close,
            Shows(Committed, (1, 2, 0)),
            Fails(Disabled {
                why: StateLost(2),
                event: 8,
            }),
            Drops,
        ],
    )],
];

const SETTINGS_ARE_KEPT: Parts = &[
    OPENED,
    COMMIT_BEHIND_A_SET,
    ASKED,
    &[
        (
            0,
            Frame(Outcome(true, true)),
            &[BeginSet, Sends(2), Shows(Committed, (1, 2, 0))],
        ),
        (
            0,
            Frame(Reply(Setting, (1, 2, 0))),
            &[End, Shows(Setting, (1, 2, 0)), GivesBack],
        ),
    ],
];

/// A server that says so of a `set` has it shown, and it counts as one.
const SET_BY_AN_OUTCOME: Parts = &[
    OPENED,
    &[(0, Gone(4), &[])],
    ASKED,
    &[(
        0,
        Frame(Outcome(true, true)),
        &[
            Close,
            Shows(Committed, (1, 2, 0)),
            Fails(Disabled {
                why: StateLost(1),
                event: 4,
            }),
            Drops,
        ],
    )],
];

const BEHIND_AN_OUTCOME: &[Conversation] = &[
    (Dynamic, &[Set, Commit, ShowSet], SETTINGS_ARE_LOST),
    (Auto, &[Set, Commit, ShowSet], SETTINGS_ARE_KEPT),
    (Dynamic, &[Set, ShowSet], SET_BY_AN_OUTCOME),
];

#[test]
fn settings_behind_an_outcome(rt: HostRuntime) {
    all_go(&rt, rt.alloc(), BEHIND_AN_OUTCOME);
}

/// A `set` that no purge came behind is repeated, and is not among the settings of a Begin.
const SET_IS_REPEATED: Parts = &[
    OPENED,
    SECOND_IS_LOST,
    ASKED,
    &[(0, Frame(Outcome(false, false)), &[Begin, Again(0)])],
];

const REPEATED: &[Conversation] = &[
    (Auto, &[Set, Commit], SET_IS_REPEATED),
    (Dynamic, &[Set, Commit], SET_IS_REPEATED),
];

#[test]
fn a_set_that_is_repeated(rt: HostRuntime) {
    all_go(&rt, rt.alloc(), REPEATED);
}

/// The reply was the last one on its connection, so the `alter` was not submitted.
const NOT_SUBMITTED_BEFORE: Parts = &[
    OPENED,
    &[
        (
            0,
            Last(Reply(Committed, (1, 1, 1))),
            &[Shows(Committed, (1, 1, 1))],
        ),
        (0, Gone(6), &[]),
        (0, Opened, &[Connect]),
        (0, Frame(Hello((1, 2, 0))), &[Asks((1, 1, 1))]),
        (0, Frame(Outcome(false, false)), &[Begin, Sends(1)]),
        (
            0,
            Frame(Reply(Done, (1, 2, 0))),
            &[End, Shows(Done, (1, 2, 0)), GivesBack],
        ),
    ],
];

const NOT_SUBMITTED: &[Conversation] = &[(Static, &[Commit, Alter], NOT_SUBMITTED_BEFORE)];

#[test]
fn a_call_that_was_not_submitted_is_no_reason(rt: HostRuntime) {
    all_go(&rt, rt.alloc(), NOT_SUBMITTED);
}
