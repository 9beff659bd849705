//! Limits: on replays, tries, ticks, and the time in the queue.
use crate::answers::Says::{Committed, Done, Number};
use crate::conversation::Rule::Dynamic;
use crate::conversation::{Conversation, LIMITS, all_go, goes_within};
use crate::lines::Acts::{
    Asks, Begin, Call as Sends, Close, Connect, Drops, End, Fails, GivesBack, Shows,
};
use crate::lines::Came::{Hello, Outcome, Reply};
use crate::lines::Comes::{Frame, Gone, Lent, NotOpened, Opened, Start, Waiting};
use crate::lines::{ASKED, Line, OPENED, Parts};
use crate::script::Does::{self, Commit, Count, Insert};
use driver_core::Failed::{PoolWait, ReplayTimeout, Replays, Retries};
use request_bounds::{Clocked, DynamicRule};

const THREE_CYCLES: &[Line] = &[
    (0, Frame(Outcome(false, false)), &[Begin, Sends(0)]),
    (0, Gone(11), &[]),
    (0, Opened, &[Connect]),
    (0, Frame(Hello((1, 3, 0))), &[Asks((1, 2, 0))]),
    (0, Frame(Outcome(false, false)), &[Begin, Sends(0)]),
    (0, Gone(18), &[]),
    (0, Opened, &[Connect]),
    (0, Frame(Hello((1, 4, 0))), &[Asks((1, 3, 0))]),
    (0, Frame(Outcome(false, false)), &[Begin, Sends(0)]),
    (0, Gone(25), &[]),
    (0, Opened, &[Connect]),
    (0, Frame(Hello((1, 5, 0))), &[Asks((1, 4, 0))]),
    (0, Frame(Outcome(false, false)), &[Begin, Sends(0)]),
];

const FOUR_REPLAYS: Parts = &[
    OPENED,
    &[(0, Gone(4), &[])],
    ASKED,
    THREE_CYCLES,
    &[
        (
            0,
            Frame(Reply(Done, (1, 5, 0))),
            &[Sends(1), Shows(Done, (1, 5, 0))],
        ),
        (
            0,
            Frame(Reply(Committed, (1, 5, 1))),
            &[End, Shows(Committed, (1, 5, 1)), GivesBack],
        ),
    ],
];

const ONE_REPLAY_MORE: Parts = &[
    OPENED,
    &[(0, Gone(4), &[])],
    ASKED,
    THREE_CYCLES,
    &[
        (0, Gone(32), &[]),
        (0, Opened, &[Connect]),
        (0, Frame(Hello((1, 6, 0))), &[Asks((1, 5, 0))]),
        (
            0,
            Frame(Outcome(false, false)),
            &[
                Close,
                Fails(Replays {
                    limit: 4,
                    event: 32,
                }),
                Drops,
            ],
        ),
    ],
];

const NO_TRY_IS_LEFT: Parts = &[
    OPENED,
    &[
        (0, Gone(4), &[]),
        (0, NotOpened, &[]),
        (0, NotOpened, &[]),
        (0, NotOpened, &[Fails(Retries { tries: 3 }), Drops]),
    ],
];

/// A try that succeeds begins the row anew.
const TRIES_IN_TWO_ROWS: Parts = &[
    OPENED,
    &[
        (0, Gone(4), &[]),
        (0, NotOpened, &[]),
        (0, NotOpened, &[]),
        (0, Opened, &[Connect]),
        (0, Gone(8), &[]),
        (0, NotOpened, &[]),
        (0, NotOpened, &[]),
        (0, NotOpened, &[Fails(Retries { tries: 3 }), Drops]),
    ],
];

const TOO_LATE: Parts = &[
    OPENED,
    &[(0, Gone(4), &[])],
    ASKED,
    &[(
        6,
        Frame(Outcome(false, false)),
        &[Close, Fails(ReplayTimeout { first: 0, ready: 6 }), Drops],
    )],
];

const AT_THE_LAST_TICK: Parts = &[
    OPENED,
    &[(0, Gone(4), &[])],
    ASKED,
    &[(5, Frame(Outcome(false, false)), &[Begin, Sends(0)])],
];

const AN_INSERT: &[Does] = &[Insert(1), Commit];

const REPLAYS_AND_TRIES: &[Conversation] = &[
    (Dynamic, AN_INSERT, FOUR_REPLAYS),
    (Dynamic, AN_INSERT, ONE_REPLAY_MORE),
    (Dynamic, AN_INSERT, NO_TRY_IS_LEFT),
    (Dynamic, AN_INSERT, TRIES_IN_TWO_ROWS),
    (Dynamic, AN_INSERT, TOO_LATE),
    (Dynamic, AN_INSERT, AT_THE_LAST_TICK),
];

#[test]
fn limits_of_replays_and_tries(rt: HostRuntime) {
    all_go(&rt, rt.alloc(), REPLAYS_AND_TRIES);
}

const WAITS_TOO_LONG: Parts = &[&[
    (0, Start, &[]),
    (0, Waiting, &[]),
    (4, Waiting, &[]),
    (5, Waiting, &[Fails(PoolWait { first: 0, now: 5 }), Drops]),
]];

/// With more time to wait: another request gives its connection back, and it is lent.
const WAITS_AND_IS_LENT: Parts = &[&[
    (0, Start, &[]),
    (0, Waiting, &[]),
    (5, Waiting, &[]),
    (8, Lent((1, 1, 1)), &[Begin, Sends(0)]),
    (
        8,
        Frame(Reply(Number(1), (1, 1, 1))),
        &[End, Shows(Number(1), (1, 1, 1)), GivesBack],
    ),
]];

const A_WAIT: &[Conversation] = &[(Dynamic, &[Count], WAITS_TOO_LONG)];

const EIGHT_TICKS: Clocked = Clocked { wait: 8, ..LIMITS };

#[test]
fn limits_of_waiting(rt: HostRuntime) {
    let alloc = rt.alloc();
    all_go(&rt, alloc, A_WAIT);
    let parts = WAITS_AND_IS_LENT;
    assert!(rt; goes_within(&rt, alloc, DynamicRule, EIGHT_TICKS, 2, &[Count], parts));
}
