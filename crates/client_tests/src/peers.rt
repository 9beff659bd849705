//! Losses at the second session, and frames that no server sends.
use crate::answers::Says::{Committed, Done};
use crate::conversation::Rule::Dynamic;
use crate::conversation::{Conversation, all_go};
use crate::lines::Acts::{
    Asks, Begin, Call as Sends, Close, Connect, Drops, End, Fails, GivesBack, Shows,
};
use crate::lines::Came::{Apart, Hello, Outcome, Reply};
use crate::lines::Comes::{Frame, Gone, Last, Lent, Opened, Start};
use crate::lines::{ASKED, OPENED, Parts};
use crate::script::Does::Commit;
use driver_core::Failed::BadPeer;

/// The connection that asks is lost as well: the first identifier is asked again.
const LOST_WHILE_IT_ASKS: Parts = &[
    OPENED,
    &[(0, Gone(4), &[])],
    ASKED,
    &[
        (0, Gone(7), &[]),
        (0, Opened, &[Connect]),
        (0, Frame(Hello((1, 3, 0))), &[Asks((1, 1, 0))]),
        (
            0,
            Frame(Outcome(true, true)),
            &[End, Shows(Committed, (1, 3, 0)), GivesBack],
        ),
    ],
];

/// The outcome was taken, so the identifier is that of the session that gave it, and a replay
/// counts as started although nothing could be sent.
const LOST_BEHIND_AN_OUTCOME: Parts = &[
    OPENED,
    &[(0, Gone(4), &[])],
    ASKED,
    &[
        (0, Last(Outcome(false, false)), &[]),
        (0, Gone(7), &[]),
        (0, Opened, &[Connect]),
        (0, Frame(Hello((1, 3, 0))), &[Asks((1, 2, 0))]),
        (
            0,
            Frame(Outcome(true, true)),
            &[End, Shows(Committed, (1, 3, 0)), GivesBack],
        ),
    ],
];

/// Before the first Begin was sent nothing is lost but a connection.
const LOST_BEFORE_ITS_BEGIN: Parts = &[&[
    (0, Start, &[]),
    (0, Opened, &[Connect]),
    (0, Last(Hello((1, 1, 0))), &[]),
    (0, Gone(4), &[]),
    (0, Opened, &[Connect]),
    (0, Gone(6), &[]),
    (0, Opened, &[Connect]),
    (0, Frame(Hello((1, 2, 0))), &[Begin, Sends(0)]),
    (
        0,
        Last(Reply(Committed, (1, 2, 1))),
        &[Shows(Committed, (1, 2, 1)), Drops],
    ),
]];

const TWO_LOSSES: &[Conversation] = &[
    (Dynamic, &[Commit], LOST_WHILE_IT_ASKS),
    (Dynamic, &[Commit], LOST_BEHIND_AN_OUTCOME),
    (Dynamic, &[Commit], LOST_BEFORE_ITS_BEGIN),
];

#[test]
fn a_second_loss(rt: HostRuntime) {
    all_go(&rt, rt.alloc(), TWO_LOSSES);
}

const OUTCOME_THAT_WAS_NOT_ASKED: Parts = &[&[
    (0, Start, &[]),
    (0, Lent((1, 1, 0)), &[Begin, Sends(0)]),
    (
        0,
        Frame(Outcome(true, true)),
        &[Close, Fails(BadPeer { tag: 19 }), Drops],
    ),
]];

const REPLY_IN_PLACE_OF_HELLO: Parts = &[&[
    (0, Start, &[]),
    (0, Opened, &[Connect]),
    (
        0,
        Frame(Reply(Done, (1, 1, 0))),
        &[Close, Fails(BadPeer { tag: 18 }), Drops],
    ),
]];

const SERVER_IS_AHEAD: Parts = &[
    OPENED,
    &[(0, Gone(4), &[])],
    ASKED,
    &[(0, Frame(Apart), &[Close, Fails(BadPeer { tag: 20 }), Drops])],
];

const BAD_PEERS: &[Conversation] = &[
    (Dynamic, &[Commit], OUTCOME_THAT_WAS_NOT_ASKED),
    (Dynamic, &[Commit], REPLY_IN_PLACE_OF_HELLO),
    (Dynamic, &[Commit], SERVER_IS_AHEAD),
];

#[test]
fn frames_that_no_server_sends(rt: HostRuntime) {
    all_go(&rt, rt.alloc(), BAD_PEERS);
}
