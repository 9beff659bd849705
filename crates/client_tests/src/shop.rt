//! Two customers of a shop, each behind a driver of its own: one whose sale is lost in a cut, and
//! one whose commit is stored in a crash.
use crate::answers::Drawn;
use crate::answers::Says::{Committed, DoneTwice, Item, Sale};
use crate::conversation::Rule::Static;
use crate::conversation::{Conversation, all_go};
use crate::lines::Acts::{
    Again, Asks, Begin, Call as Sends, Connect, End, GivesBack, Shows, ShowsDrawn,
};
use crate::lines::Came::{Drew, Hello, Outcome, Reply};
use crate::lines::Comes::{Frame, Gone, Opened, Start};
use crate::lines::{ASKED_AFTER_A_CRASH, OPENED, Parts};
use crate::script::Does::{Commit, GetItem, Sales, Sell};

const SALE_IS_CUT: Parts = &[
    OPENED,
    &[
        (
            0,
            Frame(Reply(Item(1), (1, 1, 0))),
            &[Sends(1), Shows(Item(1), (1, 1, 0))],
        ),
        (0, Gone(19), &[]),
    ],
    ASKED_AFTER_A_CRASH,
    &[
        (1, Frame(Outcome(false, false)), &[Begin, Again(0)]),
        (2, Frame(Reply(Item(1), (2, 1, 0))), &[Sends(1)]),
        (
            3,
            Frame(Drew(DoneTwice, Drawn::Sale(1017, 2), (2, 1, 0))),
            &[
                Sends(2),
                ShowsDrawn(DoneTwice, Drawn::Sale(1017, 2), (2, 1, 0)),
            ],
        ),
        (
            4,
            Frame(Reply(Committed, (2, 1, 1))),
            &[Sends(3), Shows(Committed, (2, 1, 1))],
        ),
        (
            5,
            Frame(Reply(Sale(1017, 1, 2), (2, 1, 1))),
            &[End, Shows(Sale(1017, 1, 2), (2, 1, 1)), GivesBack],
        ),
    ],
];

const COMMIT_IS_IN_A_CRASH: Parts = &[&[
    (0, Start, &[]),
    (0, Opened, &[Connect]),
    (0, Frame(Hello((1, 2, 0))), &[Begin, Sends(0)]),
    (
        0,
        Frame(Reply(Item(2), (1, 2, 0))),
        &[Sends(1), Shows(Item(2), (1, 2, 0))],
    ),
    (
        0,
        Frame(Drew(DoneTwice, Drawn::Sale(1002, 0), (1, 2, 0))),
        &[
            Sends(2),
            ShowsDrawn(DoneTwice, Drawn::Sale(1002, 0), (1, 2, 0)),
        ],
    ),
    (0, Gone(23), &[]),
    (0, Opened, &[Connect]),
    (1, Frame(Hello((2, 2, 0))), &[Asks((1, 2, 0))]),
    (
        2,
        Frame(Outcome(true, true)),
        &[Begin, Sends(3), Shows(Committed, (2, 2, 0))],
    ),
    (
        3,
        Frame(Reply(Sale(1002, 2, 0), (2, 2, 0))),
        &[End, Shows(Sale(1002, 2, 0), (2, 2, 0)), GivesBack],
    ),
]];

const CUSTOMERS: &[Conversation] = &[
    (
        Static,
        &[GetItem(1), Sell(1), Commit, Sales(1)],
        SALE_IS_CUT,
    ),
    (
        Static,
        &[GetItem(2), Sell(2), Commit, Sales(2)],
        COMMIT_IS_IN_A_CRASH,
    ),
];

#[test]
fn customers_of_a_shop(rt: HostRuntime) {
    all_go(&rt, rt.alloc(), CUSTOMERS);
}
