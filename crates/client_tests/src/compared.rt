//! Repeated calls whose answers are compared with the recorded ones.
use crate::answers::Drawn::{self, Next};
use crate::answers::Says::{
    self, Balance, Committed, Done, DoneConflict, DoneInReplay, Duplicate, Named, Number,
};
use crate::conversation::Rule::{Dynamic, Static};
use crate::conversation::{Conversation, all_go};
use crate::lines::Acts::{
    Again, AgainWith, Begin, Call as Sends, Close, Drops, End, Fails, GivesBack, Shows, ShowsDrawn,
};
use crate::lines::Came::{Drew, Outcome, Reply};
use crate::lines::Comes::{Frame, Gone};
use crate::lines::{ASKED, ASKED_ON_THE_THIRD, Line, OPENED, Parts};
use crate::script::Does::{
    self, Commit, Count, Get, InsertCommit, InsertDrawn, SelectA, ShowDrawn, UpdateCommit,
};
use driver_core::Failed::Mismatch;

/// SHA-256 of the canonical bytes of one answer with the row 1, 100.
const ROW_OF_100: [u8; 32] = [
    250, 120, 119, 47, 88, 1, 51, 64, 167, 18, 18, 80, 101, 181, 44, 202, 13, 240, 89, 233, 146,
    187, 148, 29, 189, 36, 174, 47, 147, 250, 252, 16,
];

/// The same with the row 1, 90.
const ROW_OF_90: [u8; 32] = [
    151, 42, 130, 211, 72, 203, 246, 153, 108, 197, 204, 188, 200, 168, 146, 123, 229, 178, 214,
    154, 176, 45, 17, 197, 227, 94, 169, 12, 75, 93, 234, 79,
];

/// One answer, refused for a duplicate key.
const DUPLICATE: [u8; 32] = [
    89, 196, 43, 47, 226, 91, 27, 168, 164, 17, 169, 101, 242, 81, 206, 184, 117, 34, 16, 65, 208,
    64, 64, 11, 80, 201, 4, 70, 19, 214, 128, 254,
];

/// One row done, and a commit in a replay.
const DONE_IN_REPLAY: [u8; 32] = [
    134, 14, 176, 249, 8, 64, 173, 49, 226, 130, 234, 134, 46, 28, 203, 158, 237, 195, 213, 188,
    130, 241, 29, 45, 98, 200, 38, 253, 210, 222, 130, 237,
];

/// The row 1, `a`.
const FIRST_ROW: [u8; 32] = [
    50, 69, 227, 169, 7, 86, 69, 87, 226, 230, 173, 145, 94, 175, 228, 209, 140, 60, 84, 78, 91,
    241, 31, 130, 49, 37, 24, 171, 87, 107, 52, 1,
];

/// The row 2, `a`.
const SECOND_ROW: [u8; 32] = [
    85, 251, 65, 239, 183, 87, 35, 216, 157, 252, 114, 236, 247, 183, 211, 159, 188, 198, 44, 171,
    106, 203, 223, 108, 182, 133, 124, 252, 141, 206, 105, 144,
];

/// The first identifier of the first incarnation, in a row.
const FIRST_IDENTIFIER: [u8; 32] = [
    0, 45, 80, 107, 2, 16, 36, 2, 17, 220, 87, 214, 24, 174, 43, 254, 59, 214, 42, 95, 22, 138, 30,
    174, 29, 91, 188, 5, 201, 175, 49, 170,
];

/// The second one.
const SECOND_IDENTIFIER: [u8; 32] = [
    69, 174, 117, 2, 248, 231, 52, 175, 76, 202, 15, 9, 88, 112, 153, 198, 74, 18, 233, 218, 7, 63,
    34, 83, 106, 219, 54, 35, 113, 119, 154, 65,
];

/// An account was read, and the update behind it is lost by event 7.
const UPDATE_IS_LOST: &[Line] = &[
    (
        0,
        Frame(Reply(Balance(100), (1, 1, 0))),
        &[Sends(1), Shows(Balance(100), (1, 1, 0))],
    ),
    (0, Gone(7), &[]),
];

const READ_HAS_CHANGED: Parts = &[
    OPENED,
    UPDATE_IS_LOST,
    ASKED_ON_THE_THIRD,
    &[
        (0, Frame(Outcome(false, false)), &[Begin, Again(0)]),
        (
            0,
            Frame(Reply(Balance(90), (1, 3, 0))),
            &[
                Close,
                Fails(Mismatch {
                    call: 0,
                    seen: ROW_OF_100,
                    now: ROW_OF_90,
                }),
                Drops,
            ],
        ),
    ],
];

const A_CHANGED_READ: &[Conversation] = &[(Dynamic, &[Get, UpdateCommit], READ_HAS_CHANGED)];

#[test]
fn a_read_that_has_changed_is_told(rt: HostRuntime) {
    all_go(&rt, rt.alloc(), A_CHANGED_READ);
}

const REFUSED_THEN_DONE: Parts = &[
    OPENED,
    &[
        (
            0,
            Frame(Reply(Duplicate, (1, 1, 0))),
            &[Sends(1), Shows(Duplicate, (1, 1, 0))],
        ),
        (0, Gone(7), &[]),
    ],
    ASKED_ON_THE_THIRD,
    &[
        (0, Frame(Outcome(false, false)), &[Begin, Again(0)]),
        (
            0,
            Frame(Reply(DoneInReplay, (1, 3, 0))),
            &[
                Close,
                Fails(Mismatch {
                    call: 0,
                    seen: DUPLICATE,
                    now: DONE_IN_REPLAY,
                }),
                Drops,
            ],
        ),
    ],
];

const A_REFUSED_CALL: &[Conversation] = &[(Dynamic, &[InsertCommit, Count], REFUSED_THEN_DONE)];

#[test]
fn a_refused_call_that_is_done_is_told(rt: HostRuntime) {
    all_go(&rt, rt.alloc(), A_REFUSED_CALL);
}

const BEHIND_A_CONFLICT: Parts = &[
    OPENED,
    &[
        (
            0,
            Frame(Reply(Balance(100), (1, 1, 0))),
            &[Sends(1), Shows(Balance(100), (1, 1, 0))],
        ),
        (
            0,
            Frame(Reply(DoneConflict, (1, 1, 0))),
            &[Sends(2), Shows(DoneConflict, (1, 1, 0))],
        ),
        (0, Gone(10), &[]),
    ],
    ASKED_ON_THE_THIRD,
    &[
        (0, Frame(Outcome(false, false)), &[Begin, Sends(2)]),
        (
            0,
            Frame(Reply(Balance(90), (1, 3, 0))),
            &[End, Shows(Balance(90), (1, 3, 0)), GivesBack],
        ),
    ],
];

const A_CONFLICT: &[Conversation] = &[(Static, &[Get, UpdateCommit, Get], BEHIND_A_CONFLICT)];

#[test]
fn calls_before_a_conflict_are_not_repeated(rt: HostRuntime) {
    all_go(&rt, rt.alloc(), A_CONFLICT);
}

/// A value was drawn for a row that was read, and the commit behind both is lost by event 9.
const COMMIT_BEHIND_A_DRAW: &[Line] = &[
    (
        0,
        Frame(Drew(Done, Next(1), (1, 1, 0))),
        &[Sends(1), ShowsDrawn(Done, Next(1), (1, 1, 0))],
    ),
    (
        0,
        Frame(Reply(Named(1), (1, 1, 0))),
        &[Sends(2), Shows(Named(1), (1, 1, 0))],
    ),
    (0, Gone(9), &[]),
];

const DRAWN_VALUES_ARE_KEPT: Parts = &[
    OPENED,
    COMMIT_BEHIND_A_DRAW,
    ASKED,
    &[
        (
            0,
            Frame(Outcome(false, false)),
            &[Begin, AgainWith(Next(1), 0)],
        ),
        (0, Frame(Drew(Done, Next(1), (1, 2, 0))), &[Again(1)]),
        (0, Frame(Reply(Named(1), (1, 2, 0))), &[Sends(2)]),
        (
            0,
            Frame(Reply(Committed, (1, 2, 1))),
            &[End, Shows(Committed, (1, 2, 1)), GivesBack],
        ),
    ],
];

const DRAWN_VALUES_ARE_NEW: Parts = &[
    OPENED,
    COMMIT_BEHIND_A_DRAW,
    ASKED,
    &[
        (
            0,
            Frame(Outcome(false, false)),
            &[Begin, AgainWith(Next(1), 0)],
        ),
        (0, Frame(Drew(Done, Next(2), (1, 2, 0))), &[Again(1)]),
        (
            0,
            Frame(Reply(Named(2), (1, 2, 0))),
            &[
                Close,
                Fails(Mismatch {
                    call: 1,
                    seen: FIRST_ROW,
                    now: SECOND_ROW,
                }),
                Drops,
            ],
        ),
    ],
];

const A_DRAWN_ROW: &[Does] = &[InsertDrawn, SelectA, Commit];

const DRAWN_VALUES: &[Conversation] = &[
    (Dynamic, A_DRAWN_ROW, DRAWN_VALUES_ARE_KEPT),
    (Dynamic, A_DRAWN_ROW, DRAWN_VALUES_ARE_NEW),
];

#[test]
fn values_that_were_drawn_go_with_a_repeated_call(rt: HostRuntime) {
    all_go(&rt, rt.alloc(), DRAWN_VALUES);
}

const ID_OF_1: Drawn = Drawn::Identifier(1);

const ROW_OF_1: Says = Says::Identifier(1);

/// An identifier was drawn and shown, and the count behind it is lost by event 7.
const COUNT_IS_LOST: &[Line] = &[
    (
        0,
        Frame(Drew(ROW_OF_1, ID_OF_1, (1, 1, 0))),
        &[Sends(1), ShowsDrawn(ROW_OF_1, ID_OF_1, (1, 1, 0))],
    ),
    (0, Gone(7), &[]),
];

const IDENTIFIER_IS_KEPT: Parts = &[
    OPENED,
    COUNT_IS_LOST,
    ASKED,
    &[
        (
            0,
            Frame(Outcome(false, false)),
            &[Begin, AgainWith(ID_OF_1, 0)],
        ),
        (0, Frame(Drew(ROW_OF_1, ID_OF_1, (1, 2, 0))), &[Sends(1)]),
        (
            0,
            Frame(Reply(Number(0), (1, 2, 0))),
            &[End, Shows(Number(0), (1, 2, 0)), GivesBack],
        ),
    ],
];

const IDENTIFIER_IS_NEW: Parts = &[
    OPENED,
    COUNT_IS_LOST,
    ASKED,
    &[
        (
            0,
            Frame(Outcome(false, false)),
            &[Begin, AgainWith(ID_OF_1, 0)],
        ),
        (
            0,
            Frame(Drew(Says::Identifier(2), Drawn::Identifier(2), (1, 2, 0))),
            &[
                Close,
                Fails(Mismatch {
                    call: 0,
                    seen: FIRST_IDENTIFIER,
                    now: SECOND_IDENTIFIER,
                }),
                Drops,
            ],
        ),
    ],
];

const IDENTIFIERS: &[Conversation] = &[
    (Dynamic, &[ShowDrawn, Count], IDENTIFIER_IS_KEPT),
    (Dynamic, &[ShowDrawn, Count], IDENTIFIER_IS_NEW),
];

#[test]
fn an_identifier_that_was_drawn_is_compared(rt: HostRuntime) {
    all_go(&rt, rt.alloc(), IDENTIFIERS);
}
