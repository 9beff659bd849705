//! Lines of the conversations: what comes to a driver, and what it does.
ghost use Rattle.std.specs.Prelude.{Bool};
ghost use Rattle.svc_values.specs.Identifiers.{IsLtxid};
ghost use Rattle.client_model.specs.declared.input.Input.TheVariants.{Took};
ghost use Rattle.driver_core.specs.Driving.{HasLtxids};

use crate::answers::{Drawn, Says, answers, draws};
use driver_core::{Failed, Input};
use std::alloc::Global;
use std::process::Abort;
use svc_values::{Ahead, Down, Ltxid};

/// An identifier: incarnation, session, number.
pub type Id = (u32, u32, u32);

/// A frame that comes.
#[derive(Clone, Copy)]
pub enum Came {
    Hello(Id),
    Reply(Says, Id),
    /// A reply to a call that drew values.
    Drew(Says, Drawn, Id),
    /// Committed, and completed.
    Outcome(bool, bool),
    Forgotten,
    Apart,
    Blocked,
}

/// What comes to a driver. The last frame is one from a connection that has ended.
#[derive(Clone, Copy)]
pub enum Comes {
    Start,
    Waiting,
    Lent(Id),
    Opened,
    NotOpened,
    Frame(Came),
    Last(Came),
    Gone(u64),
}

/// What a driver does, in this order: the frames that it sends, with the index of a call, marked or
/// not; what it shows; its error; what becomes of its slot where it is not kept.
#[derive(Clone, Copy)]
pub enum Acts {
    Connect,
    Begin,
    /// With `lang` set to `de`.
    BeginSet,
    Call(usize),
    Again(usize),
    /// With these values to be kept.
    AgainWith(Drawn, usize),
    Asks(Id),
    End,
    Close,
    Shows(Says, Id),
    ShowsDrawn(Says, Drawn, Id),
    Fails(Failed),
    GivesBack,
    Drops,
}

/// At this tick this comes, and these are done.
pub type Line<'a> = (u64, Comes, &'a [Acts]);

/// A conversation, in parts that follow each other.
pub type Parts<'a> = &'a [&'a [Line<'a>]];

/// A request that opened a connection sends its first call.
pub const OPENED: &[Line] = &[
    (0, Comes::Start, &[]),
    (0, Comes::Opened, &[Acts::Connect]),
    (
        0,
        Comes::Frame(Came::Hello((1, 1, 0))),
        &[Acts::Begin, Acts::Call(0)],
    ),
];

/// The first call is done and shown, and the second one goes out.
pub const FIRST_IS_DONE: &[Line] = &[(
    0,
    Comes::Frame(Came::Reply(Says::Done, (1, 1, 0))),
    &[Acts::Call(1), Acts::Shows(Says::Done, (1, 1, 0))],
)];

/// The first session was lost before a commit was answered. The second is asked for the outcome.
pub const ASKED: &[Line] = &[
    (0, Comes::Opened, &[Acts::Connect]),
    (
        0,
        Comes::Frame(Came::Hello((1, 2, 0))),
        &[Acts::Asks((1, 1, 0))],
    ),
];

/// The first session of the next incarnation is asked.
pub const ASKED_AFTER_A_CRASH: &[Line] = &[
    (0, Comes::Opened, &[Acts::Connect]),
    (
        0,
        Comes::Frame(Came::Hello((2, 1, 0))),
        &[Acts::Asks((1, 1, 0))],
    ),
];

/// Another session, from outside, came between the first and the one that is asked.
pub const ASKED_ON_THE_THIRD: &[Line] = &[
    (0, Comes::Opened, &[Acts::Connect]),
    (
        0,
        Comes::Frame(Came::Hello((1, 3, 0))),
        &[Acts::Asks((1, 1, 0))],
    ),
];

pub fn ltxid(id: Id) -> Ltxid
    ensures { IsLtxid result }
{
    let (incarnation, session, number) = id;
    Ltxid {
        incarnation: u64::from(incarnation),
        session: u64::from(session),
        number: u64::from(number),
    }
}

fn reply(rt: &impl Abort, alloc: Global, says: Says, drawn: Drawn, id: Id) -> Down
    ensures { (alive : Bool) → HasLtxids (Took result alive) }
{
    Down::Reply {
        answers: answers(rt, alloc, says),
        draws: draws(rt, alloc, drawn),
        ltxid: ltxid(id),
    }
}

fn frame(rt: &impl Abort, alloc: Global, came: Came) -> Down
    ensures { (alive : Bool) → HasLtxids (Took result alive) }
{
    match came {
        Came::Hello(id) => Down::Hello { ltxid: ltxid(id) },
        Came::Reply(says, id) => reply(rt, alloc, says, Drawn::Nothing, id),
        Came::Drew(says, drawn, id) => reply(rt, alloc, says, drawn, id),
        Came::Outcome(committed, completed) => Down::OutcomeIs {
            committed,
            completed,
        },
        Came::Forgotten => Down::OutcomeRefused {
            ahead: Ahead::Forgotten,
            next: 2,
        },
        Came::Apart => Down::OutcomeRefused {
            ahead: Ahead::Server,
            next: 2,
        },
        Came::Blocked => Down::Blocked,
    }
}

pub fn input(rt: &impl Abort, alloc: Global, comes: Comes) -> Input
    ensures { HasLtxids result }
{
    match comes {
        Comes::Start => Input::Start,
        Comes::Waiting => Input::Waiting,
        Comes::Lent(id) => Input::Lent {
            connection: 1,
            ltxid: ltxid(id),
        },
        Comes::Opened => Input::Opened { connection: 1 },
        Comes::NotOpened => Input::TryFailed,
        Comes::Frame(came) => Input::Took {
            frame: frame(rt, alloc, came),
            alive: true,
        },
        Comes::Last(came) => Input::Took {
            frame: frame(rt, alloc, came),
            alive: false,
        },
        Comes::Gone(event) => Input::Gone { event },
    }
}
