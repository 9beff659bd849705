//! Frames to the service, by short words.
ghost use Rattle.svc_values.specs.Identifiers.{IsLtxid};
ghost use Rattle.canon_bytes.specs.UpBytes.{IsMadeUp};

use crate::script::{Does, call, name};
use std::alloc::Global;
use std::process::Abort;
use svc_values::{Draw, Draws, Ltxid, Settings, Up};

/// A draw that a frame asks to be kept. The bytes of an identifier are all the same.
#[derive(Clone, Copy)]
pub enum Keeps {
    Seq(&'static str, i64),
    Clock(u64),
    Id(u8),
}

/// A frame: a call may be marked as one of a replay, and has the draws that are to be kept. An
/// outcome is asked of the identifier with these parts.
#[derive(Clone, Copy)]
pub enum Says {
    Connect,
    Begin,
    Call(Does),
    Keeping(Does, &'static [Keeps]),
    Marked(Does, &'static [Keeps]),
    Outcome(u8, u8, u8),
    End,
    Close,
}

pub fn ltxid(incarnation: u8, session: u8, number: u8) -> Ltxid
    ensures { IsLtxid result }
{
    Ltxid {
        incarnation: incarnation.into(),
        session: session.into(),
        number: number.into(),
    }
}

fn draw(rt: &impl Abort, alloc: Global, keeps: Keeps) -> Draw {
    match keeps {
        Keeps::Seq(sequence, value) => Draw::Seq {
            name: name(rt, alloc, sequence),
            value,
        },
        Keeps::Clock(tick) => Draw::Clock { tick },
        Keeps::Id(byte) => Draw::Id { id: [byte; 16] },
    }
}

fn draws(rt: &impl Abort, alloc: Global, kept: &[Keeps]) -> Draws {
    let mut draws = Draws::new(alloc);
    for keeps in kept {
        draws.push(draw(rt, alloc, *keeps)).expect(rt, "a draw");
    }
    draws
}

/// A frame with a call.
fn with_call(rt: &impl Abort, alloc: Global, replay: bool, kept: &[Keeps], does: Does) -> Up
    ensures { IsMadeUp result }
{
    Up::Call {
        replay,
        kept: draws(rt, alloc, kept),
        call: call(rt, alloc, does),
    }
}

/// The frame of this name.
pub fn frame(rt: &impl Abort, alloc: Global, says: Says) -> Up
    ensures { IsMadeUp result }
{
    match says {
        Says::Connect => Up::Connect,
        Says::Begin => Up::Begin {
            settings: Settings::new(alloc),
        },
        Says::Call(does) => with_call(rt, alloc, false, &[], does),
        Says::Keeping(does, kept) => with_call(rt, alloc, false, kept, does),
        Says::Marked(does, kept) => with_call(rt, alloc, true, kept, does),
        Says::Outcome(incarnation, session, number) => Up::Outcome {
            ltxid: ltxid(incarnation, session, number),
        },
        Says::End => Up::End,
        Says::Close => Up::Close,
    }
}
