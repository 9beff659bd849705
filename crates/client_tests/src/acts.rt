//! Whether a driver does what a line says.

use crate::answers::{Drawn, Says, answers, draws};
use crate::lines::{Acts, Id, ltxid};
use crate::names::{name, text};
use driver_core::{Act, Hold, Shown};
use std::alloc::Global;
use std::process::Abort;
use svc_values::{Call, Settings, Up, Value};

/// Whether the frame is this call, with the mark or not, and with these values to be kept.
fn is_call(
    rt: &impl Abort,
    alloc: Global,
    frame: &Up,
    marked: bool,
    kept: Drawn,
    expected: Option<&Call>,
) -> bool {
    let Up::Call {
        replay,
        kept: sent,
        call,
    } = frame
    else {
        return false;
    };
    let Some(expected) = expected else {
        return false;
    };
    *replay == marked && *sent == draws(rt, alloc, kept) && *call == *expected
}

fn has_set(rt: &impl Abort, alloc: Global, settings: &Settings) -> bool {
    let expected = Value::Text(text(rt, alloc, "de"));
    match settings.get(&name(rt, alloc, "lang")) {
        Some(value) => settings.len() == 1 && *value == expected,
        None => false,
    }
}

/// Whether a frame begins a request, with a setting or none.
fn begins(rt: &impl Abort, alloc: Global, frame: &Up, set: bool) -> bool {
    match frame {
        Up::Begin { settings } if set => has_set(rt, alloc, settings),
        Up::Begin { settings } => settings.len() == 0,
        _ => false,
    }
}

fn asks(frame: &Up, id: Id) -> bool {
    match frame {
        Up::Outcome { ltxid: asked } => *asked == ltxid(id),
        _ => false,
    }
}

/// Whether this frame goes out.
fn is_sent(rt: &impl Abort, alloc: Global, frame: &Up, acts: Acts, script: &[Call]) -> bool {
    match acts {
        Acts::Connect => matches!(frame, Up::Connect),
        Acts::Begin => begins(rt, alloc, frame, false),
        Acts::BeginSet => begins(rt, alloc, frame, true),
        Acts::Call(at) => is_call(rt, alloc, frame, false, Drawn::Nothing, script.get(at)),
        Acts::Again(at) => is_call(rt, alloc, frame, true, Drawn::Nothing, script.get(at)),
        Acts::AgainWith(kept, at) => is_call(rt, alloc, frame, true, kept, script.get(at)),
        Acts::Asks(id) => asks(frame, id),
        Acts::End => matches!(frame, Up::End),
        Acts::Close => matches!(frame, Up::Close),
        _ => false,
    }
}

fn shows(
    rt: &impl Abort,
    alloc: Global,
    shown: &Option<Shown>,
    says: Says,
    drawn: Drawn,
    id: Id,
) -> bool {
    let Some(shown) = shown else {
        return false;
    };
    shown.answers == answers(rt, alloc, says)
        && shown.draws == draws(rt, alloc, drawn)
        && shown.ltxid == ltxid(id)
}

/// Whether this is done, at its place among what is done.
fn is_done(
    rt: &impl Abort,
    alloc: Global,
    act: &Act,
    at: usize,
    acts: Acts,
    script: &[Call],
) -> bool {
    match acts {
        Acts::Shows(says, id) => shows(rt, alloc, &act.shown, says, Drawn::Nothing, id),
        Acts::ShowsDrawn(says, drawn, id) => shows(rt, alloc, &act.shown, says, drawn, id),
        Acts::Fails(failed) => act.failed == Some(failed),
        Acts::GivesBack => act.hold == Hold::GiveBack,
        Acts::Drops => act.hold == Hold::Drop,
        _ => match act.send.get(at) {
            Some(frame) => is_sent(rt, alloc, frame, acts, script),
            None => false,
        },
    }
}

/// Whether exactly these are done.
pub fn are_done(
    rt: &impl Abort,
    alloc: Global,
    act: &Act,
    expected: &[Acts],
    script: &[Call],
) -> bool {
    let beside = usize::from(act.shown.is_some())
        + usize::from(act.failed.is_some())
        + usize::from(act.hold != Hold::Keep);
    if expected.len() < beside || expected.len() - beside != act.send.len() {
        return false;
    }
    for (at, acts) in expected.iter().enumerate() {
        if !is_done(rt, alloc, act, at, *acts, script) {
            return false;
        }
    }
    true
}
