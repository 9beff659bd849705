//! What a request's report is told of an input.
ghost use Rattle.std.specs.Prelude.{◌≡◌};
ghost use Rattle.transcript_core.specs.Hearing.{heard_in, heard_of};

use client_model::Input;
use svc_values::{Down, Ltxid, ends_committed};

/// What a request's report is told of an input, beside the call that is shown: it is small, so that
/// the input itself can be given up to the driver.
#[derive(Clone, Copy)]
pub enum Heard {
    /// A session was lent, or its Hello was taken.
    Session { ltxid: Ltxid },
    /// A reply: the identifier that comes with it, and whether its last answer says committed.
    Reply { ltxid: Ltxid, committed: bool },
    /// The outcome of the identifier that was asked for.
    Outcome { committed: bool, completed: bool },
    /// Anything else.
    Nothing,
}

/// What is told of a frame.
fn heard_of_frame(frame: &Down) -> Heard
    ensures { result ≡ heard_in frame.now }
{
    match frame {
        Down::Hello { ltxid } => Heard::Session { ltxid: *ltxid },
        Down::Reply { answers, ltxid, .. } => Heard::Reply {
            ltxid: *ltxid,
            committed: ends_committed(answers.as_slice()),
        },
        Down::OutcomeIs {
            committed,
            completed,
        } => Heard::Outcome {
            committed: *committed,
            completed: *completed,
        },
        Down::OutcomeRefused { .. } => Heard::Nothing,
        Down::Blocked => Heard::Nothing,
        Down::Refused { .. } => Heard::Nothing,
    }
}

impl Heard {
    /// What is told of this input. It takes no memory.
    pub fn of(input: &Input) -> Heard
        ensures { result ≡ heard_of input.now }
    {
        match input {
            Input::Lent { ltxid, .. } => Heard::Session { ltxid: *ltxid },
            Input::Took { frame, .. } => heard_of_frame(frame),
            Input::Start => Heard::Nothing,
            Input::Waiting => Heard::Nothing,
            Input::Opened { .. } => Heard::Nothing,
            Input::TryFailed => Heard::Nothing,
            Input::Gone { .. } => Heard::Nothing,
        }
    }
}
