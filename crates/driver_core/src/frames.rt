//! Frames that go out, and the tags of those that come.
ghost use Rattle.std.specs.Prelude.{◌≡◌, [], ◌∷◌, IfOk};
ghost use Rattle.client_model.specs.meaning.Talk.{if_alive as if_alive_def, tag_of as tag_of_def};

use client_model::Frames;
use std::alloc::Global;
use svc_values::{Down, NoMemory, Up};

/// This frame alone.
pub(crate) fn only(alloc: Global, frame: Up) -> Result<Frames, NoMemory>
    ensures { IfOk result (λ frames. frames ≡ frame ∷ []) }
{
    let mut frames = Vec::new(alloc);
    frames.push(frame)?;
    Ok(Frames::from_vec(frames))
}

/// This frame, which goes out on a living connection alone.
pub(crate) fn if_alive(alloc: Global, alive: bool, frame: Up) -> Result<Frames, NoMemory>
    ensures { IfOk result (λ frames. frames ≡ if_alive_def alive (frame ∷ [])) }
{
    if !alive {
        return Ok(Frames::new(alloc));
    }
    only(alloc, frame)
}

/// The first byte that spells a Reply.
pub(crate) const REPLY: u8 = 18;

/// The first byte that spells an OutcomeIs.
pub(crate) const OUTCOME_IS: u8 = 19;

/// The first byte that spells a frame.
pub(crate) fn tag_of(frame: &Down) -> u8
    ensures { result ≡ tag_of_def frame.now }
{
    match frame {
        Down::Hello { .. } => 17,
        Down::Reply { .. } => REPLY,
        Down::OutcomeIs { .. } => OUTCOME_IS,
        Down::OutcomeRefused { .. } => 20,
        Down::Blocked => 21,
        Down::Refused { .. } => 22,
    }
}
