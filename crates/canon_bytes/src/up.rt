//! The payloads of frames to the server.
ghost use Rattle.std.specs.Prelude.{◌≡◌, ◌∷◌, ◌++◌, IfOk};
ghost use Rattle.canon_bytes.specs.meaning.UpBytes.{spell_up};
ghost use Rattle.canon_bytes.specs.UpBytes.{FitsUp, up_call_at, up_at, IsMadeUp};
ghost use Rattle.canon_bytes.specs.Reading.{IsReading};
ghost use Rattle.canon_bytes.specs.FramesAgain.{up_again};

use crate::canon::{Put, PutMade, Take};
use crate::fault::{Fault, ReadFault};
use std::alloc::Global;
use svc_values::{Call, Draws, Ltxid, NoMemory, Settings, Up};

/// A call, behind its tag.
#[tactic(auto, unfolding(crate::specs::UpBytes::up_call_at))]
fn take_call(alloc: Global, bytes: &[u8]) -> Result<(Up, &[u8]), ReadFault>
    ensures exact { IsReading (λ x. (x.0, x.1.now)) result (up_call_at bytes.now) }
    ensures found { IfOk result (λ x. 3 ∷ bytes.now ≡ spell_up x.0 ++ x.1.now) }
    ensures fitting { IfOk result (λ x. FitsUp x.0) }
{
    let (replay, rest) = bool::take(alloc, bytes)?;
    let (kept, rest) = Draws::take(alloc, rest)?;
    let (call, rest) = Call::take(alloc, rest)?;
    Ok((Up::Call { replay, kept, call }, rest))
}

#[tactic(auto, unfolding(crate::specs::UpBytes::up_at))]
impl Take for Up {
    ghost spelling = { spell_up };

    ghost fits = { FitsUp };

    ghost reading = { up_at };

    ghost again = { up_again };

    fn take(alloc: Global, bytes: &[u8]) -> Result<(Up, &[u8]), ReadFault> {
        match bytes {
            [] => Err(ReadFault::Fault(Fault::Short)),
            [1, rest @ ..] => Ok((Up::Connect, rest)),
            [2, rest @ ..] => {
                let (settings, rest) = Settings::take(alloc, rest)?;
                Ok((Up::Begin { settings }, rest))
            }
            [3, rest @ ..] => take_call(alloc, rest),
            [4, rest @ ..] => {
                let (ltxid, rest) = Ltxid::take(alloc, rest)?;
                Ok((Up::Outcome { ltxid }, rest))
            }
            [5, rest @ ..] => Ok((Up::End, rest)),
            [6, rest @ ..] => Ok((Up::Close, rest)),
            _ => Err(ReadFault::Fault(Fault::BadTag(bytes.len()))),
        }
    }
}

impl PutMade for Up {
    ghost made = { IsMadeUp };

    fn put_made(&self, out: &mut Vec<u8>) -> Result<(), NoMemory> {
        match self {
            Up::Connect => Ok(out.push(1)?),
            Up::Begin { settings } => {
                out.push(2)?;
                settings.put(out)
            }
            Up::Call { replay, kept, call } => {
                out.push(3)?;
                replay.put(out)?;
                kept.put(out)?;
                call.put_made(out)
            }
            Up::Outcome { ltxid } => {
                out.push(4)?;
                ltxid.put_made(out)
            }
            Up::End => Ok(out.push(5)?),
            Up::Close => Ok(out.push(6)?),
        }
    }
}
