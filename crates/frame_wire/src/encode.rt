//! Frames, written whole.
ghost use Rattle.std.specs.Prelude.{◌≡◌, ◌<◌, ◌^◌, length, OnOk, IfOk};
ghost use Rattle.canon_bytes.specs.meaning.TextBytes.{spell_bytes};
ghost use Rattle.canon_bytes.specs.meaning.UpBytes.{spell_up, up_frame};
ghost use Rattle.canon_bytes.specs.UpBytes.{FitsUp, IsMadeUp};
ghost use Rattle.canon_bytes.specs.meaning.DownBytes.{spell_down, down_frame};
ghost use Rattle.canon_bytes.specs.DownBytes.{FitsDown, IsMadeDown};

use canon_bytes::PutMade;
use std::alloc::Global;
use svc_values::{Down, NoMemory, Up};

/// The bytes for which there is room before the first is made: most frames have fewer.
const FIRST_ROOM: usize = 128;

/// The number of the payload's bytes, and the payload, which is made where it is sent from.
#[tactic(auto, unfolding(canon_bytes::specs::meaning::TextBytes::spell_bytes, canon_bytes::specs::meaning::Numbers::spell_u64))]
fn encode<F: PutMade>(alloc: Global, frame: &F) -> Result<Vec<u8>, NoMemory>
    requires { F.made frame.now }
    ensures whole { IfOk result (λ bytes. bytes.items ≡ spell_bytes (F.spelling frame.now)) }
    ensures fitting { OnOk result (F.fits frame.now) }
    ensures short { OnOk result (length (F.spelling frame.now) < 2 ^ 64) }
{
    let mut bytes = Vec::with_capacity(alloc, FIRST_ROOM)?;
    bytes.extend_from_slice(&[0; 8])?;
    frame.put_made(&mut bytes)?;
    let length = (bytes.len() as u64 - 8).to_be_bytes();
    bytes.slice_mut(..8).copy_from_slice(&length);
    Ok(bytes)
}

/// The bytes of a frame to the server. Linear in them.
pub fn encode_up(alloc: Global, frame: &Up) -> Result<Vec<u8>, NoMemory>
    requires { IsMadeUp frame.now }
    ensures whole { IfOk result (λ bytes. bytes.items ≡ up_frame frame.now) }
    ensures fitting { OnOk result (FitsUp frame.now) }
    ensures short { OnOk result (length (spell_up frame.now) < 2 ^ 64) }
{
    encode(alloc, frame)
}

/// The bytes of a frame to the client. Linear in them.
pub fn encode_down(alloc: Global, frame: &Down) -> Result<Vec<u8>, NoMemory>
    requires { IsMadeDown frame.now }
    ensures whole { IfOk result (λ bytes. bytes.items ≡ down_frame frame.now) }
    ensures fitting { OnOk result (FitsDown frame.now) }
    ensures short { OnOk result (length (spell_down frame.now) < 2 ^ 64) }
{
    encode(alloc, frame)
}
