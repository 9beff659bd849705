//! What is drawn, and what was drawn.
ghost use Rattle.std.specs.Prelude.{◌≡◌, ◌∷◌, ◌++◌, IfOk};
ghost use Rattle.canon_bytes.specs.meaning.Draws.{spell_draw_kind, spell_draw, draw_kind_at, seq_draw_at, id_draw_at, draw_at};
ghost use Rattle.canon_bytes.specs.Draws.{FitsDrawKind, FitsDraw};
ghost use Rattle.canon_bytes.specs.Reading.{IsReading};
ghost use Rattle.canon_bytes.specs.ValuesAgain.{draw_kind_again, draw_again};

use crate::canon::{Put, Take};
use crate::fault::{Fault, ReadFault};
use std::alloc::Global;
use svc_values::{Draw, DrawKind, Name, NoMemory};

#[tactic(auto, unfolding(crate::specs::meaning::Draws::draw_kind_at))]
impl Take for DrawKind {
    ghost spelling = { spell_draw_kind };

    ghost fits = { FitsDrawKind };

    ghost reading = { draw_kind_at };

    ghost again = { draw_kind_again };

    fn take(alloc: Global, bytes: &[u8]) -> Result<(DrawKind, &[u8]), ReadFault> {
        match bytes {
            [] => Err(ReadFault::Fault(Fault::Short)),
            [1, rest @ ..] => {
                let (name, rest) = Name::take(alloc, rest)?;
                Ok((DrawKind::Seq(name), rest))
            }
            [2, rest @ ..] => Ok((DrawKind::Clock, rest)),
            [3, rest @ ..] => Ok((DrawKind::Id, rest)),
            _ => Err(ReadFault::Fault(Fault::BadTag(bytes.len()))),
        }
    }
}

impl Put for DrawKind {
    fn put(&self, out: &mut Vec<u8>) -> Result<(), NoMemory> {
        match self {
            DrawKind::Seq(name) => {
                out.push(1)?;
                name.put(out)
            }
            DrawKind::Clock => Ok(out.push(2)?),
            DrawKind::Id => Ok(out.push(3)?),
        }
    }
}

/// A sequence's draw, behind its tag.
#[tactic(auto, unfolding(crate::specs::meaning::Draws::seq_draw_at))]
fn take_seq(alloc: Global, bytes: &[u8]) -> Result<(Draw, &[u8]), ReadFault>
    ensures exact { IsReading (λ x. (x.0, x.1.now)) result (seq_draw_at bytes.now) }
    ensures found { IfOk result (λ x. 1 ∷ bytes.now ≡ spell_draw x.0 ++ x.1.now) }
    ensures fitting { IfOk result (λ x. FitsDraw x.0) }
{
    let (name, rest) = Name::take(alloc, bytes)?;
    let (value, rest) = i64::take(alloc, rest)?;
    Ok((Draw::Seq { name, value }, rest))
}

/// An identifier's draw, behind its tag.
#[tactic(auto, unfolding(crate::specs::meaning::Draws::id_draw_at))]
fn take_id(bytes: &[u8]) -> Result<(Draw, &[u8]), ReadFault>
    ensures exact { IsReading (λ x. (x.0, x.1.now)) result (id_draw_at bytes.now) }
    ensures found { IfOk result (λ x. 3 ∷ bytes.now ≡ spell_draw x.0 ++ x.1.now) }
    ensures fitting { IfOk result (λ x. FitsDraw x.0) }
{
    match bytes.split_first_chunk::<16>() {
        None => Err(ReadFault::Fault(Fault::Short)),
        Some((id, rest)) => Ok((Draw::Id { id: *id }, rest)),
    }
}

#[tactic(auto, unfolding(crate::specs::meaning::Draws::draw_at))]
impl Take for Draw {
    ghost spelling = { spell_draw };

    ghost fits = { FitsDraw };

    ghost reading = { draw_at };

    ghost again = { draw_again };

    fn take(alloc: Global, bytes: &[u8]) -> Result<(Draw, &[u8]), ReadFault> {
        match bytes {
            [] => Err(ReadFault::Fault(Fault::Short)),
            [1, rest @ ..] => take_seq(alloc, rest),
            [2, rest @ ..] => {
                let (tick, rest) = u64::take(alloc, rest)?;
                Ok((Draw::Clock { tick }, rest))
            }
            [3, rest @ ..] => take_id(rest),
            _ => Err(ReadFault::Fault(Fault::BadTag(bytes.len()))),
        }
    }
}

impl Put for Draw {
    fn put(&self, out: &mut Vec<u8>) -> Result<(), NoMemory> {
        match self {
            Draw::Seq { name, value } => {
                out.push(1)?;
                name.put(out)?;
                value.put(out)
            }
            Draw::Clock { tick } => {
                out.push(2)?;
                tick.put(out)
            }
            Draw::Id { id } => {
                out.push(3)?;
                Ok(out.extend_from_slice(id)?)
            }
        }
    }
}
