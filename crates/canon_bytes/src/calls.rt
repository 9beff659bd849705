//! Calls.
ghost use Rattle.std.specs.Prelude.{◌≡◌, ◌∷◌, ◌++◌, IfOk};
ghost use Rattle.svc_values.specs.Calls.{IsMade};
ghost use Rattle.canon_bytes.specs.meaning.CallBytes.{spell_call, work_at, set_at, call_at};
ghost use Rattle.canon_bytes.specs.CallBytes.{FitsCall};
ghost use Rattle.canon_bytes.specs.Reading.{IsReading};
ghost use Rattle.canon_bytes.specs.EntriesAgain.{call_again};

use crate::canon::{Put, PutMade, Take};
use crate::fault::{Fault, ReadFault};
use std::alloc::Global;
use svc_values::{Call, Name, NoMemory, Statements, Text, Value};

/// A work call, behind its tag.
#[tactic(auto, unfolding(crate::specs::meaning::CallBytes::work_at))]
fn take_work(alloc: Global, bytes: &[u8]) -> Result<(Call, &[u8]), ReadFault>
    ensures exact { IsReading (λ x. (x.0, x.1.now)) result (work_at bytes.now) }
    ensures found { IfOk result (λ x. 1 ∷ bytes.now ≡ spell_call x.0 ++ x.1.now) }
    ensures fitting { IfOk result (λ x. FitsCall x.0) }
{
    let (statements, rest) = Statements::take(alloc, bytes)?;
    let (commit, rest) = bool::take(alloc, rest)?;
    match Call::work(statements, commit) {
        Ok(call) => Ok((call, rest)),
        Err(_) => Err(ReadFault::Fault(Fault::BadPart(bytes.len() + 1))),
    }
}

/// A call that changes a setting, behind its tag.
#[tactic(auto, unfolding(crate::specs::meaning::CallBytes::set_at))]
fn take_set(alloc: Global, bytes: &[u8]) -> Result<(Call, &[u8]), ReadFault>
    ensures exact { IsReading (λ x. (x.0, x.1.now)) result (set_at bytes.now) }
    ensures found { IfOk result (λ x. 2 ∷ bytes.now ≡ spell_call x.0 ++ x.1.now) }
    ensures fitting { IfOk result (λ x. FitsCall x.0) }
{
    let (name, rest) = Name::take(alloc, bytes)?;
    let (value, rest) = Value::take(alloc, rest)?;
    Ok((Call::Set { name, value }, rest))
}

#[tactic(auto, unfolding(crate::specs::meaning::CallBytes::call_at))]
impl Take for Call {
    ghost spelling = { spell_call };

    ghost fits = { FitsCall };

    ghost reading = { call_at };

    ghost again = { call_again };

    fn take(alloc: Global, bytes: &[u8]) -> Result<(Call, &[u8]), ReadFault> {
        match bytes {
            [] => Err(ReadFault::Fault(Fault::Short)),
            [1, rest @ ..] => take_work(alloc, rest),
            [2, rest @ ..] => take_set(alloc, rest),
            [3, rest @ ..] => {
                let (line, rest) = Text::take(alloc, rest)?;
                Ok((Call::Alter { line }, rest))
            }
            [4, rest @ ..] => Ok((Call::Disable, rest)),
            [5, rest @ ..] => Ok((Call::Rollback, rest)),
            _ => Err(ReadFault::Fault(Fault::BadTag(bytes.len()))),
        }
    }
}

impl PutMade for Call {
    ghost made = { IsMade };

    fn put_made(&self, out: &mut Vec<u8>) -> Result<(), NoMemory> {
        match self {
            Call::Work { statements, commit } => {
                out.push(1)?;
                statements.put(out)?;
                commit.put(out)
            }
            Call::Set { name, value } => {
                out.push(2)?;
                name.put(out)?;
                value.put(out)
            }
            Call::Alter { line } => {
                out.push(3)?;
                line.put(out)
            }
            Call::Disable => Ok(out.push(4)?),
            Call::Rollback => Ok(out.push(5)?),
        }
    }
}
