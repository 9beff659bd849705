//! Kinds and values.
ghost use Rattle.canon_bytes.specs.meaning.Values.{spell_value, kind_at, value_at};
ghost use Rattle.canon_bytes.specs.Values.{spell_kind, FitsKind, FitsValue};
ghost use Rattle.canon_bytes.specs.ValuesAgain.{kind_again, value_again};

use crate::canon::{Put, Take};
use crate::fault::{Fault, ReadFault};
use std::alloc::Global;
use svc_values::{Kind, NoMemory, Octets, Text, Value};

#[tactic(auto, unfolding(crate::specs::meaning::Values::kind_at))]
impl Take for Kind {
    ghost spelling = { spell_kind };

    ghost fits = { FitsKind };

    ghost reading = { kind_at };

    ghost again = { kind_again };

    fn take(_alloc: Global, bytes: &[u8]) -> Result<(Kind, &[u8]), ReadFault> {
        match bytes {
            [] => Err(ReadFault::Fault(Fault::Short)),
            [1, rest @ ..] => Ok((Kind::Int, rest)),
            [2, rest @ ..] => Ok((Kind::Text, rest)),
            [3, rest @ ..] => Ok((Kind::Bytes, rest)),
            _ => Err(ReadFault::Fault(Fault::BadTag(bytes.len()))),
        }
    }
}

impl Put for Kind {
    fn put(&self, out: &mut Vec<u8>) -> Result<(), NoMemory> {
        match self {
            Kind::Int => Ok(out.push(1)?),
            Kind::Text => Ok(out.push(2)?),
            Kind::Bytes => Ok(out.push(3)?),
        }
    }
}

#[tactic(auto, unfolding(crate::specs::meaning::Values::value_at))]
impl Take for Value {
    ghost spelling = { spell_value };

    ghost fits = { FitsValue };

    ghost reading = { value_at };

    ghost again = { value_again };

    fn take(alloc: Global, bytes: &[u8]) -> Result<(Value, &[u8]), ReadFault> {
        match bytes {
            [] => Err(ReadFault::Fault(Fault::Short)),
            [1, rest @ ..] => {
                let (n, rest) = i64::take(alloc, rest)?;
                Ok((Value::Int(n), rest))
            }
            [2, rest @ ..] => {
                let (text, rest) = Text::take(alloc, rest)?;
                Ok((Value::Text(text), rest))
            }
            [3, rest @ ..] => {
                let (octets, rest) = Octets::take(alloc, rest)?;
                Ok((Value::Bytes(octets), rest))
            }
            _ => Err(ReadFault::Fault(Fault::BadTag(bytes.len()))),
        }
    }
}

impl Put for Value {
    fn put(&self, out: &mut Vec<u8>) -> Result<(), NoMemory> {
        match self {
            Value::Int(n) => {
                out.push(1)?;
                n.put(out)
            }
            Value::Text(text) => {
                out.push(2)?;
                text.put(out)
            }
            Value::Bytes(bytes) => {
                out.push(3)?;
                bytes.put(out)
            }
        }
    }
}
