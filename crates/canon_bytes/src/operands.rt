//! Operands, changes and tests.
ghost use Rattle.canon_bytes.specs.meaning.Operands.{spell_operand, spell_change, spell_test, operand_at, change_at, test_at};
ghost use Rattle.canon_bytes.specs.Operands.{FitsOperand, FitsChange, FitsTest};
ghost use Rattle.canon_bytes.specs.StatementsAgain.{operand_again, change_again, test_again};

use crate::canon::{Put, Take};
use crate::fault::{Fault, ReadFault};
use std::alloc::Global;
use svc_values::{Change, DrawKind, Name, NoMemory, Operand, Test, Value};

#[tactic(auto, unfolding(crate::specs::meaning::Operands::operand_at))]
impl Take for Operand {
    ghost spelling = { spell_operand };

    ghost fits = { FitsOperand };

    ghost reading = { operand_at };

    ghost again = { operand_again };

    fn take(alloc: Global, bytes: &[u8]) -> Result<(Operand, &[u8]), ReadFault> {
        match bytes {
            [] => Err(ReadFault::Fault(Fault::Short)),
            [1, rest @ ..] => {
                let (value, rest) = Value::take(alloc, rest)?;
                Ok((Operand::Lit(value), rest))
            }
            [2, rest @ ..] => {
                let (name, rest) = Name::take(alloc, rest)?;
                Ok((Operand::Var(name), rest))
            }
            [3, rest @ ..] => {
                let (kind, rest) = DrawKind::take(alloc, rest)?;
                Ok((Operand::Draw(kind), rest))
            }
            _ => Err(ReadFault::Fault(Fault::BadTag(bytes.len()))),
        }
    }
}

impl Put for Operand {
    fn put(&self, out: &mut Vec<u8>) -> Result<(), NoMemory> {
        match self {
            Operand::Lit(value) => {
                out.push(1)?;
                value.put(out)
            }
            Operand::Var(name) => {
                out.push(2)?;
                name.put(out)
            }
            Operand::Draw(kind) => {
                out.push(3)?;
                kind.put(out)
            }
        }
    }
}

#[tactic(auto, unfolding(crate::specs::meaning::Operands::change_at))]
impl Take for Change {
    ghost spelling = { spell_change };

    ghost fits = { FitsChange };

    ghost reading = { change_at };

    ghost again = { change_again };

    fn take(alloc: Global, bytes: &[u8]) -> Result<(Change, &[u8]), ReadFault> {
        match bytes {
            [] => Err(ReadFault::Fault(Fault::Short)),
            [1, rest @ ..] => {
                let (operand, rest) = Operand::take(alloc, rest)?;
                Ok((Change::To(operand), rest))
            }
            [2, rest @ ..] => {
                let (operand, rest) = Operand::take(alloc, rest)?;
                Ok((Change::Plus(operand), rest))
            }
            _ => Err(ReadFault::Fault(Fault::BadTag(bytes.len()))),
        }
    }
}

impl Put for Change {
    fn put(&self, out: &mut Vec<u8>) -> Result<(), NoMemory> {
        match self {
            Change::To(operand) => {
                out.push(1)?;
                operand.put(out)
            }
            Change::Plus(operand) => {
                out.push(2)?;
                operand.put(out)
            }
        }
    }
}

#[tactic(auto, unfolding(crate::specs::meaning::Operands::test_at))]
impl Take for Test {
    ghost spelling = { spell_test };

    ghost fits = { FitsTest };

    ghost reading = { test_at };

    ghost again = { test_again };

    fn take(_alloc: Global, bytes: &[u8]) -> Result<(Test, &[u8]), ReadFault> {
        match bytes {
            [] => Err(ReadFault::Fault(Fault::Short)),
            [1, rest @ ..] => Ok((Test::Eq, rest)),
            [2, rest @ ..] => Ok((Test::Lt, rest)),
            [3, rest @ ..] => Ok((Test::Ge, rest)),
            _ => Err(ReadFault::Fault(Fault::BadTag(bytes.len()))),
        }
    }
}

impl Put for Test {
    fn put(&self, out: &mut Vec<u8>) -> Result<(), NoMemory> {
        match self {
            Test::Eq => Ok(out.push(1)?),
            Test::Lt => Ok(out.push(2)?),
            Test::Ge => Ok(out.push(3)?),
        }
    }
}
