//! Numbers and flags.
ghost use Rattle.canon_bytes.specs.meaning.Numbers.{spell_u64, spell_i64, spell_bool, u64_at, i64_at, bool_at};
ghost use Rattle.canon_bytes.specs.Numbers.{FitsU64, FitsI64, FitsBool};
ghost use Rattle.canon_bytes.specs.Again.{u64_again, i64_again, bool_again};

use crate::canon::{Put, Take};
use crate::fault::{Fault, ReadFault};
use std::alloc::Global;
use svc_values::NoMemory;

#[tactic(auto, unfolding(crate::specs::meaning::Numbers::u64_at, crate::specs::meaning::Numbers::spell_u64))]
impl Take for u64 {
    ghost spelling = { spell_u64 };

    ghost fits = { FitsU64 };

    ghost reading = { u64_at };

    ghost again = { u64_again };

    fn take(_alloc: Global, bytes: &[u8]) -> Result<(u64, &[u8]), ReadFault> {
        if bytes.len() < 8 {
            return Err(ReadFault::Fault(Fault::Short));
        }
        let (front, rest) = bytes.split_at(8);
        let number = u64::from_be_bytes([
            front[0], front[1], front[2], front[3], front[4], front[5], front[6], front[7],
        ]);
        Ok((number, rest))
    }
}

#[tactic(auto, unfolding(crate::specs::meaning::Numbers::u64_at, crate::specs::meaning::Numbers::spell_u64))]
impl Put for u64 {
    fn put(&self, out: &mut Vec<u8>) -> Result<(), NoMemory> {
        out.extend_from_slice(&self.to_be_bytes())?;
        Ok(())
    }
}

#[tactic(auto, unfolding(crate::specs::meaning::Numbers::i64_at, crate::specs::meaning::Numbers::spell_i64, crate::specs::meaning::Numbers::spell_u64))]
impl Take for i64 {
    ghost spelling = { spell_i64 };

    ghost fits = { FitsI64 };

    ghost reading = { i64_at };

    ghost again = { i64_again };

    fn take(alloc: Global, bytes: &[u8]) -> Result<(i64, &[u8]), ReadFault> {
        let (number, rest) = u64::take(alloc, bytes)?;
        Ok((number.cast_signed(), rest))
    }
}

#[tactic(auto, unfolding(crate::specs::meaning::Numbers::i64_at, crate::specs::meaning::Numbers::spell_i64, crate::specs::meaning::Numbers::spell_u64))]
impl Put for i64 {
    fn put(&self, out: &mut Vec<u8>) -> Result<(), NoMemory> {
        self.cast_unsigned().put(out)
    }
}

#[tactic(auto, unfolding(crate::specs::meaning::Numbers::bool_at))]
impl Take for bool {
    ghost spelling = { spell_bool };

    ghost fits = { FitsBool };

    ghost reading = { bool_at };

    ghost again = { bool_again };

    fn take(_alloc: Global, bytes: &[u8]) -> Result<(bool, &[u8]), ReadFault> {
        match bytes {
            [] => Err(ReadFault::Fault(Fault::Short)),
            [0, rest @ ..] => Ok((false, rest)),
            [1, rest @ ..] => Ok((true, rest)),
            _ => Err(ReadFault::Fault(Fault::BadTag(bytes.len()))),
        }
    }
}

impl Put for bool {
    fn put(&self, out: &mut Vec<u8>) -> Result<(), NoMemory> {
        out.push(if *self { 1 } else { 0 })?;
        Ok(())
    }
}
