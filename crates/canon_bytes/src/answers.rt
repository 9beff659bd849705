//! Answers, and why a statement was refused.
ghost use Rattle.canon_bytes.specs.meaning.AnswerBytes.{spell_fault, spell_answer, fault_at, answer_at};
ghost use Rattle.canon_bytes.specs.AnswerBytes.{FitsFault, FitsAnswer};
ghost use Rattle.canon_bytes.specs.ValuesAgain.{fault_again, answer_again};

use crate::canon::{Put, Take};
use crate::fault::{Fault, ReadFault};
use std::alloc::Global;
use svc_values::{Answer, NoMemory, Rows, StatementFault};

#[tactic(auto, unfolding(crate::specs::meaning::AnswerBytes::fault_at))]
impl Take for StatementFault {
    ghost spelling = { spell_fault };

    ghost fits = { FitsFault };

    ghost reading = { fault_at };

    ghost again = { fault_again };

    fn take(_alloc: Global, bytes: &[u8]) -> Result<(StatementFault, &[u8]), ReadFault> {
        match bytes {
            [] => Err(ReadFault::Fault(Fault::Short)),
            [1, rest @ ..] => Ok((StatementFault::NoTable, rest)),
            [2, rest @ ..] => Ok((StatementFault::NoColumn, rest)),
            [3, rest @ ..] => Ok((StatementFault::KindDiffers, rest)),
            [4, rest @ ..] => Ok((StatementFault::DuplicateKey, rest)),
            [5, rest @ ..] => Ok((StatementFault::NoSequence, rest)),
            [6, rest @ ..] => Ok((StatementFault::NoVar, rest)),
            [7, rest @ ..] => Ok((StatementFault::TooManyRows, rest)),
            [8, rest @ ..] => Ok((StatementFault::SumRange, rest)),
            [9, rest @ ..] => Ok((StatementFault::KeyColumn, rest)),
            _ => Err(ReadFault::Fault(Fault::BadTag(bytes.len()))),
        }
    }
}

impl Put for StatementFault {
    fn put(&self, out: &mut Vec<u8>) -> Result<(), NoMemory> {
        out.push(*self as u8)?;
        Ok(())
    }
}

#[tactic(auto, unfolding(crate::specs::meaning::AnswerBytes::answer_at))]
impl Take for Answer {
    ghost spelling = { spell_answer };

    ghost fits = { FitsAnswer };

    ghost reading = { answer_at };

    ghost again = { answer_again };

    fn take(alloc: Global, bytes: &[u8]) -> Result<(Answer, &[u8]), ReadFault> {
        match bytes {
            [] => Err(ReadFault::Fault(Fault::Short)),
            [1, rest @ ..] => {
                let (count, rest) = u64::take(alloc, rest)?;
                Ok((Answer::Done(count), rest))
            }
            [2, rest @ ..] => {
                let (rows, rest) = Rows::take(alloc, rest)?;
                Ok((Answer::Rows(rows), rest))
            }
            [3, rest @ ..] => {
                let (n, rest) = i64::take(alloc, rest)?;
                Ok((Answer::Number(n), rest))
            }
            [4, rest @ ..] => Ok((Answer::Committed, rest)),
            [5, rest @ ..] => Ok((Answer::Conflict, rest)),
            [6, rest @ ..] => Ok((Answer::RolledBack, rest)),
            [7, rest @ ..] => Ok((Answer::CommitInReplay, rest)),
            [8, rest @ ..] => {
                let (fault, rest) = StatementFault::take(alloc, rest)?;
                Ok((Answer::Refused(fault), rest))
            }
            _ => Err(ReadFault::Fault(Fault::BadTag(bytes.len()))),
        }
    }
}

impl Put for Answer {
    fn put(&self, out: &mut Vec<u8>) -> Result<(), NoMemory> {
        match self {
            Answer::Done(count) => {
                out.push(1)?;
                count.put(out)
            }
            Answer::Rows(rows) => {
                out.push(2)?;
                rows.put(out)
            }
            Answer::Number(n) => {
                out.push(3)?;
                n.put(out)
            }
            Answer::Committed => Ok(out.push(4)?),
            Answer::Conflict => Ok(out.push(5)?),
            Answer::RolledBack => Ok(out.push(6)?),
            Answer::CommitInReplay => Ok(out.push(7)?),
            Answer::Refused(fault) => {
                out.push(8)?;
                fault.put(out)
            }
        }
    }
}
