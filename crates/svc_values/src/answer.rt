//! Answers of statements and calls.

use crate::list::Listed;
use crate::memory::{NoMemory, TryCopy};
use crate::shared::Shared;
use crate::value::Row;
use std::alloc::Global;

/// The rows of one answer: at most 32. Copies of an answer share them.
pub type Rows = Shared<Row, 32>;

/// Why a statement was refused. The codes are 1 to 9, in this order.
#[derive(Clone, Copy, Debug, PartialEq, Eq)]
pub enum StatementFault {
    NoTable = 1,
    NoColumn,
    KindDiffers,
    DuplicateKey,
    NoSequence,
    NoVar,
    TooManyRows,
    SumRange,
    KeyColumn,
}

/// What a statement or a command answers.
#[derive(PartialEq, Eq, Drop)]
pub enum Answer {
    /// The number of rows that were changed.
    Done(u64),
    Rows(Rows),
    Number(i64),
    Committed,
    /// The transaction was rolled back: a place that it read has another committed value.
    Conflict,
    RolledBack,
    /// A commit was reached in a replay. The transaction was rolled back.
    CommitInReplay,
    Refused(StatementFault),
}

/// The answers of one call, in order, without a limit.
pub type Answers = Listed<Answer>;

impl TryCopy for Answer {
    fn copy(&self, alloc: Global) -> Result<Answer, NoMemory> {
        match self {
            Answer::Done(count) => Ok(Answer::Done(*count)),
            Answer::Rows(rows) => Ok(Answer::Rows(rows.copy(alloc)?)),
            Answer::Number(n) => Ok(Answer::Number(*n)),
            Answer::Committed => Ok(Answer::Committed),
            Answer::Conflict => Ok(Answer::Conflict),
            Answer::RolledBack => Ok(Answer::RolledBack),
            Answer::CommitInReplay => Ok(Answer::CommitInReplay),
            Answer::Refused(fault) => Ok(Answer::Refused(*fault)),
        }
    }
}

impl TryCopy for StatementFault {
    fn copy(&self, _alloc: Global) -> Result<StatementFault, NoMemory> {
        Ok(*self)
    }
}
