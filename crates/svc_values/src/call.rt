//! Calls: what a client submits at once.
ghost use Rattle.std.specs.Prelude.{◌≡◌, length, false, true, IfOk, IsErrOf, ◌↔◌, ◌≤◌};
ghost use Rattle.svc_values.specs.meaning.Calls.{has_commit, is_lone_commit};
ghost use Rattle.svc_values.specs.Calls.{IsMade};

use crate::memory::{NoMemory, TryCopy};
use crate::statement::Statements;
use crate::text::{Name, Text};
use crate::value::Value;
use std::alloc::Global;
use thiserror::Error;

/// Data statements and then a commit or not, or one command that stands alone. A work call has at
/// least one statement or the commit, and at most eight with the commit counted: `Call::work` makes
/// no other, and the functions that rest on it require it.
#[derive(PartialEq, Eq, Drop)]
pub enum Call {
    /// A call without statements is a lone commit.
    Work {
        statements: Statements,
        commit: bool,
    },
    /// Changes a setting of the session.
    Set {
        name: Name,
        value: Value,
    },
    /// Stores a line for whoever watches the service.
    Alter {
        line: Text,
    },
    /// Asks that this request is not replayed from here on.
    Disable,
    Rollback,
}

/// Why there is no such work call.
#[derive(Clone, Copy, Debug, PartialEq, Eq, Error)]
pub enum CallFault {
    #[error("neither a statement nor a commit")]
    Empty,
    #[error("more than eight statements, the commit counted")]
    TooMany,
}

impl Call {
    /// A work call: `Empty` exactly with neither a statement nor a commit, `TooMany` exactly with
    /// eight statements and a commit. It takes no memory.
    pub fn work(statements: Statements, commit: bool) -> Result<Call, CallFault>
        ensures made { IfOk result (λ call. call ≡ Call.Work statements commit) }
        ensures empty { IsErrOf result CallFault.Empty ↔ (length statements ≡ 0)
            × (commit ≡ false) }
        ensures many { IsErrOf result CallFault.TooMany ↔ (8 ≤ length statements)
            × (commit ≡ true) }
        ensures is_made { IfOk result IsMade }
    {
        if statements.is_empty() && !commit {
            return Err(CallFault::Empty);
        }
        if statements.len() >= 8 && commit {
            return Err(CallFault::TooMany);
        }
        Ok(Call::Work { statements, commit })
    }

    /// Whether it ends with a commit.
    pub fn has_commit(&self) -> bool
        ensures { result ≡ has_commit self.now }
    {
        matches!(self, Call::Work { commit: true, .. })
    }

    /// Whether it is a commit without a statement before it.
    pub fn is_lone_commit(&self) -> bool
        ensures { result ≡ is_lone_commit self.now }
    {
        match self {
            Call::Work { statements, commit } => *commit && statements.is_empty(),
            _ => false,
        }
    }
}

impl TryCopy for Call {
    fn copy(&self, alloc: Global) -> Result<Call, NoMemory> {
        match self {
            Call::Work { statements, commit } => Ok(Call::Work {
                statements: statements.copy(alloc)?,
                commit: *commit,
            }),
            Call::Set { name, value } => Ok(Call::Set {
                name: name.copied(),
                value: value.copy(alloc)?,
            }),
            Call::Alter { line } => Ok(Call::Alter {
                line: line.copy(alloc)?,
            }),
            Call::Disable => Ok(Call::Disable),
            Call::Rollback => Ok(Call::Rollback),
        }
    }
}
