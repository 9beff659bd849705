//! The items of a call, as a document has them.

use svc_values::{Name, Statement, Text, Value};

/// One item of a call. A commit stands last, and each of the other commands alone.
#[derive(Drop)]
pub enum Item {
    Statement(Statement),
    Set { name: Name, value: Value },
    Alter { line: Text },
    Disable,
    Rollback,
    Commit,
}

/// The word that an item begins with.
#[derive(Clone, Copy, Debug, PartialEq, Eq)]
pub enum ItemWord {
    Insert,
    Update,
    Delete,
    Get,
    Select,
    Count,
    Sum,
    Show,
    Set,
    Alter,
    Disable,
    Rollback,
    Commit,
}

/// How an update's operand changes its column.
#[derive(Clone, Copy, Debug, PartialEq, Eq)]
pub enum ChangeWord {
    To,
    Plus,
}
