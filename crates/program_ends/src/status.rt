//! How a run ends.
ghost use Rattle.std.specs.Prelude.{◌≡◌};

use crate::clause::Clause;
use json_form::{DocCode, Pointer};

/// How a run ended. The numbers 0 to 6 are the program's exit status, in this order.
#[derive(Debug, Drop)]
pub enum Status {
    /// What was read was read to its end, and the sink took the text of the command.
    Done,
    /// Memory was refused.
    NoMemory,
    /// The words are none of the commands.
    Words,
    /// The source failed.
    Read,
    /// The sink failed, or took nothing. It holds a front of the text.
    Write,
    /// The bytes are no document, or none with a report of it. The path is a JSON Pointer (RFC
    /// 6901) to the value at fault.
    Document { code: DocCode, path: Pointer },
    /// This clause of the report is the first that is false. The path leads from the report to the
    /// place.
    No { clause: Clause, path: Pointer },
}

impl Status {
    ghost use Rattle.program_ends.specs.Statuses.{number_of};

    /// The exit status of a program that ends so.
    pub fn number(&self) -> u8
        ensures { result ≡ number_of self.now }
    {
        match self {
            Status::Done => 0,
            Status::NoMemory => 1,
            Status::Words => 2,
            Status::Read => 3,
            Status::Write => 4,
            Status::Document { .. } => 5,
            Status::No { .. } => 6,
        }
    }
}
