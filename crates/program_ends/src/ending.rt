//! How the program ends.
ghost use Rattle.std.specs.Prelude.{◌≡◌, ◌≢◌};
ghost use Rattle.std.specs.IoError.{error_kind};
ghost use Rattle.std.specs.Process.{exit_status as number_in};
ghost use Rattle.program_ends.specs.Statuses.{number_of};

use crate::status::Status;
use std::io::{self, ErrorKind};
use std::process::ExitCode;

/// The process ends with the status's number.
pub fn exit_status(status: &Status) -> ExitCode
    ensures { number_in result ≡ number_of status.now }
{
    ExitCode::from(status.number())
}

/// How a run ends whose words can't be had: a word that is no text is that of no command, and any
/// other error is that there was no memory for the words.
pub fn without_words(error: &io::Error) -> Status
    ensures words { error_kind error.now ≡ ErrorKind.InvalidData → result ≡ Status.Words }
    ensures memory { error_kind error.now ≢ ErrorKind.InvalidData → result ≡ Status.NoMemory }
{
    match error.kind() {
        ErrorKind::InvalidData => Status::Words,
        _ => Status::NoMemory,
    }
}
