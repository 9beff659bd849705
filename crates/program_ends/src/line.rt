//! What is told on standard error.
ghost use Rattle.std.specs.Prelude.{Some, OnOk};
ghost use Rattle.std.specs.Io.KnownBytes.{Appends};
ghost use Rattle.program_ends.specs.Lines.{line_of};

use crate::status::Status;
use std::fmt;
use std::io::{self, Write};

/// The line that tells of an end without an answer, with its line end. Of an answer nothing is
/// told.
#[derive(Drop)]
pub struct Line<'a>(pub &'a Status);

impl fmt::Display for Line<'_> {
    ghost output = { λ line. Some (line_of line.0.now) };

    fn fmt<W: fmt::Write>(&self, f: &mut fmt::Formatter<W>) -> fmt::Result {
        match self.0 {
            Status::Done => Ok(()),
            Status::NoMemory => f.write_str("continuity: no memory\n"),
            Status::Words => f.write_str("continuity: words\n"),
            Status::Read => f.write_str("continuity: read\n"),
            Status::Write => f.write_str("continuity: write\n"),
            Status::Document { code, path } => {
                let code = code.number();
                let path = path.as_str();
                writeln!(f, "continuity: document: {code} at {path}")
            }
            Status::No { clause, path } => {
                let clause = clause.word();
                let path = path.as_str();
                writeln!(f, "continuity: check: {clause} at {path}")
            }
        }
    }
}

/// Tells how a run ended, in one line or not at all.
pub fn tell<W: Write>(to: &mut W, status: &Status) -> io::Result<()>
    ensures { OnOk result (Appends (W.contents to.old) (W.contents to.new) (line_of status.now)) }
{
    to.write_fmt(Line(status))
}
