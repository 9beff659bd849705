//! Where bytes come from and where they go. A source and a sink count their faults.
ghost use Rattle.std.specs.Prelude.{◌≡◌, ◌<◌, ℕ, List, OnOk, length};
ghost use Rattle.std.specs.declared.option.Option.{Option};
ghost use Rattle.std.specs.Io.{ReadsAtMost, WritesAtMost};
ghost use Rattle.std.specs.Io.KnownBytes.{ReadConsumes};
ghost use Rattle.byte_streams.specs.Causes.{AddsFront, HasCause, NothingHasCause};

use thiserror::Error;

/// A read or a write that did not come about.
#[derive(Clone, Copy, Debug, PartialEq, Eq, Error)]
#[error("a read or a write failed")]
pub struct Failed;

/// Bytes that come in. `left` are the bytes that are left, where the source tells them, and
/// `faults` counts the reads that failed.
pub trait Source {
    ghost left: { Self → Option (List ℕ) };

    ghost faults: { Self → ℕ };

    /// Reads at most as many bytes as there is room for; none only at the end of the input.
    fn read(&mut self, into: &mut [u8]) -> Result<usize, Failed>
        requires { 0 < length into.old }
        ensures bound { ReadsAtMost result into.new }
        ensures bytes { ReadConsumes (left self.old) (left self.new) result into.new }
        ensures cause { HasCause (faults self.old) (faults self.new) result }
        ensures kept { OnOk result (faults self.new ≡ faults self.old) };
}

/// Bytes that go out. `held` are the bytes that the sink holds, where it tells them, and `faults`
/// counts the writes that failed or took nothing of a piece that is not empty.
pub trait Sink {
    ghost held: { Self → Option (List ℕ) };

    ghost faults: { Self → ℕ };

    /// Writes a front of the piece, and answers its length. Where it fails it may hold a front all
    /// the same.
    fn write(&mut self, piece: &[u8]) -> Result<usize, Failed>
        ensures bound { WritesAtMost result piece.now }
        ensures bytes { AddsFront (held self.old) (held self.new) result piece.now }
        ensures cause { HasCause (faults self.old) (faults self.new) result }
        ensures nothing { NothingHasCause (faults self.old) (faults self.new) result piece.now };
}
