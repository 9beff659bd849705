//! A source and a sink over any reader and writer. They tell the content that these tell, and
//! count their faults.
ghost use Rattle.std.specs.Prelude.{◌≡◌};

use crate::outside::{Failed, Sink, Source};
use std::io::{Read, Write};

/// A reader that counts its errors.
#[derive(Drop)]
pub struct Input<R> {
    inner: R,
    faults: u64,
}

impl<R> Input<R> {
    /// A reader of which no error was counted yet.
    pub fn new(inner: R) -> Self
        ensures { result ≡ record { inner = inner; faults = 0 } }
    {
        Input { inner, faults: 0 }
    }
}

impl<R: Read> Source for Input<R> {
    ghost left = { λ s. R.remaining s.inner };

    ghost faults = { λ s. s.faults };

    fn read(&mut self, into: &mut [u8]) -> Result<usize, Failed> {
        match self.inner.read(into) {
            Ok(count) => Ok(count),
            Err(_) => {
                self.faults = self.faults.saturating_add(1);
                Err(Failed)
            }
        }
    }
}

/// A writer that flushes after each write, and counts its errors and the writes that take nothing.
/// Where a flush fails, it may hold what it took before.
#[derive(Drop)]
pub struct Output<W> {
    inner: W,
    faults: u64,
}

impl<W> Output<W> {
    /// A writer of which no error was counted yet.
    pub fn new(inner: W) -> Self
        ensures { result ≡ record { inner = inner; faults = 0 } }
    {
        Output { inner, faults: 0 }
    }
}

impl<W: Write> Sink for Output<W> {
    ghost held = { λ s. W.contents s.inner };

    ghost faults = { λ s. s.faults };

    fn write(&mut self, piece: &[u8]) -> Result<usize, Failed> {
        let Ok(count) = self.inner.write(piece) else {
            self.faults = self.faults.saturating_add(1);
            return Err(Failed);
        };
        if self.inner.flush().is_err() {
            self.faults = self.faults.saturating_add(1);
            return Err(Failed);
        }
        if count == 0 {
            self.faults = self.faults.saturating_add(1);
        }
        Ok(count)
    }
}
