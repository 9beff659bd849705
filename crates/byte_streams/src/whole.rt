//! Whole reads and whole writes over a source and a sink.
ghost use Rattle.std.specs.Prelude.{◌≡◌, ◌<◌, ◌≤◌, ◌+◌, ◌^◌, length, IfOk, OnOk, OnErr, IsErrOf, OnErr};
ghost use Rattle.std.specs.Io.KnownBytes.{Appends};
ghost use Rattle.byte_streams.specs.Causes.{Rose, AppendsFront, ConsumesSome};
ghost use Rattle.byte_streams.specs.Reads.{IsPiece, IsWhole};

use crate::outside::{Failed, Sink, Source};
use std::alloc::{AllocError, Global};
use thiserror::Error;

/// Why no bytes were read.
#[derive(Clone, Copy, Debug, PartialEq, Eq, Error)]
pub enum ReadError {
    #[error("out of memory")]
    NoMemory,
    #[error("a read failed")]
    Failed,
}

impl From<AllocError> for ReadError {
    ghost use Rattle.byte_streams.specs.declared.whole.ReadError.TheVariants.{NoMemory};

    ghost from_gives = { λ _ e. e ≡ NoMemory };

    fn from(_e: AllocError) -> ReadError {
        ReadError::NoMemory
    }
}

impl From<Failed> for ReadError {
    ghost use Rattle.byte_streams.specs.declared.whole.ReadError.TheVariants.{Failed as failed};

    ghost from_gives = { λ _ e. e ≡ failed };

    fn from(_e: Failed) -> ReadError {
        ReadError::Failed
    }
}

/// Reads once, and adds what came at the end.
fn read_piece<S: Source>(
    source: &mut S,
    into: &mut [u8],
    out: &mut Vec<u8>,
) -> Result<usize, ReadError>
    requires { 0 < length into.old }
    ensures piece { IfOk result (λ n.
        IsPiece (S.left source.old) (S.left source.new) out.old.items out.new.items n) }
    ensures bound { IfOk result (λ n. n ≤ length into.old) }
    ensures err { OnErr result (ConsumesSome (S.left source.old) (S.left source.new)) }
    ensures kept { OnOk result (S.faults source.new ≡ S.faults source.old) }
    ensures lacked { IsErrOf result ReadError.NoMemory → S.faults source.new ≡ S.faults source.old }
    ensures failed { IsErrOf result ReadError.Failed
        → Rose (S.faults source.old) (S.faults source.new) }
{
    let count = source.read(into)?;
    out.extend_from_slice(&into[..count])?;
    Ok(count)
}

/// Reads to the end, or to one byte past the limit. Each byte is copied once, from a buffer of
/// 64 KiB.
pub fn read_to_limit<S: Source>(
    alloc: Global,
    source: &mut S,
    limit: usize,
) -> Result<Vec<u8>, ReadError>
    requires { limit + 1 < 2 ^ 63 }
    ensures read { IfOk result (λ v.
        IsWhole (S.left source.old) (S.left source.new) limit v.items) }
    ensures err { OnErr result (ConsumesSome (S.left source.old) (S.left source.new)) }
    ensures kept { OnOk result (S.faults source.new ≡ S.faults source.old) }
    ensures lacked { IsErrOf result ReadError.NoMemory → S.faults source.new ≡ S.faults source.old }
    ensures failed { IsErrOf result ReadError.Failed
        → Rose (S.faults source.old) (S.faults source.new) }
{
    let mut out = Vec::new(alloc);
    let mut buffer = [0u8; 65_536];
    'pieces: while out.len() <= limit {
        let want = (limit + 1 - out.len()).min(65_536);
        let count = read_piece(source, &mut buffer[..want], &mut out)?;
        if count == 0 {
            return Ok(out);
        }
    }
    Ok(out)
}

/// Writes all of the text.
pub fn write_whole<K: Sink>(sink: &mut K, text: &[u8]) -> Result<(), Failed>
    ensures ok { OnOk result (Appends (K.held sink.old) (K.held sink.new) text.now) }
    ensures err { OnErr result (AppendsFront (K.held sink.old) (K.held sink.new) text.now) }
    ensures later { K.faults sink.old ≤ K.faults sink.new }
    ensures failed { OnErr result (Rose (K.faults sink.old) (K.faults sink.new)) }
{
    let mut done = 0;
    'pieces: while done < text.len() {
        let count = sink.write(&text[done..])?;
        if count == 0 {
            return Err(Failed);
        }
        done += count;
    }
    Ok(())
}
