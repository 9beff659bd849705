//! Why bytes could not be read.
ghost use Rattle.std.specs.Prelude.{◌≡◌};
ghost use Rattle.canon_bytes.specs.declared.fault.ReadFault.TheVariants.{NoMemory as OutOfMemory};

use std::alloc::{AllocError, AllocFailed};
use svc_values::NoMemory;
use thiserror::Error;

/// Why bytes begin with no value. `at` is the offset of the first byte at fault, in reading order.
#[derive(Clone, Copy, Debug, PartialEq, Eq, Error)]
pub enum CanonFault {
    #[error("out of memory")]
    NoMemory,
    /// The input ends where a byte is wanted: `at` is its length.
    #[error("a byte is missing at {at}")]
    Short { at: usize },
    /// A tag, a flag or a code that is none.
    #[error("a wrong tag at {at}")]
    BadTag { at: usize },
    /// A byte of a text that is not UTF-8.
    #[error("no text at {at}")]
    BadText { at: usize },
    /// A part past a limit or rule of its type: a name that is none; names of settings that do not
    /// rise; a number of bytes or items past its limit, which is judged before they are read; a
    /// part of an identifier above 2^63; or a work call that `Call::work` does not make, once all
    /// of it is read. `at` is the part's first byte.
    #[error("a part past its rules at {at}")]
    BadPart { at: usize },
}

/// The first fault in reading order, with the number of bytes from the byte at fault to the end of
/// the input. So it is the same for a part as for the whole that the part stands in.
#[derive(Clone, Copy, Debug, PartialEq, Eq)]
pub enum Fault {
    /// The input ends where a byte is wanted: none are left.
    Short,
    BadTag(usize),
    BadText(usize),
    BadPart(usize),
}

/// Why a value could not be read.
#[derive(Clone, Copy, Debug, PartialEq, Eq)]
pub enum ReadFault {
    NoMemory,
    Fault(Fault),
}

impl From<AllocError> for ReadFault {
    ghost from_gives = { λ _ e. e ≡ OutOfMemory };

    fn from(_e: AllocError) -> ReadFault {
        ReadFault::NoMemory
    }
}

impl From<NoMemory> for ReadFault {
    ghost from_gives = { λ _ e. e ≡ OutOfMemory };

    fn from(_e: NoMemory) -> ReadFault {
        ReadFault::NoMemory
    }
}

impl<T: Drop> From<AllocFailed<T>> for ReadFault {
    ghost from_gives = { λ _ e. e ≡ OutOfMemory };

    fn from(_e: AllocFailed<T>) -> ReadFault {
        ReadFault::NoMemory
    }
}
