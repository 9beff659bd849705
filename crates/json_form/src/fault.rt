//! Faults of a document.
ghost use Rattle.std.specs.Prelude.{◌≡◌};

use crate::pointer::{Pointer, escape};
use std::alloc::{AllocError, AllocFailed, Global};
use thiserror::Error;

/// What is wrong with a value of a document or of a report. The codes are 1 to 9, in this order,
/// and 11.
#[derive(Clone, Copy, Debug, PartialEq, Eq, Error)]
pub enum DocCode {
    /// The document has more bytes than its limit.
    #[error("too long")]
    TooLong = 1,
    /// No reading as JSON (RFC 8259), or not UTF-8.
    #[error("no JSON")]
    NotJson,
    /// A value of another kind, or an array of another length than a fixed form has.
    #[error("another kind")]
    WrongKind,
    /// A required member is not there.
    #[error("missing")]
    Missing,
    /// A member or a fixed word that is none of those known.
    #[error("unknown")]
    Unknown,
    /// A number, length, name or count outside its limits.
    #[error("outside the limits")]
    Limit,
    /// A name or a key a second time.
    #[error("a second time")]
    Duplicate,
    /// Values that don't go together.
    #[error("against a rule")]
    Rule,
    /// No pairs of hexadecimal digits, a damaged image, or one whose numbers leave no room for a
    /// run.
    #[error("no image")]
    BadImage,
    /// A value that no report has at its place.
    #[error("no report")]
    BadReport = 11,
}

impl DocCode {
    ghost use Rattle.json_form.specs.Codes.{number_of};

    /// The code's number, 1 to 9 or 11.
    pub fn number(self) -> u8
        ensures { result ≡ number_of self }
    {
        self as u8
    }
}

/// Why nothing was read: the first fault and the place of the value at fault, or no memory.
#[derive(Debug, Drop, Error)]
pub enum DocFault {
    /// Memory was refused.
    #[error("out of memory")]
    NoMemory,
    /// The first fault, and the pointer to the value at fault.
    #[error("{code} at \"{path}\"")]
    At { code: DocCode, path: Pointer },
}

impl From<AllocError> for DocFault {
    ghost use Rattle.json_form.specs.declared.fault.DocFault.TheVariants.{NoMemory};

    ghost from_gives = { λ _ e. e ≡ NoMemory };

    fn from(_e: AllocError) -> DocFault {
        DocFault::NoMemory
    }
}

impl<T: Drop> From<AllocFailed<T>> for DocFault {
    ghost use Rattle.json_form.specs.declared.fault.DocFault.TheVariants.{NoMemory};

    ghost from_gives = { λ _ e. e ≡ NoMemory };

    fn from(_e: AllocFailed<T>) -> DocFault {
        DocFault::NoMemory
    }
}

impl DocFault {
    ghost use Rattle.std.specs.Prelude.{[], decimal};
    ghost use Rattle.json_form.specs.meaning.Pointers.{escaped};
    ghost use Rattle.json_form.specs.Faults.{IsUnder};
    ghost use Rattle.json_form.specs.declared.fault.DocFault.TheVariants.{At};

    /// A fault of the value itself. It takes no memory.
    pub fn here(alloc: Global, code: DocCode) -> DocFault
        ensures { result ≡ At code [] }
    {
        DocFault::At {
            code,
            path: Pointer::here(alloc),
        }
    }

    /// A fault of a member of the value.
    pub fn at_member(alloc: Global, name: &str, code: DocCode) -> DocFault
        ensures { IsUnder (escaped name.now) (At code []) result }
    {
        DocFault::here(alloc, code).under(alloc, name)
    }

    /// The fault of a member's value, seen from the object.
    pub fn under(self, alloc: Global, name: &str) -> DocFault
        ensures { IsUnder (escaped name.now) self result }
    {
        match escape(alloc, name) {
            Ok(step) => self.under_step(alloc, step.as_str()),
            Err(_) => DocFault::NoMemory,
        }
    }

    /// The fault of the item at a position, seen from the array.
    pub fn under_item(self, alloc: Global, at: usize) -> DocFault
        ensures { IsUnder (decimal at) self result }
    {
        match at.to_string(alloc) {
            Ok(step) => self.under_step(alloc, step.as_str()),
            Err(_) => DocFault::NoMemory,
        }
    }

    fn under_step(self, alloc: Global, step: &str) -> DocFault
        ensures { IsUnder step.now self result }
    {
        let DocFault::At { code, path } = self else {
            return DocFault::NoMemory;
        };
        match path.under(alloc, step) {
            Ok(path) => DocFault::At { code, path },
            Err(_) => DocFault::NoMemory,
        }
    }
}
