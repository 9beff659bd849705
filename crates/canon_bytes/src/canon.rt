//! What a type with canonical bytes does.
ghost use Rattle.std.specs.Prelude.{◌≡◌, ℕ, List, ◌++◌, length, Result, Ok, OnOk, OnErr, IfOk};
ghost use Rattle.canon_bytes.specs.declared.fault.Fault.{Fault};
ghost use Rattle.canon_bytes.specs.Reading.{IsReading};
ghost use Rattle.canon_bytes.specs.FirstValue.{located, GivesFirst, Spells, IsUnlessMemory};

use crate::fault::{CanonFault, Fault, ReadFault};
use std::alloc::Global;
use svc_values::NoMemory;

/// A type whose values have one spelling each, and that can be read.
pub trait Take: Sized {
    /// The bytes of a value.
    ghost spelling: { Self → List ℕ };

    /// The limits and rules of the type: what keeps them has a spelling that is read.
    ghost fits: { Self → Type 0 };

    /// The value at the front of the bytes and the bytes after it, or the first fault.
    ghost reading: { List ℕ → Result (Self × List ℕ) Fault };

    /// Reads the value at the front, and gives the bytes after it beside it. Linear in the bytes
    /// that are read. A count that it has only read asks for room for no more items than an eighth
    /// of the bytes behind it.
    fn take(alloc: Global, bytes: &[u8]) -> Result<(Self, &[u8]), ReadFault>
        ensures exact { IsReading (λ x. (x.0, x.1.now)) result (reading bytes.now) }
        ensures found { IfOk result (λ x. bytes.now ≡ spelling x.0 ++ x.1.now) }
        ensures fitting { IfOk result (λ x. fits x.0) };

    /// What is written is read again, whatever follows.
    ghost again: { (x : Self) (rest : List ℕ) → fits x
        → reading (spelling x ++ rest) ≡ Ok (x, rest) };
}

/// A type of which each value can be written.
pub trait Put: Take {
    /// Writes the spelling at the end. After want of memory a part of it may stand there.
    fn put(&self, out: &mut Vec<u8>) -> Result<(), NoMemory>
        ensures written { OnOk result (out.new.items ≡ out.old.items ++ Self.spelling self.now) }
        ensures fitting { OnOk result (Self.fits self.now) };
}

/// A type of which those values can be written that keep the rules which the type alone does not
/// see to.
pub trait PutMade: Take {
    /// The rules that the caller sees to.
    ghost made: { Self → Type 0 };

    /// Writes the spelling at the end. After want of memory a part of it may stand there.
    fn put_made(&self, out: &mut Vec<u8>) -> Result<(), NoMemory>
        requires { made self.now }
        ensures written { OnOk result (out.new.items ≡ out.old.items ++ Self.spelling self.now) }
        ensures fitting { OnOk result (Self.fits self.now) };
}

/// The fault with its offset in an input of this length.
fn place(len: usize, fault: Fault) -> CanonFault
    ensures { result ≡ located len fault }
{
    match fault {
        Fault::Short => CanonFault::Short { at: len },
        Fault::BadTag(left) => CanonFault::BadTag {
            at: len.saturating_sub(left),
        },
        Fault::BadText(left) => CanonFault::BadText {
            at: len.saturating_sub(left),
        },
        Fault::BadPart(left) => CanonFault::BadPart {
            at: len.saturating_sub(left),
        },
    }
}

/// Reads a first value, and gives its length beside it.
pub(crate) fn take_first<T: Take + Drop>(
    alloc: Global,
    bytes: &[u8],
) -> Result<(T, usize), CanonFault>
    ensures exact { GivesFirst T.reading bytes.now result }
    ensures found { IfOk result (λ x. Spells T.spelling T.fits bytes.now x.0 x.1) }
    ensures only { (x : T) (rest : List ℕ) → T.fits x → bytes.now ≡ T.spelling x ++ rest
        → IsUnlessMemory result (Ok (x, length (T.spelling x))) }
{
    match T::take(alloc, bytes) {
        Ok((value, rest)) => Ok((value, bytes.len() - rest.len())),
        Err(ReadFault::NoMemory) => Err(CanonFault::NoMemory),
        Err(ReadFault::Fault(fault)) => Err(place(bytes.len(), fault)),
    }
}

/// Writes the spelling at the end, or nothing.
pub(crate) fn put_last<T: Put>(alloc: Global, value: &T, out: &mut Vec<u8>) -> Result<(), NoMemory>
    ensures written { OnOk result (out.new.items ≡ out.old.items ++ T.spelling value.now) }
    ensures fitting { OnOk result (T.fits value.now) }
    ensures err { OnErr result (out.new.items ≡ out.old.items) }
{
    let mut spelling = Vec::new(alloc);
    value.put(&mut spelling)?;
    out.extend_from_slice(&spelling)?;
    Ok(())
}

/// Writes the spelling at the end, or nothing.
pub(crate) fn put_made_last<T: PutMade>(
    alloc: Global,
    value: &T,
    out: &mut Vec<u8>,
) -> Result<(), NoMemory>
    requires { T.made value.now }
    ensures written { OnOk result (out.new.items ≡ out.old.items ++ T.spelling value.now) }
    ensures fitting { OnOk result (T.fits value.now) }
    ensures err { OnErr result (out.new.items ≡ out.old.items) }
{
    let mut spelling = Vec::new(alloc);
    value.put_made(&mut spelling)?;
    out.extend_from_slice(&spelling)?;
    Ok(())
}

/// What is written is read again, whatever follows; a value has one spelling; and no spelling
/// begins that of another value.
pub fn one_spelling<T: Take>()
    ensures again { (x : T) (rest : List ℕ) → T.fits x
        → T.reading (T.spelling x ++ rest) ≡ Ok (x, rest) }
    ensures apart { (a b : T) (x y : List ℕ) → T.fits a → T.fits b
        → T.spelling a ++ x ≡ T.spelling b ++ y → (a ≡ b) × (x ≡ y) }
{}
