//! Names, texts and octets.
ghost use Rattle.std.specs.Prelude.{◌≡◌, ◌≤◌, ◌++◌, IfOk, OnOk, length};
ghost use Rattle.canon_bytes.specs.meaning.TextBytes.{spell_bytes, bytes_at, name_at, text_at, octets_at};
ghost use Rattle.canon_bytes.specs.TextBytes.{FitsName, FitsText, FitsOctets};
ghost use Rattle.canon_bytes.specs.Reading.{IsReading};
ghost use Rattle.canon_bytes.specs.Again.{name_again, text_again, octets_again};

use crate::canon::{Put, Take};
use crate::fault::{Fault, ReadFault};
use std::alloc::Global;
use std::str;
use svc_values::{Name, NameFault, NoMemory, Octets, Text, TextFault};

/// Writes how many bytes there are, and the bytes.
#[tactic(auto, unfolding(crate::specs::meaning::TextBytes::spell_bytes))]
fn put_bytes(bytes: &[u8], out: &mut Vec<u8>) -> Result<(), NoMemory>
    ensures { OnOk result (out.new.items ≡ out.old.items ++ spell_bytes bytes.now) }
{
    (bytes.len() as u64).put(out)?;
    out.extend_from_slice(bytes)?;
    Ok(())
}

/// At most `limit` bytes behind their number.
#[tactic(auto, unfolding(crate::specs::meaning::TextBytes::bytes_at, crate::specs::meaning::TextBytes::spell_bytes))]
fn take_bytes(alloc: Global, limit: u64, bytes: &[u8]) -> Result<(&[u8], &[u8]), ReadFault>
    ensures exact { IsReading (λ x. (x.0.now, x.1.now)) result (bytes_at limit bytes.now) }
    ensures found { IfOk result (λ x. bytes.now ≡ spell_bytes x.0.now ++ x.1.now) }
    ensures within { IfOk result (λ x. length x.0.now ≤ limit) }
{
    let (count, rest) = u64::take(alloc, bytes)?;
    if count > limit {
        return Err(ReadFault::Fault(Fault::BadPart(bytes.len())));
    }
    let count = count as usize;
    if rest.len() < count {
        return Err(ReadFault::Fault(Fault::Short));
    }
    Ok(rest.split_at(count))
}

#[tactic(auto, unfolding(crate::specs::meaning::TextBytes::octets_at))]
impl Take for Octets {
    ghost spelling = { spell_bytes };

    ghost fits = { FitsOctets };

    ghost reading = { octets_at };

    ghost again = { octets_again };

    fn take(alloc: Global, bytes: &[u8]) -> Result<(Octets, &[u8]), ReadFault> {
        let (octets, rest) = take_bytes(alloc, 64, bytes)?;
        match Octets::new(alloc, octets) {
            Ok(octets) => Ok((octets, rest)),
            Err(TextFault::NoMemory) => Err(ReadFault::NoMemory),
            Err(TextFault::TooLong) => unreachable!(),
        }
    }
}

impl Put for Octets {
    fn put(&self, out: &mut Vec<u8>) -> Result<(), NoMemory> {
        put_bytes(self.as_slice(), out)
    }
}

#[tactic(auto, unfolding(crate::specs::meaning::TextBytes::text_at))]
impl Take for Text {
    ghost spelling = { spell_bytes };

    ghost fits = { FitsText };

    ghost reading = { text_at };

    ghost again = { text_again };

    fn take(alloc: Global, bytes: &[u8]) -> Result<(Text, &[u8]), ReadFault> {
        let (octets, rest) = take_bytes(alloc, 64, bytes)?;
        match str::from_utf8(octets) {
            Err(e) => Err(ReadFault::Fault(Fault::BadText(
                octets.len() - e.valid_up_to() + rest.len(),
            ))),
            Ok(text) => match Text::new(alloc, text) {
                Ok(text) => Ok((text, rest)),
                Err(TextFault::NoMemory) => Err(ReadFault::NoMemory),
                Err(TextFault::TooLong) => unreachable!(),
            },
        }
    }
}

impl Put for Text {
    fn put(&self, out: &mut Vec<u8>) -> Result<(), NoMemory> {
        put_bytes(self.as_str().as_bytes(), out)
    }
}

#[tactic(auto, unfolding(crate::specs::meaning::TextBytes::name_at))]
impl Take for Name {
    ghost spelling = { spell_bytes };

    ghost fits = { FitsName };

    ghost reading = { name_at };

    ghost again = { name_again };

    fn take(alloc: Global, bytes: &[u8]) -> Result<(Name, &[u8]), ReadFault> {
        let (octets, rest) = take_bytes(alloc, 16, bytes)?;
        let Ok(text) = str::from_utf8(octets) else {
            return Err(ReadFault::Fault(Fault::BadPart(bytes.len())));
        };
        match Name::new(alloc, text) {
            Ok(name) => Ok((name, rest)),
            Err(NameFault::NoMemory) => Err(ReadFault::NoMemory),
            Err(NameFault::BadName) => Err(ReadFault::Fault(Fault::BadPart(bytes.len()))),
        }
    }
}

impl Put for Name {
    fn put(&self, out: &mut Vec<u8>) -> Result<(), NoMemory> {
        put_bytes(self.as_str().as_bytes(), out)
    }
}
