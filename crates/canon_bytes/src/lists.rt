//! Lists: written and read once for all types of items.
ghost use Rattle.std.specs.Prelude.{◌≡◌, ◌*◌, ◌≤◌, ◌++◌, length, IfOk, OnOk};
ghost use Rattle.std.specs.List.{flat_map, AllByRecursion};
ghost use Rattle.canon_bytes.specs.meaning.Lists.{spell_list, items_at, list_at, listed_at};
ghost use Rattle.canon_bytes.specs.Lists.{FitsList, FitsListed};
ghost use Rattle.canon_bytes.specs.Reading.{IsReading};
ghost use Rattle.canon_bytes.specs.Again.{list_again, listed_again};

use crate::canon::{Put, PutMade, Take};
use crate::fault::{Fault, ReadFault};
use std::alloc::Global;
use svc_values::{Limited, Listed, NoMemory, Shared};

/// Writes the items, one after the other.
fn put_items<T: Put>(items: &[T], out: &mut Vec<u8>) -> Result<(), NoMemory>
    ensures written { OnOk result (out.new.items ≡ out.old.items ++ flat_map T.spelling items.now) }
    ensures fitting { OnOk result (AllByRecursion T.fits items.now) }
{
    for item in items {
        item.put(out)?;
    }
    Ok(())
}

/// Writes the items, one after the other.
fn put_made_items<T: PutMade>(items: &[T], out: &mut Vec<u8>) -> Result<(), NoMemory>
    requires { AllByRecursion T.made items.now }
    ensures written { OnOk result (out.new.items ≡ out.old.items ++ flat_map T.spelling items.now) }
    ensures fitting { OnOk result (AllByRecursion T.fits items.now) }
{
    for item in items {
        item.put_made(out)?;
    }
    Ok(())
}

/// For how many of so many items there is room before they are read: for all of them where each
/// takes eight bytes or more, as values and rows do. A count that the bytes cannot hold asks for no
/// more room than the bytes could fill.
fn room_for(count: u64, bytes: &[u8]) -> usize
    ensures counted { result ≤ count }
    ensures held { 8 * result ≤ length bytes.now }
    ensures all { 8 * count ≤ length bytes.now → result ≡ count }
{
    let held = bytes.len() / 8;
    if count <= held as u64 {
        count as usize
    } else {
        held
    }
}

/// That many items from the front.
fn take_items<T: Take + Drop>(
    alloc: Global,
    count: u64,
    bytes: &[u8],
) -> Result<(Vec<T>, &[u8]), ReadFault>
    ensures exact { IsReading (λ x. (x.0.items, x.1.now)) result
        (items_at T.reading count bytes.now) }
    ensures found { IfOk result (λ x. bytes.now ≡ flat_map T.spelling x.0.items ++ x.1.now) }
    ensures fitting { IfOk result (λ x. AllByRecursion T.fits x.0.items) }
    ensures counted { IfOk result (λ x. length x.0.items ≡ count) }
{
    let mut items = Vec::with_capacity(alloc, room_for(count, bytes))?;
    let mut rest = bytes;
    for _ in 0..count {
        let (item, after) = T::take(alloc, rest)?;
        items.push(item)?;
        rest = after;
    }
    Ok((items, rest))
}

#[tactic(auto, unfolding(crate::specs::meaning::Lists::list_at, crate::specs::meaning::Lists::spell_list))]
impl<T: Take + Drop, const LIMIT: usize> Take for Limited<T, LIMIT> {
    ghost spelling = { spell_list T.spelling };

    ghost fits = { FitsList T.fits LIMIT };

    ghost reading = { list_at T.reading LIMIT };

    ghost again = { list_again T.spelling T.fits T.reading T.again LIMIT };

    fn take(alloc: Global, bytes: &[u8]) -> Result<(Self, &[u8]), ReadFault> {
        let (count, rest) = u64::take(alloc, bytes)?;
        if count > LIMIT as u64 {
            return Err(ReadFault::Fault(Fault::BadPart(bytes.len())));
        }
        let (items, rest) = take_items(alloc, count, rest)?;
        Ok((Limited::from_vec(items), rest))
    }
}

#[tactic(auto, unfolding(crate::specs::meaning::Lists::spell_list))]
impl<T: Put + Drop, const LIMIT: usize> Put for Limited<T, LIMIT> {
    fn put(&self, out: &mut Vec<u8>) -> Result<(), NoMemory> {
        (self.len() as u64).put(out)?;
        put_items(self.as_slice(), out)
    }
}

#[tactic(auto, unfolding(crate::specs::meaning::Lists::list_at, crate::specs::meaning::Lists::spell_list))]
impl<T: Take + Drop, const LIMIT: usize> Take for Shared<T, LIMIT> {
    ghost spelling = { spell_list T.spelling };

    ghost fits = { FitsList T.fits LIMIT };

    ghost reading = { list_at T.reading LIMIT };

    ghost again = { list_again T.spelling T.fits T.reading T.again LIMIT };

    fn take(alloc: Global, bytes: &[u8]) -> Result<(Self, &[u8]), ReadFault> {
        let (list, rest) = <Limited<T, LIMIT> as Take>::take(alloc, bytes)?;
        Ok((list.into_shared(alloc)?, rest))
    }
}

#[tactic(auto, unfolding(crate::specs::meaning::Lists::spell_list))]
impl<T: Put + Drop, const LIMIT: usize> Put for Shared<T, LIMIT> {
    fn put(&self, out: &mut Vec<u8>) -> Result<(), NoMemory> {
        (self.len() as u64).put(out)?;
        put_items(self.as_slice(), out)
    }
}

#[tactic(auto, unfolding(crate::specs::meaning::Lists::listed_at, crate::specs::meaning::Lists::spell_list))]
impl<T: Take + Drop> Take for Listed<T> {
    ghost spelling = { spell_list T.spelling };

    ghost fits = { FitsListed T.fits };

    ghost reading = { listed_at T.reading };

    ghost again = { listed_again T.spelling T.fits T.reading T.again };

    fn take(alloc: Global, bytes: &[u8]) -> Result<(Self, &[u8]), ReadFault> {
        let (count, rest) = u64::take(alloc, bytes)?;
        let (items, rest) = take_items(alloc, count, rest)?;
        Ok((Listed::from_vec(items), rest))
    }
}

#[tactic(auto, unfolding(crate::specs::meaning::Lists::spell_list))]
impl<T: Put + Drop> Put for Listed<T> {
    fn put(&self, out: &mut Vec<u8>) -> Result<(), NoMemory> {
        (self.len() as u64).put(out)?;
        put_items(self.as_slice(), out)
    }
}

#[tactic(auto, unfolding(crate::specs::meaning::Lists::spell_list))]
impl<T: PutMade + Drop> PutMade for Listed<T> {
    ghost made = { AllByRecursion T.made };

    fn put_made(&self, out: &mut Vec<u8>) -> Result<(), NoMemory> {
        (self.len() as u64).put(out)?;
        put_made_items(self.as_slice(), out)
    }
}
