//! One sequence, as far as what was served tells it.
ghost use Rattle.std.specs.Prelude.{◌≡◌, ◌+◌, ◌*◌, ◌+ℤ◌, pos, IfOk};
ghost use Rattle.std.specs.Str.{bytes_eq};
ghost use Rattle.server_model.specs.meaning.NewValues.{blocks_for as blocks_for_def, count_of, gave as gave_def, gave_often as gave_often_def, if_gave, reopened as reopened_def, upto_with as upto_with_def};
ghost use Rattle.legal_draws.specs.Ways.{HasBefore, way_at};

use crate::sequence::Sequence;
use std::marker::Model;
use svc_values::{Name, NoMemory};

/// How many values a block has.
const BLOCK_SIZE: u64 = 16;

/// A sequence: the value that it gives next, and where its last block ends. Where a stop may have
/// left blocks of which no value was seen, these are without them, and `maybe` is their number.
#[derive(Drop)]
pub(crate) struct Count {
    name: Name,
    next: i64,
    upto: i64,
    maybe: u64,
}

impl Model for Count {
    ghost use Rattle.server_model.specs.meaning.NewValues.{Count as One};

    ghost Value = { One };

    ghost view = { λ c. record { name = c.name; next = c.next; upto = c.upto; maybe = c.maybe } };
}

/// The number that is so much greater.
fn plus(number: i64, more: u64) -> Result<i64, NoMemory>
    ensures { IfOk result (λ sum. sum ≡ number +ℤ pos more) }
{
    number.checked_add_unsigned(more).ok_or(NoMemory)
}

/// The sum of two numbers.
pub(crate) fn sum(left: u64, right: u64) -> Result<u64, NoMemory>
    ensures { IfOk result (λ sum. sum ≡ left + right) }
{
    left.checked_add(right).ok_or(NoMemory)
}

/// How many values so many blocks have.
fn values_in(blocks: u64) -> Result<u64, NoMemory>
    ensures { IfOk result (λ values. values ≡ 16 * blocks) }
{
    blocks.checked_mul(BLOCK_SIZE).ok_or(NoMemory)
}

/// Where the block of a value ends.
fn upto_with(value: i64, upto: i64) -> Result<i64, NoMemory>
    ensures { IfOk result (λ end. end ≡ upto_with_def value upto) }
{
    if value <= upto {
        Ok(upto)
    } else {
        plus(upto, BLOCK_SIZE)
    }
}

impl Count {
    /// The sequence before its first value.
    pub(crate) fn first(sequence: &Sequence) -> Result<Count, NoMemory>
        ensures { IfOk result (λ count. count ≡ count_of sequence.now) }
    {
        let upto = sequence.upto();
        Ok(Count {
            name: sequence.name().copied(),
            next: plus(upto, 1)?,
            upto,
            maybe: 0,
        })
    }

    /// The sequence again. It takes no memory.
    pub(crate) fn copied(&self) -> Count
        ensures { result ≡ self.now }
    {
        Count {
            name: self.name.copied(),
            next: self.next,
            upto: self.upto,
            maybe: self.maybe,
        }
    }

    /// Whether it has this name.
    pub(crate) fn has_name(&self, name: &Name) -> bool
        ensures { result ≡ bytes_eq self.now.name name.now }
    {
        self.name == *name
    }

    /// Its name.
    pub(crate) fn name(&self) -> &Name
        ensures { result.now ≡ self.now.name }
    {
        &self.name
    }

    /// The value that it gives next.
    pub(crate) fn next(&self) -> i64
        ensures { result ≡ self.now.next }
    {
        self.next
    }

    /// How many blocks of which no value was seen may stand.
    pub(crate) fn maybe(&self) -> u64
        ensures { result ≡ self.now.maybe }
    {
        self.maybe
    }

    /// The sequence in a later opening.
    pub(crate) fn reopened(&self) -> Result<Count, NoMemory>
        ensures { IfOk result (λ count. count ≡ reopened_def self.now) }
    {
        Ok(Count {
            name: self.name.copied(),
            next: plus(self.upto, 1)?,
            upto: self.upto,
            maybe: self.maybe,
        })
    }

    /// The sequence after its next value.
    pub(crate) fn gave(&self) -> Result<Count, NoMemory>
        ensures { IfOk result (λ count. count ≡ gave_def self.now) }
    {
        Ok(Count {
            name: self.name.copied(),
            next: plus(self.next, 1)?,
            upto: upto_with(self.next, self.upto)?,
            maybe: self.maybe,
        })
    }

    /// The sequence after so many values. Linear in their number.
    pub(crate) fn gave_often(&self, values: usize) -> Result<Count, NoMemory>
        ensures { IfOk result (λ count. count ≡ gave_often_def values self.now) }
    {
        let mut count = self.copied();
        for _ in 0..values {
            count = count.gave()?;
        }
        Ok(count)
    }

    /// 1 where the next value needs another block, and else 0.
    fn blocks_for_next(&self) -> u64
        ensures { result ≡ blocks_for_def 1 self.now.next self.now.upto }
    {
        if self.next <= self.upto { 0 } else { 1 }
    }

    /// How many blocks are set aside for so many values. Linear in their number.
    fn blocks_for(&self, values: usize) -> Result<u64, NoMemory>
        ensures { IfOk result (λ blocks.
            blocks ≡ blocks_for_def values self.now.next self.now.upto) }
    {
        let mut count = self.copied();
        let mut blocks = 0;
        for _ in 0..values {
            blocks = sum(blocks, count.blocks_for_next())?;
            count = count.gave()?;
        }
        Ok(blocks)
    }

    /// The sequence after a stop that may have left the blocks for so many values.
    pub(crate) fn stopped(&self, values: usize) -> Result<Count, NoMemory>
        ensures { IfOk result (λ count. count ≡ record self.now {
          maybe = self.now.maybe + blocks_for_def values self.now.next self.now.upto;
        }) }
    {
        Ok(Count {
            name: self.name.copied(),
            next: self.next,
            upto: self.upto,
            maybe: sum(self.maybe, self.blocks_for(values)?)?,
        })
    }

    /// The sequence where so many of the blocks that may stand do so.
    pub(crate) fn way(&self, blocks: u64) -> Result<Count, NoMemory>
        ensures { IfOk result (λ count. count ≡ way_at blocks self.now) }
    {
        let values = values_in(blocks)?;
        Ok(Count {
            name: self.name.copied(),
            next: plus(self.next, values)?,
            upto: plus(self.upto, values)?,
            maybe: 0,
        })
    }

    /// With how many of the blocks that may stand the value is the next one, and `None` where it is
    /// so with no number of them.
    fn blocks_before(&self, value: i64) -> Option<u64>
        ensures { HasBefore self.now value result }
    {
        if value < self.next {
            return None;
        }
        let ahead = value.abs_diff(self.next);
        if ahead % BLOCK_SIZE != 0 {
            return None;
        }
        let blocks = ahead / BLOCK_SIZE;
        if blocks > self.maybe {
            return None;
        }
        Some(blocks)
    }

    /// The sequence after a value that it may have given, and `None` after another.
    pub(crate) fn after(&self, value: i64) -> Result<Option<Count>, NoMemory>
        ensures { IfOk result (λ after. after ≡ if_gave self.now value) }
    {
        let Some(blocks) = self.blocks_before(value) else {
            return Ok(None);
        };
        let way = self.way(blocks)?;
        Ok(Some(way.gave()?))
    }
}
