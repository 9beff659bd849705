//! The numbers that an opening gives anew.
ghost use Rattle.std.specs.Prelude.{◌≡◌, ◌<◌, ◌+◌, IfOk, IfSome, OnErr, OnOk, is_some, length, map, position};
ghost use Rattle.std.specs.List.{find};
ghost use Rattle.std.specs.Option.{option_copied};
ghost use Rattle.std.specs.Str.{bytes_eq};
ghost use Rattle.mutable_values.specs.meaning.Sources.{identifier as identifier_def};
ghost use Rattle.svc_values.specs.declared.draw.Draw.TheVariants as draw;
ghost use Rattle.server_model.specs.meaning.NewValues.{count_of, counted as counted_def, counts_after, drawn_by, if_next, left_by, next_identifier as next_identifier_def, one_drawn, opened, origin_of, stopped_in, unseen_in, with_counts, with_way as with_way_def};
ghost use Rattle.server_model.specs.meaning.Walk.{or_same};
ghost use Rattle.legal_draws.specs.Origins.{told};

use crate::asked::{asked_by_call, identifiers_in};
use crate::change::{Gave, Nothing, Reopened, Stopped, Unseen, all_changed};
use crate::count::{Count, sum};
use crate::kept::Kept;
use crate::sequence::Sequence;
use equality_laws::tests_equality;
use std::alloc::Global;
use std::marker::Model;
use svc_values::{Call, Draw, Name, NoMemory};

/// One opening: its incarnation, how many identifiers were given in it, and its sequences. After a
/// fault the numbers are as they were.
#[derive(Drop)]
pub struct Numbers {
    incarnation: u64,
    identifiers: u64,
    counts: Vec<Count>,
}

impl Model for Numbers {
    ghost use Rattle.server_model.specs.meaning.NewValues.{Numbers as One};

    ghost Value = { One };

    ghost view = { λ n. record {
      incarnation = n.incarnation;
      identifiers = n.identifiers;
      counts = n.counts.items;
    } };
}

/// The sequences before their first values.
fn first_counts(alloc: Global, sequences: &[Sequence]) -> Result<Vec<Count>, NoMemory>
    ensures { IfOk result (λ counts. counts.items ≡ map count_of sequences.now) }
{
    let mut counts = Vec::new(alloc);
    for sequence in sequences {
        counts.push(Count::first(sequence)?)?;
    }
    Ok(counts)
}

/// An identifier value: the incarnation and the counter, each as eight bytes, most significant
/// first.
fn identifier(incarnation: u64, counter: u64) -> [u8; 16]
    ensures { result ≡ identifier_def incarnation counter }
{
    let mut id = [0; 16];
    id[..8].copy_from_slice(&incarnation.to_be_bytes());
    id[8..].copy_from_slice(&counter.to_be_bytes());
    id
}

impl Numbers {
    /// The numbers before anything was drawn, in this incarnation. Linear.
    pub fn of(alloc: Global, incarnation: u64, sequences: &[Sequence]) -> Result<Numbers, NoMemory>
        ensures { IfOk result (λ numbers. numbers ≡ record {
          incarnation = incarnation;
          identifiers = 0;
          counts = map count_of sequences.now;
        }) }
    {
        Ok(Numbers {
            incarnation,
            identifiers: 0,
            counts: first_counts(alloc, sequences)?,
        })
    }

    /// The incarnation of this opening.
    pub fn incarnation(&self) -> u64
        ensures { result ≡ self.now.incarnation }
    {
        self.incarnation
    }

    /// The numbers again.
    pub(crate) fn copied(&self, alloc: Global) -> Result<Numbers, NoMemory>
        ensures { IfOk result (λ numbers. numbers ≡ self.now) }
    {
        Ok(Numbers {
            incarnation: self.incarnation,
            identifiers: self.identifiers,
            counts: all_changed(alloc, &Nothing, self.counts.as_slice())?,
        })
    }

    /// A later opening begins: each sequence goes on behind its last block, and identifiers are
    /// counted from 1. Linear in the sequences.
    pub fn open(&mut self, alloc: Global, incarnation: u64) -> Result<(), NoMemory>
        ensures opened { OnOk result (self.new ≡ opened self.old incarnation) }
        ensures err { OnErr result (self.new ≡ self.old) }
    {
        let counts = all_changed(alloc, &Reopened, self.counts.as_slice())?;
        *self = Numbers {
            incarnation,
            identifiers: 0,
            counts,
        };
        Ok(())
    }

    /// A call was stopped, and may have left the blocks that its draws need. Linear in the
    /// sequences and in what the call asks for.
    pub fn stop(&mut self, alloc: Global, call: &Call) -> Result<(), NoMemory>
        ensures stopped { OnOk result (self.new ≡ stopped_in call.now self.old) }
        ensures err { OnErr result (self.new ≡ self.old) }
    {
        let asked = asked_by_call(alloc, call)?;
        let stopped = Stopped {
            asked: asked.as_slice(),
        };
        self.counts = all_changed(alloc, &stopped, self.counts.as_slice())?;
        Ok(())
    }

    /// A call drew all that it asks for, told to nobody. Linear in the sequences and in what the
    /// call asks for.
    pub fn pass(&mut self, alloc: Global, call: &Call) -> Result<(), NoMemory>
        ensures passed { OnOk result (self.new ≡ unseen_in call.now self.old) }
        ensures err { OnErr result (self.new ≡ self.old) }
    {
        let asked = asked_by_call(alloc, call)?;
        let identifiers = sum(self.identifiers, identifiers_in(asked.as_slice()) as u64)?;
        let unseen = Unseen {
            asked: asked.as_slice(),
        };
        self.counts = all_changed(alloc, &unseen, self.counts.as_slice())?;
        self.identifiers = identifiers;
        Ok(())
    }

    /// The place of the first sequence of this name.
    fn place(&self, name: &Name) -> Option<usize>
        ensures place { result ≡ position (λ count. bytes_eq count.name name.now) self.now.counts }
        ensures within { IfSome result (λ at. at < length self.now.counts) }
    {
        self.counts.iter().position(|count| count.has_name(name))
    }

    /// Whether the sequence may have given the value next. It goes on behind it.
    fn give_value(&mut self, name: &Name, value: i64) -> Result<bool, NoMemory>
        ensures { IfOk result (λ is_next.
            with_counts self.old (counts_after self.old.counts name.now value)
            ≡ told is_next self.new) }
    {
        let Some(at) = self.place(name) else {
            return Ok(false);
        };
        match self.counts[at].after(value)? {
            Some(count) => {
                self.counts[at] = count;
                Ok(true)
            }
            None => Ok(false),
        }
    }

    /// The counter of the next identifier.
    fn next_counter(&self) -> Result<u64, NoMemory>
        ensures { IfOk result (λ counter. counter ≡ self.now.identifiers + 1) }
    {
        sum(self.identifiers, 1)
    }

    /// The next identifier.
    pub(crate) fn next_identifier(&self) -> Result<[u8; 16], NoMemory>
        ensures { IfOk result (λ id. id ≡ next_identifier_def self.now) }
    {
        let counter = self.next_counter()?;
        Ok(identifier(self.incarnation, counter))
    }

    /// The numbers after the next identifier.
    pub(crate) fn counted(&self, alloc: Global) -> Result<Numbers, NoMemory>
        ensures { IfOk result (λ after. after ≡ counted_def self.now) }
    {
        let mut after = self.copied(alloc)?;
        after.identifiers = self.next_counter()?;
        Ok(after)
    }

    /// The first sequence of this name.
    pub(crate) fn count(&self, name: &Name) -> Option<&Count>
        ensures { option_copied result ≡ find (λ count. bytes_eq count.name name.now)
            self.now.counts }
    {
        self.counts.iter().find(|count| count.has_name(name))
    }

    /// The numbers after the next value of the sequence of this name, in this way.
    pub(crate) fn with_way(
        &self,
        alloc: Global,
        name: &Name,
        way: &Count,
    ) -> Result<Numbers, NoMemory>
        ensures { IfOk result (λ after. after ≡ with_way_def self.now name.now way.now) }
    {
        Ok(Numbers {
            incarnation: self.incarnation,
            identifiers: self.identifiers,
            counts: all_changed(alloc, &Gave { name, way }, self.counts.as_slice())?,
        })
    }

    /// Whether it is the next identifier. The numbers go on behind it.
    fn give_identifier(&mut self, id: &[u8; 16]) -> Result<bool, NoMemory>
        ensures { IfOk result (λ is_next.
            if_next self.old 0 (draw.Id id.now) ≡ told is_next self.new) }
    {
        if *id != self.next_identifier()? {
            return Ok(false);
        }
        self.identifiers = self.next_counter()?;
        Ok(true)
    }

    /// Whether a new value is the next one. The numbers go on behind it.
    fn give(&mut self, now: u64, given: &Draw) -> Result<bool, NoMemory>
        ensures { IfOk result (λ is_next. if_next self.old now given.now ≡ told is_next self.new) }
    {
        match given {
            Draw::Seq { name, value } => self.give_value(name, *value),
            Draw::Clock { tick } => Ok(*tick == now),
            Draw::Id { id } => self.give_identifier(id),
        }
    }

    /// Whether a draw is as it has to be: the first kept one left of its kind, which is taken out,
    /// and the next value where none is left.
    fn draw_one(&mut self, now: u64, kept: &mut Kept<'_>, given: &Draw) -> Result<bool, NoMemory>
        ensures drawn { IfOk result (λ is_right.
            one_drawn now given.now (origin_of given.now kept.old) self.old
            ≡ told is_right self.new) }
        ensures kept { OnOk result (kept.new ≡ left_by (origin_of given.now kept.old) kept.old) }
    {
        tests_equality();
        match kept.take(given) {
            Some(first) => Ok(*given == *first),
            None => self.give(now, given),
        }
    }

    /// Whether all of the draws are as they have to be. The numbers go on behind them.
    fn draw_all(&mut self, now: u64, mut kept: Kept<'_>, draws: &[Draw]) -> Result<bool, NoMemory>
        ensures { IfOk result (λ are_right.
            drawn_by now kept.entry draws.now self.old ≡ told are_right self.new) }
    {
        for given in draws {
            if !self.draw_one(now, &mut kept, given)? {
                return Ok(false);
            }
        }
        Ok(true)
    }

    /// Whether the draws of a call are as they have to be: each is the first one left of its kind
    /// among those that the service keeps, and the next new value where none is left. The numbers
    /// go on behind them only where all are.
    ///
    /// Linear in the draws, for each of them in the kept ones and in the sequences, and in the
    /// sequences once.
    pub fn draw(
        &mut self,
        alloc: Global,
        now: u64,
        kept: Kept<'_>,
        draws: &[Draw],
    ) -> Result<bool, NoMemory>
        ensures right { IfOk result (λ are_right.
            are_right ≡ is_some (drawn_by now kept.entry draws.now self.old)) }
        ensures after { OnOk result
            (self.new ≡ or_same self.old (drawn_by now kept.entry draws.now self.old)) }
        ensures err { OnErr result (self.new ≡ self.old) }
    {
        let mut after = self.copied(alloc)?;
        if !after.draw_all(now, kept, draws)? {
            return Ok(false);
        }
        *self = after;
        Ok(true)
    }
}
