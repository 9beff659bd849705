//! The source of an opening's values.
ghost use Rattle.std.specs.Prelude.{◌≡◌, ◌↔◌, ◌<◌, ◌+◌, ◌+ℤ◌, ◌^◌, int_le, List, None, Some, IfOk, IsErrOf, OnErr, IsTrue, position};
ghost use Rattle.std.specs.List.{list_all};
ghost use Rattle.std.specs.Str.{bytes_eq};
ghost use Rattle.svc_values.specs.declared.draw.Draw.{Draw as One};
ghost use Rattle.svc_values.specs.declared.draw.Draw.TheVariants as draw;
ghost use Rattle.svc_values.specs.declared.draw.DrawKind.TheVariants as kind;
ghost use Rattle.svc_values.specs.Draws.{is_there as is_there_def};
ghost use Rattle.mutable_values.specs.meaning.Granting.{is_granted as is_granted_def, is_kept_sequence as is_kept_sequence_def};
ghost use Rattle.mutable_values.specs.Granting.{granted_of};
ghost use Rattle.mutable_values.specs.meaning.Sources.{identifier as identifier_def};
ghost use Rattle.mutable_values.specs.Sources.{HasRoom, are_sequences, draw_of, has_room, may_reserve, names_of, new_draw, next_value, reservation_size, reserved_to, sequence_of};

use crate::grants::Grants;
use crate::kept::Kept;
use std::alloc::Global;
use std::marker::Model;
use svc_values::{Draw, DrawKind, Draws, Name, NoMemory, TryCopy};
use thiserror::Error;

/// How many values a reservation has.
const RESERVATION_SIZE: i64 = 16;

/// The last end of a reservation behind which another one lies within the numbers that a sequence
/// may give.
const LAST_END: i64 = i64::MAX - RESERVATION_SIZE;

/// How many new identifiers an opening has room for.
const MOST_IDENTIFIERS: u64 = 1 << 60;

/// A sequence of an opening: the value that it gives next, the end of its last reservation (one
/// less than `next` before the first one), and whether its values are kept for replays.
#[derive(Drop)]
pub struct SeqState {
    pub name: Name,
    pub next: i64,
    pub upto: i64,
    pub keep: bool,
}

impl SeqState {
    /// Whether the reservation leaves room for the next one.
    fn has_room(&self) -> bool
        ensures { result ≡ has_room self.now }
    {
        self.upto <= LAST_END
    }

    /// Whether the next value lies in the reservation.
    fn has_value(&self) -> bool
        ensures { result ≡ int_le self.now.next self.now.upto }
    {
        self.next <= self.upto
    }

    /// Where the next reservation ends.
    fn next_end(&self) -> i64
        requires { IsTrue (has_room self.now) }
        ensures { result ≡ self.now.upto +ℤ reservation_size }
    {
        self.upto + RESERVATION_SIZE
    }

    /// The next value. From then on the one after it is the next.
    fn give(&mut self) -> i64
        requires room { IsTrue (has_room self.old) }
        requires value { IsTrue (int_le self.old.next self.old.upto) }
        ensures given { result ≡ self.old.next }
        ensures rest { self.new ≡ next_value self.old }
    {
        let value = self.next;
        self.next += 1;
        value
    }
}

/// What a draw came to: a value, or that the sequence's next reservation is to be stored first,
/// with where it ends.
#[derive(Drop)]
pub enum Drawn {
    Value(Draw),
    Reserve { name: Name, upto: i64 },
}

/// Why nothing was drawn.
#[derive(Clone, Copy, Debug, Error)]
pub enum DrawFault {
    #[error("out of memory")]
    NoMemory,
    #[error("there is no such sequence")]
    NoSequence,
}

/// Where the values of one opening come from.
#[derive(Drop)]
pub struct Source {
    incarnation: u64,
    identifiers: u64,
    sequences: Vec<SeqState>,
}

impl Model for Source {
    ghost use Rattle.std.specs.Prelude.{IsTrue};
    ghost use Rattle.mutable_values.specs.Sources.{Opening, are_sequences};

    ghost Value = { Opening };

    ghost view = { λ s. record {
      incarnation = s.incarnation;
      identifiers =
          s.identifiers;
      sequences = s.sequences.items;
    } };

    ghost invariant = { λ s. IsTrue (are_sequences s.sequences.items) };
}

impl Source {
    /// The source of an opening in which nothing was drawn yet. It takes no memory.
    pub fn new(incarnation: u64, sequences: Vec<SeqState>) -> Source
        requires { IsTrue (are_sequences sequences.items) }
        ensures { result ≡ record {
          incarnation = incarnation;
          identifiers = 0;
          sequences =
              sequences.items;
        } }
    {
        Source {
            incarnation,
            identifiers: 0,
            sequences,
        }
    }

    /// Its sequences, each with what is left of its last reservation. It takes no memory.
    pub fn into_sequences(self) -> Vec<SeqState>
        ensures { result.items ≡ self.sequences }
    {
        self.sequences
    }

    /// The incarnation of this opening.
    pub fn incarnation(&self) -> u64
        ensures { result ≡ self.now.incarnation }
    {
        self.incarnation
    }

    /// Those of the draws that the service keeps, in order. Linear in the draws, and for each of a
    /// sequence in the number of sequences, of which there are at most 32.
    pub fn granted(&self, alloc: Global, grants: &Grants, draws: &Draws) -> Result<Kept, NoMemory>
        ensures { IfOk result (λ kept. kept ≡ granted_of grants.now self.now.sequences draws.now) }
    {
        let mut granted = Vec::new(alloc);
        for draw in draws.as_slice() {
            if self.is_granted(grants, draw) {
                granted.push(draw.copy(alloc)?)?;
            }
        }
        Ok(Kept::from_vec(granted))
    }

    /// Whether the service keeps the draw.
    fn is_granted(&self, grants: &Grants, draw: &Draw) -> bool
        ensures { result ≡ is_granted_def grants.now self.now.sequences draw.now }
    {
        match draw {
            Draw::Seq { name, .. } => grants.seq && self.is_kept_sequence(name),
            Draw::Clock { .. } => grants.clock,
            Draw::Id { .. } => grants.id,
        }
    }

    /// Whether a sequence of this name is there, and its values are kept.
    fn is_kept_sequence(&self, name: &Name) -> bool
        ensures { result ≡ is_kept_sequence_def self.now.sequences name.now }
    {
        self.sequences
            .iter()
            .any(|sequence| sequence.name == *name && sequence.keep)
    }

    /// Whether there is room for a draw, as `draw` needs: the end of each reservation leaves room
    /// for the next one, and fewer than 2^60 new identifiers were drawn. Linear in the sequences;
    /// it takes no memory.
    pub fn has_room(&self) -> bool
        ensures { IsTrue result ↔ HasRoom self.now }
    {
        self.identifiers < MOST_IDENTIFIERS && self.have_room()
    }

    /// Whether each reservation leaves room for the next one.
    fn have_room(&self) -> bool
        ensures { result ≡ list_all has_room self.now.sequences }
    {
        self.sequences.iter().all(|sequence| sequence.has_room())
    }

    /// Draws a value of the kind: the first kept one left of its kind and name, and else a new one.
    ///
    /// `NoSequence` comes exactly where a sequence is asked for that is not there, before anything
    /// else. `Reserve` comes exactly where a new value of a sequence lies past its reservation:
    /// once the next one is stored and `reserved` was told of it, the same draw gives the value.
    /// After it and after a fault the source and the kept draws are as they were. The cost is
    /// linear in the sequences and in the kept draws.
    pub fn draw(
        &mut self,
        _alloc: Global,
        kind: &DrawKind,
        kept: &mut Kept,
        now: u64,
    ) -> Result<Drawn, DrawFault>
        requires { HasRoom self.old }
        ensures drawn { IfOk result (λ answer. draw_of self.old kept.old kind.now now
            ≡ Some (record { answer = answer; opening = self.new; kept = kept.new })) }
        ensures none { IsErrOf result DrawFault.NoSequence
            ↔ (draw_of self.old kept.old kind.now now ≡ None) }
        ensures err { OnErr result ((self.new ≡ self.old) × (kept.new ≡ kept.old)) }
    {
        if !self.is_there(kind) {
            return Err(DrawFault::NoSequence);
        }
        if let Some(draw) = kept.take(kind) {
            return Ok(Drawn::Value(draw));
        }
        match kind {
            DrawKind::Seq(name) => self.next_value(name),
            DrawKind::Clock => Ok(Drawn::Value(Draw::Clock { tick: now })),
            DrawKind::Id => Ok(Drawn::Value(self.next_identifier())),
        }
    }

    /// Whether what is asked for is there: the clock and identifiers always are. Linear in the
    /// sequences; it takes no memory.
    pub fn is_there(&self, kind: &DrawKind) -> bool
        ensures { result ≡ is_there_def (names_of self.now.sequences) kind.now }
    {
        match kind {
            DrawKind::Seq(name) => self.place(name).is_some(),
            DrawKind::Clock | DrawKind::Id => true,
        }
    }

    /// The place of the sequence of this name.
    fn place(&self, name: &Name) -> Option<usize>
        ensures { result ≡ position (λ sequence. bytes_eq sequence.name name.now)
            self.now.sequences }
    {
        self.sequences
            .iter()
            .position(|sequence| sequence.name == *name)
    }

    /// A new value of the sequence, where it lies in the reservation. Past it another is asked for.
    fn next_value(&mut self, name: &Name) -> Result<Drawn, DrawFault>
        requires { HasRoom self.old }
        ensures drawn { IfOk result (λ answer. (kept : List One)
            → new_draw self.old kept (kind.Seq name.now) 0
            ≡ Some (record { answer = answer; opening = self.new; kept = kept })) }
        ensures none { IsErrOf result DrawFault.NoSequence
            ↔ (sequence_of self.old.sequences name.now ≡ None) }
        ensures err { OnErr result (self.new ≡ self.old) }
    {
        let Some(at) = self.place(name) else {
            return Err(DrawFault::NoSequence);
        };
        let name = name.copied();
        let sequence = &self.sequences[at];
        if !sequence.has_value() {
            let upto = sequence.next_end();
            return Ok(Drawn::Reserve { name, upto });
        }
        let value = self.sequences[at].give();
        Ok(Drawn::Value(Draw::Seq { name, value }))
    }

    /// A new identifier value: the one after the last.
    fn next_identifier(&mut self) -> Draw
        requires { self.old.identifiers < 2 ^ 60 }
        ensures given { result ≡ draw.Id
            (identifier_def self.old.incarnation (self.old.identifiers + 1)) }
        ensures counted { self.new ≡ record self.old { identifiers = self.old.identifiers + 1 } }
    {
        self.identifiers += 1;
        Draw::Id {
            id: identifier(self.incarnation, self.identifiers),
        }
    }

    /// Takes a reservation into use that was stored after `Reserve` had asked for it. Linear in the
    /// sequences; it takes no memory.
    pub fn reserved(&mut self, name: &Name, upto: i64)
        requires { IsTrue (may_reserve self.old name.now upto) }
        ensures { self.new ≡ reserved_to self.old name.now upto }
    {
        if let Some(at) = self.place(name) {
            self.sequences[at].upto = upto;
        }
    }
}

/// An identifier value: the incarnation and the counter, each as eight bytes, most significant
/// first.
fn identifier(incarnation: u64, counter: u64) -> [u8; 16]
    ensures { result ≡ identifier_def incarnation counter }
{
    let mut id = [0; 16];
    id[..8].copy_from_slice(&incarnation.to_be_bytes());
    id[8..].copy_from_slice(&counter.to_be_bytes());
    id
}
