//! Which draws a service keeps for a replay.
ghost use Rattle.std.specs.Prelude.{◌≡◌, ◌<◌, [], ◌∷◌, IfSome, filter, length, position};
ghost use Rattle.std.specs.Option.{option_map_or};
ghost use Rattle.svc_values.specs.meaning.Same.{same_draws};
ghost use Rattle.entry_check.specs.InnerGranting.{is_kept, keeps};

use commit_log::BaseSequence;
use equality_laws::tests_equality;
use outage_schedule::KeepOf;
use svc_values::{Draw, Name};

/// What a service keeps: values of these kinds, and of the sequences those that are declared so
/// besides.
#[derive(Drop)]
pub(crate) struct Granting<'a> {
    pub(crate) kinds: KeepOf,
    pub(crate) sequences: &'a [BaseSequence],
}

/// A draw, and those behind it.
#[derive(Clone, Copy)]
struct First<'a> {
    draw: &'a Draw,
    behind: &'a [Draw],
}

impl Granting<'_> {
    /// Whether a sequence of this name is there, and its values are kept.
    fn is_kept(&self, name: &Name) -> bool
        ensures { result ≡ is_kept self.now.sequences.now name.now }
    {
        self.sequences
            .iter()
            .any(|sequence| sequence.name == *name && sequence.keep)
    }

    /// Whether the draw is kept.
    fn keeps(&self, draw: &Draw) -> bool
        ensures { result ≡ keeps self.now.kinds self.now.sequences.now draw.now }
    {
        match draw {
            Draw::Seq { name, .. } => self.kinds.seq && self.is_kept(name),
            Draw::Clock { .. } => self.kinds.clock,
            Draw::Id { .. } => self.kinds.id,
        }
    }

    /// The place of the first draw that is kept.
    fn place(&self, draws: &[Draw]) -> Option<usize>
        ensures place { result ≡ position (keeps self.now.kinds self.now.sequences.now) draws.now }
        ensures within { IfSome result (λ at. at < length draws.now) }
    {
        draws.iter().position(|draw| self.keeps(draw))
    }

    /// The first draw that is kept, and those behind it.
    fn first<'b>(&self, draws: &'b [Draw]) -> Option<First<'b>>
        ensures { filter (keeps self.now.kinds self.now.sequences.now) draws.now ≡ option_map_or
            (λ first. first.draw.now ∷ filter (keeps self.now.kinds self.now.sequences.now)
            first.behind.now) result [] }
    {
        let Some(at) = self.place(draws) else {
            return None;
        };
        Some(First {
            draw: &draws[at],
            behind: &draws[at + 1..],
        })
    }

    /// Whether those of the draws that are kept are the same, in order. Linear, and for each draw
    /// in the number of sequences, of which there are at most 32.
    pub(crate) fn keeps_same(&self, left: &[Draw], right: &[Draw]) -> bool
        ensures { result ≡ same_draws
            (filter (keeps self.now.kinds self.now.sequences.now) left.now)
            (filter (keeps self.now.kinds self.now.sequences.now) right.now) }
    {
        tests_equality();
        let mut rest = right;
        for draw in left {
            if self.keeps(draw) {
                let Some(first) = self.first(rest) else {
                    return false;
                };
                if *draw != *first.draw {
                    return false;
                }
                rest = first.behind;
            }
        }
        self.first(rest).is_none()
    }
}
