//! Draws from a list.
ghost use Rattle.std.specs.Prelude.{◌≡◌, length};
ghost use Rattle.stmt_meaning.specs.Drawing.{HasDrawn, is_first as is_first_def};
ghost use Rattle.stmt_meaning.specs.Listed.{Listing, TakesFirst, TakesFront, listed};

use crate::draw_from::DrawFrom;
use crate::fault::DrawFromFault;
use std::alloc::Global;
use std::marker::Model;
use svc_values::{Draw, DrawKind, Draws, Names, is_of_kind, is_there};

/// Draws that are given in the order in which they are asked for, beside the names of the
/// sequences. It is seen as these two lists.
#[derive(Drop)]
pub struct ListDraws {
    names: Names,
    /// The draws that are left, the last one first, so that the first one is taken off in a step.
    left: Vec<Draw>,
}

impl Model for ListDraws {
    ghost use Rattle.std.specs.Prelude.{reverse};
    ghost use Rattle.stmt_meaning.specs.Listed.{Listing};

    ghost Value = { Listing };

    ghost view = { λ s. record { names = s.names; draws = reverse s.left.items } };
}

impl ListDraws {
    /// These draws, in their order. It takes no memory, and is linear in the draws.
    pub fn new(names: Names, draws: Draws) -> ListDraws
        ensures { result ≡ record { names = names; draws = draws } }
    {
        let mut left = draws.into_vec();
        left.reverse();
        ListDraws { names, left }
    }

    /// How many draws are left.
    pub fn len(&self) -> usize
        ensures { result ≡ length self.now.draws }
    {
        self.left.len()
    }

    /// Whether the first of the draws is the one that is asked for.
    fn is_first(&self, kind: &DrawKind) -> bool
        ensures { result ≡ is_first_def kind.now self.now.draws }
    {
        match self.left.last() {
            None => false,
            Some(draw) => is_of_kind(kind, draw),
        }
    }

    /// Takes the first of the draws off.
    fn take_first(&mut self) -> Option<Draw>
        ensures taken { TakesFront self.old.draws result self.new.draws }
        ensures names { self.new.names ≡ self.old.names }
    {
        self.left.pop()
    }
}

impl DrawFrom for ListDraws {
    ghost use Rattle.stmt_meaning.specs.Listed.{TakesFirst};

    ghost names = { λ s. s.names };

    ghost drew = { TakesFirst };

    /// The first draw of the list, taken off, where it is of the kind and name. `NoSequence` comes
    /// exactly where a sequence is asked for that is not among the names, and else `Stopped`
    /// exactly where the first draw is another one, or none is left. Both leave the list as it was.
    /// It takes no memory, and is linear in the names alone.
    fn draw(&mut self, alloc: Global, kind: &DrawKind) -> Result<Draw, DrawFromFault>
        ensures answer { result ≡ listed self.old.names self.old.draws kind.now }
        ensures drawn { HasDrawn self.old.names TakesFirst self.old kind.now result self.new }
        ensures names { self.new.names ≡ self.old.names }
    {
        if !is_there(&self.names, kind) {
            return Err(DrawFromFault::NoSequence);
        }
        if !self.is_first(kind) {
            return Err(DrawFromFault::Stopped);
        }
        self.take_first().ok_or(DrawFromFault::Stopped)
    }
}
