//! Draws that are kept for a replay of their call.
ghost use Rattle.std.specs.Prelude.{◌≡◌, ◌<◌, [], IfSome, length, position};
ghost use Rattle.svc_values.specs.meaning.Draws.{is_of_kind as is_of_kind_def};
ghost use Rattle.mutable_values.specs.Sources.{first_kept, without_first};

use std::alloc::Global;
use std::marker::Model;
use svc_values::{Draw, DrawKind, is_of_kind};

/// The draws that are left of those that a call drew at first, in order.
#[derive(Drop)]
pub struct Kept {
    draws: Vec<Draw>,
}

impl Model for Kept {
    ghost use Rattle.std.specs.Prelude.{List};
    ghost use Rattle.svc_values.specs.declared.draw.Draw.{Draw as One};

    ghost Value = { List One };

    ghost view = { λ k. k.draws.items };
}

impl Kept {
    /// No draw. It takes no memory.
    pub fn none(alloc: Global) -> Kept
        ensures { result ≡ [] }
    {
        Kept {
            draws: Vec::new(alloc),
        }
    }

    /// The draws in this order. It takes no memory.
    pub(crate) fn from_vec(draws: Vec<Draw>) -> Kept
        ensures { result ≡ draws.items }
    {
        Kept { draws }
    }

    /// The place of the first draw that is of the kind and name.
    fn place(&self, kind: &DrawKind) -> Option<usize>
        ensures place { result ≡ position (is_of_kind_def kind.now) self.now }
        ensures within { IfSome result (λ at. at < length self.now) }
    {
        self.draws.iter().position(|draw| is_of_kind(kind, draw))
    }

    /// The first draw that is of the kind and name, taken out. Linear in the draws that are left,
    /// of which a call has at most 64; it takes no memory.
    pub(crate) fn take(&mut self, kind: &DrawKind) -> Option<Draw>
        ensures given { result ≡ first_kept kind.now self.old }
        ensures left { self.new ≡ without_first kind.now self.old }
    {
        let at = self.place(kind)?;
        Some(self.draws.remove(at))
    }
}
