//! Where the values come from that statements draw.
ghost use Rattle.std.specs.Prelude.{◌≡◌, ℕ, List};
ghost use Rattle.stmt_meaning.specs.Drawing.{Drew, HasDrawn};

use crate::fault::DrawFromFault;
use std::alloc::Global;
use svc_values::{Draw, DrawKind};

/// A source of draws.
pub trait DrawFrom {
    /// The names of its sequences.
    ghost names: { Self → List (List ℕ) };

    /// From the value before, a draw may come to this and leave the value after.
    ghost drew: { Self → Drew → Self → Type 0 };

    /// What holds of it between draws.
    ghost is_ready: { Self → Type 0 } = { λ _. Unit {0} };

    /// Draws a value of the kind. `NoSequence` comes exactly where a sequence is asked for that is
    /// not there, before anything else, and leaves the source as it was. `Stopped` tells that the
    /// source gives no more.
    fn draw(&mut self, alloc: Global, kind: &DrawKind) -> Result<Draw, DrawFromFault>
        requires { is_ready self.old }
        ensures drawn { HasDrawn (names self.old) drew self.old kind.now result self.new }
        ensures names { names self.new ≡ names self.old }
        ensures ready { is_ready self.new };
}
