//! Sequences as a service begins with them.
ghost use Rattle.std.specs.Prelude.{◌≡◌, ◌&&◌};
ghost use Rattle.std.specs.Str.{bytes_eq};

use std::marker::Model;
use svc_values::Name;

/// A sequence that a service begins with: where its last block of values ends, which is one less
/// than its first value where it has no block, and whether its values are kept for a replay.
#[derive(Drop)]
pub struct Sequence {
    name: Name,
    upto: i64,
    keep: bool,
}

impl Model for Sequence {
    ghost use Rattle.server_model.specs.meaning.Base.{Sequence as One};

    ghost Value = { One };

    ghost view = { λ s. record { name = s.name; upto = s.upto; keep = s.keep } };
}

impl Sequence {
    /// The sequence with these parts.
    pub fn new(name: Name, upto: i64, keep: bool) -> Sequence
        ensures { result ≡ record { name = name; upto = upto; keep = keep } }
    {
        Sequence { name, upto, keep }
    }

    /// Its name.
    pub(crate) fn name(&self) -> &Name
        ensures { result.now ≡ self.now.name }
    {
        &self.name
    }

    /// Where its last block ends.
    pub(crate) fn upto(&self) -> i64
        ensures { result ≡ self.now.upto }
    {
        self.upto
    }

    /// Whether its values are kept for a replay, and it has this name.
    pub(crate) fn keeps(&self, name: &Name) -> bool
        ensures { result ≡ (bytes_eq self.now.name name.now && self.now.keep) }
    {
        self.name == *name && self.keep
    }
}
