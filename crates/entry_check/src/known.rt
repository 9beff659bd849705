//! What a client knows of a transaction, beside the transaction's entry.
ghost use Rattle.std.specs.Prelude.{◌≡◌, is_none, map};
ghost use Rattle.svc_values.specs.meaning.Same.{same_calls};
ghost use Rattle.run_clauses.specs.meaning.Same.{has_answers, has_draws, is_same};
ghost use Rattle.entry_check.specs.InnerGranting.{keeps};

use crate::granting::Granting;
use crate::stored::Placed;
use equality_laws::tests_equality;
use outage_schedule::ShownCall;
use svc_values::{Call, Piece, Settings};

/// What a client knows of a transaction: the settings that it began with, the calls that were
/// submitted, and those that were shown, the first of which stands at this place among those of its
/// request.
#[derive(Drop)]
pub(crate) struct Known<'a> {
    pub(crate) settings: &'a Settings,
    pub(crate) calls: &'a [Call],
    pub(crate) shown: &'a [ShownCall],
    pub(crate) from: usize,
}

/// Where a transaction is not as its client knows it.
#[derive(Clone, Copy)]
pub(crate) enum Difference {
    /// The call at this place among those that its request was shown.
    Call(usize),
    /// The entry at this place.
    Entry(usize),
}

/// Whether these are the calls of the pieces.
fn has_calls(pieces: &[Piece], calls: &[Call]) -> bool
    ensures { result ≡ same_calls (map (λ piece. piece.call) pieces.now) calls.now }
{
    tests_equality();
    if pieces.len() != calls.len() {
        return false;
    }
    for (at, piece) in pieces.iter().enumerate() {
        if piece.call != calls[at] {
            return false;
        }
    }
    true
}

/// The first call that was shown other answers than its piece has.
fn other_answers(pieces: &[Piece], shown: &[ShownCall]) -> Option<usize>
    ensures { is_none result ≡ has_answers pieces.now shown.now }
{
    tests_equality();
    for (at, call) in shown.iter().enumerate() {
        let Some(piece) = pieces.get(at) else {
            return Some(at);
        };
        if piece.answers != call.answers {
            return Some(at);
        }
    }
    None
}

/// The first call that was shown other draws than its piece has, of those that are kept.
fn other_draws(granting: &Granting<'_>, pieces: &[Piece], shown: &[ShownCall]) -> Option<usize>
    ensures { is_none result ≡ has_draws (keeps granting.now.kinds granting.now.sequences.now)
        pieces.now shown.now }
{
    for (at, call) in shown.iter().enumerate() {
        let Some(piece) = pieces.get(at) else {
            return Some(at);
        };
        if !granting.keeps_same(piece.draws.as_slice(), call.draws.as_slice()) {
            return Some(at);
        }
    }
    None
}

impl Known<'_> {
    /// The call at a place among those that were shown.
    fn call_at(&self, at: usize) -> Difference {
        Difference::Call(self.from.saturating_add(at))
    }

    /// The first difference from an entry: in calls, answers, draws and then settings. Linear in
    /// both.
    pub(crate) fn difference(
        &self,
        granting: &Granting<'_>,
        found: &Placed<'_>,
    ) -> Option<Difference>
        ensures { is_none result ≡ is_same (keeps granting.now.kinds granting.now.sequences.now)
            self.now.settings.now self.now.calls.now self.now.shown.now found.now.entry.now }
    {
        let entry = found.entry;
        let pieces = entry.pieces.as_slice();
        if !has_calls(pieces, self.calls) {
            return Some(Difference::Entry(found.place));
        }
        if let Some(at) = other_answers(pieces, self.shown) {
            return Some(self.call_at(at));
        }
        if let Some(at) = other_draws(granting, pieces, self.shown) {
            return Some(self.call_at(at));
        }
        if entry.settings != *self.settings {
            return Some(Difference::Entry(found.place));
        }
        None
    }
}
