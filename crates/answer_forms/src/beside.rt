//! Lists that are read beside known ones, so that no memory is taken for what is the same.
ghost use Rattle.std.specs.Prelude.{◌≡◌, ◌≤◌, ◌<◌, length, take, Ok, Some, IfSome};
ghost use Rattle.json.specs.Json.{parse_map};
ghost use Rattle.json_form.specs.meaning.Arrays.{each_after};
ghost use Rattle.json_form.specs.Streams.{Begins, items_ahead};
ghost use Rattle.answer_forms.specs.Beside.{told, items_told};

use json_form::{Reader, rest_ahead};
use std::alloc::Global;
use svc_values::{TryCopy, copies};

/// What was read beside something known.
#[derive(Drop)]
pub(crate) enum Beside<T> {
    /// The same.
    Same,
    /// Something else.
    Other(T),
}

/// Reads a `T` beside a known one.
pub(crate) trait BesideReader<T>: Reader<T> {
    /// What `Reader::ahead` gives, with no memory taken where it is the known one.
    fn beside(
        &self,
        alloc: Global,
        tokens: &mut json::Reader<'_>,
        depth: usize,
        known: &T,
    ) -> Option<Beside<T>>
        ensures begins { IfSome result (λ b. Begins
            (Self.Reader.reads self.now) depth tokens.old (told known.now b) tokens.new) }
        ensures shorter { IfSome result (λ _. length tokens.new < length tokens.old) };
}

/// The items of an array that are left once the first `from` known ones were read of it, beside the
/// other known ones. At the first that is another one those before it are copied.
pub(crate) fn items_beside<T: TryCopy + Drop, R: BesideReader<T>>(
    alloc: Global,
    tokens: &mut json::Reader<'_>,
    depth: usize,
    high: usize,
    reader: &R,
    known: &[T],
    from: usize,
) -> Option<Beside<Vec<T>>>
    requires from { from ≤ length known.now }
    requires few { length known.now ≤ high }
    ensures read { IfSome result (λ b. parse_map
        (each_after (λ before. R.Reader.reads reader.now) (take from known.now))
        (items_ahead depth tokens.old) ≡ Some (Ok (items_told (λ v. v.items) known.now b), tokens.new)) }
    ensures count { IfSome result (λ b. length (items_told (λ v. v.items) known.now b) ≤ high) }
    ensures shorter { IfSome result (λ _. length tokens.new < length tokens.old) }
{
    let mut at = from;
    'same: while at < known.len() {
        if tokens.take_end_array() {
            let front = copies(alloc, &known[..at]).ok()?;
            return Some(Beside::Other(front));
        }
        match reader.beside(alloc, tokens, depth, &known[at])? {
            Beside::Same => at += 1,
            Beside::Other(item) => {
                let mut found = copies(alloc, &known[..at]).ok()?;
                found.push(item).ok()?;
                let all = rest_ahead(alloc, tokens, depth, high, reader, found)?;
                return Some(Beside::Other(all));
            }
        }
    }
    if tokens.take_end_array() {
        return Some(Beside::Same);
    }
    let found = copies(alloc, known).ok()?;
    let all = rest_ahead(alloc, tokens, depth, high, reader, found)?;
    Some(Beside::Other(all))
}
