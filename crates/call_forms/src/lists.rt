//! Lists whose items are read one after the other.
ghost use Rattle.std.specs.Prelude.{◌≤◌, ◌<◌, length, IfSome};
ghost use Rattle.json_form.specs.meaning.Arrays.{array_of, each_of, list_of};
ghost use Rattle.json_form.specs.Streams.{Begins};

use json_form::{Reader, array_ahead};
use std::alloc::Global;

/// The items of an array of `low` to `high`, in order, each read as soon as its tokens are passed.
/// There are none where the reader gives none of one, and where there are too few or too many.
pub fn counted_ahead<T: Drop, R: Reader<T>>(
    alloc: Global,
    tokens: &mut json::Reader<'_>,
    depth: usize,
    low: usize,
    high: usize,
    reader: &R,
) -> Option<Vec<T>>
    ensures read { IfSome result (λ v. Begins
        (array_of low high (each_of (R.Reader.reads reader.now))) depth tokens.old v.items tokens.new) }
    ensures count { IfSome result (λ v. length v.items ≤ high) }
    ensures shorter { IfSome result (λ _. length tokens.new < length tokens.old) }
{
    let found = array_ahead(alloc, tokens, depth, high, reader)?;
    if found.len() < low {
        return None;
    }
    Some(found)
}

/// The items of an array of any number, in order, each read as soon as its tokens are passed, so
/// that no more than one of them is held as a JSON value. There are none where the reader gives
/// none of one.
pub fn list_ahead<T: Drop, R: Reader<T>>(
    alloc: Global,
    tokens: &mut json::Reader<'_>,
    depth: usize,
    reader: &R,
) -> Option<Vec<T>>
    ensures read { IfSome result (λ v. Begins
        (list_of (each_of (R.Reader.reads reader.now))) depth tokens.old v.items tokens.new) }
    ensures shorter { IfSome result (λ _. length tokens.new < length tokens.old) }
{
    array_ahead(alloc, tokens, depth, usize::MAX, reader)
}
