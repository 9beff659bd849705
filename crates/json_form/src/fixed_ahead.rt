//! Arrays of a fixed form that are read from the tokens of a text, item by item.
ghost use Rattle.std.specs.Prelude.{◌≡◌, ℕ, ◌<◌, map, length, Some, IfSome};
ghost use Rattle.serde_json.specs.Data.{no_items};
ghost use Rattle.json_form.specs.meaning.Texts.{word_of};
ghost use Rattle.json_form.specs.Streams.{Begins, items_ahead, IsLastItem};

use crate::reader::Reader;
use crate::word::chosen;
use json::Token;
use std::alloc::Global;

/// What the text that the tokens begin with stands for in a table of words. No copy is made of it.
/// There is none where they begin with no text, and where it is none of the words.
pub fn word_ahead<T: Copy>(
    alloc: Global,
    tokens: &mut json::Reader<'_>,
    table: &[(&str, T)],
) -> Option<T>
    ensures begins { IfSome result (λ x. (depth : ℕ)
        → Begins (word_of (map (λ pair. (pair.0.now, pair.1)) table.now)) depth tokens.old x
        tokens.new) }
    ensures shorter { IfSome result (λ _. length tokens.new < length tokens.old) }
{
    match tokens.next()? {
        Token::String(word) => chosen(alloc, word, table).ok(),
        _ => None,
    }
}

/// Passes the bracket that ends an array, if it is next.
pub fn array_ends(tokens: &mut json::Reader<'_>) -> Option<()>
    ensures ends { IfSome result (λ _. (depth : ℕ)
        → items_ahead depth tokens.old ≡ Some (no_items, tokens.new)) }
    ensures shorter { IfSome result (λ _. length tokens.new < length tokens.old) }
{
    if !tokens.take_end_array() {
        return None;
    }
    Some(())
}

/// What the last item of an array is read as, once it is passed with the bracket behind it. There
/// is none where the reader gives none, and where an item stands behind it.
pub fn last_ahead<T: Drop, R: Reader<T>>(
    alloc: Global,
    tokens: &mut json::Reader<'_>,
    depth: usize,
    reader: &R,
) -> Option<T>
    ensures last { IfSome result
        (λ x. IsLastItem (R.Reader.reads reader.now) depth tokens.old x tokens.new) }
    ensures shorter { IfSome result (λ _. length tokens.new < length tokens.old) }
{
    let item = reader.ahead(alloc, tokens, depth)?;
    array_ends(tokens)?;
    Some(item)
}
