//! Texts and fixed words.
ghost use Rattle.std.specs.Prelude.{map, string_bytes};
ghost use Rattle.serde_json.specs.View.{view};
ghost use Rattle.json_form.specs.Faults.{Gives, GivesBy};
ghost use Rattle.json_form.specs.meaning.Values.{text_of};
ghost use Rattle.json_form.specs.meaning.Texts.{chosen as chosen_def, word_of, head_of};

use crate::fault::{DocCode, DocFault};
use serde_json::Value;
use std::alloc::Global;

/// A text.
pub fn text_from(alloc: Global, value: Value) -> Result<String, DocFault>
    ensures { GivesBy string_bytes result (text_of (view value)) }
{
    match value {
        Value::String(text) => Ok(text),
        Value::Null | Value::Bool(_) | Value::Number(_) | Value::Array(_) | Value::Object(_) => {
            Err(DocFault::here(alloc, DocCode::WrongKind))
        }
    }
}

/// What a fixed word stands for, in a table of words. The cost is the number of words.
pub fn chosen<T: Copy>(alloc: Global, word: &str, table: &[(&str, T)]) -> Result<T, DocFault>
    ensures { Gives result (chosen_def (map (λ pair. (pair.0.now, pair.1)) table.now) word.now) }
{
    for (name, meaning) in table {
        if *name == word {
            return Ok(*meaning);
        }
    }
    Err(DocFault::here(alloc, DocCode::Unknown))
}

/// What a text stands for that is one of the words of a table.
pub fn word_from<T: Copy>(alloc: Global, value: Value, table: &[(&str, T)]) -> Result<T, DocFault>
    ensures { Gives result (word_of (map (λ pair. (pair.0.now, pair.1)) table.now) (view value)) }
{
    let word = text_from(alloc, value)?;
    chosen(alloc, word.as_str(), table)
}

/// What the text that an array begins with stands for in a table. An array that begins with none
/// names nothing.
pub fn head_from<T: Copy>(alloc: Global, value: &Value, table: &[(&str, T)]) -> Result<T, DocFault>
    ensures { Gives result
        (head_of (map (λ pair. (pair.0.now, pair.1)) table.now) (view value.now)) }
{
    let Some(items) = value.as_array() else {
        return Err(DocFault::here(alloc, DocCode::WrongKind));
    };
    match items.first().and_then(Value::as_str) {
        Some(word) => chosen(alloc, word, table),
        None => Err(DocFault::here(alloc, DocCode::Unknown)),
    }
}
