//! Values that are read from the tokens of a text one after the other.
ghost use Rattle.std.specs.Prelude.{◌≡◌, ◌+◌, ◌<◌, ◌∷◌, length, Some, IfSome};
ghost use Rattle.json.specs.Json.{parse_map};
ghost use Rattle.json.specs.Token.{begin_object};
ghost use Rattle.serde_json.specs.Data.{array, object};
ghost use Rattle.serde_json.specs.View.{view, items_view, members_view};
ghost use Rattle.json_form.specs.Streams.{value_ahead, items_ahead, members_ahead};

use crate::number::number_in;
use json::{Reader, Token};
use serde_json::{Map, Value};
use std::alloc::Global;

/// The value that the tokens begin with, nested no deeper than `depth`. There is none where they
/// begin with no value, where memory is refused, and where a number is not an integer of 64 bits or
/// is `-0`: such a text is for `json_from`.
#[cycle(ahead)]
pub fn value_from(alloc: Global, tokens: &mut Reader<'_>, depth: usize) -> Option<Value>
    ensures read { IfSome result (λ v. value_ahead depth tokens.old ≡ Some (view v, tokens.new)) }
    ensures shorter { IfSome result (λ _. length tokens.new < length tokens.old) }
{
    let token = tokens.next()?;
    match token {
        Token::String(text) => Some(Value::String(String::from_str(alloc, text).ok()?)),
        Token::Number(text) => Some(Value::Number(number_in(text)?)),
        Token::Bool(flag) => Some(Value::Bool(flag)),
        Token::Null => Some(Value::Null),
        Token::EndObject | Token::EndArray | Token::Key(_) | Token::Bad => None,
        Token::BeginArray => {
            if depth == 0 {
                return None;
            }
            Some(Value::Array(items_from(alloc, tokens, depth - 1)?))
        }
        Token::BeginObject => object_from(alloc, tokens, depth),
    }
}

/// The object whose brace was passed, nested no deeper than `depth`. There is none where
/// `value_from` gives none.
#[cycle(ahead)]
pub fn object_from(alloc: Global, tokens: &mut Reader<'_>, depth: usize) -> Option<Value>
    ensures read { IfSome result
        (λ v. value_ahead depth (begin_object ∷ tokens.old) ≡ Some (view v, tokens.new)) }
    ensures shorter { IfSome result (λ _. length tokens.new < length tokens.old) }
{
    if depth == 0 {
        return None;
    }
    Some(Value::Object(members_from(alloc, tokens, depth - 1)?))
}

#[cycle(ahead)]
fn items_from(alloc: Global, tokens: &mut Reader<'_>, depth: usize) -> Option<Vec<Value>>
    ensures read { IfSome result (λ v. items_ahead depth tokens.old
        ≡ Some (items_view v.items, tokens.new)) }
    ensures shorter { IfSome result (λ _. length tokens.new < length tokens.old) }
{
    let mut found = Vec::new(alloc);
    'items: while !tokens.take_end_array() {
        let item = value_from(alloc, tokens, depth)?;
        found.push(item).ok()?;
    }
    Some(found)
}

#[cycle(ahead)]
fn members_from(alloc: Global, tokens: &mut Reader<'_>, depth: usize) -> Option<Map<String, Value>>
    ensures read { IfSome result
        (λ m. members_ahead depth tokens.old ≡ Some (members_view m.entries, tokens.new)) }
    ensures shorter { IfSome result (λ _. length tokens.new < length tokens.old) }
{
    let mut found = Map::new(alloc);
    'members: while let Some(name) = tokens.next_key().ok()? {
        let key = String::from_str(alloc, name).ok()?;
        let member = value_from(alloc, tokens, depth)?;
        drop(found.insert(key, member).ok()?);
    }
    Some(found)
}

/// Passes the bracket that begins an array, and gives how deep its items may nest.
pub fn array_begins(tokens: &mut Reader<'_>, depth: usize) -> Option<usize>
    ensures array { IfSome result
        (λ inside. value_ahead depth tokens.old ≡ parse_map array (items_ahead inside tokens.new)) }
    ensures shorter { IfSome result (λ _. length tokens.new < length tokens.old) }
{
    if depth == 0 {
        return None;
    }
    match tokens.next()? {
        Token::BeginArray => Some(depth - 1),
        _ => None,
    }
}

/// Passes the bracket that begins an object, and gives how deep its members may nest.
pub fn object_begins(tokens: &mut Reader<'_>, depth: usize) -> Option<usize>
    ensures object { IfSome result (λ inside. (inside + 1 ≡ depth)
        × (value_ahead depth tokens.old ≡ parse_map object (members_ahead inside tokens.new))) }
    ensures shorter { IfSome result (λ _. length tokens.new < length tokens.old) }
{
    if depth == 0 {
        return None;
    }
    match tokens.next()? {
        Token::BeginObject => Some(depth - 1),
        _ => None,
    }
}
