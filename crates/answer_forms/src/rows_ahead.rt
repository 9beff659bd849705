//! Reader of the rows of an answer beside those that are known.
ghost use Rattle.std.specs.Prelude.{◌<◌, length, IsTrue, IfSome};
ghost use Rattle.json.specs.Reads.{token_of};
ghost use Rattle.json_form.specs.Streams.{Begins};
ghost use Rattle.call_forms.specs.ValuesAhead.{IsPlain};
ghost use Rattle.answer_forms.specs.Beside.{told};
ghost use Rattle.answer_forms.specs.meaning.Answers.{rows_in};

use crate::beside::{Beside, BesideReader, items_beside};
use crate::known::KnownRows;
use crate::part::{RowReader, VALUE};
use call_forms::{ValueReader, plain_value, shared};
use json::Token;
use json_form::{Reader, array_begins, integer_in, object_from, rest_ahead};
use std::alloc::Global;
use svc_values::{Limited, Row, Rows, TryCopy, Value};

/// Whether the token by itself is this value.
fn is_value(token: &Token<'_>, known: &Value) -> bool
    ensures { IsTrue result → IsPlain (token_of token.now) known.now }
{
    match token {
        Token::String(text) => match known {
            Value::Text(line) => *text == line.as_str(),
            _ => false,
        },
        Token::Number(text) => match known {
            Value::Int(known) => match integer_in(text) {
                Some(number) => number == *known,
                None => false,
            },
            _ => false,
        },
        _ => false,
    }
}

fn plain_beside(alloc: Global, token: Token<'_>, known: &Value) -> Option<Beside<Value>>
    ensures { IfSome result (λ b. IsPlain (token_of token.entry) (told known.now b)) }
{
    if is_value(&token, known) {
        return Some(Beside::Same);
    }
    let value = plain_value(alloc, token)?;
    Some(Beside::Other(value))
}

impl BesideReader<Value> for ValueReader {
    /// Octets are never the known ones.
    fn beside(
        &self,
        alloc: Global,
        tokens: &mut json::Reader<'_>,
        depth: usize,
        known: &Value,
    ) -> Option<Beside<Value>> {
        match tokens.next()? {
            Token::BeginObject => {
                let bytes = object_from(alloc, tokens, depth)?;
                let value = self.read(alloc, bytes).ok()?;
                Some(Beside::Other(value))
            }
            token => {
                let value = plain_beside(alloc, token, known)?;
                Some(value)
            }
        }
    }
}

impl BesideReader<Row> for RowReader {
    fn beside(
        &self,
        alloc: Global,
        tokens: &mut json::Reader<'_>,
        depth: usize,
        known: &Row,
    ) -> Option<Beside<Row>> {
        let inside = array_begins(tokens, depth)?;
        match items_beside(alloc, tokens, inside, 8, &VALUE, known.as_slice(), 0)? {
            Beside::Same => Some(Beside::Same),
            Beside::Other(values) => Some(Beside::Other(Limited::from_vec(values))),
        }
    }
}

/// The rows of an answer, at most 32, that the tokens begin with. Known ones are held once, and
/// behind the first row what is known, but for octets, takes no memory while it is read.
pub(crate) fn rows_ahead(
    alloc: Global,
    known: &KnownRows,
    tokens: &mut json::Reader<'_>,
    depth: usize,
) -> Option<Rows>
    ensures begins { IfSome result (λ rows. Begins rows_in depth tokens.old rows tokens.new) }
    ensures shorter { IfSome result (λ _. length tokens.new < length tokens.old) }
{
    let inside = array_begins(tokens, depth)?;
    if tokens.take_end_array() {
        let none = shared(alloc, Vec::new(alloc)).ok()?;
        return Some(none);
    }
    let first = RowReader.ahead(alloc, tokens, inside)?;
    let Some(rows) = known.beginning_with(&first) else {
        let found = Vec::from_array(alloc, [first]).ok()?;
        let unknown = rest_ahead(alloc, tokens, inside, 32, &RowReader, found)?;
        let rows = shared(alloc, unknown).ok()?;
        return Some(rows);
    };
    match items_beside(alloc, tokens, inside, 32, &RowReader, rows.as_slice(), 1)? {
        Beside::Same => {
            let same = rows.copy(alloc).ok()?;
            Some(same)
        }
        Beside::Other(others) => {
            let others = shared(alloc, others).ok()?;
            Some(known.once(alloc, others))
        }
    }
}
