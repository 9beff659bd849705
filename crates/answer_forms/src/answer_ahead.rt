//! Reader of an answer that is an object with one member, whose value is read from its tokens.
ghost use Rattle.std.specs.Prelude.{◌<◌, ◌∷◌, length, IfSome};
ghost use Rattle.json.specs.Token.{Token as SpecToken};
ghost use Rattle.json_form.specs.Streams.{Begins};
ghost use Rattle.answer_forms.specs.meaning.Answers.{answer_named as answer_named_def, answer_in};

use crate::answer::{RowsReader, answer_named};
use crate::known::KnownRows;
use json_form::{Reader, object_ends, value_from};
use std::alloc::Global;
use svc_values::Answer;

/// The answer that the member of this name says, whose value the tokens begin with. Rows are read
/// one after the other, with no JSON value of them between.
fn named_ahead(
    alloc: Global,
    known: Option<&KnownRows>,
    tokens: &mut json::Reader<'_>,
    depth: usize,
    name: &str,
) -> Option<Answer>
    ensures begins { IfSome result
        (λ one. Begins (answer_named_def name.now) depth tokens.old one tokens.new) }
    ensures shorter { IfSome result (λ _. length tokens.new < length tokens.old) }
{
    if name == "rows" {
        let rows = RowsReader { known }.ahead(alloc, tokens, depth)?;
        return Some(Answer::Rows(rows));
    }
    let inner = value_from(alloc, tokens, depth)?;
    let one = answer_named(alloc, known, name, inner).ok()?;
    Some(one)
}

/// The answer that an object says, behind the brace that begins it. There is none where there is a
/// fault.
pub(crate) fn member_ahead(
    alloc: Global,
    known: Option<&KnownRows>,
    tokens: &mut json::Reader<'_>,
    depth: usize,
) -> Option<Answer>
    ensures begins { IfSome result
        (λ one. Begins answer_in depth (SpecToken.begin_object ∷ tokens.old) one tokens.new) }
    ensures shorter { IfSome result (λ _. length tokens.new < length tokens.old) }
{
    if depth == 0 {
        return None;
    }
    let name = tokens.next_key().ok()??;
    let one = named_ahead(alloc, known, tokens, depth - 1, name)?;
    object_ends(tokens)?;
    Some(one)
}
