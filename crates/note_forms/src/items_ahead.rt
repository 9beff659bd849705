//! Reader of what all sessions served, one item after the other.
ghost use Rattle.std.specs.Prelude.{◌≡◌, ◌<◌, length, Some, IfSome, Ok};
ghost use Rattle.serde_json.specs.Data.{Data, array, string, Items, item};
ghost use Rattle.serde_json.specs.View.{items_view};
ghost use Rattle.json_form.specs.Streams.{Begins, items_ahead};
ghost use Rattle.note_forms.specs.meaning.Items.{answered_in, one_served, served_in};
ghost use Rattle.note_forms.specs.NotesAhead.{AreLeft};
ghost use Rattle.note_forms.specs.ItemsAhead.{events_rise as events_rise_def};

use crate::item::{EventReader, ServedAt, ServedReader, served_at};
use answer_forms::{AnswersReader, CALL, DrawsReader, KnownRows, SessionReader};
use call_forms::list_ahead;
use json::Token;
use json_form::{Flag, Reader, array_begins, last_ahead, value_from};
use outage_schedule::{Item, Notes, Served, ServedItems};
use serde_json::Value as Json;
use std::alloc::Global;
use svc_values::Listed;
use told_reports::ServedWord;

/// What is left of a call behind its word.
fn answered_ahead(
    alloc: Global,
    reader: &ServedReader<'_>,
    tokens: &mut json::Reader<'_>,
    depth: usize,
) -> Option<Served>
    ensures ends { IfSome result (λ one. AreLeft (λ ds. (word : Data)
        → answered_in reader.now.notes.now reader.now.last (array (item word ds)) ≡ Ok one)
        depth tokens.old tokens.new) }
    ensures shorter { IfSome result (λ _. length tokens.new < length tokens.old) }
{
    let ServedReader { notes, last, known } = *reader;
    let word = ServedWord::Call;
    let event = EventReader { notes, word, last }.ahead(alloc, tokens, depth)?;
    let session = SessionReader.ahead(alloc, tokens, depth)?;
    let replay = Flag.ahead(alloc, tokens, depth)?;
    let call = CALL.ahead(alloc, tokens, depth)?;
    let answers = AnswersReader { known: Some(known) }.ahead(alloc, tokens, depth)?;
    let draws = last_ahead(alloc, tokens, depth, &DrawsReader)?;
    let item = Item::Call {
        replay,
        call,
        answers,
        draws,
    };
    Some(served_at(ServedAt { event, session }, item))
}

/// The word of an item, and the values behind it up to the bracket that ends the item.
fn values_ahead(
    alloc: Global,
    tokens: &mut json::Reader<'_>,
    depth: usize,
    word: &str,
) -> Option<Vec<Json>>
    ensures read { IfSome result (λ v. (ds : Items)
        × (items_ahead depth tokens.old ≡ Some (ds, tokens.new))
        × (item (string word.now) ds ≡ items_view v.items)) }
    ensures shorter { IfSome result (λ _. length tokens.new < length tokens.old) }
{
    let text = String::from_str(alloc, word).ok()?;
    let mut found = Vec::from_array(alloc, [Json::String(text)]).ok()?;
    'items: while !tokens.take_end_array() {
        let value = value_from(alloc, tokens, depth)?;
        found.push(value).ok()?;
    }
    Some(found)
}

/// What is left of an item behind this word. A call is read from its tokens, and every other item,
/// which is small, by its JSON value.
fn worded_ahead(
    alloc: Global,
    reader: &ServedReader<'_>,
    tokens: &mut json::Reader<'_>,
    depth: usize,
    word: &str,
) -> Option<Served>
    ensures ends { IfSome result (λ one. AreLeft (λ ds.
        one_served reader.now.notes.now reader.now.last (array (item (string word.now) ds)) ≡ Ok one)
        depth tokens.old tokens.new) }
    ensures shorter { IfSome result (λ _. length tokens.new < length tokens.old) }
{
    if word == "call" {
        return answered_ahead(alloc, reader, tokens, depth);
    }
    let values = values_ahead(alloc, tokens, depth, word)?;
    let one = reader.read(alloc, Json::Array(values)).ok()?;
    Some(one)
}

/// The item that the tokens begin with. There is none where there is a fault.
pub(crate) fn one_ahead(
    alloc: Global,
    reader: &ServedReader<'_>,
    tokens: &mut json::Reader<'_>,
    depth: usize,
) -> Option<Served>
    ensures begins { IfSome result (λ one. Begins
        (one_served reader.now.notes.now reader.now.last) depth tokens.old one tokens.new) }
    ensures shorter { IfSome result (λ _. length tokens.new < length tokens.old) }
{
    let inside = array_begins(tokens, depth)?;
    match tokens.next()? {
        Token::String(word) => {
            let one = worded_ahead(alloc, reader, tokens, inside, word)?;
            Some(one)
        }
        _ => None,
    }
}

/// Whether the event of each item is behind that of the one before.
fn events_rise(items: &[Served]) -> bool
    ensures { result ≡ events_rise_def 0 items.now }
{
    let mut last = 0;
    for item in items {
        if item.event <= last {
            return false;
        }
        last = item.event;
    }
    true
}

/// The items that `ItemsReader` reads beside these notes, each read as soon as its tokens are
/// passed. Each is judged by the notes alone at first, and then all by the order of their events.
pub fn served_ahead(
    alloc: Global,
    tokens: &mut json::Reader<'_>,
    depth: usize,
    notes: &Notes,
    known: &KnownRows,
) -> Option<ServedItems>
    ensures read { IfSome result
        (λ items. Begins (served_in notes.now) depth tokens.old items tokens.new) }
    ensures shorter { IfSome result (λ _. length tokens.new < length tokens.old) }
{
    let notes = notes.as_slice();
    let reader = ServedReader {
        notes,
        last: 0,
        known,
    };
    let items = list_ahead(alloc, tokens, depth, &reader)?;
    if !events_rise(items.as_slice()) {
        return None;
    }
    Some(Listed::from_vec(items))
}
