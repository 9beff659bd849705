//! Reader of an item of a call whose parts are read one after the other.
ghost use Rattle.std.specs.Prelude.{◌<◌, ℕ, length, IfSome};
ghost use Rattle.json_form.specs.Streams.{Begins};
ghost use Rattle.call_forms.specs.meaning.Items.{insert_of, update_of, delete_of, get_of, select_of, count_of, sum_of, show_of, set_of, alter_of, alone_of, item_by, item_read};
ghost use Rattle.call_forms.specs.ItemsAhead.{Ends};

use crate::item::{Item, ItemWord};
use crate::statement::{ChangeReader, OperandsReader, TestReader, WORDS, change_of};
use crate::value::{LineReader, NameReader, OperandReader, ValueReader};
use json_form::{Digits, Reader, array_begins, array_ends, last_ahead, word_ahead};
use std::alloc::Global;
use svc_values::Statement;

/// What is left of an insert behind its word, as are the parts of the others below.
fn insert_ahead(
    alloc: Global,
    tokens: &mut json::Reader<'_>,
    depth: usize,
    digits: Digits,
) -> Option<Item>
    ensures ends { IfSome result (λ one. Ends (insert_of digits) depth tokens.old one tokens.new) }
    ensures shorter { IfSome result (λ _. length tokens.new < length tokens.old) }
{
    let table = NameReader.ahead(alloc, tokens, depth)?;
    let values = last_ahead(alloc, tokens, depth, &OperandsReader { digits })?;
    Some(Item::Statement(Statement::Insert { table, values }))
}

fn update_ahead(
    alloc: Global,
    tokens: &mut json::Reader<'_>,
    depth: usize,
    digits: Digits,
) -> Option<Item>
    ensures ends { IfSome result (λ one. Ends (update_of digits) depth tokens.old one tokens.new) }
    ensures shorter { IfSome result (λ _. length tokens.new < length tokens.old) }
{
    let table = NameReader.ahead(alloc, tokens, depth)?;
    let key = OperandReader { digits }.ahead(alloc, tokens, depth)?;
    let column = NameReader.ahead(alloc, tokens, depth)?;
    let word = ChangeReader.ahead(alloc, tokens, depth)?;
    let operand = last_ahead(alloc, tokens, depth, &OperandReader { digits })?;
    Some(Item::Statement(Statement::Update {
        table,
        key,
        column,
        change: change_of(word, operand),
    }))
}

fn delete_ahead(
    alloc: Global,
    tokens: &mut json::Reader<'_>,
    depth: usize,
    digits: Digits,
) -> Option<Item>
    ensures ends { IfSome result (λ one. Ends (delete_of digits) depth tokens.old one tokens.new) }
    ensures shorter { IfSome result (λ _. length tokens.new < length tokens.old) }
{
    let table = NameReader.ahead(alloc, tokens, depth)?;
    let key = last_ahead(alloc, tokens, depth, &OperandReader { digits })?;
    Some(Item::Statement(Statement::Delete { table, key }))
}

fn get_ahead(
    alloc: Global,
    tokens: &mut json::Reader<'_>,
    depth: usize,
    digits: Digits,
) -> Option<Item>
    ensures ends { IfSome result (λ one. Ends (get_of digits) depth tokens.old one tokens.new) }
    ensures shorter { IfSome result (λ _. length tokens.new < length tokens.old) }
{
    let table = NameReader.ahead(alloc, tokens, depth)?;
    let key = last_ahead(alloc, tokens, depth, &OperandReader { digits })?;
    Some(Item::Statement(Statement::Get { table, key }))
}

fn select_ahead(
    alloc: Global,
    tokens: &mut json::Reader<'_>,
    depth: usize,
    digits: Digits,
) -> Option<Item>
    ensures ends { IfSome result (λ one. Ends (select_of digits) depth tokens.old one tokens.new) }
    ensures shorter { IfSome result (λ _. length tokens.new < length tokens.old) }
{
    let table = NameReader.ahead(alloc, tokens, depth)?;
    let column = NameReader.ahead(alloc, tokens, depth)?;
    let test = TestReader.ahead(alloc, tokens, depth)?;
    let operand = last_ahead(alloc, tokens, depth, &OperandReader { digits })?;
    Some(Item::Statement(Statement::Select {
        table,
        column,
        test,
        operand,
    }))
}

fn count_ahead(alloc: Global, tokens: &mut json::Reader<'_>, depth: usize) -> Option<Item>
    ensures ends { IfSome result (λ one. Ends count_of depth tokens.old one tokens.new) }
    ensures shorter { IfSome result (λ _. length tokens.new < length tokens.old) }
{
    let table = last_ahead(alloc, tokens, depth, &NameReader)?;
    Some(Item::Statement(Statement::Count { table }))
}

fn sum_ahead(alloc: Global, tokens: &mut json::Reader<'_>, depth: usize) -> Option<Item>
    ensures ends { IfSome result (λ one. Ends sum_of depth tokens.old one tokens.new) }
    ensures shorter { IfSome result (λ _. length tokens.new < length tokens.old) }
{
    let table = NameReader.ahead(alloc, tokens, depth)?;
    let column = last_ahead(alloc, tokens, depth, &NameReader)?;
    Some(Item::Statement(Statement::Sum { table, column }))
}

fn show_ahead(
    alloc: Global,
    tokens: &mut json::Reader<'_>,
    depth: usize,
    digits: Digits,
) -> Option<Item>
    ensures ends { IfSome result (λ one. Ends (show_of digits) depth tokens.old one tokens.new) }
    ensures shorter { IfSome result (λ _. length tokens.new < length tokens.old) }
{
    let operand = last_ahead(alloc, tokens, depth, &OperandReader { digits })?;
    Some(Item::Statement(Statement::Show { operand }))
}

fn set_ahead(
    alloc: Global,
    tokens: &mut json::Reader<'_>,
    depth: usize,
    digits: Digits,
) -> Option<Item>
    ensures ends { IfSome result (λ one. Ends (set_of digits) depth tokens.old one tokens.new) }
    ensures shorter { IfSome result (λ _. length tokens.new < length tokens.old) }
{
    let name = NameReader.ahead(alloc, tokens, depth)?;
    let value = last_ahead(alloc, tokens, depth, &ValueReader { digits })?;
    Some(Item::Set { name, value })
}

fn alter_ahead(alloc: Global, tokens: &mut json::Reader<'_>, depth: usize) -> Option<Item>
    ensures ends { IfSome result (λ one. Ends alter_of depth tokens.old one tokens.new) }
    ensures shorter { IfSome result (λ _. length tokens.new < length tokens.old) }
{
    let line = last_ahead(alloc, tokens, depth, &LineReader)?;
    Some(Item::Alter { line })
}

fn alone_ahead(tokens: &mut json::Reader<'_>, one: Item) -> Option<Item>
    ensures ends { IfSome result (λ item. (depth : ℕ)
        → Ends (alone_of one) depth tokens.old item tokens.new) }
    ensures shorter { IfSome result (λ _. length tokens.new < length tokens.old) }
{
    array_ends(tokens)?;
    Some(one)
}

/// What is left of an item that begins with this word.
fn parts_ahead(
    alloc: Global,
    tokens: &mut json::Reader<'_>,
    depth: usize,
    word: ItemWord,
    digits: Digits,
) -> Option<Item>
    ensures ends { IfSome result (λ one. Ends (item_by digits word) depth tokens.old one
        tokens.new) }
    ensures shorter { IfSome result (λ _. length tokens.new < length tokens.old) }
{
    match word {
        ItemWord::Insert => insert_ahead(alloc, tokens, depth, digits),
        ItemWord::Update => update_ahead(alloc, tokens, depth, digits),
        ItemWord::Delete => delete_ahead(alloc, tokens, depth, digits),
        ItemWord::Get => get_ahead(alloc, tokens, depth, digits),
        ItemWord::Select => select_ahead(alloc, tokens, depth, digits),
        ItemWord::Count => count_ahead(alloc, tokens, depth),
        ItemWord::Sum => sum_ahead(alloc, tokens, depth),
        ItemWord::Show => show_ahead(alloc, tokens, depth, digits),
        ItemWord::Set => set_ahead(alloc, tokens, depth, digits),
        ItemWord::Alter => alter_ahead(alloc, tokens, depth),
        ItemWord::Disable => alone_ahead(tokens, Item::Disable),
        ItemWord::Rollback => alone_ahead(tokens, Item::Rollback),
        ItemWord::Commit => alone_ahead(tokens, Item::Commit),
    }
}

/// The item that the tokens begin with, with no JSON value of it between: only a value or an
/// operand that is an object is read as one. There is none where there is a fault.
pub(crate) fn item_ahead(
    alloc: Global,
    tokens: &mut json::Reader<'_>,
    depth: usize,
    digits: Digits,
) -> Option<Item>
    ensures begins { IfSome result (λ one. Begins (item_read digits) depth tokens.old one
        tokens.new) }
    ensures shorter { IfSome result (λ _. length tokens.new < length tokens.old) }
{
    let inside = array_begins(tokens, depth)?;
    let word = word_ahead(alloc, tokens, &WORDS)?;
    let one = parts_ahead(alloc, tokens, inside, word, digits)?;
    Some(one)
}
