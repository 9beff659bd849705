//! Readers of the items of a call: arrays that begin with a word.
ghost use Rattle.std.specs.Prelude.{◌≡◌};
ghost use Rattle.serde_json.specs.View.{view};
ghost use Rattle.json_form.specs.Faults.{Gives};
ghost use Rattle.json_form.specs.meaning.Texts.{word_of};
ghost use Rattle.call_forms.specs.meaning.Items.{insert_of, update_of, delete_of, get_of, select_of, count_of, sum_of, show_of, set_of, alter_of, alone_of, item_by as item_by_def, item_read, test_words, change_words, changed_by};

use crate::item::{ChangeWord, Item, ItemWord};
use crate::item_ahead::item_ahead;
use crate::lists::counted_ahead;
use crate::value::{LineReader, NameReader, OperandReader, ValueReader};
use document_limits::Count;
use json_form::{Digits, DocFault, Reader, array_from, fixed, head_from, word_ahead, word_from};
use serde_json::Value as Json;
use std::alloc::Global;
use svc_values::{Change, Limited, Operand, Operands, Statement, Test};

const TESTS: [(&str, Test); 3] = [("eq", Test::Eq), ("lt", Test::Lt), ("ge", Test::Ge)];

/// Reads the word for a comparison.
pub(crate) struct TestReader;

impl Reader<Test> for TestReader {
    ghost reads = { λ s. word_of test_words };

    fn read(&self, alloc: Global, value: Json) -> Result<Test, DocFault> {
        word_from(alloc, value, &TESTS)
    }

    fn ahead(&self, alloc: Global, tokens: &mut json::Reader<'_>, _depth: usize) -> Option<Test> {
        let test = word_ahead(alloc, tokens, &TESTS)?;
        Some(test)
    }
}

const CHANGES: [(&str, ChangeWord); 2] = [("to", ChangeWord::To), ("plus", ChangeWord::Plus)];

/// Reads the word for how an update changes its column.
pub(crate) struct ChangeReader;

impl Reader<ChangeWord> for ChangeReader {
    ghost reads = { λ s. word_of change_words };

    fn read(&self, alloc: Global, value: Json) -> Result<ChangeWord, DocFault> {
        word_from(alloc, value, &CHANGES)
    }

    fn ahead(
        &self,
        alloc: Global,
        tokens: &mut json::Reader<'_>,
        _depth: usize,
    ) -> Option<ChangeWord> {
        let word = word_ahead(alloc, tokens, &CHANGES)?;
        Some(word)
    }
}

/// Reads the operands of an insert.
#[derive(Clone, Copy)]
pub(crate) struct OperandsReader {
    pub(crate) digits: Digits,
}

impl Reader<Operands> for OperandsReader {
    ghost use Rattle.json_form.specs.meaning.Arrays.{array_of, each_of};
    ghost use Rattle.call_forms.specs.meaning.Values.{operand_of};

    ghost reads = { λ s. array_of 1 8 (each_of (operand_of s.digits)) };

    fn read(&self, alloc: Global, value: Json) -> Result<Operands, DocFault> {
        let limit = Count::Operands.limit();
        let reader = OperandReader {
            digits: self.digits,
        };
        let operands = array_from(alloc, value, limit.least, limit.most, &reader)?;
        Ok(Limited::from_vec(operands))
    }

    fn ahead(
        &self,
        alloc: Global,
        tokens: &mut json::Reader<'_>,
        depth: usize,
    ) -> Option<Operands> {
        let limit = Count::Operands.limit();
        let reader = OperandReader {
            digits: self.digits,
        };
        let operands = counted_ahead(alloc, tokens, depth, limit.least, limit.most, &reader)?;
        Some(Limited::from_vec(operands))
    }
}

#[tactic(auto, unfolding(crate::specs::meaning::Items::insert_of), using(json_form::proofs::Offered::others_stay))]
fn insert_from(alloc: Global, value: Json, digits: Digits) -> Result<Item, DocFault>
    ensures { Gives result (insert_of digits (view value)) }
{
    let mut parts = fixed(alloc, value, 3)?;
    let table = parts.read(alloc, 1, &NameReader)?;
    let values = parts.read(alloc, 2, &OperandsReader { digits })?;
    Ok(Item::Statement(Statement::Insert { table, values }))
}

pub(crate) fn change_of(word: ChangeWord, operand: Operand) -> Change
    ensures { result ≡ changed_by word operand }
{
    match word {
        ChangeWord::To => Change::To(operand),
        ChangeWord::Plus => Change::Plus(operand),
    }
}

#[tactic(auto, unfolding(crate::specs::meaning::Items::update_of), using(json_form::proofs::Offered::others_stay))]
fn update_from(alloc: Global, value: Json, digits: Digits) -> Result<Item, DocFault>
    ensures { Gives result (update_of digits (view value)) }
{
    let mut parts = fixed(alloc, value, 6)?;
    let table = parts.read(alloc, 1, &NameReader)?;
    let key = parts.read(alloc, 2, &OperandReader { digits })?;
    let column = parts.read(alloc, 3, &NameReader)?;
    let word = parts.read(alloc, 4, &ChangeReader)?;
    let operand = parts.read(alloc, 5, &OperandReader { digits })?;
    Ok(Item::Statement(Statement::Update {
        table,
        key,
        column,
        change: change_of(word, operand),
    }))
}

#[tactic(auto, unfolding(crate::specs::meaning::Items::delete_of), using(json_form::proofs::Offered::others_stay))]
fn delete_from(alloc: Global, value: Json, digits: Digits) -> Result<Item, DocFault>
    ensures { Gives result (delete_of digits (view value)) }
{
    let mut parts = fixed(alloc, value, 3)?;
    let table = parts.read(alloc, 1, &NameReader)?;
    let key = parts.read(alloc, 2, &OperandReader { digits })?;
    Ok(Item::Statement(Statement::Delete { table, key }))
}

#[tactic(auto, unfolding(crate::specs::meaning::Items::get_of), using(json_form::proofs::Offered::others_stay))]
fn get_from(alloc: Global, value: Json, digits: Digits) -> Result<Item, DocFault>
    ensures { Gives result (get_of digits (view value)) }
{
    let mut parts = fixed(alloc, value, 3)?;
    let table = parts.read(alloc, 1, &NameReader)?;
    let key = parts.read(alloc, 2, &OperandReader { digits })?;
    Ok(Item::Statement(Statement::Get { table, key }))
}

#[tactic(auto, unfolding(crate::specs::meaning::Items::select_of), using(json_form::proofs::Offered::others_stay))]
fn select_from(alloc: Global, value: Json, digits: Digits) -> Result<Item, DocFault>
    ensures { Gives result (select_of digits (view value)) }
{
    let mut parts = fixed(alloc, value, 5)?;
    let table = parts.read(alloc, 1, &NameReader)?;
    let column = parts.read(alloc, 2, &NameReader)?;
    let test = parts.read(alloc, 3, &TestReader)?;
    let operand = parts.read(alloc, 4, &OperandReader { digits })?;
    Ok(Item::Statement(Statement::Select {
        table,
        column,
        test,
        operand,
    }))
}

#[tactic(auto, unfolding(crate::specs::meaning::Items::count_of), using(json_form::proofs::Offered::others_stay))]
fn count_from(alloc: Global, value: Json) -> Result<Item, DocFault>
    ensures { Gives result (count_of (view value)) }
{
    let mut parts = fixed(alloc, value, 2)?;
    let table = parts.read(alloc, 1, &NameReader)?;
    Ok(Item::Statement(Statement::Count { table }))
}

#[tactic(auto, unfolding(crate::specs::meaning::Items::sum_of), using(json_form::proofs::Offered::others_stay))]
fn sum_from(alloc: Global, value: Json) -> Result<Item, DocFault>
    ensures { Gives result (sum_of (view value)) }
{
    let mut parts = fixed(alloc, value, 3)?;
    let table = parts.read(alloc, 1, &NameReader)?;
    let column = parts.read(alloc, 2, &NameReader)?;
    Ok(Item::Statement(Statement::Sum { table, column }))
}

#[tactic(auto, unfolding(crate::specs::meaning::Items::show_of), using(json_form::proofs::Offered::others_stay))]
fn show_from(alloc: Global, value: Json, digits: Digits) -> Result<Item, DocFault>
    ensures { Gives result (show_of digits (view value)) }
{
    let mut parts = fixed(alloc, value, 2)?;
    let operand = parts.read(alloc, 1, &OperandReader { digits })?;
    Ok(Item::Statement(Statement::Show { operand }))
}

#[tactic(auto, unfolding(crate::specs::meaning::Items::set_of), using(json_form::proofs::Offered::others_stay))]
fn set_from(alloc: Global, value: Json, digits: Digits) -> Result<Item, DocFault>
    ensures { Gives result (set_of digits (view value)) }
{
    let mut parts = fixed(alloc, value, 3)?;
    let name = parts.read(alloc, 1, &NameReader)?;
    let value = parts.read(alloc, 2, &ValueReader { digits })?;
    Ok(Item::Set { name, value })
}

#[tactic(auto, unfolding(crate::specs::meaning::Items::alter_of), using(json_form::proofs::Offered::others_stay))]
fn alter_from(alloc: Global, value: Json) -> Result<Item, DocFault>
    ensures { Gives result (alter_of (view value)) }
{
    let mut parts = fixed(alloc, value, 2)?;
    let line = parts.read(alloc, 1, &LineReader)?;
    Ok(Item::Alter { line })
}

fn alone_from(alloc: Global, value: Json, one: Item) -> Result<Item, DocFault>
    ensures { Gives result (alone_of one (view value)) }
{
    fixed(alloc, value, 1)?;
    Ok(one)
}

fn item_by(alloc: Global, value: Json, word: ItemWord, digits: Digits) -> Result<Item, DocFault>
    ensures { Gives result (item_by_def digits word (view value)) }
{
    match word {
        ItemWord::Insert => insert_from(alloc, value, digits),
        ItemWord::Update => update_from(alloc, value, digits),
        ItemWord::Delete => delete_from(alloc, value, digits),
        ItemWord::Get => get_from(alloc, value, digits),
        ItemWord::Select => select_from(alloc, value, digits),
        ItemWord::Count => count_from(alloc, value),
        ItemWord::Sum => sum_from(alloc, value),
        ItemWord::Show => show_from(alloc, value, digits),
        ItemWord::Set => set_from(alloc, value, digits),
        ItemWord::Alter => alter_from(alloc, value),
        ItemWord::Disable => alone_from(alloc, value, Item::Disable),
        ItemWord::Rollback => alone_from(alloc, value, Item::Rollback),
        ItemWord::Commit => alone_from(alloc, value, Item::Commit),
    }
}

pub(crate) const WORDS: [(&str, ItemWord); 13] = [
    ("insert", ItemWord::Insert),
    ("update", ItemWord::Update),
    ("delete", ItemWord::Delete),
    ("get", ItemWord::Get),
    ("select", ItemWord::Select),
    ("count", ItemWord::Count),
    ("sum", ItemWord::Sum),
    ("show", ItemWord::Show),
    ("set", ItemWord::Set),
    ("alter", ItemWord::Alter),
    ("disable", ItemWord::Disable),
    ("rollback", ItemWord::Rollback),
    ("commit", ItemWord::Commit),
];

/// Reads an item of a call, by its first word. Bytes stand in these digits.
#[derive(Clone, Copy, Debug, PartialEq, Eq)]
pub struct ItemReader {
    pub digits: Digits,
}

impl Reader<Item> for ItemReader {
    ghost reads = { λ s. item_read s.digits };

    #[tactic(auto, unfolding(crate::specs::meaning::Items::item_read))]
    fn read(&self, alloc: Global, value: Json) -> Result<Item, DocFault> {
        let word = head_from(alloc, &value, &WORDS)?;
        item_by(alloc, value, word, self.digits)
    }

    fn ahead(&self, alloc: Global, tokens: &mut json::Reader<'_>, depth: usize) -> Option<Item> {
        item_ahead(alloc, tokens, depth, self.digits)
    }
}
