//! Arrays whose items have different keys.
ghost use Rattle.std.specs.Prelude.{◌≡◌, map, ◌≤◌, ◌<◌, IfSome, Result, List, length, IfOk, IfErr, OnOk, [], ◌∷◌, ◌++◌, ◌||◌, ◌↔◌, IsTrue};
ghost use Rattle.std.specs.List.Sorted.{IsStrictlySortedBy};
ghost use Rattle.std.specs.Ordering.{is_lt};
ghost use Rattle.serde_json.specs.View.{view, items_view};
ghost use Rattle.json_form.specs.meaning.Faults.{Fault, within_item as within_item_def};
ghost use Rattle.json_form.specs.Faults.{Gives, GivesBy};
ghost use Rattle.json_form.specs.meaning.Arrays.{distinct, array_of, list_of, is_key};
ghost use Rattle.json_form.specs.Streams.{Begins};

use crate::array::{counted, items_from};
use crate::fault::{DocCode, DocFault};
use crate::step::within_item;
use crate::stream::{array_begins, value_from};
use serde_json::Value;
use std::alloc::{AllocError, Global};
use std::collections::BTreeSet;
use std::marker::Model;

/// The key is smaller than the other.
fn is_below<K: Ord>(key: &K, other: &K) -> bool
    ensures { result ≡ is_lt (K.cmp key.now other.now) }
{
    key.cmp(other).is_lt()
}

/// The key is greater than each of a run that rises: the run still rises with the key behind it.
/// The cost is one comparison.
fn rises_to<K: Ord>(run: &[K], key: &K) -> bool
    requires { IsStrictlySortedBy K.cmp run.now }
    ensures { IsTrue result ↔ IsStrictlySortedBy K.cmp (run.now ++ key.now ∷ []) }
{
    match run.split_last() {
        Some((last, _)) => is_below(last, key),
        None => true,
    }
}

/// The key stands in a run that rises. The cost is one comparison where the key is greater than the
/// last of the run, and else is logarithmic in the length of the run.
fn stands_in_run<K: Ord>(run: &[K], key: &K) -> bool
    requires { IsStrictlySortedBy K.cmp run.now }
    ensures { result ≡ is_key K.eq run.now key.now }
{
    !rises_to(run, key) && run.binary_search(key).is_ok()
}

/// The key stands in the set. The cost is no comparison where the set is empty, and else is
/// logarithmic in the number of its keys.
fn stands_in_set<K: Ord>(keys: &BTreeSet<K>, key: &K) -> bool
    ensures { result ≡ is_key K.eq keys.now.keys key.now }
{
    !keys.is_empty() && keys.contains(key)
}

/// The keys of the items read so far: a run of keys that rise, each greater than the one before it,
/// and as an ordered set those that came out of order. Clauses see the list of the keys, those of
/// the run first.
#[derive(Drop)]
pub struct Taken<K: Ord + Drop> {
    run: Vec<K>,
    others: BTreeSet<K>,
}

impl<K: Ord + Drop> Model for Taken<K> {
    ghost use Rattle.std.specs.Prelude.{List, ◌++◌};
    ghost use Rattle.std.specs.List.Sorted.{IsStrictlySortedBy};

    ghost Value = { List K };

    ghost view = { λ s. s.run.items ++ s.others.keys };

    ghost invariant = { λ s. IsStrictlySortedBy K.cmp s.run.items };
}

impl<K: Ord + Drop> Taken<K> {
    ghost use Rattle.json_form.specs.meaning.Arrays.{fresh as fresh_def};

    fn new(alloc: Global) -> Taken<K>
        ensures { result ≡ [] }
    {
        Taken {
            run: Vec::new(alloc),
            others: BTreeSet::new(alloc),
        }
    }

    /// One key more. The cost is one comparison where the key is greater than the last of the run,
    /// and else is logarithmic in the number of keys out of order.
    fn add(&mut self, key: K) -> Result<(), AllocError>
        ensures { OnOk result ((k : K) → is_key K.eq self.new k
            ≡ (is_key K.eq self.old k || K.eq k key)) }
    {
        if rises_to(self.run.as_slice(), &key) {
            self.run.push(key)?;
        } else {
            self.others.insert(key)?;
        }
        Ok(())
    }

    /// No item before has this key. The cost is one comparison where the keys of the items before
    /// rise to this one, and else is logarithmic in the number of items before.
    pub fn fresh(&self, alloc: Global, key: &K) -> Result<(), DocFault>
        ensures { GivesBy (λ _. tt) result (fresh_def (is_key K.eq self.now) key.now) }
    {
        if stands_in_run(self.run.as_slice(), key) || stands_in_set(&self.others, key) {
            return Err(DocFault::here(alloc, DocCode::Duplicate));
        }
        Ok(())
    }
}

/// Reads the items of an array in which no key may stand twice. The reader says where an item's key
/// is tested by a call of `Taken::fresh`.
pub trait KeyedReader<T> {
    ghost use Rattle.std.specs.Prelude.{Bool};
    ghost use Rattle.serde_json.specs.Data.{Data};
    ghost use Rattle.json_form.specs.declared.fault.DocFault.TheVariants.{NoMemory};

    type Key: Ord + Drop;

    ghost reads: { Self → (Self.Key → Bool) → Data → Result T Fault };

    ghost key_of: { T → Self.Key };

    /// The key of an item that was read.
    fn key(&self, alloc: Global, item: &T) -> Result<Self::Key, DocFault>
        ensures made { IfOk result (λ key. key ≡ key_of item.now) }
        ensures refused { IfErr result (λ e. e ≡ NoMemory) };

    /// What the value is read as after items with these keys, or the first fault.
    fn read(&self, alloc: Global, taken: &Taken<Self::Key>, value: Value) -> Result<T, DocFault>
        ensures { Gives result
            (reads self.now (is_key Self.Key.eq taken.now) (view value)) };

    /// What the value that the tokens begin with is read as after items with these keys, once they
    /// are passed. There is none where there is a fault, and in the forms that are read otherwise:
    /// `read` says which.
    fn ahead(
        &self,
        alloc: Global,
        taken: &Taken<Self::Key>,
        tokens: &mut json::Reader<'_>,
        depth: usize,
    ) -> Option<T>
        ensures begins { IfSome result (λ x. Begins (reads self.now (is_key Self.Key.eq taken.now))
            depth tokens.old x tokens.new) }
        ensures shorter { IfSome result (λ _. length tokens.new < length tokens.old) }
    {
        let value = value_from(alloc, tokens, depth)?;
        self.read(alloc, taken, value).ok()
    }
}

/// What the value is read as after the items found.
fn next_distinct<T, R: KeyedReader<T>>(
    alloc: Global,
    value: Value,
    reader: &R,
    found: &[T],
    taken: &Taken<R::Key>,
) -> Result<T, DocFault>
    requires { (k : R.Key) → is_key R.Key.eq taken.now k
        ≡ is_key R.Key.eq (map R.KeyedReader.key_of found.now) k }
    ensures { Gives result (within_item_def (length found.now)
        (R.KeyedReader.reads reader.now (is_key R.Key.eq (map R.KeyedReader.key_of found.now)) (view value))) }
{
    within_item(alloc, found.len(), reader.read(alloc, taken, value))
}

/// What the value that the tokens begin with is read as after the items found.
fn next_ahead<T, R: KeyedReader<T>>(
    alloc: Global,
    tokens: &mut json::Reader<'_>,
    depth: usize,
    reader: &R,
    found: &[T],
    taken: &Taken<R::Key>,
) -> Option<T>
    requires { (k : R.Key) → is_key R.Key.eq taken.now k
        ≡ is_key R.Key.eq (map R.KeyedReader.key_of found.now) k }
    ensures begins { IfSome result (λ x. Begins
        (R.KeyedReader.reads reader.now (is_key R.Key.eq (map R.KeyedReader.key_of found.now)))
        depth tokens.old x tokens.new) }
    ensures shorter { IfSome result (λ _. length tokens.new < length tokens.old) }
{
    reader.ahead(alloc, taken, tokens, depth)
}

fn each_distinct<T: Drop, R: KeyedReader<T>>(
    alloc: Global,
    values: Vec<Value>,
    reader: &R,
) -> Result<Vec<T>, DocFault>
    ensures read { GivesBy (λ v. v.items) result
        (distinct R.Key.eq R.KeyedReader.key_of (R.KeyedReader.reads reader.now) (items_view values.items)) }
    ensures count { IfOk result (λ v. length v.items ≡ length values.items) }
{
    let mut found = Vec::with_capacity(alloc, values.len())?;
    let mut taken = Taken::new(alloc);
    for value in values {
        let item = next_distinct(alloc, value, reader, found.as_slice(), &taken)?;
        taken.add(reader.key(alloc, &item)?)?;
        found.push(item)?;
    }
    Ok(found)
}

/// The items of an array of `low` to `high`, in order, with different keys. Beside the readings of
/// the items the cost is a key for each item and, where the keys rise, two comparisons for each,
/// else n log n.
pub fn distinct_from<T: Drop, R: KeyedReader<T>>(
    alloc: Global,
    value: Value,
    low: usize,
    high: usize,
    reader: &R,
) -> Result<Vec<T>, DocFault>
    ensures read { GivesBy (λ v. v.items) result
        (array_of low high (distinct R.Key.eq R.KeyedReader.key_of (R.KeyedReader.reads reader.now)) (view value)) }
    ensures count { IfOk result (λ v. length v.items ≤ high) }
{
    let values = counted(alloc, value, low, high)?;
    each_distinct(alloc, values, reader)
}

/// The items of an array of any number, as `distinct_from` reads them.
pub fn distinct_list<T: Drop, R: KeyedReader<T>>(
    alloc: Global,
    value: Value,
    reader: &R,
) -> Result<Vec<T>, DocFault>
    ensures { GivesBy (λ v. v.items) result
        (list_of (distinct R.Key.eq R.KeyedReader.key_of (R.KeyedReader.reads reader.now)) (view value)) }
{
    let values = items_from(alloc, value)?;
    each_distinct(alloc, values, reader)
}

/// The items of an array of at most `high`, in order, with different keys, each read as soon as its
/// tokens are passed, as `array_ahead` does it: `distinct_from` tells what is at fault where there
/// are none.
pub fn distinct_ahead<T: Drop, R: KeyedReader<T>>(
    alloc: Global,
    tokens: &mut json::Reader<'_>,
    depth: usize,
    high: usize,
    reader: &R,
) -> Option<Vec<T>>
    ensures read { IfSome result (λ v. Begins
        (array_of 0 high (distinct R.Key.eq R.KeyedReader.key_of (R.KeyedReader.reads reader.now)))
        depth tokens.old v.items tokens.new) }
    ensures count { IfSome result (λ v. length v.items ≤ high) }
    ensures shorter { IfSome result (λ _. length tokens.new < length tokens.old) }
{
    let inside = array_begins(tokens, depth)?;
    let mut found = Vec::new(alloc);
    let mut taken = Taken::new(alloc);
    'items: while !tokens.take_end_array() {
        if found.len() >= high {
            return None;
        }
        let item = next_ahead(alloc, tokens, inside, reader, found.as_slice(), &taken)?;
        let key = reader.key(alloc, &item).ok()?;
        taken.add(key).ok()?;
        found.push(item).ok()?;
    }
    Some(found)
}
