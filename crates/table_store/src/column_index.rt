//! The keys of a table's rows by the value of one column.
ghost use Rattle.std.specs.Prelude.{◌≡◌, ◌&&◌, true, false, [], IfOk, IsTrue, OnOk, if◌then◌else◌};
ghost use Rattle.std.specs.Option.{option_copied};
ghost use Rattle.std.specs.Ordering.{is_eq};
ghost use Rattle.svc_values.specs.meaning.Order.{value_cmp};
ghost use Rattle.svc_values.specs.declared.value.Value.{Value as ValueSeen};
ghost use Rattle.table_store.specs.Indexes.{ends as ends_def, has_pair, is_value, pair, value_in as value_in_def};

use std::alloc::Global;
use std::collections::BTreeSet;
use std::ops::Bound;
use svc_values::{NoMemory, Row, Test, TryCopy, Value};

/// Where a pair stands among those of its value. Each pair of an index stands at a key; before all
/// keys and behind them are the ends of a walk.
#[derive(PartialEq, Eq, PartialOrd, Ord, Drop)]
pub(crate) enum Spot {
    Before,
    At(Value),
    Behind,
}

/// A value of a column, with the key of a row that has it.
#[derive(PartialEq, Eq, PartialOrd, Ord, Drop)]
pub(crate) struct Pair {
    pub(crate) value: Value,
    pub(crate) spot: Spot,
}

/// The keys of a table's rows by their values in one column, which is told by its place from 0.
#[derive(Drop)]
pub(crate) struct ColumnIndex {
    pub(crate) column: usize,
    pub(crate) pairs: BTreeSet<Pair>,
    alloc: Global,
}

/// A value with a key.
fn pair_at(alloc: Global, value: &Value, key: &Value) -> Result<Pair, NoMemory>
    ensures { IfOk result (λ made. made ≡ pair value.now key.now) }
{
    Ok(Pair {
        value: value.copy(alloc)?,
        spot: Spot::At(key.copy(alloc)?),
    })
}

/// The value of a row in a column, if there is a row and it has one.
pub(crate) fn value_in(row: Option<&Row>, column: usize) -> Option<&Value>
    ensures { option_copied result ≡ value_in_def (option_copied row.entry) column }
{
    match row {
        None => None,
        Some(row) => row.get(column),
    }
}

/// Whether both are there and the same, or none is there.
fn is_same(one: Option<&Value>, other: Option<&Value>) -> bool
    ensures { IsTrue result → option_copied one.entry ≡ option_copied other.entry }
{
    match (one, other) {
        (Some(one), Some(other)) => *one == *other,
        (None, None) => true,
        _ => false,
    }
}

/// Where a walk begins and ends over the pairs whose values meet the test.
pub(crate) fn ends(
    alloc: Global,
    test: Test,
    value: &Value,
) -> Result<(Bound<Pair>, Bound<Pair>), NoMemory>
    ensures { IfOk result (λ made. made ≡ ends_def test value.now) }
{
    let before = Pair {
        value: value.copy(alloc)?,
        spot: Spot::Before,
    };
    match test {
        Test::Eq => {
            let behind = Pair {
                value: value.copy(alloc)?,
                spot: Spot::Behind,
            };
            Ok((Bound::Included(before), Bound::Included(behind)))
        }
        Test::Lt => Ok((Bound::Unbounded, Bound::Excluded(before))),
        Test::Ge => Ok((Bound::Included(before), Bound::Unbounded)),
    }
}

impl ColumnIndex {
    /// The index of a table without rows. It takes no memory.
    pub(crate) fn new(alloc: Global, column: usize) -> ColumnIndex
        ensures column { result.column ≡ column }
        ensures empty { result.pairs.keys ≡ [] }
    {
        ColumnIndex {
            column,
            pairs: BTreeSet::new(alloc),
            alloc,
        }
    }

    /// Puts a key in at its value, if there is one: the logarithm of the number of pairs.
    pub(crate) fn put(&mut self, value: Option<&Value>, key: &Value) -> Result<(), NoMemory>
        ensures column { self.new.column ≡ self.old.column }
        ensures ok { OnOk result ((v k : ValueSeen)
            → has_pair self.new.pairs.keys v k
            ≡ (if is_value (option_copied value.entry) v && is_eq (value_cmp key.now k) then
            true else has_pair self.old.pairs.keys v k)) }
    {
        match value {
            None => Ok(()),
            Some(value) => {
                let pair = pair_at(self.alloc, value, key)?;
                self.pairs.insert(pair)?;
                Ok(())
            }
        }
    }

    /// Takes a key away at its value, if there is one: the logarithm of the number of pairs.
    fn take_away(&mut self, value: Option<&Value>, key: &Value) -> Result<(), NoMemory>
        ensures column { self.new.column ≡ self.old.column }
        ensures ok { OnOk result ((v k : ValueSeen)
            → has_pair self.new.pairs.keys v k
            ≡ (if is_value (option_copied value.entry) v && is_eq (value_cmp key.now k) then
            false else has_pair self.old.pairs.keys v k)) }
    {
        match value {
            None => Ok(()),
            Some(value) => {
                let pair = pair_at(self.alloc, value, key)?;
                self.pairs.remove(&pair);
                Ok(())
            }
        }
    }

    /// The row of a key, if any, gives way to another one, if any. Where both have the same value
    /// no pair changes. After a refusal some pairs may have changed.
    pub(crate) fn change(
        &mut self,
        key: &Value,
        before: Option<&Row>,
        after: Option<&Row>,
    ) -> Result<(), NoMemory>
        requires { (v : ValueSeen) → has_pair self.old.pairs.keys v key.now
            ≡ is_value (value_in_def (option_copied before) self.old.column) v }
        ensures column { self.new.column ≡ self.old.column }
        ensures ok { OnOk result ((v k : ValueSeen)
            → has_pair self.new.pairs.keys v k
            ≡ (if is_eq (value_cmp key.now k) then
            is_value (value_in_def (option_copied after.entry) self.old.column) v else
            has_pair self.old.pairs.keys v k)) }
    {
        let was = value_in(before, self.column);
        let is = value_in(after, self.column);
        if is_same(was, is) {
            return Ok(());
        }
        self.take_away(was, key)?;
        self.put(is, key)
    }
}
