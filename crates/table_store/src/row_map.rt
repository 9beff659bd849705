//! The rows of one table.
ghost use Rattle.std.specs.Prelude.{◌≡◌, ◌<◌, ◌^◌, ◌&&◌, None, OnOk, OnErr, IfOk, [], length, map, if◌then◌else◌};
ghost use Rattle.std.specs.Bool.{◌==◌};
ghost use Rattle.std.specs.BTreeMap.Range.{entries_between};
ghost use Rattle.std.specs.Map.{update_all, values_of};
ghost use Rattle.std.specs.Option.{option_copied};
ghost use Rattle.std.specs.Ordering.{eq_by_cmp, is_eq};
ghost use Rattle.std.specs.Range.Bound.{bound_map};
ghost use Rattle.svc_values.specs.meaning.Order.{value_cmp};
ghost use Rattle.svc_values.specs.meaning.Schemas.{key_of as key_of_def};
ghost use Rattle.svc_values.specs.declared.value.Value.{Value as ValueSeen};
ghost use Rattle.table_store.specs.Blocks.{entries_in, rise_behind};
ghost use Rattle.table_store.specs.Given.{keyed};
ghost use Rattle.table_store.specs.Rows.{keyed_of, same_keyed, KeysRise};

use crate::block::Block;
use crate::blocks;
use crate::sorted_rows::{exact, rise};
use crate::walk::are_same;
use std::alloc::Global;
use std::marker::Model;
use std::ops::Bound;
use std::rc::Rc;
use svc_values::{NoMemory, Row, TryCopy, Value};

/// The rows of one table, seen as the list of the keys and their rows in order of key. They stand
/// in blocks, which it shares with those that were made of it by `share`, and none of them sees a
/// change of another.
#[derive(Drop)]
pub struct RowMap {
    blocks: Rc<Vec<Block>>,
    alloc: Global,
}

impl Model for RowMap {
    ghost use Rattle.table_store.specs.Blocks.{AreFilled, entries_in};
    ghost use Rattle.table_store.specs.Rows.{Keyed, KeysRise};

    ghost Value = { Keyed };

    ghost view = { λ a. entries_in a.blocks.value.items };

    ghost invariant = { λ a. AreFilled a.blocks.value.items
        × KeysRise (entries_in a.blocks.value.items) };
}

impl RowMap {
    pub fn new(alloc: Global) -> Result<RowMap, NoMemory>
        ensures { IfOk result (λ rows. rows ≡ []) }
    {
        let blocks = Rc::new(alloc, Vec::new(alloc))?;
        Ok(RowMap { blocks, alloc })
    }

    /// The row of a key. It takes the logarithm of the number of rows.
    pub fn get(&self, key: &Value) -> Option<&Row>
        ensures { option_copied result ≡ keyed_of self.now key.now }
    {
        blocks::get(self.blocks.as_slice(), key)
    }

    /// How many rows. It takes the number of blocks, some hundredth of that. `NoMemory` comes only
    /// where they are more than an `i64` counts, which no memory holds.
    pub fn count(&self) -> Result<usize, NoMemory>
        ensures is_length { IfOk result (λ n. n ≡ length self.now) }
        ensures small { IfOk result (λ n. n < 2 ^ 63) }
    {
        blocks::count(self.blocks.as_slice())
    }

    /// Whether there are no rows.
    pub fn is_empty(&self) -> bool
        ensures { result ≡ (length self.now == 0) }
    {
        self.blocks.as_slice().is_empty()
    }

    /// All blocks of rows, in order of key.
    pub(crate) fn blocks(&self) -> &[Block]
        ensures entries { entries_in result.now ≡ self.now }
        ensures rising { KeysRise self.now }
    {
        self.blocks.as_slice()
    }

    /// The blocks that may have rows with keys between two ends, in order of key. It takes the
    /// logarithm of the number of blocks.
    pub fn between(&self, from: Bound<&Value>, to: Bound<&Value>) -> &[Block]
        ensures between { entries_between value_cmp (bound_map (λ x. x.now) from.entry)
            (bound_map (λ x. x.now) to.entry) (entries_in result.now)
            ≡ entries_between value_cmp (bound_map (λ x. x.now) from.entry)
            (bound_map (λ x. x.now) to.entry) self.now }
        ensures rising { KeysRise self.now }
    {
        blocks::between(self.blocks.as_slice(), from, to)
    }

    /// Whether both have the same keys with the same rows. Linear in the rows, and no row is
    /// copied.
    pub fn is_same(&self, other: &RowMap) -> bool
        ensures { result ≡ same_keyed self.now other.now }
    {
        are_same(self.blocks.as_slice(), other.blocks.as_slice())
    }

    /// The same rows once more. No row is copied now; the first change of either copies the block
    /// that it changes.
    pub fn share(&self) -> Result<RowMap, NoMemory>
        ensures { IfOk result (λ rows. rows ≡ self.now) }
    {
        let blocks = self.blocks.clone()?;
        Ok(RowMap {
            blocks,
            alloc: self.alloc,
        })
    }

    /// The rows in order of key. They are moved where nobody shares them, and else copied. Linear
    /// in the rows.
    pub fn into_rows(self) -> Result<Vec<Row>, NoMemory>
        ensures { IfOk result (λ rows. rows.items ≡ values_of self) }
    {
        let RowMap { blocks, alloc } = self;
        let blocks = match Rc::try_unwrap(blocks) {
            Ok(blocks) => blocks,
            Err(blocks) => blocks::shared(alloc, blocks.as_slice())?,
        };
        blocks::into_rows(alloc, blocks)
    }

    /// Puts a row in the place of that of its key, if any. It takes the logarithm of the number of
    /// rows and the time of a block. Where the rows are shared that block is copied, and the list
    /// of the blocks.
    pub(crate) fn put(&mut self, key: &Value, row: Row) -> Result<(), NoMemory>
        requires { key_of_def row ≡ key.now }
        ensures ok { OnOk result ((q : ValueSeen)
            → keyed_of self.new q ≡ (if is_eq (value_cmp key.now q) then Some row else keyed_of
            self.old q)) }
        ensures err { OnErr result (self.new ≡ self.old) }
        ensures rising { KeysRise self.new }
    {
        let row = exact(row);
        match Rc::get_mut(&mut self.blocks) {
            Some(blocks) => blocks::put(self.alloc, blocks, key, row),
            None => {
                let mut blocks = blocks::shared(self.alloc, self.blocks.as_slice())?;
                blocks::put(self.alloc, &mut blocks, key, row)?;
                self.blocks = Rc::new(self.alloc, blocks)?;
                Ok(())
            }
        }
    }

    /// Puts each row in the place of that of its key, if any, one after the other. The rows are
    /// moved. Where there are none yet and the keys rise it is linear in the rows, and else each
    /// costs what `put` does. After a refusal some of the rows are in.
    pub(crate) fn put_all(&mut self, rows: Vec<Row>) -> Result<(), NoMemory>
        ensures ok { OnOk result ((q : ValueSeen)
            → keyed_of self.new q ≡ update_all (eq_by_cmp value_cmp) (keyed_of self.old)
            (map keyed rows.items) q) }
        ensures rising { KeysRise self.new }
    {
        if self.is_filled_by(rows.as_slice()) {
            return self.fill(rows);
        }
        for row in rows {
            self.put_at_own(row)?;
        }
        Ok(())
    }

    /// Puts a row in the place of that of its key, if any.
    fn put_at_own(&mut self, row: Row) -> Result<(), NoMemory>
        ensures ok { OnOk result ((q : ValueSeen)
            → keyed_of self.new q ≡ (if is_eq (value_cmp (key_of_def row) q) then Some row else
            keyed_of self.old q)) }
        ensures rising { KeysRise self.new }
    {
        let key = key_of(self.alloc, &row)?;
        self.put(&key, row)
    }

    /// Whether there are no rows yet, and the keys of these rise.
    fn is_filled_by(&self, rows: &[Row]) -> bool
        ensures filled { result ≡ ((length self.now == 0) && rise_behind None rows.now) }
        ensures rising { KeysRise self.now }
    {
        let _ = self.blocks();
        self.is_empty() && rise(rows)
    }

    /// Has these rows and no others. They are moved. Linear.
    fn fill(&mut self, rows: Vec<Row>) -> Result<(), NoMemory>
        requires { KeysRise (map keyed rows.items) }
        ensures ok { OnOk result (self.new ≡ map keyed rows.items) }
        ensures rising { KeysRise self.new }
    {
        self.blocks = Rc::new(self.alloc, blocks::filled(self.alloc, rows)?)?;
        Ok(())
    }

    /// Takes the row of a key away, if there is one. It costs what `put` does.
    pub(crate) fn take_away(&mut self, key: &Value) -> Result<(), NoMemory>
        ensures ok { OnOk result ((q : ValueSeen)
            → keyed_of self.new q ≡ (if is_eq (value_cmp key.now q) then None else keyed_of
            self.old q)) }
        ensures err { OnErr result (self.new ≡ self.old) }
        ensures rising { KeysRise self.new }
    {
        match Rc::get_mut(&mut self.blocks) {
            Some(blocks) => blocks::take_away(self.alloc, blocks, key),
            None => {
                let mut blocks = blocks::shared(self.alloc, self.blocks.as_slice())?;
                blocks::take_away(self.alloc, &mut blocks, key)?;
                self.blocks = Rc::new(self.alloc, blocks)?;
                Ok(())
            }
        }
    }
}

/// The first value of a row: its key. (A row has a value for each column, and a table has a
/// column.)
pub(crate) fn key_of(alloc: Global, row: &Row) -> Result<Value, NoMemory>
    ensures { IfOk result (λ key. key ≡ key_of_def row.now) }
{
    match row.get(0) {
        None => Ok(Value::Int(0)),
        Some(key) => key.copy(alloc),
    }
}
