//! Some of the rows of a table.
ghost use Rattle.std.specs.Prelude.{◌≡◌, ◌<◌, ◌++◌, IfOk, OnOk, OnErr, length, map};
ghost use Rattle.std.specs.BTreeMap.{insert_entry};
ghost use Rattle.std.specs.BTreeMap.Range.{entries_between};
ghost use Rattle.std.specs.Option.{option_copied};
ghost use Rattle.std.specs.Range.Bound.{bound_map};
ghost use Rattle.svc_values.specs.meaning.Order.{value_cmp};
ghost use Rattle.svc_values.specs.meaning.Schemas.{key_of as key_of_def};
ghost use Rattle.table_store.specs.Blocks.{begins_up_to as begins_up_to_def, without};
ghost use Rattle.table_store.specs.Given.{keyed};
ghost use Rattle.table_store.specs.Rows.{keyed_of, KeysRise};

use crate::sorted_rows::{copied_rows, is_up_to, part_between, put_row, row_at, take_row};
use std::alloc::Global;
use std::marker::Model;
use std::ops::Bound;
use std::rc::Rc;
use svc_values::{NoMemory, Row, TryCopy, Value};

/// Some of the rows of a table, in rising order of key, which is a row's first value. It shares its
/// rows with those that were made of it by `share`, and none of them sees a change of another.
#[derive(Drop)]
pub struct Block {
    rows: Rc<Vec<Row>>,
}

impl Model for Block {
    ghost use Rattle.std.specs.Prelude.{List, map};
    ghost use Rattle.svc_values.specs.declared.value.Value.{Value as ValueSeen};
    ghost use Rattle.table_store.specs.Given.{keyed};
    ghost use Rattle.table_store.specs.Rows.{KeysRise};

    ghost Value = { List (List ValueSeen) };

    ghost view = { λ a. a.rows.value.items };

    ghost invariant = { λ a. KeysRise (map keyed a.rows.value.items) };
}

impl Block {
    pub(crate) fn of(alloc: Global, rows: Vec<Row>) -> Result<Block, NoMemory>
        requires { KeysRise (map keyed rows.items) }
        ensures { IfOk result (λ made. made ≡ rows.items) }
    {
        Ok(Block {
            rows: Rc::new(alloc, rows)?,
        })
    }

    /// The rows.
    pub(crate) fn rows(&self) -> &[Row]
        ensures rows { result.now ≡ self.now }
        ensures rising { KeysRise (map keyed self.now) }
    {
        self.rows.as_slice()
    }

    /// The rows whose keys are between two ends. It takes the logarithm of the number of rows.
    pub fn between(&self, from: Bound<&Value>, to: Bound<&Value>) -> &[Row]
        ensures { map keyed result.now
            ≡ entries_between value_cmp (bound_map (λ x. x.now) from.entry)
            (bound_map (λ x. x.now) to.entry) (map keyed self.now) }
    {
        part_between(self.rows(), from, to)
    }

    /// The row of a key: the logarithm of the number of rows.
    pub(crate) fn get(&self, key: &Value) -> Option<&Row>
        ensures { option_copied result ≡ keyed_of (map keyed self.now) key.now }
    {
        row_at(self.rows(), key)
    }

    /// Whether the first row's key, if there is one, is this one or below it.
    pub(crate) fn begins_up_to(&self, key: &Value) -> bool
        ensures { result ≡ begins_up_to_def key.now self.now }
    {
        match self.rows().first() {
            None => true,
            Some(row) => is_up_to(row, key),
        }
    }

    /// The same rows once more. No row is copied now; the first change of either copies them.
    pub(crate) fn share(&self) -> Result<Block, NoMemory>
        ensures { IfOk result (λ made. made ≡ self.now) }
    {
        Ok(Block {
            rows: self.rows.clone()?,
        })
    }

    /// Copies of the first half of the rows, and of the others.
    pub(crate) fn halves(&self, alloc: Global) -> Result<(Block, Block), NoMemory>
        requires { 1 < length self.now }
        ensures rows { IfOk result (λ made. made.0 ++ made.1 ≡ self.now) }
        ensures front { IfOk result (λ made. 0 < length made.0) }
        ensures behind { IfOk result (λ made. 0 < length made.1) }
    {
        let (front, behind) = self.rows().split_at(self.rows().len() / 2);
        let front = Block::of(alloc, copied_rows(alloc, front)?)?;
        let behind = Block::of(alloc, copied_rows(alloc, behind)?)?;
        Ok((front, behind))
    }

    /// Puts a row in the place of that of its key, if any. It copies the rows where they are
    /// shared, and moves those behind the new one.
    pub(crate) fn put(&mut self, alloc: Global, key: &Value, row: Row) -> Result<(), NoMemory>
        requires { key_of_def row ≡ key.now }
        ensures ok { OnOk result (map keyed self.new
            ≡ insert_entry value_cmp (map keyed self.old) key.now row) }
        ensures err { OnErr result (self.new ≡ self.old) }
    {
        match Rc::get_mut(&mut self.rows) {
            Some(rows) => put_row(rows, key, row),
            None => {
                let mut rows = copied_rows(alloc, self.rows.as_slice())?;
                put_row(&mut rows, key, row)?;
                self.rows = Rc::new(alloc, rows)?;
                Ok(())
            }
        }
    }

    /// Takes the row of a key away, if there is one. It copies the rows where they are shared, and
    /// moves those behind that row.
    pub(crate) fn take_away(&mut self, alloc: Global, key: &Value) -> Result<(), NoMemory>
        ensures ok { OnOk result (self.new ≡ without key.now self.old) }
        ensures err { OnErr result (self.new ≡ self.old) }
    {
        match Rc::get_mut(&mut self.rows) {
            Some(rows) => {
                take_row(rows, key);
                Ok(())
            }
            None => {
                let mut rows = copied_rows(alloc, self.rows.as_slice())?;
                take_row(&mut rows, key);
                self.rows = Rc::new(alloc, rows)?;
                Ok(())
            }
        }
    }

    /// Puts the rows behind these. They are moved where nobody shares them, and else copied.
    pub(crate) fn give(self, alloc: Global, rows: &mut Vec<Row>) -> Result<(), NoMemory>
        ensures { OnOk result (rows.new.items ≡ rows.old.items ++ self) }
    {
        let mut own = match Rc::try_unwrap(self.rows) {
            Ok(own) => own,
            Err(shared) => copied_rows(alloc, shared.as_slice())?,
        };
        rows.append(&mut own)?;
        Ok(())
    }
}
