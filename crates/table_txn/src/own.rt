//! The writes of a transaction.
ghost use Rattle.std.specs.Prelude.{◌≡◌, ◌≤◌, ◌++◌, ◌∷◌, [], IfOk, OnOk, OnErr, length, take, slice_get, Some, option_copied, option_to_list};
ghost use Rattle.svc_values.specs.declared.value.Value.{Value as Key};
ghost use Rattle.svc_values.specs.declared.entry.Write.{Write as OneWrite};
ghost use Rattle.table_txn.specs.Own.{last_write, last_at, place_in, place_kept, HasPlace, HasSamePlaces, PopsBehind};

use crate::latest::{self, Keys, Latest};
use std::alloc::Global;
use std::collections::BTreeMap;
use std::marker::Model;
use svc_values::{Name, NoMemory, TryCopy, Value, Write, Writes};

/// The writes of a transaction in their order, with the place of the last one of each table and
/// key.
#[derive(Drop)]
pub(crate) struct OwnWrites {
    writes: Writes,
    /// Beside each write the place of the one before it of its table and key.
    before: Vec<Option<usize>>,
    latest: Latest,
    alloc: Global,
}

impl Model for OwnWrites {
    ghost use Rattle.std.specs.Prelude.{List};
    ghost use Rattle.svc_values.specs.declared.entry.Write.{Write as OneWrite};
    ghost use Rattle.table_txn.specs.Own.{AreOwn};

    ghost Value = { List OneWrite };

    ghost view = { λ a. a.writes };

    ghost invariant = { λ a. AreOwn a.writes a.before.items a.latest };
}

/// Puts a write last, or leaves the writes as they were.
fn push(writes: &mut Writes, write: Write) -> Result<(), NoMemory>
    ensures ok { OnOk result (writes.new ≡ writes.old ++ write ∷ []) }
    ensures err { OnErr result (writes.new ≡ writes.old) }
{
    match writes.push(write) {
        Ok(()) => Ok(()),
        Err(_) => Err(NoMemory),
    }
}

/// Takes the writes behind the first `count` away. No memory is taken.
fn shorten(alloc: Global, writes: &mut Writes, count: usize)
    ensures { writes.new ≡ take count writes.old }
{
    let mut items = std::mem::replace(writes, Writes::new(alloc)).into_vec();
    items.truncate(count);
    *writes = Writes::from_vec(items);
}

/// The write at this place is the last one of its table and key. The place of the one before is
/// given, if there is one.
fn index(
    alloc: Global,
    writes: &Writes,
    latest: &mut Latest,
    at: usize,
) -> Result<Option<usize>, NoMemory>
    ensures before { IfOk result (λ before. (write : OneWrite)
        → slice_get writes.now at ≡ Some write
        → before ≡ place_kept latest.old write.table write.key) }
    ensures ok { OnOk result ((write : OneWrite) → slice_get writes.now at ≡ Some write
        → HasPlace latest.old write.table write.key (Some at) latest.new) }
    ensures err { OnErr result (HasSamePlaces latest.old latest.new) }
{
    match writes.get(at) {
        None => Ok(None),
        Some(write) => latest::put(alloc, latest, &write.table, &write.key, at),
    }
}

impl OwnWrites {
    pub(crate) fn new(alloc: Global) -> OwnWrites
        ensures { result ≡ [] }
    {
        OwnWrites {
            writes: Writes::new(alloc),
            before: Vec::new(alloc),
            latest: BTreeMap::new(alloc),
            alloc,
        }
    }

    /// The same writes in a list of their own: n log n for n writes.
    pub(crate) fn copy(&self, alloc: Global) -> Result<OwnWrites, NoMemory>
        ensures { IfOk result (λ made. made ≡ self.now) }
    {
        let mut made = OwnWrites::new(alloc);
        for write in self.writes.as_slice() {
            made.put(write.copy(alloc)?)?;
        }
        Ok(made)
    }

    /// How many writes.
    pub(crate) fn len(&self) -> usize
        ensures { result ≡ length self.now }
    {
        self.writes.len()
    }

    /// The writes in their order.
    pub(crate) fn writes(&self) -> &Writes
        ensures { result.now ≡ self.now }
    {
        &self.writes
    }

    pub(crate) fn into_writes(self) -> Writes
        ensures { result ≡ self }
    {
        let OwnWrites { writes, .. } = self;
        writes
    }

    /// The last write of a table and key: the logarithm of the number of writes.
    pub(crate) fn last(&self, table: &Name, key: &Value) -> Option<&Write>
        ensures { option_copied result ≡ last_write self.now table.now key.now }
    {
        match latest::place(&self.latest, table, key) {
            None => None,
            Some(at) => self.writes.get(at),
        }
    }

    /// The keys of a table that were written, each with the place of its last write.
    pub(crate) fn keys(&self, table: &Name) -> Option<&Keys>
        ensures { (key : Key) → place_in (option_copied result) key
            ≡ last_at self.now table.now key }
    {
        self.latest.get(table)
    }

    /// Puts a write last: the logarithm of the number of writes. Where memory is refused they are
    /// as they were.
    pub(crate) fn put(&mut self, write: Write) -> Result<(), NoMemory>
        ensures ok { OnOk result (self.new ≡ self.old ++ write ∷ []) }
        ensures err { OnErr result (self.new ≡ self.old) }
    {
        let at = self.writes.len();
        self.before.truncate(at);
        self.before.push(None)?;
        push(&mut self.writes, write)?;
        match index(self.alloc, &self.writes, &mut self.latest, at) {
            Ok(before) => {
                self.before[at] = before;
                Ok(())
            }
            Err(_) => {
                shorten(self.alloc, &mut self.writes, at);
                Err(NoMemory)
            }
        }
    }

    /// Puts a write last, if there is one.
    pub(crate) fn put_if_any(&mut self, write: Option<Write>) -> Result<(), NoMemory>
        ensures ok { OnOk result (self.new ≡ self.old ++ option_to_list write) }
        ensures err { OnErr result (self.new ≡ self.old) }
    {
        match write {
            None => Ok(()),
            Some(write) => self.put(write),
        }
    }

    /// Takes the writes behind the first `count` back. Each costs the logarithm of the number of
    /// writes, and no memory is taken.
    pub(crate) fn keep_first(&mut self, count: usize)
        requires { count ≤ length self.old }
        ensures { self.new ≡ take count self.old }
    {
        let mut writes = std::mem::replace(&mut self.writes, Writes::new(self.alloc)).into_vec();
        while let Some(write) = pop_behind(&mut writes, count) {
            let before = self.before[writes.len()];
            latest::restore(&mut self.latest, &write.table, &write.key, before);
        }
        self.writes = Writes::from_vec(writes);
    }
}

/// Takes the last write off, if it is behind the first `count`.
fn pop_behind(writes: &mut Vec<Write>, count: usize) -> Option<Write>
    ensures { PopsBehind writes.old.items count result writes.new.items }
{
    if writes.len() > count {
        writes.pop()
    } else {
        None
    }
}
