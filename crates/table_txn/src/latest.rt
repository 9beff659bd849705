//! Where the last write of each table and key stands.
ghost use Rattle.std.specs.Prelude.{◌≡◌, None, Some, IfOk, IsSome, OnOk, OnErr};
ghost use Rattle.table_txn.specs.Own.{HasPlace, HasSamePlaces, HasKey, place_kept, place_in};

use std::alloc::Global;
use std::collections::BTreeMap;
use svc_values::{Name, NoMemory, TryCopy, Value};

/// The places of one table's last writes, by key.
pub(crate) type Keys = BTreeMap<Value, usize>;

/// The places of all last writes, by table and key.
pub(crate) type Latest = BTreeMap<Name, Keys>;

/// The place of the last write of a table and key.
pub(crate) fn place(latest: &Latest, table: &Name, key: &Value) -> Option<usize>
    ensures { result ≡ place_kept latest.now table.now key.now }
{
    match latest.get(table) {
        None => None,
        Some(keys) => keys.get(key).copied(),
    }
}

/// A key has its last write at this place. The place of the one before is given, if there is one.
fn put_key(
    alloc: Global,
    keys: &mut Keys,
    key: &Value,
    at: usize,
) -> Result<Option<usize>, NoMemory>
    ensures before { IfOk result (λ before. before ≡ place_in (Some keys.old) key.now) }
    ensures ok { OnOk result (HasKey keys.old key.now (Some at) keys.new) }
    ensures err { OnErr result (keys.new.entries ≡ keys.old.entries) }
{
    Ok(keys.insert(key.copy(alloc)?, at)?)
}

/// A table and key has its last write at this place. The place of the one before is given, if there
/// is one.
pub(crate) fn put(
    alloc: Global,
    latest: &mut Latest,
    table: &Name,
    key: &Value,
    at: usize,
) -> Result<Option<usize>, NoMemory>
    ensures before { IfOk result (λ before. before ≡ place_kept latest.old table.now key.now) }
    ensures ok { OnOk result (HasPlace latest.old table.now key.now (Some at) latest.new) }
    ensures err { OnErr result (HasSamePlaces latest.old latest.new) }
{
    match latest.get_mut(table) {
        Some(keys) => put_key(alloc, keys, key, at),
        None => {
            let mut keys = BTreeMap::new(alloc);
            put_key(alloc, &mut keys, key, at)?;
            latest.insert(table.copied(), keys)?;
            Ok(None)
        }
    }
}

fn restore_key(keys: &mut Keys, key: &Value, before: Option<usize>)
    requires { IsSome (place_in (Some keys.old) key.now) }
    ensures { HasKey keys.old key.now before keys.new }
{
    let Some(before) = before else {
        keys.remove(key);
        return;
    };
    if let Some(at) = keys.get_mut(key) {
        *at = before;
    }
}

/// A table and key has its last write at the place of the one before, if any. No memory is taken.
pub(crate) fn restore(latest: &mut Latest, table: &Name, key: &Value, before: Option<usize>)
    requires { IsSome (place_kept latest.old table.now key.now) }
    ensures { HasPlace latest.old table.now key.now before latest.new }
{
    if let Some(keys) = latest.get_mut(table) {
        restore_key(keys, key, before);
    }
}
