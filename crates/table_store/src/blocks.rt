//! The rows of a table in blocks, one after the other.
ghost use Rattle.std.specs.Prelude.{◌≡◌, ◌≤◌, ◌<◌, ◌+◌, ◌^◌, IfOk, OnOk, OnErr, [], ◌∷◌, ◌++◌, drop, length, map, slice_index_or, take};
ghost use Rattle.std.specs.declared.ops.Bound.{Bound};
ghost use Rattle.std.specs.BTreeMap.{insert_entry};
ghost use Rattle.std.specs.BTreeMap.Range.{entries_between};
ghost use Rattle.std.specs.Option.{option_copied};
ghost use Rattle.std.specs.Range.Bound.{bound_map};
ghost use Rattle.svc_values.specs.declared.value.Value.{Value as ValueSeen};
ghost use Rattle.svc_values.specs.meaning.Order.{value_cmp};
ghost use Rattle.svc_values.specs.meaning.Schemas.{key_of as key_of_def};
ghost use Rattle.table_store.specs.Blocks.{AreFilled, IsPlaceOf, entries_in, rows_in, without};
ghost use Rattle.table_store.specs.Given.{keyed};
ghost use Rattle.table_store.specs.Rows.{keyed_of, KeysRise};

use crate::block::Block;
use crate::sorted_rows::exact;
use std::alloc::Global;
use std::ops::Bound;
use svc_values::{NoMemory, Row, Value};

/// The most rows of a block.
const MOST_ROWS: usize = 512;

/// The rows of a block at first, so that there is room for more.
const FIRST_ROWS: usize = 256;

/// Which block has the row of a key, if there is one: the last one that begins with the key or
/// below it, or else the first. It takes the logarithm of the number of blocks.
fn place_of(blocks: &[Block], key: &Value) -> usize
    requires some { 0 < length blocks.now }
    requires filled { AreFilled blocks.now }
    requires rising { KeysRise (entries_in blocks.now) }
    ensures place { IsPlaceOf key.now blocks.now result }
    ensures within { result < length blocks.now }
{
    let begun = blocks.partition_point(|block| block.begins_up_to(key));
    if begun == 0 {
        return 0;
    }
    begun - 1
}

/// The row of a key. It takes the logarithm of the number of rows.
pub(crate) fn get<'a>(blocks: &'a [Block], key: &Value) -> Option<&'a Row>
    requires filled { AreFilled blocks.now }
    requires rising { KeysRise (entries_in blocks.now) }
    ensures { option_copied result ≡ keyed_of (entries_in blocks.now) key.now }
{
    if blocks.is_empty() {
        return None;
    }
    blocks[place_of(blocks, key)].get(key)
}

/// How many blocks at the front have no row inside a start.
fn start_of(blocks: &[Block], from: Bound<&Value>) -> usize
    requires some { 0 < length blocks.now }
    requires filled { AreFilled blocks.now }
    requires rising { KeysRise (entries_in blocks.now) }
    ensures outside { (hi : Bound ValueSeen) → entries_between value_cmp
        (bound_map (λ x. x.now) from.entry) hi (entries_in (take result blocks.now)) ≡ [] }
    ensures within { result ≤ length blocks.now }
{
    match from {
        Bound::Unbounded => 0,
        Bound::Included(key) => place_of(blocks, key),
        Bound::Excluded(key) => place_of(blocks, key),
    }
}

/// The block behind the last one that may have rows inside an end.
fn end_of(blocks: &[Block], to: Bound<&Value>) -> usize
    requires some { 0 < length blocks.now }
    requires filled { AreFilled blocks.now }
    requires rising { KeysRise (entries_in blocks.now) }
    ensures outside { (lo : Bound ValueSeen) → entries_between value_cmp lo
        (bound_map (λ x. x.now) to.entry) (entries_in (drop result blocks.now)) ≡ [] }
    ensures within { result ≤ length blocks.now }
{
    match to {
        Bound::Unbounded => blocks.len(),
        Bound::Included(key) => place_of(blocks, key) + 1,
        Bound::Excluded(key) => place_of(blocks, key) + 1,
    }
}

/// The blocks that may have rows with keys between two ends. It takes the logarithm of the number
/// of blocks.
pub(crate) fn between<'a>(
    blocks: &'a [Block],
    from: Bound<&Value>,
    to: Bound<&Value>,
) -> &'a [Block]
    requires filled { AreFilled blocks.now }
    requires rising { KeysRise (entries_in blocks.now) }
    ensures { entries_between value_cmp (bound_map (λ x. x.now) from.entry)
        (bound_map (λ x. x.now) to.entry) (entries_in result.now)
        ≡ entries_between value_cmp (bound_map (λ x. x.now) from.entry)
        (bound_map (λ x. x.now) to.entry) (entries_in blocks.now) }
{
    if blocks.is_empty() {
        return blocks;
    }
    let start = start_of(blocks, from);
    let end = end_of(blocks, to);
    if start >= end {
        return &[];
    }
    &blocks[start..end]
}

/// How many rows. It takes the number of blocks. `NoMemory` comes only where they are more than an
/// `i64` counts, which no memory holds.
pub(crate) fn count(blocks: &[Block]) -> Result<usize, NoMemory>
    ensures is_length { IfOk result (λ n. n ≡ length (rows_in blocks.now)) }
    ensures small { IfOk result (λ n. n < 2 ^ 63) }
{
    let mut total = 0;
    for block in blocks {
        total = sum(total, block.rows().len())?;
    }
    Ok(total)
}

/// The sum of two counts, which an `i64` holds.
fn sum(one: usize, other: usize) -> Result<usize, NoMemory>
    requires { one < 2 ^ 63 }
    ensures { IfOk result (λ n. (n ≡ one + other) × (n < 2 ^ 63)) }
{
    let most = i64::MAX as usize;
    if other > most - one {
        return Err(NoMemory);
    }
    Ok(one + other)
}

/// The same blocks once more, which share their rows with these.
pub(crate) fn shared(alloc: Global, blocks: &[Block]) -> Result<Vec<Block>, NoMemory>
    ensures { IfOk result (λ made. made.items ≡ blocks.now) }
{
    let mut made = Vec::with_capacity(alloc, blocks.len())?;
    for block in blocks {
        made.push(block.share()?)?;
    }
    Ok(made)
}

/// All rows in order of key. Those of a block are moved where nobody shares them, and else copied.
pub(crate) fn into_rows(alloc: Global, blocks: Vec<Block>) -> Result<Vec<Row>, NoMemory>
    ensures { IfOk result (λ rows. rows.items ≡ rows_in blocks.items) }
{
    let mut rows = Vec::new(alloc);
    for block in blocks {
        block.give(alloc, &mut rows)?;
    }
    Ok(rows)
}

/// Blocks of rows whose keys rise, which are moved. Linear.
pub(crate) fn filled(alloc: Global, rows: Vec<Row>) -> Result<Vec<Block>, NoMemory>
    requires { KeysRise (map keyed rows.items) }
    ensures rows { IfOk result (λ made. rows_in made.items ≡ rows.items) }
    ensures filled { IfOk result (λ made. AreFilled made.items) }
{
    let mut made = Vec::new(alloc);
    let mut part = Vec::new(alloc);
    for row in rows {
        part.push(exact(row))?;
        if part.len() >= FIRST_ROWS {
            let full = std::mem::replace(&mut part, Vec::new(alloc));
            made.push(Block::of(alloc, full)?)?;
        }
    }
    with_last(alloc, made, part)
}

/// The blocks and one more of these rows, if there are any.
fn with_last(alloc: Global, made: Vec<Block>, rows: Vec<Row>) -> Result<Vec<Block>, NoMemory>
    requires filled { AreFilled made.items }
    requires rising { KeysRise (map keyed rows.items) }
    ensures rows { IfOk result (λ all. rows_in all.items ≡ rows_in made.items ++ rows.items) }
    ensures filled { IfOk result (λ all. AreFilled all.items) }
{
    if rows.as_slice().is_empty() {
        return Ok(made);
    }
    let mut made = made;
    made.push(Block::of(alloc, rows)?)?;
    Ok(made)
}

/// Makes two blocks of one.
fn divide(alloc: Global, blocks: &mut Vec<Block>, at: usize) -> Result<(), NoMemory>
    requires within { at < length blocks.old.items }
    requires long { 1 < length (slice_index_or blocks.old.items at []) }
    requires filled { AreFilled blocks.old.items }
    ensures rows { rows_in blocks.new.items ≡ rows_in blocks.old.items }
    ensures filled { AreFilled blocks.new.items }
    ensures some { 0 < length blocks.new.items }
{
    let (front, behind) = blocks[at].halves(alloc)?;
    blocks.insert(at + 1, behind)?;
    blocks[at] = front;
    Ok(())
}

/// The block for a row of a key, in which there is room for one more.
fn room_for(alloc: Global, blocks: &mut Vec<Block>, key: &Value) -> Result<usize, NoMemory>
    requires some { 0 < length blocks.old.items }
    requires filled { AreFilled blocks.old.items }
    requires rising { KeysRise (entries_in blocks.old.items) }
    ensures rows { rows_in blocks.new.items ≡ rows_in blocks.old.items }
    ensures filled { AreFilled blocks.new.items }
    ensures place { IfOk result (λ at. IsPlaceOf key.now blocks.new.items at
        × (at < length blocks.new.items)) }
{
    let at = place_of(blocks.as_slice(), key);
    if blocks[at].rows().len() < MOST_ROWS {
        return Ok(at);
    }
    divide(alloc, blocks, at)?;
    Ok(place_of(blocks.as_slice(), key))
}

/// Puts a row in the place of that of its key, if any. It takes the logarithm of the number of rows
/// and the time of a block, of which the rows are copied where they are shared.
pub(crate) fn put(
    alloc: Global,
    blocks: &mut Vec<Block>,
    key: &Value,
    row: Row,
) -> Result<(), NoMemory>
    requires filled { AreFilled blocks.old.items }
    requires rising { KeysRise (entries_in blocks.old.items) }
    requires own { key_of_def row ≡ key.now }
    ensures ok { OnOk result (entries_in blocks.new.items
        ≡ insert_entry value_cmp (entries_in blocks.old.items) key.now row) }
    ensures err { OnErr result (rows_in blocks.new.items ≡ rows_in blocks.old.items) }
    ensures filled { AreFilled blocks.new.items }
{
    if blocks.is_empty() {
        blocks.push(Block::of(alloc, first(alloc, row)?)?)?;
        return Ok(());
    }
    let at = room_for(alloc, blocks, key)?;
    blocks[at].put(alloc, key, row)
}

/// One row alone.
fn first(alloc: Global, row: Row) -> Result<Vec<Row>, NoMemory>
    ensures { IfOk result (λ rows. rows.items ≡ row ∷ []) }
{
    let mut rows = Vec::new(alloc);
    rows.push(row)?;
    Ok(rows)
}

/// Takes the row of a key away, if there is one. It costs what `put` does.
pub(crate) fn take_away(alloc: Global, blocks: &mut Vec<Block>, key: &Value) -> Result<(), NoMemory>
    requires filled { AreFilled blocks.old.items }
    requires rising { KeysRise (entries_in blocks.old.items) }
    ensures ok { OnOk result (rows_in blocks.new.items ≡ without key.now (rows_in
        blocks.old.items)) }
    ensures err { OnErr result (rows_in blocks.new.items ≡ rows_in blocks.old.items) }
    ensures filled { AreFilled blocks.new.items }
{
    if blocks.is_empty() {
        return Ok(());
    }
    let at = place_of(blocks.as_slice(), key);
    blocks[at].take_away(alloc, key)?;
    if blocks[at].rows().is_empty() {
        blocks.remove(at);
    }
    Ok(())
}
