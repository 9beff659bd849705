//! Rows of blocks that are compared one after the other.
ghost use Rattle.std.specs.Prelude.{◌≡◌, ◌++◌, List};
ghost use Rattle.std.specs.Option.{option_map};
ghost use Rattle.svc_values.specs.declared.value.Value.{Value as ValueSeen};
ghost use Rattle.table_store.specs.Blocks.{AreFilled, MeetsNext, entries_in, is_rest, rows_from, same_rows};
ghost use Rattle.table_store.specs.Rows.{same_keyed};

use crate::block::Block;
use svc_values::Row;

/// A place among the rows of blocks: a row of a block, or the end of the block.
#[derive(Clone, Copy, Drop)]
struct Place {
    block: usize,
    row: usize,
}

/// The first row of a block, if there is such a block, and the place behind it.
fn first_of(blocks: &[Block], block: usize) -> Option<(&Row, Place)>
    requires { AreFilled blocks.now }
    ensures { MeetsNext blocks.now (record { block = block; row = 0 })
        (option_map (λ next. (next.0.now, next.1)) result) }
{
    let row = blocks.get(block)?.rows().first()?;
    Some((row, Place { block, row: 1 }))
}

/// The row at a place, if it is not behind all rows, and the place behind it.
fn next(blocks: &[Block], at: Place) -> Option<(&Row, Place)>
    requires { AreFilled blocks.now }
    ensures { MeetsNext blocks.now at (option_map (λ next. (next.0.now, next.1)) result) }
{
    let block = blocks.get(at.block)?;
    match block.rows().get(at.row) {
        None => first_of(blocks, at.block + 1),
        Some(row) => Some((
            row,
            Place {
                block: at.block,
                row: at.row + 1,
            },
        )),
    }
}

/// The place behind these rows, if they stand from a place on.
fn behind(blocks: &[Block], at: Place, rows: &[Row]) -> Option<Place>
    requires { AreFilled blocks.now }
    ensures { (rest : List (List ValueSeen))
        → same_rows (rows_from blocks.now at) (rows.now ++ rest) ≡ is_rest blocks.now result rest }
{
    let mut at = at;
    for row in rows {
        let (own, next) = next(blocks, at)?;
        if *own != *row {
            return None;
        }
        at = next;
    }
    Some(at)
}

/// Whether both are the same rows in the same order, however they stand in blocks. Linear.
pub(crate) fn are_same(one: &[Block], other: &[Block]) -> bool
    requires { AreFilled one.now }
    ensures { result ≡ same_keyed (entries_in one.now) (entries_in other.now) }
{
    let mut at = Place { block: 0, row: 0 };
    for block in other {
        match behind(one, at, block.rows()) {
            None => return false,
            Some(next) => at = next,
        }
    }
    next(one, at).is_none()
}
