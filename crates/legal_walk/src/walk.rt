//! Whether items are legal, one after the other.
ghost use Rattle.std.specs.Prelude.{◌≡◌, IfOk, is_none, map};
ghost use Rattle.server_model.specs.meaning.Base.{Base};
ghost use Rattle.server_model.specs.meaning.Legal.{items_hold};
ghost use Rattle.server_model.specs.meaning.Walk.{walk_of};
ghost use Rattle.plain_items.specs.Views.{item_as};
ghost use Rattle.legal_walk.specs.Starting.{IsStart};

use crate::start::Start;
use crate::walker::Walker;
use plain_items::Item;
use std::alloc::Global;
use svc_values::{Entry, NoMemory};

/// What is not legal: the number of an item that does not hold, or of an entry that none stored.
/// Numbers are from 0.
#[derive(Clone, Copy)]
pub enum Unlawful {
    Item(usize),
    Entry(usize),
}

/// The first item that does not hold, or behind all of them the first entry that none stored. There
/// is none exactly where the items hold one after the other and store all entries. A service begins
/// with `start`, and `entries` are those of its run.
///
/// It is n log n for what stood before. A call takes the time that it took when it was served, a
/// commit that of what its transaction read and wrote, and each item the logarithm of the sessions
/// and of the identifiers besides. A call that met a block is tried with new values as `meets_with`
/// tells, up to the first that meet.
pub fn first_unlawful<'a>(
    alloc: Global,
    start: Start<'a>,
    entries: &'a [Entry],
    items: &[Item<'a>],
) -> Result<Option<Unlawful>, NoMemory>
    ensures { IfOk result (λ one. (base : Base) → IsStart base start.entry
        → is_none one ≡ items_hold base (walk_of base entries.now) (map item_as items.entry.now)) }
{
    let mut walker = Walker::new(alloc, start, entries)?;
    for (at, item) in items.iter().enumerate() {
        if !walker.step(item)? {
            return Ok(Some(Unlawful::Item(at)));
        }
    }
    if walker.is_done() {
        return Ok(None);
    }
    Ok(Some(Unlawful::Entry(walker.stored())))
}
