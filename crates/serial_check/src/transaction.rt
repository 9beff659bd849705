//! Where the pieces of an entry lead, run again.
ghost use Rattle.std.specs.Prelude.{IfOk};
ghost use Rattle.table_txn.specs.Transactions.{shape_of};
ghost use Rattle.serial_check.specs.meaning.Places.{pieces_course};
ghost use Rattle.serial_check.specs.Replaying.{HasCourse};

use crate::again::goes_on;
use crate::place;
use calls_again::Going;
use json_form::Pointer;
use std::alloc::Global;
use svc_values::{Names, NoMemory, Piece, Settings, TryCopy, Writes};
use table_store::Tables;

/// What an entry's pieces come to: what they wrote, or the place where they are no transaction.
#[derive(Drop)]
pub(crate) enum Ended {
    Whole { writes: Writes },
    Failed { place: Pointer },
}

/// Runs the pieces of entry `n` again, one after the other. They are no transaction at the first
/// piece that is not answered as it stands, that commits and is not the last, or is the last and
/// does not commit; and at the entry itself where it has no piece.
pub(crate) fn run_again(
    alloc: Global,
    tables: &Tables,
    names: &Names,
    n: usize,
    settings: &Settings,
    pieces: &[Piece],
) -> Result<Ended, NoMemory>
    ensures { IfOk result
        (HasCourse tables.now
        (pieces_course (shape_of tables.now names.now) tables.now.rows settings.now n 0
        pieces.now)) }
{
    if pieces.is_empty() {
        return Ok(Ended::Failed {
            place: place::entry(alloc, n)?,
        });
    }
    let settings = settings.copy(alloc)?;
    let mut going = Going::new(alloc, settings);
    for (p, piece) in pieces.iter().enumerate() {
        let is_last = p + 1 == pieces.len();
        if !goes_on(&mut going, alloc, tables, names, piece, is_last)? {
            return Ok(Ended::Failed {
                place: place::piece(alloc, n, p)?,
            });
        }
    }
    Ok(Ended::Whole {
        writes: going.end(alloc),
    })
}
