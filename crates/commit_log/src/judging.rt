//! The records of a store, read and judged in the order of its bytes.
ghost use Rattle.std.specs.Prelude.{◌≡◌, ℕ, [], OnOk, IfOk, IsErrOf, Ok, Err};
ghost use Rattle.disk_model.specs.Disk.{IsSettled, OnlyReads};
ghost use Rattle.redo_store.specs.Redo.{CanAppend};
ghost use Rattle.redo_store.specs.Walk.{HasRead};
ghost use Rattle.commit_log.specs.meaning.Journals.{so_far_of, journal_of};
ghost use Rattle.commit_log.specs.Judging.{so_far_in, Keeps, HasJudged, HasJudgedAll};

use crate::judge::Judge;
use disk_model::Disk;
use redo_store::{Redo, RedoFault, Walk};
use std::alloc::Global;

// Reads the first record, and judges it.
fn begun<D: Disk>(alloc: Global, disk: &mut D, walk: &mut Walk) -> Result<Judge, RedoFault>
    requires { HasRead walk.old [] (D.state disk.old).now.seen }
    ensures judged { IfOk result (λ judge. HasJudged judge walk.new (D.state disk.old).now.seen) }
    ensures damaged { (place : ℕ) → IsErrOf result (RedoFault.Damaged place)
        → journal_of (D.state disk.old).now.seen ≡ Err place }
    ensures only_reads { OnlyReads (IsErrOf result RedoFault.Stopped) (D.state disk.old)
        (D.state disk.new) }
{
    let place = walk.place();
    let Some(payload) = walk.next(disk)? else {
        return Err(RedoFault::Damaged(place));
    };
    match Judge::begin(alloc, &payload) {
        Ok(judge) => Ok(judge),
        Err(misfit) => Err(misfit.at(place)),
    }
}

// Reads the other records and judges each before the next is read.
fn judge_rest<D: Disk>(
    alloc: Global,
    disk: &mut D,
    walk: &mut Walk,
    judge: &mut Judge,
) -> Result<(), RedoFault>
    requires { HasJudged judge.old walk.old (D.state disk.old).now.seen }
    ensures judged { OnOk result (HasJudgedAll judge.new walk.new (D.state disk.old).now.seen) }
    ensures damaged { (place : ℕ) → IsErrOf result (RedoFault.Damaged place)
        → journal_of (D.state disk.old).now.seen ≡ Err place }
    ensures only_reads { OnlyReads (IsErrOf result RedoFault.Stopped) (D.state disk.old)
        (D.state disk.new) }
{
    let mut place = walk.place();
    while let Some(payload) = walk.next(disk)? {
        if let Err(misfit) = judge.take(alloc, &payload) {
            return Err(misfit.at(place));
        }
        place = walk.place();
    }
    Ok(())
}

// Reads all records and judges them. It keeps nothing but the journal, and reads each record once.
pub fn judge_all<D: Disk>(alloc: Global, disk: &mut D) -> Result<(Redo, Judge), RedoFault>
    ensures judged { IfOk result (λ read. so_far_of (D.state disk.old).now.seen
        ≡ Ok (so_far_in read.1)) }
    ensures kept { IfOk result (λ read. Keeps read.1) }
    ensures damaged { (place : ℕ) → IsErrOf result (RedoFault.Damaged place)
        → journal_of (D.state disk.old).now.seen ≡ Err place }
    ensures ready { IsSettled (D.state disk.old)
        → IfOk result (λ read. CanAppend read.0 (D.state disk.new)) }
    ensures only_reads { OnlyReads (IsErrOf result RedoFault.Stopped) (D.state disk.old)
        (D.state disk.new) }
{
    let mut walk = Walk::begin(alloc, disk)?;
    let mut judge = begun(alloc, disk, &mut walk)?;
    judge_rest(alloc, disk, &mut walk, &mut judge)?;
    Ok((walk.finish(), judge))
}
