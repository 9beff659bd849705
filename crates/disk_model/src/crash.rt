//! The images that a disk in memory leaves where it crashes, one for each pick.
ghost use Rattle.std.specs.Prelude.{◌≡◌, ◌<◌, []};
ghost use Rattle.disk_model.specs.Moment.{MayLeave};
ghost use Rattle.disk_model.specs.Log.{now_of};
ghost use Rattle.disk_model.specs.InnerLog.{IsLog};
ghost use Rattle.disk_model.specs.Picks.{IsHalfNew, IsOnes, IsPicked};

use crate::kept::{KeptWrite, fill_ones, undo, undo_odd};

// Leaves the image that the pick names, and no write to be undone.
pub fn tear(bytes: &mut Vec<u8>, log: &mut Vec<KeptWrite>, pick: u8)
    requires pick { pick < 4 }
    requires fits { IsLog log.old.items bytes.old.items }
    ensures left { MayLeave (now_of log.old.items bytes.old.items) bytes.new.items }
    ensures picked { IsPicked pick (now_of log.old.items bytes.old.items) bytes.new.items }
    ensures none { log.new.items ≡ [] }
{
    match pick {
        0 => {}
        1 => back_to_sync(bytes, log),
        2 => half_back(bytes, log),
        _ => all_ones(bytes, log),
    }
    log.clear();
}

// What a read gave at the last sync.
fn back_to_sync(bytes: &mut Vec<u8>, log: &mut Vec<KeptWrite>)
    requires { IsLog log.old.items bytes.old.items }
    ensures { bytes.new.items ≡ (now_of log.old.items bytes.old.items).synced }
{
    while let Some(write) = log.pop() {
        if write.synced {
            break;
        }
        undo(bytes, &write);
    }
}

// The size now; at odd offsets what a read gave at the last sync, or 0.
fn half_back(bytes: &mut Vec<u8>, log: &mut Vec<KeptWrite>)
    requires { IsLog log.old.items bytes.old.items }
    ensures { IsHalfNew (now_of log.old.items bytes.old.items) bytes.new.items }
{
    while let Some(write) = log.pop() {
        if write.synced {
            break;
        }
        undo_odd(bytes, &write);
    }
}

// The size now; 255 wherever a write stands that no sync followed.
fn all_ones(bytes: &mut Vec<u8>, log: &mut Vec<KeptWrite>)
    requires { IsLog log.old.items bytes.old.items }
    ensures { IsOnes (now_of log.old.items bytes.old.items) bytes.new.items }
{
    while let Some(write) = log.pop() {
        if write.synced {
            break;
        }
        fill_ones(bytes, &write);
    }
}
