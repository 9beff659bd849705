//! Openings that are stopped.
ghost use Rattle.std.specs.Prelude.{◌<◌};
ghost use Rattle.disk_model.specs.Disk.{IsSettled};
ghost use Rattle.disk_model.specs.Mem.{mem_state};

use crate::opening::{no_tables, open_with};
use commit_log::Log;
use disk_model::{MemDisk, StopDisk};
use std::alloc::Global;
use std::process::Abort;

/// A disk with a store that was opened once.
fn opened_once(rt: &impl Abort, alloc: Global) -> MemDisk
    ensures { IsSettled (mem_state result) }
{
    let mut disk = MemDisk::new(alloc);
    Log::create(alloc, &mut disk, &no_tables(alloc)).expect(rt, "a store");
    Log::open(alloc, &mut disk, 0).expect(rt, "a store");
    disk
}

/// The last opening and the horizon of a store after its second opening, with the horizon 2, which
/// is stopped after so many writes and syncs and then crashed.
fn opened_by(rt: &impl Abort, alloc: Global, stop: u64, pick: u8) -> (u64, u64)
    requires { pick < 4 }
{
    let mut disk = opened_once(rt, alloc);
    disk.stop_after(Some(stop));
    // It is stopped before its end, or else done: what is left is looked at.
    let _ = open_with(alloc, &mut disk, 2);
    disk.crash(pick);
    let journal = Log::read(alloc, &mut disk).expect(rt, "a journal");
    (journal.incarnation, journal.horizon)
}

const NONE: (u64, u64) = (1, 0);

const FIRST: (u64, u64) = (1, 2);

const BOTH: (u64, u64) = (2, 2);

#[test]
fn a_stop_in_each_call_of_an_opening(rt: HostRuntime) {
    for (stop, left) in [
        (0, [NONE, NONE, NONE, NONE]),
        (1, [NONE, NONE, NONE, NONE]),
        (2, [NONE, NONE, NONE, NONE]),
        (3, [FIRST, NONE, FIRST, NONE]),
        (4, [FIRST, FIRST, FIRST, FIRST]),
        (5, [FIRST, FIRST, FIRST, FIRST]),
        (6, [FIRST, FIRST, FIRST, FIRST]),
        (7, [BOTH, FIRST, BOTH, FIRST]),
        (8, [BOTH, BOTH, BOTH, BOTH]),
    ] {
        for pick in 0..4 {
            assert_eq!(rt;
                opened_by(&rt, rt.alloc(), stop, pick),
                left[pick as usize],
                "stop {stop}, pick {pick}"
            );
        }
    }
}
