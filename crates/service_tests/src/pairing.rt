//! A pair of stores that is tried as a service: two disks in memory, on which it begins.
ghost use Rattle.std.specs.Prelude.{◌≡◌};
ghost use Rattle.disk_model.specs.Disk.{IsSettled, new_disk};
ghost use Rattle.disk_model.specs.Log.{is_nil};
ghost use Rattle.disk_model.specs.Mem.{mem_state};

use crate::bench::{ALL, Bench, read};
use crate::images::SHOP;
use disk_model::MemDisk;
use standby_ship::Pair;
use std::alloc::Global;
use std::process::Abort;

/// A disk with these bytes, which fails in the calls with these numbers.
fn disk(rt: &impl Abort, alloc: Global, bytes: &[u8], failing: &[u64]) -> MemDisk
    ensures state { mem_state result ≡ record (new_disk bytes.now) { quiet = is_nil failing.now } }
    ensures settled { IsSettled (mem_state result) }
{
    let mut disk = MemDisk::of(alloc, bytes).expect(rt, "a disk");
    disk.fail(failing).expect(rt, "numbers of calls");
    disk
}

/// A pair on two stores with the bytes of the shop, which is down. The first disk fails in the
/// calls with the numbers `first`, and the second in those with the numbers `second`.
pub fn paired(
    rt: &impl Abort,
    alloc: Global,
    first: &[u64],
    second: &[u64],
) -> Bench<Pair<MemDisk>> {
    let journal = read(rt, alloc, &SHOP).expect(rt, "a store");
    assert!(rt; journal.incarnation < 1 << 62);
    let first = disk(rt, alloc, &SHOP, first);
    let second = disk(rt, alloc, &SHOP, second);
    Bench::new(alloc, Pair::new(alloc, first, second, ALL))
}

/// A pair on two such stores, opened with the horizon 0.
pub fn pair(rt: &impl Abort, alloc: Global) -> Bench<Pair<MemDisk>> {
    let mut bench = paired(rt, alloc, &[], &[]);
    assert!(rt; bench.up(rt, 0));
    bench
}
