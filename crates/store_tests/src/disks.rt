//! A disk in memory: that calls succeed, the images that the picks leave, byte for byte, and
//! stops.
ghost use Rattle.std.specs.Prelude.{◌<◌};

use disk_model::{Disk, DiskFault, MemDisk, StopDisk};
use std::alloc::Global;
use std::process::Abort;

// The bytes after a crash with this pick of a disk of which a write past the end is pending.
fn left_past_the_end(rt: &impl Abort, alloc: Global, pick: u8) -> MemDisk
    requires { pick < 4 }
{
    let mut disk = MemDisk::of(alloc, &[1, 2, 3, 4]).expect(rt, "memory");
    disk.write_at(2, &[0x10, 0x11, 0x12, 0x13])
        .expect(rt, "a write");
    disk.crash(pick);
    disk
}

// The same of one with a write that was synced, and behind it two that overlap.
fn left_after_a_sync(rt: &impl Abort, alloc: Global, pick: u8) -> MemDisk
    requires { pick < 4 }
{
    let mut disk = MemDisk::of(alloc, &[1, 2, 3, 4]).expect(rt, "memory");
    disk.write_at(0, &[5]).expect(rt, "a write");
    disk.sync().expect(rt, "a sync");
    disk.write_at(1, &[6, 7]).expect(rt, "a write");
    disk.write_at(2, &[8, 9]).expect(rt, "a write");
    disk.crash(pick);
    disk
}

// What each pick leaves.
const PAST_THE_END: [&[u8]; 4] = [
    &[1, 2, 0x10, 0x11, 0x12, 0x13],
    &[1, 2, 3, 4],
    &[1, 2, 0x10, 4, 0x12, 0],
    &[1, 2, 255, 255, 255, 255],
];

const AFTER_A_SYNC: [&[u8]; 4] = [
    &[5, 6, 8, 9],
    &[5, 2, 3, 4],
    &[5, 2, 8, 4],
    &[5, 255, 255, 255],
];

#[test]
fn the_image_of_each_pick(rt: HostRuntime) {
    for pick in 0..4 {
        assert_eq!(rt;
            left_past_the_end(&rt, rt.alloc(), pick).bytes(),
            PAST_THE_END[pick as usize],
            "pick {pick}"
        );
        assert_eq!(rt;
            left_after_a_sync(&rt, rt.alloc(), pick).bytes(),
            AFTER_A_SYNC[pick as usize],
            "pick {pick}"
        );
    }
}

/// What a write of these bytes answers.
fn write(rt: &impl Abort, disk: &mut MemDisk, at: u64, bytes: &[u8]) -> Result<(), DiskFault> {
    assert!(rt; at <= disk.size());
    disk.write_at(at, bytes)
}

fn writes(rt: &impl Abort, disk: &mut MemDisk, at: u64, bytes: &[u8]) {
    write(rt, disk, at, bytes).expect(rt, "a write");
}

/// What a read from the start answers.
fn read(rt: &impl Abort, disk: &mut MemDisk, into: &mut [u8]) -> Result<(), DiskFault> {
    assert!(rt; into.len() as u64 <= disk.size());
    disk.read(0, into)
}

fn reads(rt: &impl Abort, disk: &mut MemDisk, into: &mut [u8]) {
    read(rt, disk, into).expect(rt, "a read");
}

fn fails(rt: &impl Abort, answer: Result<(), DiskFault>) {
    assert_eq!(rt; answer, Err(DiskFault::Failed));
}

#[test]
fn a_call_that_is_to_fail_changes_nothing(rt: HostRuntime) {
    let mut disk = MemDisk::new(rt.alloc());
    disk.fail(&[2, 3, 5]).expect(&rt, "memory");
    writes(&rt, &mut disk, 0, &[1, 2]);
    fails(&rt, write(&rt, &mut disk, 0, &[8, 9]));
    fails(&rt, disk.sync());
    assert_eq!(rt; disk.bytes(), [1, 2].as_slice());
    let mut front = [0; 2];
    reads(&rt, &mut disk, &mut front);
    assert_eq!(rt; front, [1, 2]);
    fails(&rt, read(&rt, &mut disk, &mut front));
    disk.crash(1);
    assert_eq!(rt; disk.bytes().len(), 0);
}

/// A disk whose stop let a write and a sync pass, with a read between them, and now lets no call
/// pass.
fn stopped(rt: &impl Abort, alloc: Global) -> MemDisk {
    let mut disk = MemDisk::new(alloc);
    let mut byte = [0];
    disk.stop_after(Some(2));
    writes(rt, &mut disk, 0, &[1]);
    reads(rt, &mut disk, &mut byte);
    assert_eq!(rt; disk.left(), Some(1));
    disk.sync().expect(rt, "a sync");
    assert_eq!(rt; disk.left(), Some(0));
    fails(rt, write(rt, &mut disk, 0, &[2]));
    fails(rt, disk.sync());
    fails(rt, read(rt, &mut disk, &mut byte));
    disk
}

#[test]
fn a_stop_lets_so_many_writes_and_syncs_pass(rt: HostRuntime) {
    let mut disk = stopped(&rt, rt.alloc());
    disk.crash(0);
    assert_eq!(rt; disk.left(), None);
    assert_eq!(rt; disk.bytes(), [1].as_slice());
    disk.stop_after(Some(0));
    fails(&rt, write(&rt, &mut disk, 0, &[2]));
    disk.stop_after(None);
    writes(&rt, &mut disk, 1, &[2]);
    assert_eq!(rt; disk.size(), 2);
}
