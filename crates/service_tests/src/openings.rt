//! Openings: the bytes that they leave, and stores that are damaged.

use crate::bench::{NONE, over};
use crate::images::{EMPTY, EMPTY_OPENED, OLD, OLD_OPENED};
use crate::steps::Step::{self, Asks, FailsToJoin, HasBytes, IsOpening, IsUp, Joins, Opens};
use crate::steps::go;
use std::alloc::Global;
use std::process::Abort;

/// Has a service on the store with these bytes go through a script.
fn play_over(rt: &impl Abort, alloc: Global, bytes: &[u8], steps: &[Step]) {
    let mut bench = over(rt, alloc, bytes, NONE).expect(rt, "a store");
    go(rt, &mut bench, (0, 0), steps);
}

const OPENED_ONCE: &[Step] = &[
    IsUp(false),
    FailsToJoin(1),
    HasBytes(&EMPTY),
    Opens(0),
    HasBytes(&EMPTY_OPENED),
    Joins(1),
];

#[test]
fn the_bytes_of_a_store_opened_once(rt: HostRuntime) {
    play_over(&rt, rt.alloc(), &EMPTY, OPENED_ONCE);
}

const OPENED_AGAIN: &[Step] = &[
    Opens(0),
    HasBytes(&OLD_OPENED),
    IsOpening(2),
    Asks((1, 1, 0), "committed false, completed false"),
];

#[test]
fn a_store_without_a_horizon_gets_one(rt: HostRuntime) {
    play_over(&rt, rt.alloc(), &OLD, OPENED_AGAIN);
}

/// A byte of the store of format 1 that is changed, and the place of the damage: in the magic, in
/// the kind of the base, in the number of the second record's bytes, in its kind, and the gate at
/// the end.
const CHANGES: [(usize, u8, u64); 5] = [
    (0, 0, 0),
    (17, 9, 8),
    (42, 255, 34),
    (43, 9, 34),
    (52, 1, 52),
];

/// The place of the damage in the store of format 1, where this byte is changed.
fn damage(rt: &impl Abort, alloc: Global, at: usize, byte: u8) -> Option<u64> {
    let mut bytes = OLD;
    if let Some(one) = bytes.get_mut(at) {
        *one = byte;
    }
    over(rt, alloc, &bytes, NONE).err()
}

#[test]
fn a_store_with_a_changed_byte_is_damaged(rt: HostRuntime) {
    for (at, byte, place) in CHANGES {
        let told = damage(&rt, rt.alloc(), at, byte);
        assert_eq!(rt; told, Some(place), "at {at}");
    }
}
