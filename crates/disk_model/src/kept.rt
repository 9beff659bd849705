//! The writes that a disk in memory keeps, each with the bytes that it covered, so that it can be
//! undone.
ghost use Rattle.std.specs.Prelude.{◌≡◌, ◌+◌, ◌-◌, ◌%◌, ◌^◌, ◌≤◌, ◌<◌, ℕ, length, OnOk, OnErr, slice_index};
ghost use Rattle.disk_model.specs.Moment.{with_bytes};
ghost use Rattle.disk_model.specs.Log.{bytes_before};
ghost use Rattle.disk_model.specs.InnerLog.{with_sync, Covers, Logged};

use std::alloc::{AllocError, Global};
use std::cmp::min;

/// A write of `len` bytes at the offset `at`.
#[derive(Drop)]
pub struct KeptWrite {
    pub at: usize,
    pub len: usize,
    /// What stood there before, fewer bytes than `len` where the write went past the end.
    pub covered: Vec<u8>,
    /// Whether a sync followed before the next write.
    pub synced: bool,
}

// Makes room for so many bytes, and for as many behind them if it can: a write behind a long one
// then moves nothing. What is not written to takes no page.
fn make_room(bytes: &mut Vec<u8>, added: usize) -> Result<(), AllocError>
    ensures { bytes.new.items ≡ bytes.old.items }
{
    match bytes.reserve(added.saturating_mul(2)) {
        Ok(()) => Ok(()),
        Err(_) => bytes.reserve(added),
    }
}

// Writes, and keeps what the write covered. It takes its memory before it changes anything.
pub fn put(
    alloc: Global,
    bytes: &mut Vec<u8>,
    log: &mut Vec<KeptWrite>,
    at: usize,
    new: &[u8],
) -> Result<(), AllocError>
    requires at { at ≤ length bytes.old.items }
    requires room { at + length new.now ≤ 2 ^ 62 }
    ensures written { OnOk result (bytes.new.items ≡ with_bytes at new.now bytes.old.items) }
    ensures logged { OnOk result (Logged at (length new.now) bytes.old.items bytes.new.items
        log.old.items log.new.items) }
    ensures same { OnErr result (bytes.new.items ≡ bytes.old.items) }
    ensures same_log { OnErr result (log.new.items ≡ log.old.items) }
{
    let size = bytes.len();
    let overlap = min(new.len(), size - at);
    let covered = bytes[at..at + overlap].to_vec(alloc)?;
    make_room(bytes, new.len() - overlap)?;
    bytes.extend_from_slice(&new[overlap..])?;
    let entry = KeptWrite {
        at,
        len: new.len(),
        covered,
        synced: false,
    };
    if log.push(entry).is_err() {
        bytes.truncate(size);
        return Err(AllocError);
    }
    overwrite(bytes, at, &new[..overlap]);
    Ok(())
}

// Notes that a sync followed the last write.
pub fn mark(log: &mut Vec<KeptWrite>)
    ensures { log.new.items ≡ with_sync log.old.items }
{
    let count = log.len();
    if count > 0 {
        log[count - 1].synced = true;
    }
}

// Puts the bytes back that a write covered.
pub fn undo(bytes: &mut Vec<u8>, write: &KeptWrite)
    requires { Covers write.now bytes.old.items }
    ensures { bytes.new.items ≡ bytes_before write.now bytes.old.items }
{
    overwrite(bytes, write.at, &write.covered);
    if write.covered.len() < write.len {
        bytes.truncate(write.at + write.covered.len());
    }
}

// Puts the bytes back that a write covered, but at odd offsets alone, and 0 where it covered none.
pub fn undo_odd(bytes: &mut Vec<u8>, write: &KeptWrite)
    requires { write.now.at + write.now.len ≤ length bytes.old.items }
    ensures long { length bytes.new.items ≡ length bytes.old.items }
    ensures inside { (k : ℕ) → write.now.at ≤ k → k < write.now.at + write.now.len → k % 2 ≡ 1
        → slice_index bytes.new.items k ≡ slice_index write.now.covered.items (k - write.now.at) }
    ensures outside { (k : ℕ) → ((write.now.at ≤ k) × (k < write.now.at + write.now.len)
        × (k % 2 ≡ 1) → ⊥) → slice_index bytes.new.items k ≡ slice_index bytes.old.items k }
{
    for offset in write.at..write.at + write.len {
        if offset % 2 == 1 {
            bytes[offset] = if offset - write.at < write.covered.len() {
                write.covered[offset - write.at]
            } else {
                0
            };
        }
    }
}

// Makes each byte of a write 255.
pub fn fill_ones(bytes: &mut Vec<u8>, write: &KeptWrite)
    requires { write.now.at + write.now.len ≤ length bytes.old.items }
    ensures long { length bytes.new.items ≡ length bytes.old.items }
    ensures inside { (k : ℕ) → write.now.at ≤ k → k < write.now.at + write.now.len
        → slice_index bytes.new.items k ≡ 255 }
    ensures outside { (k : ℕ) → ((write.now.at ≤ k) × (k < write.now.at + write.now.len) → ⊥)
        → slice_index bytes.new.items k ≡ slice_index bytes.old.items k }
{
    for offset in write.at..write.at + write.len {
        bytes[offset] = 255;
    }
}

fn overwrite(bytes: &mut [u8], at: usize, new: &[u8])
    requires { at + length new.now ≤ length bytes.old }
    ensures { bytes.new ≡ with_bytes at new.now bytes.old }
{
    bytes[at..at + new.len()].copy_from_slice(new);
}
