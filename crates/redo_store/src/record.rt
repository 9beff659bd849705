//! A record's bytes, written and read.
ghost use Rattle.std.specs.Prelude.{◌≡◌, ◌+◌, ◌≤◌, ◌<◌, ◌^◌, ◌++◌, ◌∷◌, [], ℕ, length, take, drop, OnOk, IfOk, IsErrOf, Err, MatchOption};
ghost use Rattle.disk_model.specs.Disk.{OnlyReads};
ghost use Rattle.redo_store.specs.meaning.Records.{magic, length_of, records_from, whole_from};
ghost use Rattle.redo_store.specs.Records.{length_bytes, payload_in};
ghost use Rattle.redo_store.specs.Gate.{HasRecord, HasClosedGate};

use crate::fault::RedoFault;
use disk_model::Disk;
use std::alloc::{AllocError, Global};

/// What a store's bytes begin with.
pub const MAGIC: [u8; 8] = *b"TGSTORE1";

/// The gate in front of a record that counts.
pub const OPEN: u8 = 1;

/// The gate behind the last record.
pub const CLOSED: u8 = 0;

/// How many bytes of a payload one call reads, at most.
const PIECE: usize = 4096;

/// How many bytes a payload has, at most, that one call reads without clearing a whole piece.
const SHORT: usize = 256;

/// How many bytes a record has beside its payload: its gate and its length.
pub const HEAD: u64 = 9;

// The payload in memory in which its record is to be made: behind eight bytes, and with room for a
// closed gate.
pub fn made_of(alloc: Global, payload: &[u8]) -> Result<Vec<u8>, AllocError>
    ensures payload { IfOk result (λ made. payload_in made.items ≡ payload.now) }
    ensures room { IfOk result (λ made. 8 ≤ length made.items) }
{
    let mut made = Vec::with_capacity(alloc, payload.len() + 9)?;
    made.extend_from_slice(&[0; 8])?;
    made.extend_from_slice(payload)?;
    Ok(made)
}

// What is written behind a closed gate: the length, the payload and the next closed gate. It is
// made where the payload stands, behind the eight bytes that become the length.
#[tactic(auto, unfolding(crate::specs::Records::length_bytes))]
pub fn body_of(mut made: Vec<u8>) -> Result<Vec<u8>, AllocError>
    requires room { 8 ≤ length made.items }
    ensures body { IfOk result (λ body. body.items ≡ length_bytes (length (payload_in made.items))
        ++ payload_in made.items ++ 0 ∷ []) }
    ensures short { OnOk result (length (payload_in made.items) < 2 ^ 64) }
{
    let spelling = (made.len() as u64 - 8).to_be_bytes();
    made.slice_mut(..8).copy_from_slice(&spelling);
    made.push(CLOSED)?;
    Ok(made)
}

// The length that eight bytes spell.
#[tactic(auto, unfolding(crate::specs::meaning::Records::length_of))]
fn length_in(spelling: &[u8; 8]) -> u64
    ensures length { result ≡ length_of spelling.now }
    ensures spelling { length_bytes result ≡ spelling.now }
{
    u64::from_be_bytes(*spelling)
}

// Reads what the bytes begin with.
pub fn check_magic<D: Disk>(disk: &mut D) -> Result<(), RedoFault>
    ensures magic { OnOk result (take 8 (D.state disk.old).now.seen ≡ magic) }
    ensures damaged { (place : ℕ) → IsErrOf result (RedoFault.Damaged place)
        → (place ≡ 0) × (take 8 (D.state disk.old).now.seen ≡ magic → ⊥) }
    ensures no_memory { IsErrOf result RedoFault.NoMemory → ⊥ }
    ensures only_reads { OnlyReads (IsErrOf result RedoFault.Stopped) (D.state disk.old)
        (D.state disk.new) }
{
    let mut front = [0; 8];
    if disk.size() < 8 {
        return Err(RedoFault::Damaged(0));
    }
    disk.read(0, &mut front)?;
    if front != MAGIC {
        return Err(RedoFault::Damaged(0));
    }
    Ok(())
}

// Reads the payload of the record whose gate stands at the place, or none where that gate is
// closed.
//
// A length is believed only once as many bytes are there, so no memory is taken by a length that a
// damaged store claims.
pub fn payload_at<D: Disk>(
    alloc: Global,
    disk: &mut D,
    place: u64,
) -> Result<Option<Vec<u8>>, RedoFault>
    ensures found { IfOk result (λ found. MatchOption found
        (HasClosedGate place (D.state disk.old).now.seen)
        (λ payload. HasRecord place payload.items (D.state disk.old).now.seen)) }
    ensures damaged { (at : ℕ) → IsErrOf result (RedoFault.Damaged at)
        → (at ≡ place) × (records_from place 0 (drop place (D.state disk.old).now.seen) ≡ Err place)
        × (whole_from 0 (drop place (D.state disk.old).now.seen) ≡ []) }
    ensures only_reads { OnlyReads (IsErrOf result RedoFault.Stopped) (D.state disk.old)
        (D.state disk.new) }
{
    let rest = disk.size().saturating_sub(place);
    if rest == 0 {
        return Err(RedoFault::Damaged(place));
    }
    let mut gate = [0];
    disk.read(place, &mut gate)?;
    if gate[0] != OPEN {
        return Ok(None);
    }
    if rest <= HEAD {
        return Err(RedoFault::Damaged(place));
    }
    let mut spelling = [0; 8];
    disk.read(place + 1, &mut spelling)?;
    let count = length_in(&spelling);
    if count >= rest - HEAD {
        return Err(RedoFault::Damaged(place));
    }
    let payload = read_pieces(alloc, disk, place + HEAD, count as usize)?;
    Ok(Some(payload))
}

// Reads so many bytes, at most `SHORT`, from the place on, in one call.
fn read_short<D: Disk>(
    alloc: Global,
    disk: &mut D,
    place: u64,
    count: usize,
) -> Result<Vec<u8>, RedoFault>
    requires within { place + count ≤ length (D.state disk.old).now.seen }
    requires short { count ≤ 256 }
    ensures bytes { IfOk result (λ bytes.
        bytes.items ≡ take count (drop place (D.state disk.old).now.seen)) }
    ensures whole { (at : ℕ) → IsErrOf result (RedoFault.Damaged at) → ⊥ }
    ensures only_reads { OnlyReads (IsErrOf result RedoFault.Stopped) (D.state disk.old)
        (D.state disk.new) }
{
    let mut piece = [0; SHORT];
    let part = &mut piece[..count];
    disk.read(place, part)?;
    Ok(part.to_vec(alloc)?)
}

// Reads so many bytes from the place on, in calls of at most `PIECE` bytes each.
//
// The memory for them is taken at once, and each byte is written there once. A short record, as
// most are, does not have the bytes of a whole piece cleared for it.
fn read_pieces<D: Disk>(
    alloc: Global,
    disk: &mut D,
    place: u64,
    count: usize,
) -> Result<Vec<u8>, RedoFault>
    requires within { place + count ≤ length (D.state disk.old).now.seen }
    ensures bytes { IfOk result (λ bytes.
        bytes.items ≡ take count (drop place (D.state disk.old).now.seen)) }
    ensures whole { (at : ℕ) → IsErrOf result (RedoFault.Damaged at) → ⊥ }
    ensures only_reads { OnlyReads (IsErrOf result RedoFault.Stopped) (D.state disk.old)
        (D.state disk.new) }
{
    if 0 < count && count <= SHORT {
        return read_short(alloc, disk, place, count);
    }
    let mut bytes = Vec::with_capacity(alloc, count)?;
    let mut piece = [0; PIECE];
    while bytes.len() < count {
        let size = PIECE.min(count - bytes.len());
        let part = &mut piece[..size];
        disk.read(place + bytes.len() as u64, part)?;
        bytes.extend_from_slice(part)?;
    }
    Ok(bytes)
}
