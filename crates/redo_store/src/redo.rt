//! The store.
ghost use Rattle.std.specs.Prelude.{◌≡◌, ◌+◌, ◌≤◌, ◌<◌, ◌++◌, ◌∷◌, [], ℕ, List, length, OnOk, IfOk, IsErrOf, Ok, Err, map, false, true, MatchOption, IfSome, IfNone};
ghost use Rattle.disk_model.specs.Moment.{Torn, with_bytes};
ghost use Rattle.disk_model.specs.Disk.{Meanwhile, IsSettled, Lowers, Caused, OnlyReads};
ghost use Rattle.redo_store.specs.meaning.Records.{magic, records_of, whole_records};
ghost use Rattle.redo_store.specs.Records.{payload_in, with_last};
ghost use Rattle.redo_store.specs.Store.{IsOldOrNew};

use crate::fault::RedoFault;
use crate::record::{HEAD, OPEN, body_of, made_of, payload_at};
use crate::walk::Walk;
use disk_model::{Disk, DiskFault};
use std::alloc::Global;

/// An open store. It holds the place of the closed gate behind the last record and the number of
/// records, and no record.
#[derive(Drop)]
pub struct Redo {
    alloc: Global,
    tail: u64,
    count: u64,
    live: bool,
}

impl Redo {
    ghost use Rattle.redo_store.specs.Redo.{is_live, count_of, tail_of, CanAppend, StoreGoesOn};
    ghost use Rattle.redo_store.specs.Gate.{HasRecord, HasClosedGate};
    ghost use Rattle.redo_store.specs.Walk.{StandsBehind, KeepsFront};

    /// Whether a record may be added. After `Stopped` it may not, and the store is to be opened
    /// again.
    pub fn is_live(&self) -> bool
        ensures { result ≡ is_live self.now }
    {
        self.live
    }

    /// How many records the store has. After `Stopped` that is the number before the call that was
    /// stopped.
    pub fn count(&self) -> u64
        ensures { result ≡ count_of self.now }
    {
        self.count
    }

    /// The place of the closed gate behind the last record, as an offset in bytes. After `Stopped`
    /// that is the one before the call that was stopped.
    pub fn tail(&self) -> u64
        ensures { result ≡ tail_of self.now }
    {
        self.tail
    }

    /// Makes a store without a record on an empty disk, in two device calls.
    ///
    /// Nothing is claimed of a crash before it has answered `Ok`. After `Stopped` the disk may hold
    /// any part of it.
    pub fn create<D: Disk>(disk: &mut D) -> Result<(), RedoFault>
        requires { (D.state disk.old).now.seen ≡ [] }
        ensures bytes { OnOk result ((D.state disk.new).now.seen ≡ magic ++ 0 ∷ []) }
        ensures empty { OnOk result (records_of (D.state disk.new).now.seen ≡ Ok []) }
        ensures settled { OnOk result (IsSettled (D.state disk.new)) }
        ensures refused { IsErrOf result RedoFault.NoMemory → D.state disk.new ≡ D.state disk.old }
        ensures stop { Lowers 2 result (D.state disk.old).stop (D.state disk.new).stop }
        ensures cause { Caused (IsErrOf result RedoFault.Stopped) (D.state disk.old)
            (D.state disk.new) }
        ensures whole { (place : ℕ) → IsErrOf result (RedoFault.Damaged place) → ⊥ }
    {
        write_durably(disk, 0, b"TGSTORE1\0")?;
        Ok(())
    }

    /// Reads the payloads of all records, in order, and gives the store to go on with.
    ///
    /// It reads each record once, in calls of at most 4,096 bytes, and keeps nothing of the disk
    /// but the payloads: time and memory grow with the size of the records alone.
    pub fn open<D: Disk>(alloc: Global, disk: &mut D) -> Result<(Redo, Vec<Vec<u8>>), RedoFault>
        ensures records { IfOk result (λ opened. records_of (D.state disk.old).now.seen
            ≡ Ok (map (λ payload. payload.items) opened.1.items)) }

        // The place is that of the first gate with no whole record behind it, by the grammar of the
        // bytes.
        ensures damaged { (place : ℕ) → IsErrOf result (RedoFault.Damaged place)
            → records_of (D.state disk.old).now.seen ≡ Err place }
        ensures ready { IsSettled (D.state disk.old)
            → IfOk result (λ opened. CanAppend opened.0 (D.state disk.new)) }
        ensures only_reads { OnlyReads (IsErrOf result RedoFault.Stopped) (D.state disk.old)
            (D.state disk.new) }
    {
        let mut walk = Walk::begin(alloc, disk)?;
        let records = walk.rest(disk)?;
        let redo = walk.finish();
        Ok((redo, records))
    }

    /// Reads the payload of the record whose gate stands at this offset, and tells the offset of
    /// the gate behind it; none where the gate is closed.
    ///
    /// It reads the gate, the length, and the payload in calls of at most 4,096 bytes. Time and
    /// memory grow with the payload alone. Where no gate of the disk's records stands at the
    /// offset, the byte there is taken for one.
    pub fn record_at<D: Disk>(
        alloc: Global,
        disk: &mut D,
        gate: u64,
    ) -> Result<Option<(Vec<u8>, u64)>, RedoFault>
        ensures found { IfOk result (λ found. MatchOption found
            (HasClosedGate gate (D.state disk.old).now.seen)
            (λ one. HasRecord gate one.0.items (D.state disk.old).now.seen
            × (one.1 ≡ gate + 9 + length one.0.items))) }

        // From the gate behind some records it comes to the one behind the next. At the closed one
        // they are all.
        ensures next { (done : List (List ℕ)) → StandsBehind gate done (D.state disk.old).now.seen
            → IfOk result (λ found. IfSome found (λ one.
            StandsBehind one.1 (done ++ one.0.items ∷ []) (D.state disk.old).now.seen)) }
        ensures end { (done : List (List ℕ)) → StandsBehind gate done (D.state disk.old).now.seen
            → IfOk result (λ found. IfNone found
            ((records_of (D.state disk.old).now.seen ≡ Ok done) × (whole_records (D.state disk.old).now.seen ≡ done))) }

        // A damage is that of this gate, which is open without a whole record and one more byte
        // behind it, or past the end. Where that is so, `found` lets no other answer be Ok.
        ensures damaged { (at : ℕ) → IsErrOf result (RedoFault.Damaged at) → at ≡ gate }
        ensures damage { (at : ℕ) → IsErrOf result (RedoFault.Damaged at)
            → (done : List (List ℕ)) → StandsBehind gate done (D.state disk.old).now.seen
            → (records_of (D.state disk.old).now.seen ≡ Err at)
            × (whole_records (D.state disk.old).now.seen ≡ done) }
        ensures only_reads { OnlyReads (IsErrOf result RedoFault.Stopped) (D.state disk.old)
            (D.state disk.new) }
    {
        let Some(payload) = payload_at(alloc, disk, gate)? else {
            return Ok(None);
        };
        let behind = gate + HEAD + payload.len() as u64;
        Ok(Some((payload, behind)))
    }

    // A store of which so many records end at this gate.
    pub(crate) fn behind(alloc: Global, tail: u64, count: u64) -> Redo
        ensures tail { result.tail ≡ tail }
        ensures count { count_of result ≡ count }
        ensures live { result.live ≡ true }
    {
        Redo {
            alloc,
            tail,
            count,
            live: true,
        }
    }

    /// Adds a record, in four device calls: its body, a sync, its gate, a sync.
    ///
    /// It takes the memory for the body before the first of them, into which the payload is copied,
    /// and touches no byte of the disk but those of the record.
    pub fn append<D: Disk>(&mut self, disk: &mut D, payload: &[u8]) -> Result<(), RedoFault>
        requires { CanAppend self.old (D.state disk.old) }

        // At Ok the record is there, last. For want of memory the records are as before.
        ensures added { OnOk result (records_of (D.state disk.new).now.seen
            ≡ with_last payload.now (records_of (D.state disk.old).now.seen)) }
        ensures refused { IsErrOf result RedoFault.NoMemory
            → records_of (D.state disk.new).now.seen ≡ records_of (D.state disk.old).now.seen }

        // A crash at any moment of the call leaves the old list of records, or this list with the
        // payload last. That the same is so of the time since it began, and of what a read gives
        // when it has ended, is `disk_model::laws::leaves`.
        ensures any_moment { Meanwhile (D.state disk.old) (D.state disk.new)
            (IsOldOrNew (D.state disk.old).now.seen payload.now) }

        // And it leaves the old records where they stood.
        ensures front { Meanwhile (D.state disk.old) (D.state disk.new)
            (KeepsFront (tail_of self.old) (D.state disk.old).now.seen) }

        // After Ok and NoMemory it goes on with its disk, where nothing is pending; after Stopped
        // it is to be opened again.
        ensures goes_on { StoreGoesOn result self.old self.new (D.state disk.new) }

        // It succeeds only with no stop or one of at least four; with either a quiet disk has no
        // fault.
        ensures stop { Lowers 4 result (D.state disk.old).stop (D.state disk.new).stop }
        ensures cause { Caused (IsErrOf result RedoFault.Stopped) (D.state disk.old)
            (D.state disk.new) }
    {
        let made = made_of(self.alloc, payload)?;
        self.append_made(disk, made)
    }

    /// Adds a record as `append` does, out of the memory in which it was made.
    ///
    /// The payload stands there behind eight bytes, in whose place its length is written. So it is
    /// in memory once, and is copied to the disk alone; only a vector that is full may be copied,
    /// for the closed gate behind the payload.
    pub fn append_made<D: Disk>(&mut self, disk: &mut D, made: Vec<u8>) -> Result<(), RedoFault>
        requires room { 8 ≤ length made.items }
        requires ready { CanAppend self.old (D.state disk.old) }

        // At Ok the record is there, last. For want of memory the records are as before.
        ensures added { OnOk result (records_of (D.state disk.new).now.seen
            ≡ with_last (payload_in made.items) (records_of (D.state disk.old).now.seen)) }
        ensures refused { IsErrOf result RedoFault.NoMemory
            → records_of (D.state disk.new).now.seen ≡ records_of (D.state disk.old).now.seen }

        // A crash at any moment of the call leaves the old list of records, or this list with the
        // payload last. That the same is so of the time since it began, and of what a read gives
        // when it has ended, is `disk_model::laws::leaves`.
        ensures any_moment { Meanwhile (D.state disk.old) (D.state disk.new)
            (IsOldOrNew (D.state disk.old).now.seen (payload_in made.items)) }

        // And it leaves the old records where they stood.
        ensures front { Meanwhile (D.state disk.old) (D.state disk.new)
            (KeepsFront (tail_of self.old) (D.state disk.old).now.seen) }

        // After Ok and NoMemory it goes on with its disk, where nothing is pending; after Stopped
        // it is to be opened again.
        ensures goes_on { StoreGoesOn result self.old self.new (D.state disk.new) }

        // It succeeds only with no stop or one of at least four; with either a quiet disk has no
        // fault.
        ensures stop { Lowers 4 result (D.state disk.old).stop (D.state disk.new).stop }
        ensures cause { Caused (IsErrOf result RedoFault.Stopped) (D.state disk.old)
            (D.state disk.new) }
    {
        let body = body_of(made)?;
        if let Err(fault) = write_durably(disk, self.tail + 1, &body) {
            return Err(self.refusal(fault));
        }
        if let Err(fault) = write_durably(disk, self.tail, &[OPEN]) {
            return Err(self.refusal(fault));
        }
        self.tail += body.len() as u64;
        self.count += 1;
        Ok(())
    }

    // What the store answers where the disk refused it. After a failure it may not be added to.
    fn refusal(&mut self, fault: DiskFault) -> RedoFault
        ensures stopped { fault ≡ DiskFault.Failed → (result ≡ RedoFault.Stopped)
            × (self.new.live ≡ false) }
        ensures no_memory { fault ≡ DiskFault.NoMemory → (result ≡ RedoFault.NoMemory)
            × (self.new.live ≡ self.old.live) }
        ensures tail { self.new.tail ≡ self.old.tail }
        ensures count { self.new.count ≡ self.old.count }
    {
        if fault == DiskFault::Failed {
            self.live = false;
        }
        fault.into()
    }
}

// Writes, and makes it durable, in two device calls.
fn write_durably<D: Disk>(disk: &mut D, at: u64, bytes: &[u8]) -> Result<(), DiskFault>
    requires at { at ≤ length (D.state disk.old).now.seen }
    requires settled { IsSettled (D.state disk.old) }
    ensures written { OnOk result ((D.state disk.new).now.seen
        ≡ with_bytes at bytes.now (D.state disk.old).now.seen) }
    ensures durable { OnOk result (IsSettled (D.state disk.new)) }
    ensures refused { IsErrOf result DiskFault.NoMemory → D.state disk.new ≡ D.state disk.old }
    ensures meanwhile { Meanwhile (D.state disk.old) (D.state disk.new)
        (Torn at (length bytes.now) (D.state disk.old).now.seen) }
    ensures stop { Lowers 2 result (D.state disk.old).stop (D.state disk.new).stop }
    ensures cause { Caused (IsErrOf result DiskFault.Failed) (D.state disk.old) (D.state disk.new) }
{
    disk.write_at(at, bytes)?;
    disk.sync()
}
