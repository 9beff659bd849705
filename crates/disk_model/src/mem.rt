//! A disk in memory. It keeps what each write covered, so that each moment since it was made or
//! last crashed can be read off it.
ghost use Rattle.std.specs.Prelude.{◌≡◌, ◌+◌, ◌-◌, ◌^◌, ◌<◌, ◌≤◌, ◌⊎◌, ◌↔◌, List, [], ℕ, Some, None, length, take, drop, min, OnOk, OnErr, IfOk, IsErrOf, IsTrue, IsFalse, Contains};
ghost use Rattle.disk_model.specs.Moment.{MayLeave, Torn, with_bytes, next_moment};
ghost use Rattle.disk_model.specs.Disk.{Lowered, Lowers, IsSettled, SameBytes, Meanwhile, Caused, OnlyReads, new_disk, with_fault};
ghost use Rattle.disk_model.specs.Log.{is_nil};
ghost use Rattle.disk_model.specs.InnerLog.{IsLog, is_prop_log};
ghost use Rattle.disk_model.specs.Picks.{IsPicked};

use crate::crash::tear;
use crate::disk::{Disk, DiskFault, StopDisk};
use crate::kept::{KeptWrite, mark, put};
use std::alloc::{AllocError, Global};

const MAX_SIZE: usize = 1 << 62;

/// A disk in memory, which fails and crashes as it is told to.
///
/// A call that fails changes nothing. Beside its bytes it keeps each write since it was made or
/// last crashed, with what the write covered, so its memory grows with the bytes written; a crash
/// gives that memory back.
#[derive(Drop)]
pub struct MemDisk {
    alloc: Global,
    bytes: Vec<u8>,
    log: Vec<KeptWrite>,
    failing: Vec<u64>,
    calls: u64,
    faults: u64,
    stop: Option<u64>,
    pick: Option<u8>,
    ghost small: { length bytes.items ≤ 2 ^ 62 },
    ghost fits: { IsLog log.items bytes.items } by { is_prop_log log.items bytes.items },
}

impl MemDisk {
    ghost use Rattle.disk_model.specs.Mem.{mem_state, calls_of, failing_of};

    /// An empty disk.
    pub fn new(alloc: Global) -> Self
        ensures state { mem_state result ≡ new_disk [] }
        ensures settled { IsSettled (mem_state result) }
        ensures calls { calls_of result ≡ 0 }
    {
        MemDisk::holding(alloc, Vec::new(alloc))
    }

    /// A disk with a copy of these bytes, all of them durable.
    pub fn of(alloc: Global, bytes: &[u8]) -> Result<Self, AllocError>
        ensures state { IfOk result (λ disk. mem_state disk ≡ new_disk bytes.now) }
        ensures settled { IfOk result (λ disk. IsSettled (mem_state disk)) }
        ensures calls { IfOk result (λ disk. calls_of disk ≡ 0) }
    {
        if bytes.len() > MAX_SIZE {
            return Err(AllocError);
        }
        Ok(MemDisk::holding(alloc, bytes.to_vec(alloc)?))
    }

    /// A disk that has these bytes, all of them durable. It copies none.
    pub fn over(alloc: Global, bytes: Vec<u8>) -> Result<Self, AllocError>
        ensures state { IfOk result (λ disk. mem_state disk ≡ new_disk bytes.items) }
        ensures settled { IfOk result (λ disk. IsSettled (mem_state disk)) }
        ensures calls { IfOk result (λ disk. calls_of disk ≡ 0) }
    {
        if bytes.len() > MAX_SIZE {
            return Err(AllocError);
        }
        Ok(MemDisk::holding(alloc, bytes))
    }

    fn holding(alloc: Global, bytes: Vec<u8>) -> Self
        requires { length bytes.items ≤ 2 ^ 62 }
        ensures state { mem_state result ≡ new_disk bytes.items }
        ensures settled { IsSettled (mem_state result) }
        ensures calls { calls_of result ≡ 0 }
    {
        MemDisk {
            alloc,
            bytes,
            log: Vec::new(alloc),
            failing: Vec::new(alloc),
            calls: 0,
            faults: 0,
            stop: None,
            pick: None,
        }
    }

    /// Makes the calls of `read`, `write_at` and `sync` with these numbers fail, in place of those
    /// that a call of `fail` named before. The first such call of the disk has the number 1.
    pub fn fail(&mut self, calls: &[u64]) -> Result<(), AllocError>
        ensures failing { OnOk result (mem_state self.new ≡ record (mem_state self.old) {
          quiet =
              is_nil calls.now;
        }) }
        ensures numbers { OnOk result (failing_of self.new ≡ calls.now) }
        ensures refused { OnErr result (mem_state self.new ≡ mem_state self.old) }
        ensures same_numbers { OnErr result (failing_of self.new ≡ failing_of self.old) }
        ensures calls { calls_of self.new ≡ calls_of self.old }
    {
        self.failing = calls.to_vec(self.alloc)?;
        Ok(())
    }

    /// All that a read gives.
    pub fn bytes(&self) -> &[u8]
        ensures { result.now ≡ (mem_state self.now).now.seen }
    {
        &self.bytes
    }

    /// All that a read gives, without a copy of it.
    pub fn into_bytes(self) -> Vec<u8>
        ensures { result.items ≡ (mem_state self).now.seen }
    {
        self.bytes
    }
}

// Counts a call, and tells whether it fails, which counts as a fault.
fn has_fault(calls: &mut u64, faults: &mut u64, failing: &[u64], stop: Option<u64>) -> bool
    ensures counted { calls.new ≡ min (calls.old + 1) (2 ^ 64 - 1) }
    ensures fails { IsTrue result ↔ ((stop ≡ Some 0) ⊎ Contains failing.now calls.new) }
    ensures risen { IsTrue result → faults.new ≡ with_fault faults.old }
    ensures same { IsFalse result → faults.new ≡ faults.old }
    ensures stopped { stop ≡ Some 0 → IsTrue result }
    ensures quiet { IsTrue (is_nil failing.now) → IsTrue result → stop ≡ Some 0 }
{
    if *calls < u64::MAX {
        *calls += 1;
    }
    if stop == Some(0) || failing.contains(calls) {
        if *faults < u64::MAX {
            *faults += 1;
        }
        return true;
    }
    false
}

// Counts a write or sync that succeeded.
fn lower(stop: &mut Option<u64>)
    requires { stop.old ≡ Some 0 → ⊥ }
    ensures { Lowered 1 stop.old stop.new }
{
    if let Some(left) = stop {
        *left -= 1;
    }
}

impl Disk for MemDisk {
    ghost use Rattle.disk_model.specs.Mem.{mem_state, IsCounted, FailsNext};
    ghost use Rattle.disk_model.specs.InnerKept.{reads_now_of};

    ghost state = { mem_state };

    ghost bounded = { λ disk. disk.small };

    ghost reads_now = { λ disk. reads_now_of disk.log.items disk.bytes.items disk.fits };

    fn size(&self) -> u64 {
        self.bytes.len() as u64
    }

    /// As `Disk` says; and it fails exactly where its stop is reached or its number is to fail.
    fn read(&mut self, at: u64, into: &mut [u8]) -> Result<(), DiskFault>
        requires { at + length into.old ≤ length (mem_state self.old).now.seen }
        ensures bytes { OnOk result (into.new
            ≡ take (length into.old) (drop at (mem_state self.old).now.seen)) }
        ensures failed { OnErr result (IsErrOf result DiskFault.Failed) }
        ensures only_reads { OnlyReads (IsErrOf result DiskFault.Failed) (mem_state self.old)
            (mem_state self.new) }
        ensures counted { IsCounted self.old self.new }
        ensures fails { IsErrOf result DiskFault.Failed ↔ FailsNext self.old }
    {
        if has_fault(&mut self.calls, &mut self.faults, &self.failing, self.stop) {
            return Err(DiskFault::Failed);
        }
        let at = at as usize;
        into.copy_from_slice(&self.bytes[at..at + into.len()]);
        Ok(())
    }

    /// As `Disk` says; and where it is refused nothing changes but the counts of calls and faults.
    /// It fails exactly where its stop is reached or its number is to fail.
    fn write_at(&mut self, at: u64, bytes: &[u8]) -> Result<(), DiskFault>
        requires { at ≤ length (mem_state self.old).now.seen }
        ensures written { OnOk result ((mem_state self.new).now
            ≡ next_moment at (length bytes.now)
            (with_bytes at bytes.now (mem_state self.old).now.seen) (mem_state self.old).now) }
        ensures same { OnErr result (SameBytes (mem_state self.old) (mem_state self.new)) }
        ensures refused { IsErrOf result DiskFault.NoMemory
            → mem_state self.new ≡ mem_state self.old }
        ensures torn { OnErr result (Torn at (length bytes.now) (mem_state self.old).now.seen
            (mem_state self.new).now.seen) }
        ensures crash { (image : List ℕ) → MayLeave (mem_state self.new).now image
            → MayLeave (next_moment at (length bytes.now) (mem_state self.new).now.seen
            (mem_state self.old).now) image }
        ensures time { Meanwhile (mem_state self.old) (mem_state self.new)
            (MayLeave (mem_state self.new).now) }
        ensures stop { Lowers 1 result (mem_state self.old).stop (mem_state self.new).stop }
        ensures stopped { (mem_state self.old).stop ≡ Some 0 → IsErrOf result DiskFault.Failed }
        ensures cause { Caused (IsErrOf result DiskFault.Failed) (mem_state self.old)
            (mem_state self.new) }
        ensures counted { IsCounted self.old self.new }
        ensures fails { IsErrOf result DiskFault.Failed ↔ FailsNext self.old }
    {
        if has_fault(&mut self.calls, &mut self.faults, &self.failing, self.stop) {
            return Err(DiskFault::Failed);
        }
        let at = at as usize;
        if bytes.len() > MAX_SIZE - at {
            return Err(DiskFault::NoMemory);
        }
        let Ok(()) = put(self.alloc, &mut self.bytes, &mut self.log, at, bytes) else {
            return Err(DiskFault::NoMemory);
        };
        lower(&mut self.stop);
        Ok(())
    }

    /// As `Disk` says; and where it fails nothing changes but the counts of calls and faults. It
    /// fails exactly where its stop is reached or its number is to fail. It takes no memory.
    fn sync(&mut self) -> Result<(), DiskFault>
        ensures durable { OnOk result (IsSettled (mem_state self.new)) }
        ensures seen { (mem_state self.new).now.seen ≡ (mem_state self.old).now.seen }
        ensures same { OnErr result (SameBytes (mem_state self.old) (mem_state self.new)) }
        ensures failed { OnErr result (IsErrOf result DiskFault.Failed) }
        ensures crash { OnErr result ((image : List ℕ) → MayLeave (mem_state self.new).now image
            → MayLeave (mem_state self.old).now image) }
        ensures time { Meanwhile (mem_state self.old) (mem_state self.new)
            (MayLeave (mem_state self.new).now) }
        ensures stop { Lowers 1 result (mem_state self.old).stop (mem_state self.new).stop }
        ensures stopped { (mem_state self.old).stop ≡ Some 0 → IsErrOf result DiskFault.Failed }
        ensures cause { Caused (IsErrOf result DiskFault.Failed) (mem_state self.old)
            (mem_state self.new) }
        ensures counted { IsCounted self.old self.new }
        ensures fails { IsErrOf result DiskFault.Failed ↔ FailsNext self.old }
    {
        if has_fault(&mut self.calls, &mut self.faults, &self.failing, self.stop) {
            return Err(DiskFault::Failed);
        }
        mark(&mut self.log);
        lower(&mut self.stop);
        Ok(())
    }
}

impl StopDisk for MemDisk {
    ghost use Rattle.disk_model.specs.Mem.{mem_state, SameCalls};

    fn left(&self) -> Option<u64> {
        self.stop
    }

    fn stop_after(&mut self, calls: Option<u64>)
        ensures state { mem_state self.new ≡ record (mem_state self.old) { stop = calls } }
        ensures same_calls { SameCalls self.old self.new }
    {
        self.stop = calls;
    }

    /// The picks leave, where "written" means written since the last sync that succeeded:
    ///
    /// - 0: what a read gives;
    /// - 1: what a read gave at the last sync, with the size of then;
    /// - 2: the size now; a written byte is new at an even offset, and at an odd one it is that of
    /// the last sync, or
    ///   0 past the end of then;
    /// - 3: the size now; each written byte is 255.
    ///
    /// It takes no memory, and time in proportion to the bytes written.
    fn crash(&mut self, pick: u8)
        requires { pick < 4 }
        ensures left { MayLeave (mem_state self.old).now (mem_state self.new).now.seen }
        ensures durable { IsSettled (mem_state self.new) }
        ensures no_stop { (mem_state self.new).stop ≡ None }
        ensures faults { (mem_state self.new).faults ≡ (mem_state self.old).faults }
        ensures quiet { (mem_state self.new).quiet ≡ (mem_state self.old).quiet }
        ensures pick { (mem_state self.new).pick ≡ Some pick }
        ensures picked { IsPicked pick (mem_state self.old).now (mem_state self.new).now.seen }
        ensures anew { (mem_state self.new).past ≡ [] }
        ensures same_calls { SameCalls self.old self.new }
    {
        tear(&mut self.bytes, &mut self.log, pick);
        self.stop = None;
        self.pick = Some(pick);
    }
}
