//! What a user of a disk may rely on.
ghost use Rattle.std.specs.Prelude.{◌≡◌, ◌+◌, ◌^◌, ◌≤◌, ◌<◌, List, ℕ, Some, None, length, take, drop, OnOk, OnErr, IsErrOf};
ghost use Rattle.disk_model.specs.Moment.{MayLeave, with_bytes, Torn, next_moment};
ghost use Rattle.disk_model.specs.Disk.{DiskState, Meanwhile, IsSettled, Lowers, Caused, OnlyReads};

use thiserror::Error;

/// Why a disk refused a call.
#[derive(Clone, Copy, Debug, PartialEq, Eq, Error)]
pub enum DiskFault {
    /// The disk failed, or a stop was reached. The call may have been done in part.
    #[error("the disk failed")]
    Failed,
    /// There was no memory for a write, which changed nothing.
    #[error("out of memory")]
    NoMemory,
}

/// A disk: bytes that are read at once, and become durable by a sync.
pub trait Disk {
    /// What the disk holds, what a crash may leave of it now and may have left at each moment
    /// before, how often it failed, and the stop that is set.
    ghost state: { Self → DiskState };

    /// How many bytes the disk has.
    fn size(&self) -> u64
        ensures { result ≡ length (state self.now).now.seen };

    /// Reads as many bytes from the offset `at` as `into` holds.
    ///
    /// It changes no byte and counts for no stop. After `Failed` the content of `into` is not told.
    fn read(&mut self, at: u64, into: &mut [u8]) -> Result<(), DiskFault>
        requires { at + length into.old ≤ length (state self.old).now.seen }
        ensures bytes { OnOk result (into.new
            ≡ take (length into.old) (drop at (state self.old).now.seen)) }
        ensures failed { OnErr result (IsErrOf result DiskFault.Failed) }
        ensures only_reads { OnlyReads (IsErrOf result DiskFault.Failed) (state self.old)
            (state self.new) };

    /// Writes `bytes` at the offset `at`, over what is there and past the end.
    ///
    /// Until a sync succeeds a crash may leave any bytes in the range and past the old end.
    fn write_at(&mut self, at: u64, bytes: &[u8]) -> Result<(), DiskFault>
        requires { at ≤ length (state self.old).now.seen }
        ensures written { OnOk result ((state self.new).now
            ≡ next_moment at (length bytes.now) (with_bytes at bytes.now (state self.old).now.seen)
            (state self.old).now) }

        // For want of memory nothing changes; a write that failed may have changed any bytes of its
        // range.
        ensures refused { IsErrOf result DiskFault.NoMemory → state self.new ≡ state self.old }
        ensures torn { OnErr result (Torn at (length bytes.now) (state self.old).now.seen
            (state self.new).now.seen) }

        // However it ends, a crash then leaves no more than it may leave with this range written.
        ensures crash { (image : List ℕ) → MayLeave (state self.new).now image
            → MayLeave (next_moment at (length bytes.now) (state self.new).now.seen
            (state self.old).now) image }
        ensures time { Meanwhile (state self.old) (state self.new) (MayLeave (state self.new).now) }

        // Where it succeeds it lowers a set stop by one, and else it leaves it. At the stop 0 it
        // fails.
        ensures stop { Lowers 1 result (state self.old).stop (state self.new).stop }
        ensures stopped { (state self.old).stop ≡ Some 0 → IsErrOf result DiskFault.Failed }
        ensures cause { Caused (IsErrOf result DiskFault.Failed) (state self.old)
            (state self.new) };

    /// Makes what a read gives durable: after it a crash leaves exactly that.
    ///
    /// A sync that failed may have made any part durable.
    fn sync(&mut self) -> Result<(), DiskFault>
        ensures durable { OnOk result (IsSettled (state self.new)) }
        ensures seen { (state self.new).now.seen ≡ (state self.old).now.seen }
        ensures failed { OnErr result (IsErrOf result DiskFault.Failed) }
        ensures crash { OnErr result ((image : List ℕ) → MayLeave (state self.new).now image
            → MayLeave (state self.old).now image) }
        ensures time { Meanwhile (state self.old) (state self.new) (MayLeave (state self.new).now) }

        // Where it succeeds it lowers a set stop by one, and else it leaves it. At the stop 0 it
        // fails.
        ensures stop { Lowers 1 result (state self.old).stop (state self.new).stop }
        ensures stopped { (state self.old).stop ≡ Some 0 → IsErrOf result DiskFault.Failed }
        ensures cause { Caused (IsErrOf result DiskFault.Failed) (state self.old)
            (state self.new) };

    /// No disk has more than 2^62 bytes: a write that would need more finds no memory.
    ghost bounded: { (disk : Self) → length (state disk).now.seen ≤ 2 ^ 62 };

    /// What a read gives is one of the images that a crash may leave.
    ghost reads_now: { (disk : Self) → MayLeave (state disk).now (state disk).now.seen };
}

/// A disk that can be stopped and crashed on purpose.
pub trait StopDisk: Disk {
    /// How many writes and syncs a set stop still lets pass; none exactly where no stop is set.
    fn left(&self) -> Option<u64>
        ensures { result ≡ (Self.state self.now).stop };

    /// Makes every call fail once so many writes and syncs have succeeded, or takes the stop away.
    fn stop_after(&mut self, calls: Option<u64>)
        ensures { Self.state self.new ≡ record (Self.state self.old) { stop = calls } };

    /// Leaves one of the images that a crash now may leave, by `pick`; it takes the stop away.
    fn crash(&mut self, pick: u8)
        requires { pick < 4 }
        ensures left { MayLeave (Self.state self.old).now (Self.state self.new).now.seen }
        ensures durable { IsSettled (Self.state self.new) }
        ensures no_stop { (Self.state self.new).stop ≡ None }
        ensures faults { (Self.state self.new).faults ≡ (Self.state self.old).faults }
        ensures quiet { (Self.state self.new).quiet ≡ (Self.state self.old).quiet }
        ensures pick { (Self.state self.new).pick ≡ Some pick };
}
