//! What a second store asks of a service: the records that it lacks, and to be taken for stopped.
ghost use Rattle.std.specs.Prelude.{◌≡◌, ◌<◌, ◌≤◌, ◌^◌, List, ℕ, IfOk, IsErrOf, false, true, map};
ghost use Rattle.disk_model.specs.Moment.{MayLeave};
ghost use Rattle.commit_log.specs.declared.base.Base.{Base as Begun};
ghost use Rattle.service_calls.specs.Kept.{HaveOneBase};
ghost use Rattle.service_core.specs.Seeing.{bytes_in, state_in};
ghost use Rattle.service_core.specs.Shipping.{AreBehind, FailedRead, StandsAt, count_in, halted, read_once, taken};
ghost use Rattle.service_core.specs.Sound.{HasFaultRoom, IsKept, Reads};

use crate::one::OneService;
use crate::resting::put_to_rest;
use disk_model::{Disk, StopDisk};
use redo_store::{RedoFault, Walk};
use server_model::ServeFault;
use std::alloc::Global;
use std::mem;

impl<D: StopDisk> OneService<D> {
    /// Does nothing. Its contract is what each service keeps to, whatever was called.
    pub fn keeps_to_it(&self)
        ensures { IsKept self.now }
    {
        // (the invariant is known where a field is looked at)
        let _ = &self.disk;
    }

    /// The number of records that its store has. Of a service that is down it says nothing.
    pub fn count(&self) -> u64
        ensures { (state_in self.now).is_up ≡ true → result ≡ count_in self.now }
    {
        match &self.core {
            Some(core) => core.log.count(),
            None => 0,
        }
    }

    /// How many writes and syncs of its disk a set stop still lets pass.
    pub fn left(&self) -> Option<u64>
        ensures { result ≡ self.now.disk.stop }
    {
        self.disk.left()
    }

    /// The payloads of the records behind the first `from`, where the gate behind these stands at
    /// `place`. It is no call of a service, and comes at most once behind one. Where the disk fails
    /// the service is down, as behind a stop. Time and memory grow with these records alone.
    pub fn records_from(
        &mut self,
        alloc: Global,
        from: u64,
        place: u64,
    ) -> Result<Vec<Vec<u8>>, ServeFault>
        requires live { self.old.notes.is_spent ≡ false }
        requires once { self.old.notes.reads < self.old.notes.calls }
        requires few { self.old.notes.calls ≤ 2 ^ 48 }
        requires stands { StandsAt from place (bytes_in self.old) }
        ensures read { IfOk result (λ _. self.new ≡ read_once self.old) }
        ensures failed { IsErrOf result ServeFault.Stopped → FailedRead self.old self.new }
        ensures spent { IsErrOf result ServeFault.NoMemory → (self.new.notes.is_spent ≡ true)
            × (self.new.disk.faults ≡ self.old.disk.faults) }
        ensures records { IfOk result (λ payloads. AreBehind from place (bytes_in self.old)
            (map (λ payload. payload.items) payloads.items)) }
    {
        self.notes.reads += 1;
        match Walk::behind(alloc, place, from).rest(&mut self.disk) {
            Ok(payloads) => Ok(payloads),
            Err(RedoFault::Stopped) => {
                put_to_rest(&mut self.core, &mut self.resting);
                self.held.clear();
                self.notes.is_settled = false;
                Err(ServeFault::Stopped)
            }
            Err(RedoFault::NoMemory) => {
                self.core = None;
                self.notes.is_spent = true;
                Err(ServeFault::NoMemory)
            }
            Err(RedoFault::Damaged(_)) => unreachable!(),
        }
    }

    /// Takes its last call for one that was stopped before its answer: it is down, as behind a
    /// stop.
    pub fn unanswer(&mut self)
        requires live { self.old.notes.is_spent ≡ false }
        ensures { self.new ≡ halted self.old }
    {
        put_to_rest(&mut self.core, &mut self.resting);
        self.held.clear();
        self.notes.is_settled = false;
    }

    /// Goes on over another disk, down as behind a stop, and gives back the one that it had. A
    /// crash is to come next.
    pub fn take_over(&mut self, disk: D) -> D
        requires live { self.old.notes.is_spent ≡ false }
        requires room { HasFaultRoom (D.state disk).faults self.old.notes }
        requires base { HaveOneBase (bytes_in self.old) (D.state disk).now.seen }
        requires journals { (base : Begun)
            × ((image : List ℕ) → MayLeave (D.state disk).now image
            → Reads base self.old.notes image) }
        ensures taken { self.new ≡ taken self.old (D.state disk) }
        ensures lost { D.state result ≡ self.old.disk }
    {
        self.unanswer();
        self.resting = None;
        mem::replace(&mut self.disk, disk)
    }
}
