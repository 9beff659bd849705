//! What the store of a service holds.
ghost use Rattle.std.specs.Prelude.{◌≡◌, ◌≢◌, ◌<◌, ◌^◌, true, false, None, IfOk, IsErrOf, Ok};
ghost use Rattle.disk_model.specs.Disk.{OnlyReads};
ghost use Rattle.commit_log.specs.meaning.Journals.{journal_of};
ghost use Rattle.server_model.specs.ServiceCalls.{Looked, StoppedLook};
ghost use Rattle.service_calls.specs.Answers.{Ends, NotMemory};
ghost use Rattle.service_calls.specs.Ended.{IsEndOf};
ghost use Rattle.service_calls.specs.Kept.{Goes};
ghost use Rattle.service_core.specs.Seeing.{SeesIn, bytes_in};
ghost use Rattle.service_core.specs.Shipping.{Looks};

use crate::ended::ended_of;
use crate::one::OneService;
use crate::resting::put_to_rest;
use commit_log::{Journal, Log, LogFault};
use disk_model::{Disk, StopDisk};
use server_model::ServeFault;
use service_calls::Ended;
use std::alloc::Global;

impl<D: StopDisk + Drop> OneService<D> {
    /// What the store holds at the end, and the disk. The tables are those that the sessions
    /// shared, where these are kept. What else the service has in memory goes before the records
    /// are read.
    pub fn read_at_end(self, alloc: Global) -> (Result<Ended, ServeFault>, D)
        requires live { self.notes.is_spent ≡ false }
        ensures told { IfOk result.0 (IsEndOf (bytes_in self)) }
        ensures cause { IsErrOf result.0 ServeFault.Stopped → self.disk.quiet ≡ true
            → self.disk.stop ≢ None }
        ensures uncounted { IsErrOf result.0 ServeFault.NoMemory
            → (D.state result.1).faults ≡ self.disk.faults }
    {
        let OneService {
            mut disk,
            mut core,
            mut resting,
            held,
            ..
        } = self;
        drop(held);
        put_to_rest(&mut core, &mut resting);
        match ended_of(alloc, &mut disk, resting) {
            Ok(ended) => (Ok(ended), disk),
            Err(LogFault::Stopped) => (Err(ServeFault::Stopped), disk),
            Err(LogFault::NoMemory) => (Err(ServeFault::NoMemory), disk),
            Err(LogFault::Damaged(_)) => unreachable!(),
        }
    }
}

impl<D: StopDisk> OneService<D> {
    /// What the store holds. It writes nothing, and reads the whole store.
    pub fn read_journal(&mut self, alloc: Global) -> Result<Journal, ServeFault>
        requires live { self.old.notes.is_spent ≡ false }
        requires few { self.old.notes.calls < 2 ^ 48 }
        ensures told { IfOk result (λ journal. journal_of (bytes_in self.new) ≡ Ok journal) }
        ensures unwritten { NotMemory result (bytes_in self.new ≡ bytes_in self.old) }
        ensures looks { NotMemory result
            (Looks (IsErrOf result ServeFault.Stopped) self.old self.new) }
        ensures looked { Ends result (λ journal. Goes (SeesIn self.old) (SeesIn self.new) Looked)
            (Goes (SeesIn self.old) (SeesIn self.new) StoppedLook) }
        ensures uncounted { IsErrOf result ServeFault.NoMemory
            → self.new.disk.faults ≡ self.old.disk.faults }
    {
        self.notes.calls += 1;
        match Log::read(alloc, &mut self.disk) {
            Ok(journal) => Ok(journal),
            Err(LogFault::Stopped) => {
                self.core = None;
                self.resting = None;
                self.held.clear();
                Err(ServeFault::Stopped)
            }
            Err(LogFault::NoMemory) => {
                self.core = None;
                self.notes.is_spent = true;
                Err(ServeFault::NoMemory)
            }
            Err(LogFault::Damaged(_)) => unreachable!(),
        }
    }

    /// The bytes of the store. It writes nothing.
    pub fn read_image(&mut self, alloc: Global) -> Result<Vec<u8>, ServeFault>
        requires live { self.old.notes.is_spent ≡ false }
        requires few { self.old.notes.calls < 2 ^ 48 }
        ensures told { IfOk result (λ image. image.items ≡ bytes_in self.new) }
        ensures unwritten { NotMemory result (bytes_in self.new ≡ bytes_in self.old) }
        ensures looks { NotMemory result
            (Looks (IsErrOf result ServeFault.Stopped) self.old self.new) }
        ensures looked { Ends result (λ image. Goes (SeesIn self.old) (SeesIn self.new) Looked)
            (Goes (SeesIn self.old) (SeesIn self.new) StoppedLook) }
        ensures uncounted { IsErrOf result ServeFault.NoMemory
            → self.new.disk.faults ≡ self.old.disk.faults }
    {
        self.notes.calls += 1;
        match bytes_of(alloc, &mut self.disk) {
            Ok(image) => Ok(image),
            Err(ServeFault::Stopped) => {
                self.core = None;
                self.resting = None;
                self.held.clear();
                Err(ServeFault::Stopped)
            }
            Err(ServeFault::NoMemory) => {
                self.core = None;
                self.notes.is_spent = true;
                Err(ServeFault::NoMemory)
            }
        }
    }
}

/// All bytes of a disk.
fn bytes_of<D: Disk>(alloc: Global, disk: &mut D) -> Result<Vec<u8>, ServeFault>
    ensures image { IfOk result (λ image. image.items ≡ (D.state disk.old).now.seen) }
    ensures only_reads { OnlyReads (IsErrOf result ServeFault.Stopped) (D.state disk.old)
        (D.state disk.new) }
{
    let size = disk.size();
    let Ok(mut image) = vec![in alloc; 0; size as usize] else {
        return Err(ServeFault::NoMemory);
    };
    if disk.read(0, &mut image).is_err() {
        return Err(ServeFault::Stopped);
    }
    Ok(image)
}
