//! Openings of a pair.
ghost use Rattle.std.specs.Prelude.{◌≡◌, ◌+◌, ◌<◌, ◌^◌, ℕ, List, Ok, Err, OnOk, IfOk, IsErrOf, false, true};
ghost use Rattle.disk_model.specs.Disk.{IsSettled, OnlyReads};
ghost use Rattle.disk_model.specs.Moment.{MayLeave};
ghost use Rattle.redo_store.specs.meaning.Records.{records_of};
ghost use Rattle.redo_store.specs.Redo.{CanAppend};
ghost use Rattle.server_model.specs.ServiceCalls.{MayForget, Opened, StoppedOpening};
ghost use Rattle.service_calls.specs.Answers.{Ends, NotMemory};
ghost use Rattle.service_calls.specs.Kept.{Goes, HaveOneBase};
ghost use Rattle.service_core.specs.Sound.{IsKept};
ghost use Rattle.standby_ship.specs.Lagging.{Lags, LagsSettled, lacked_in, lacked_some};
ghost use Rattle.standby_ship.specs.Seeing.{LeavesPair, SeesPair, bytes_in};
ghost use Rattle.standby_ship.specs.Shipped.{HasBroken, HasBrokenSome, IsCaughtUp, IsCaughtUpSome};
ghost use Rattle.standby_ship.specs.Sound.{MayShip};
ghost use Rattle.standby_ship.specs.Twins.{state_in};

use crate::pair::{Pair, SecondStore};
use crate::shipping::ship;
use disk_model::{Disk, StopDisk};
use redo_store::{Redo, RedoFault, Walk};
use server_model::ServeFault;
use service_core::OneService;
use std::alloc::Global;

/// The end of a store, to which all its records are walked.
fn end_of<D: Disk>(alloc: Global, disk: &mut D) -> Result<Redo, RedoFault>
    ensures ready { IsSettled (D.state disk.old)
        → IfOk result (λ store. CanAppend store (D.state disk.new)) }
    ensures damaged { (place : ℕ) → IsErrOf result (RedoFault.Damaged place)
        → records_of (D.state disk.old).now.seen ≡ Err place }
    ensures only_reads { OnlyReads (IsErrOf result RedoFault.Stopped) (D.state disk.old)
        (D.state disk.new) }
{
    let mut walk = Walk::begin(alloc, disk)?;
    while walk.next(disk)?.is_some() {}
    Ok(walk.finish())
}

/// Walks the second store to its end, under this stop. It reads each record once, and keeps none.
fn walk_to_end<D: StopDisk>(
    alloc: Global,
    second: &mut SecondStore<D>,
    stop: Option<u64>,
) -> Result<(), ServeFault>
    requires settled { IsSettled second.old.disk }
    requires reads { (records : List (List ℕ))
        × (records_of second.old.disk.now.seen ≡ Ok records) }
    ensures ready { OnOk result (MayShip second.new) }
    ensures only_reads { OnlyReads (IsErrOf result ServeFault.Stopped)
        (record second.old.disk { stop = stop }) second.new.disk }
    ensures reads_now { MayLeave second.new.disk.now second.new.disk.now.seen }
{
    second.disk.stop_after(stop);
    match end_of(alloc, &mut second.disk) {
        Ok(store) => {
            second.store = Some(store);
            Ok(())
        }
        Err(RedoFault::Stopped) => Err(ServeFault::Stopped),
        Err(RedoFault::NoMemory) => Err(ServeFault::NoMemory),
        Err(RedoFault::Damaged(_)) => unreachable!(),
    }
}

/// Opens the second store, and appends there what it lacks. Where a disk fails in it the service is
/// down, as behind a stop.
fn bring_up_to<D: StopDisk>(
    alloc: Global,
    primary: &mut OneService<D>,
    second: &mut SecondStore<D>,
) -> Result<(), ServeFault>
    requires lags { Lags primary.old second.old }
    requires settled { IsSettled second.old.disk }
    ensures caught_up { IfOk result (λ _. IsCaughtUp primary.old primary.new second.old
        second.new) }
    ensures broken { IsErrOf result ServeFault.Stopped
        → HasBroken (lacked_in primary.old second.old + 1) primary.old primary.new second.old
        second.new }
{
    match walk_to_end(alloc, second, primary.left()) {
        Ok(()) => ship(alloc, primary, second),
        Err(ServeFault::Stopped) => {
            primary.unanswer();
            Err(ServeFault::Stopped)
        }
        Err(ServeFault::NoMemory) => Err(ServeFault::NoMemory),
    }
}

/// The same where there is a second store.
fn bring_up<D: StopDisk>(
    alloc: Global,
    primary: &mut OneService<D>,
    second: &mut Option<SecondStore<D>>,
) -> Result<(), ServeFault>
    requires { LagsSettled primary.old second.old }
    ensures caught_up { IfOk result (λ _. IsCaughtUpSome primary.old primary.new second.old
        second.new) }
    ensures broken { IsErrOf result ServeFault.Stopped
        → HasBrokenSome (lacked_some primary.old second.old + 1) primary.old primary.new second.old
        second.new }
    ensures kept { IsKept primary.new }
{
    primary.keeps_to_it();
    match second {
        Some(second) => {
            let brought = bring_up_to(alloc, primary, second);
            primary.keeps_to_it();
            brought
        }
        None => Ok(()),
    }
}

impl<D: StopDisk> Pair<D> {
    /// Opens both stores for the next incarnation, and forgets the outcomes of all incarnations
    /// below `horizon`. The first store is opened, and then what the second one lacks is appended
    /// there. The cost is that of the first store's opening, and linear in the second store.
    pub(crate) fn reopen(&mut self, alloc: Global, horizon: u64) -> Result<(), ServeFault>
        requires live { self.old.is_spent ≡ false }
        requires few { (state_in self.old).calls < 2 ^ 48 }
        requires down { ((state_in self.old).is_up ≡ false)
            × ((state_in self.old).is_settled ≡ true) }
        requires may { MayForget (state_in self.old) horizon }
        ensures opened { Ends result (λ done. Goes (SeesPair self.old) (SeesPair self.new)
            (λ old new. Opened old horizon new))
            (Goes (SeesPair self.old) (SeesPair self.new)
            (λ old new. StoppedOpening old horizon (LeavesPair self.new) new)) }
        ensures base { NotMemory result (HaveOneBase (bytes_in self.old) (bytes_in self.new)) }
    {
        match self.primary.reopen(alloc, horizon) {
            Ok(()) => {
                self.primary.keeps_to_it();
                match bring_up(alloc, &mut self.primary, &mut self.second) {
                    Ok(()) => {
                        self.is_opened = true;
                        Ok(())
                    }
                    Err(ServeFault::Stopped) => Err(ServeFault::Stopped),
                    Err(ServeFault::NoMemory) => {
                        self.is_spent = true;
                        Err(ServeFault::NoMemory)
                    }
                }
            }
            Err(ServeFault::Stopped) => {
                self.primary.keeps_to_it();
                Err(ServeFault::Stopped)
            }
            Err(ServeFault::NoMemory) => {
                self.is_spent = true;
                Err(ServeFault::NoMemory)
            }
        }
    }
}
