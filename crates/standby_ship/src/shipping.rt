//! Records that the second store lacks are appended there.
ghost use Rattle.std.specs.Prelude.{◌≡◌, ◌*◌, ℕ, List, length, map, OnOk, IfOk, IsErrOf};
ghost use Rattle.disk_model.specs.Disk.{Caused, Lowers};
ghost use Rattle.disk_model.specs.Moment.{MayLeave};
ghost use Rattle.redo_store.specs.meaning.Records.{records_of};
ghost use Rattle.redo_store.specs.Redo.{CanAppend};
ghost use Rattle.service_core.specs.Sound.{IsKept};
ghost use Rattle.standby_ship.specs.Lagging.{Lags, LagsOpen, lacked_in, lacked_some, open_at};
ghost use Rattle.standby_ship.specs.Sound.{MayShip};
ghost use Rattle.standby_ship.specs.Shipped.{HasBroken, HasBrokenSome, HasShipped, HasShippedSome, HasSomeLasts, with_lasts};

use crate::pair::SecondStore;
use disk_model::{Disk, StopDisk};
use redo_store::{Redo, RedoFault};
use server_model::ServeFault;
use service_core::OneService;
use std::alloc::Global;

/// Adds records with these payloads, in order, in four device calls each.
fn append_each<D: Disk>(
    store: &mut Redo,
    disk: &mut D,
    payloads: &[Vec<u8>],
) -> Result<(), RedoFault>
    requires { CanAppend store.old (D.state disk.old) }
    ensures ready { OnOk result (CanAppend store.new (D.state disk.new)) }
    ensures added { OnOk result (records_of (D.state disk.new).now.seen
        ≡ with_lasts (map (λ payload. payload.items) payloads.now)
        (records_of (D.state disk.old).now.seen)) }
    ensures left { (image : List ℕ) → MayLeave (D.state disk.new).now image
        → HasSomeLasts (map (λ payload. payload.items) payloads.now) (D.state disk.old).now.seen
        image }
    ensures whole { (place : ℕ) → IsErrOf result (RedoFault.Damaged place) → ⊥ }
    ensures stop { Lowers (4 * length payloads.now) result (D.state disk.old).stop
        (D.state disk.new).stop }
    ensures cause { Caused (IsErrOf result RedoFault.Stopped) (D.state disk.old)
        (D.state disk.new) }
{
    for payload in payloads {
        store.append(disk, payload)?;
    }
    Ok(())
}

/// Ships to a store that ends here on this disk.
fn ship_to<D: StopDisk>(
    alloc: Global,
    primary: &mut OneService<D>,
    store: &mut Redo,
    disk: &mut D,
) -> Result<(), ServeFault>
    requires lags { Lags primary.old (open_at store.old (D.state disk.old)) }
    requires ready { CanAppend store.old (D.state disk.old) }
    ensures shipped { IfOk result (λ _. HasShipped primary.old primary.new
        (open_at store.old (D.state disk.old)) (open_at store.new (D.state disk.new))) }
    ensures broken { IsErrOf result ServeFault.Stopped
        → HasBroken (lacked_in primary.old (open_at store.old (D.state disk.old))) primary.old
        primary.new (open_at store.old (D.state disk.old)) (open_at store.new (D.state disk.new)) }
{
    primary.keeps_to_it();
    let from = store.count();
    if from == primary.count() {
        return Ok(());
    }
    let payloads = primary.records_from(alloc, from, store.tail())?;
    disk.stop_after(primary.left());
    match append_each(store, disk, &payloads) {
        Ok(()) => Ok(()),
        Err(RedoFault::Stopped) => {
            primary.unanswer();
            Err(ServeFault::Stopped)
        }
        Err(RedoFault::NoMemory) => Err(ServeFault::NoMemory),
        Err(RedoFault::Damaged(_)) => unreachable!(),
    }
}

/// Appends to the second store what it lacks of the first one's records, under what the first
/// disk's stop still lets pass. Where it lacks none, neither disk is called. Where a disk fails in
/// it the service is down, as behind a stop. Time and memory grow with what is lacked alone.
pub fn ship<D: StopDisk>(
    alloc: Global,
    primary: &mut OneService<D>,
    second: &mut SecondStore<D>,
) -> Result<(), ServeFault>
    requires lags { Lags primary.old second.old }
    requires ready { MayShip second.old }
    ensures shipped { IfOk result (λ _. HasShipped primary.old primary.new second.old second.new) }
    ensures broken { IsErrOf result ServeFault.Stopped
        → HasBroken (lacked_in primary.old second.old) primary.old primary.new second.old
        second.new }
{
    let SecondStore { disk, store } = second;
    match store {
        Some(store) => ship_to(alloc, primary, store, disk),
        None => unreachable!(),
    }
}

/// The same where there is a second store.
pub fn ship_behind<D: StopDisk>(
    alloc: Global,
    primary: &mut OneService<D>,
    second: &mut Option<SecondStore<D>>,
) -> Result<(), ServeFault>
    requires { LagsOpen primary.old second.old }
    ensures shipped { IfOk result (λ _. HasShippedSome primary.old primary.new second.old
        second.new) }
    ensures broken { IsErrOf result ServeFault.Stopped
        → HasBrokenSome (lacked_some primary.old second.old) primary.old primary.new second.old
        second.new }
    ensures kept { IsKept primary.new }
{
    match second {
        Some(second) => {
            let shipped = ship(alloc, primary, second);
            primary.keeps_to_it();
            shipped
        }
        None => {
            primary.keeps_to_it();
            Ok(())
        }
    }
}
