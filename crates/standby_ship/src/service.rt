//! A pair keeps to what is asked of a service.
ghost use Rattle.std.specs.Prelude.{◌<◌};

use crate::pair::Pair;
use commit_log::Journal;
use disk_model::{Disk, StopDisk};
use ltxid_book::Verdict;
use server_model::ServeFault;
use service_calls::{Ended, Outside, Service};
use std::alloc::Global;
use svc_values::{Call, Down, Ltxid, NoMemory, Up};

impl<D: StopDisk + Drop> Service for Pair<D> {
    ghost use Rattle.standby_ship.specs.Twins.{state_in};
    ghost use Rattle.standby_ship.specs.Seeing.{LeavesPair, SeesPair, bytes_in};
    ghost use Rattle.standby_ship.specs.InnerHonest.{honest};

    ghost state = { state_in };

    ghost bytes = { bytes_in };

    ghost leaves = { LeavesPair };

    ghost sees = { SeesPair };

    ghost honest = { honest };

    fn is_up(&self) -> bool {
        self.serves()
    }

    fn incarnation(&self) -> u64 {
        self.opening()
    }

    fn connect(&mut self, _alloc: Global, connection: u64) -> Result<bool, NoMemory> {
        self.add(connection)
    }

    fn serve(
        &mut self,
        alloc: Global,
        connection: u64,
        frame: &Up,
        now: u64,
    ) -> Result<Option<Down>, ServeFault> {
        self.serve_frame(alloc, connection, frame, now)
    }

    fn reap(&mut self, connection: u64) {
        self.end(connection);
    }

    fn stop_after(&mut self, calls: Option<u64>) {
        self.set_stop(calls);
    }

    fn crash(&mut self, pick: u8) {
        self.fall(pick);
    }

    fn up(&mut self, alloc: Global, horizon: u64) -> Result<(), ServeFault> {
        self.reopen(alloc, horizon)
    }

    fn outside(&mut self, alloc: Global, calls: &[Call], now: u64) -> Result<Outside, ServeFault> {
        self.run_outside(alloc, calls, now)
    }

    fn ask(&mut self, alloc: Global, x: &Ltxid) -> Result<Verdict, ServeFault> {
        self.tell(alloc, x)
    }

    fn journal(&mut self, alloc: Global) -> Result<Journal, ServeFault> {
        self.read_journal(alloc)
    }

    fn into_ended(self, alloc: Global) -> Result<Ended, ServeFault> {
        self.read_at_end(alloc)
    }

    fn image(&mut self, alloc: Global) -> Result<Vec<u8>, ServeFault> {
        self.read_image(alloc)
    }
}
