//! Crashes of a service.
ghost use Rattle.std.specs.Prelude.{◌≡◌, ◌<◌, ◌^◌, false};
ghost use Rattle.server_model.specs.ServiceCalls.{Crashed};
ghost use Rattle.service_calls.specs.Kept.{Goes, HaveOneBase};
ghost use Rattle.service_core.specs.Seeing.{LeavesIn, SeesIn, bytes_in, state_in};
ghost use Rattle.service_core.specs.Shipping.{Fell};

use crate::one::OneService;
use crate::resting::put_to_rest;
use disk_model::StopDisk;

impl<D: StopDisk> OneService<D> {
    /// Ends it as a crash does: all connections end, and of what a stopped call stored the disk
    /// leaves what the pick's remainder by 4 says. What its sessions shared is kept for the next
    /// opening.
    pub fn fall(&mut self, pick: u8)
        requires live { self.old.notes.is_spent ≡ false }
        requires few { self.old.notes.calls < 2 ^ 48 }
        ensures left { LeavesIn self.old (state_in self.new).store }
        ensures crashed { Goes (SeesIn self.old) (SeesIn self.new)
            (λ old new. Crashed old pick new) }
        ensures base { HaveOneBase (bytes_in self.old) (bytes_in self.new) }
        ensures fell { Fell self.old self.new }
    {
        self.disk.crash(pick % 4);
        put_to_rest(&mut self.core, &mut self.resting);
        self.held.clear();
        self.notes.is_settled = true;
        self.notes.is_opened = false;
        self.notes.crashes += 1;
        self.notes.last_pick = Some(pick);
        self.notes.last_stop = self.notes.kept;
        self.notes.calls += 1;
    }
}
