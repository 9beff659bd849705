//! Crashes of a pair.
ghost use Rattle.std.specs.Prelude.{◌≡◌, ◌<◌, ◌^◌, false, true};
ghost use Rattle.std.specs.Option.{option_map};
ghost use Rattle.server_model.specs.ServiceCalls.{Crashed, MayCrash};
ghost use Rattle.server_model.specs.meaning.ServiceCalls.{is_failover as is_failover_def};
ghost use Rattle.service_calls.specs.Kept.{Goes, HaveOneBase};
ghost use Rattle.standby_ship.specs.Fallen.{FellSome, MayTakeOver, TookOver};
ghost use Rattle.standby_ship.specs.Seeing.{LeavesPair, SeesPair, bytes_in};
ghost use Rattle.standby_ship.specs.Twins.{state_in};

use crate::pair::{Pair, SecondStore};
use disk_model::{Disk, StopDisk};
use service_core::OneService;

/// Whether a crash with this pick takes the first store of a pair away.
fn is_failover(pick: u8) -> bool
    ensures { result ≡ is_failover_def pick }
{
    3 < pick % 8
}

/// Crashes the second store's disk, where there is one.
fn fall_second<D: StopDisk>(second: &mut Option<SecondStore<D>>, pick: u8)
    requires { pick < 4 }
    ensures { FellSome second.old second.new }
{
    if let Some(second) = second {
        second.disk.crash(pick);
    }
}

/// Lets the service go on over the second store, where there is one, and keeps the first one's
/// disk. A crash is to come next.
fn take_over<D: StopDisk + Drop>(
    primary: &mut OneService<D>,
    second: &mut Option<SecondStore<D>>,
    lost: &mut Option<D>,
)
    requires live { primary.old.notes.is_spent ≡ false }
    requires may { MayTakeOver primary.old second.old }
    ensures { TookOver primary.old primary.new second.old second.new (option_map D.state lost.old)
        (option_map D.state lost.new) }
{
    if let Some(second) = second.take() {
        *lost = Some(primary.take_over(second.disk));
    }
}

impl<D: StopDisk + Drop> Pair<D> {
    /// Ends it as a crash does: all connections end, and of what a stopped call stored each disk
    /// leaves what the pick's remainder by 4 says. A pick whose remainder by 8 is 4 or more takes
    /// the first store away for good, and the second is the only one then.
    pub(crate) fn fall(&mut self, pick: u8)
        requires live { self.old.is_spent ≡ false }
        requires few { (state_in self.old).calls < 2 ^ 48 }
        requires may { MayCrash (state_in self.old) pick }
        ensures left { LeavesPair self.old (state_in self.new).store }
        ensures crashed { Goes (SeesPair self.old) (SeesPair self.new)
            (λ old new. Crashed old pick new) }
        ensures base { HaveOneBase (bytes_in self.old) (bytes_in self.new) }
    {
        if is_failover(pick) {
            self.fail_over(pick);
        } else {
            self.fall_both(pick);
        }
    }

    /// A crash of both disks.
    fn fall_both(&mut self, pick: u8)
        requires live { self.old.is_spent ≡ false }
        requires few { (state_in self.old).calls < 2 ^ 48 }
        requires both { is_failover_def pick ≡ false }
        ensures left { LeavesPair self.old (state_in self.new).store }
        ensures crashed { Goes (SeesPair self.old) (SeesPair self.new)
            (λ old new. Crashed old pick new) }
        ensures base { HaveOneBase (bytes_in self.old) (bytes_in self.new) }
    {
        fall_second(&mut self.second, pick % 4);
        self.primary.fall(pick);
        self.primary.keeps_to_it();
        self.is_opened = false;
    }

    /// A crash that takes the first store away. Of a pair with one store it crashes that.
    fn fail_over(&mut self, pick: u8)
        requires live { self.old.is_spent ≡ false }
        requires few { (state_in self.old).calls < 2 ^ 48 }
        requires opened { self.old.is_opened ≡ true }
        requires over { is_failover_def pick ≡ true }
        ensures left { LeavesPair self.old (state_in self.new).store }
        ensures crashed { Goes (SeesPair self.old) (SeesPair self.new)
            (λ old new. Crashed old pick new) }
        ensures base { HaveOneBase (bytes_in self.old) (bytes_in self.new) }
    {
        take_over(&mut self.primary, &mut self.second, &mut self.lost);
        self.primary.fall(pick);
        self.primary.keeps_to_it();
        self.is_opened = false;
    }
}
