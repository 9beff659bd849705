//! A pair of stores as one service.
ghost use Rattle.std.specs.Prelude.{◌≡◌, ◌<◌, ◌^◌, None, IfOk, is_some, false, true};
ghost use Rattle.server_model.specs.ServiceCalls.{Connected, Reaped, with_stop};
ghost use Rattle.service_calls.specs.Kept.{Goes, HaveOneBase};
ghost use Rattle.standby_ship.specs.Seeing.{SeesPair, bytes_in};
ghost use Rattle.standby_ship.specs.Twins.{state_in};

use disk_model::StopDisk;
use redo_store::Redo;
use service_core::OneService;
use std::marker::Model;
use svc_values::NoMemory;

/// A second store. Its own stop is set anew before each shipping, and stands for nothing between.
#[derive(Drop)]
pub struct SecondStore<D: StopDisk> {
    pub(crate) disk: D,
    /// Where its records end. Of a pair that is down it says nothing.
    pub(crate) store: Option<Redo>,
}

impl<D: StopDisk> Model for SecondStore<D> {
    ghost use Rattle.standby_ship.specs.Twins.{Second};

    ghost Value = { Second };

    ghost view = { λ s. record { disk = D.state s.disk; store = s.store } };
}

/// A service on one store, with a second store of the same records.
#[derive(Drop)]
pub struct Pair<D: StopDisk> {
    /// The service of the first store, or of the only one.
    pub(crate) primary: OneService<D>,
    /// None once the first store was lost.
    pub(crate) second: Option<SecondStore<D>>,
    /// The first store's disk, once that was lost. It is never called again.
    pub(crate) lost: Option<D>,
    /// It was opened, and no record was missing then, since it was made and since its last crash.
    pub(crate) is_opened: bool,
    /// A call found no memory.
    pub(crate) is_spent: bool,
}

impl<D: StopDisk> Model for Pair<D> {
    ghost use Rattle.std.specs.Prelude.{option_map};
    ghost use Rattle.standby_ship.specs.Twins.{Twin};
    ghost use Rattle.standby_ship.specs.Sound.{IsKept};

    ghost Value = { Twin };

    ghost view = { λ p. record {
      primary = p.primary;
      second = p.second;
      lost =
          option_map D.state p.lost;
      is_opened = p.is_opened;
      is_spent = p.is_spent;
    } };

    ghost invariant = { λ p. IsKept (record {
      primary = p.primary;
      second = p.second;
      lost =
          option_map D.state p.lost;
      is_opened = p.is_opened;
      is_spent = p.is_spent;
    }) };
}

impl<D: StopDisk> Pair<D> {
    /// Whether it serves.
    pub(crate) fn serves(&self) -> bool
        ensures { result ≡ is_some self.now.primary.core }
    {
        self.primary.serves()
    }

    /// The incarnation of this opening. Of a pair that is down it says nothing.
    pub(crate) fn opening(&self) -> u64
        ensures { (state_in self.now).is_up ≡ true
            → result ≡ (state_in self.now).store.incarnation }
    {
        self.primary.opening()
    }

    /// Makes a connection, where the pair is up.
    pub(crate) fn add(&mut self, connection: u64) -> Result<bool, NoMemory>
        requires live { self.old.is_spent ≡ false }
        requires few { (state_in self.old).calls < 2 ^ 48 }
        requires new { (state_in self.old).living connection ≡ None }
        ensures connected { IfOk result (λ up. Goes (SeesPair self.old) (SeesPair self.new)
            (λ old new. Connected old connection up new)) }
        ensures base { IfOk result (λ up. HaveOneBase (bytes_in self.old) (bytes_in self.new)) }
    {
        match self.primary.add(connection) {
            Ok(up) => {
                self.primary.keeps_to_it();
                Ok(up)
            }
            Err(NoMemory) => {
                self.is_spent = true;
                Err(NoMemory)
            }
        }
    }

    /// Ends a connection, with its session.
    pub(crate) fn end(&mut self, connection: u64)
        requires live { self.old.is_spent ≡ false }
        requires few { (state_in self.old).calls < 2 ^ 48 }
        ensures reaped { Goes (SeesPair self.old) (SeesPair self.new)
            (λ old new. Reaped old connection new) }
        ensures base { HaveOneBase (bytes_in self.old) (bytes_in self.new) }
    {
        self.primary.end(connection);
        self.primary.keeps_to_it();
    }

    /// Sets a stop on both disks together, or takes it away: what the first disk leaves of it is
    /// the second's when records are shipped.
    pub(crate) fn set_stop(&mut self, calls: Option<u64>)
        requires live { self.old.is_spent ≡ false }
        requires few { (state_in self.old).calls < 2 ^ 48 }
        ensures stop { Goes (SeesPair self.old) (SeesPair self.new)
            (λ old new. new ≡ with_stop old calls) }
        ensures base { HaveOneBase (bytes_in self.old) (bytes_in self.new) }
    {
        self.primary.set_stop(calls);
        self.primary.keeps_to_it();
    }
}
