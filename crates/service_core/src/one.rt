//! One service on one store.
ghost use Rattle.std.specs.Prelude.{◌≡◌, ◌<◌, ◌^◌, None, IfOk, OnErr, is_some, false, true};
ghost use Rattle.server_model.specs.ServiceCalls.{Connected, Reaped, with_stop};
ghost use Rattle.service_calls.specs.Kept.{Goes, HaveOneBase};
ghost use Rattle.service_core.specs.Indexed.{FitBase};
ghost use Rattle.service_core.specs.Seeing.{SeesIn, bytes_in, state_in};
ghost use Rattle.service_core.specs.Shipping.{SetsStop, Stays};

use crate::connections::Connections;
use crate::notes::Notes;
use crate::resting::Resting;
use disk_model::{Disk, StopDisk};
use mutable_values::Grants;
use server_session::Core;
use std::alloc::Global;
use std::marker::Model;
use svc_values::NoMemory;
use table_store::IndexOf;

/// One service on one store: its disk, what its sessions share while it is up, and its connections.
#[derive(Drop)]
pub struct OneService<D: StopDisk> {
    pub(crate) disk: D,
    pub(crate) grants: Grants,
    pub(crate) core: Option<Core>,
    /// While it is down: what its sessions shared, or an opening read, if it is kept.
    pub(crate) resting: Option<Resting>,
    pub(crate) held: Connections,
    pub(crate) notes: Notes,
    /// The columns by which the tables of each opening are indexed.
    pub(crate) indexes: Vec<IndexOf>,
    // One that found no memory serves no more.
    ghost spent: { notes.is_spent ≡ true → is_some core ≡ false },
    ghost fitting: { notes.is_spent ≡ false → FitBase indexes.items (D.state disk).now.seen },
}

impl<D: StopDisk> Model for OneService<D> {
    ghost use Rattle.service_core.specs.Within.{Within};
    ghost use Rattle.service_core.specs.Resting.{IsKeptWith};

    ghost Value = { Within };

    ghost view = { λ s. record {
      grants = s.grants;
      disk = D.state s.disk;
      core = s.core;
      held =
          s.held;
      notes = s.notes;
    } };

    ghost invariant = { λ s. IsKeptWith (record {
      grants = s.grants;
      disk = D.state s.disk;
      core =
          s.core;
      held = s.held;
      notes = s.notes;
    }) s.resting };
}

impl<D: StopDisk> OneService<D> {
    /// Whether it serves.
    pub fn serves(&self) -> bool
        ensures { result ≡ is_some self.now.core }
    {
        self.core.is_some()
    }

    /// The incarnation of this opening. Of a service that is down it says nothing.
    pub fn opening(&self) -> u64
        ensures { (state_in self.now).is_up ≡ true
            → result ≡ (state_in self.now).store.incarnation }
    {
        match &self.core {
            Some(core) => core.source.incarnation(),
            None => 0,
        }
    }

    /// Makes a connection, where the service is up.
    pub fn add(&mut self, connection: u64) -> Result<bool, NoMemory>
        requires live { self.old.notes.is_spent ≡ false }
        requires few { self.old.notes.calls < 2 ^ 48 }
        requires new { (state_in self.old).living connection ≡ None }
        ensures connected { IfOk result (λ up. Goes (SeesIn self.old) (SeesIn self.new)
            (λ old new. Connected old connection up new)) }
        ensures base { IfOk result (λ up. HaveOneBase (bytes_in self.old) (bytes_in self.new)) }
        ensures stays { IfOk result (λ up. Stays self.old self.new) }
        ensures uncounted { OnErr result (self.new.disk ≡ self.old.disk) }
    {
        self.notes.calls += 1;
        if self.core.is_none() {
            return Ok(false);
        }
        match self.held.put(connection, None) {
            Ok(()) => Ok(true),
            Err(NoMemory) => {
                self.core = None;
                self.notes.is_spent = true;
                Err(NoMemory)
            }
        }
    }

    /// Ends a connection, with its session.
    pub fn end(&mut self, connection: u64)
        requires live { self.old.notes.is_spent ≡ false }
        requires few { self.old.notes.calls < 2 ^ 48 }
        ensures reaped { Goes (SeesIn self.old) (SeesIn self.new)
            (λ old new. Reaped old connection new) }
        ensures base { HaveOneBase (bytes_in self.old) (bytes_in self.new) }
        ensures stays { Stays self.old self.new }
    {
        self.held.end(connection);
        self.notes.calls += 1;
    }

    /// Sets a stop, or takes it away.
    pub fn set_stop(&mut self, calls: Option<u64>)
        requires live { self.old.notes.is_spent ≡ false }
        requires few { self.old.notes.calls < 2 ^ 48 }
        ensures stop { Goes (SeesIn self.old) (SeesIn self.new)
            (λ old new. new ≡ with_stop old calls) }
        ensures base { HaveOneBase (bytes_in self.old) (bytes_in self.new) }
        ensures sets { SetsStop calls self.old self.new }
    {
        self.disk.stop_after(calls);
        self.notes.calls += 1;
    }
}
