//! A session, and what it does with frames that touch no store.
ghost use Rattle.std.specs.Prelude.{◌≡◌, [], OnOk};
ghost use Rattle.svc_values.specs.meaning.Identifiers.{session_of};
ghost use Rattle.svc_values.specs.declared.frame.Down.TheVariants as down;
ghost use Rattle.table_txn.specs.Readings.{AreReadings};
ghost use Rattle.table_txn.specs.Transactions.{empty};
ghost use Rattle.server_model.specs.Sessions.{New, Idle, Begun, Ended, made};
ghost use Rattle.server_model.specs.Serve.{is_out_of_order as is_out_of_order_def};
ghost use Rattle.server_session.specs.SeenSession.{begins, begun_so, ended_so, is_alive, sess_of};

use crate::life::Life;
use session_state::SessionState;
use std::alloc::Global;
use std::marker::Model;
use svc_values::{Down, Ltxid, NoMemory, Settings, TryCopy, Up};
use table_txn::Txn;

/// A session with its open transaction.
#[derive(Drop)]
pub struct Session {
    pub(crate) ltxid: Ltxid,
    pub(crate) life: Life,
    pub(crate) state: SessionState,
    /// The settings before the transaction's first call, where a call has changed them.
    pub(crate) earlier: Option<Settings>,
    pub(crate) txn: Txn,
    /// How many commits were applied when the transaction began to read, where it has read
    /// anything.
    pub(crate) since: Option<u64>,
    pub(crate) alloc: Global,
}

impl Model for Session {
    ghost use Rattle.server_session.specs.SeenSession.{SeenSession};

    ghost Value = { SeenSession };

    ghost use Rattle.server_session.specs.Lives.{life_of};
    ghost use Rattle.server_session.specs.SeenSession.{started_with};

    ghost view = { λ s. record {
      ltxid = s.ltxid;
      life = life_of s.life;
      settings =
          s.state.settings;
      at_start = started_with s.earlier s.state.settings;
      txn = s.txn;
      since =
          s.since;
    } };
}

impl Session {
    /// A living session before its Connect, under this identifier. It takes no memory.
    pub fn new(alloc: Global, ltxid: Ltxid) -> Session
        requires { ltxid.number ≡ 0 }
        ensures seen { result ≡ begins ltxid }
        ensures plain { sess_of result [] ≡ made (session_of ltxid) }
        ensures no_reads { AreReadings result.txn.readings [] }
    {
        Session {
            ltxid,
            life: Life::New,
            state: SessionState::new(alloc),
            earlier: None,
            txn: Txn::new(alloc),
            since: None,
            alloc,
        }
    }

    /// Whether it lives: it was not closed, refused or blocked, and every frame was answered.
    pub fn is_live(&self) -> bool
        ensures { result ≡ is_alive self.now.life }
    {
        !matches!(self.life, Life::Ended)
    }

    /// Whether the frame is out of order.
    pub(crate) fn is_out_of_order(&self, frame: &Up) -> bool
        ensures { result ≡ is_out_of_order_def self.now.life frame.now }
    {
        let is_connect = matches!(frame, Up::Connect);
        match self.life {
            Life::New => !is_connect,
            Life::Idle => is_connect || matches!(frame, Up::Call { .. }),
            Life::Begun => is_connect,
            Life::Ended => false,
        }
    }

    /// Is established, and tells its identifier.
    pub(crate) fn connect(&mut self) -> Down
        ensures told { result ≡ down.Hello self.old.ltxid }
        ensures seen { self.new ≡ record self.old { life = Idle } }
    {
        self.life = Life::Idle;
        Down::Hello { ltxid: self.ltxid }
    }

    /// Begins a request with these settings: what the session has done and not committed is given
    /// up.
    pub(crate) fn begin(&mut self, settings: &Settings) -> Result<(), NoMemory>
        ensures { OnOk result (self.new ≡ begun_so self.old Begun settings.now) }
    {
        let settings = settings.copy(self.alloc)?;
        self.state.begin(settings);
        self.drop_transaction();
        self.life = Life::Begun;
        Ok(())
    }

    /// Ends a request: what the session has done and not committed is given up, and no name is set.
    pub(crate) fn end(&mut self)
        ensures { self.new ≡ begun_so self.old Idle [] }
    {
        self.state.reset();
        self.drop_transaction();
        self.life = Life::Idle;
    }

    /// Ends the session.
    pub(crate) fn close(&mut self)
        ensures { self.new ≡ ended_so self.old }
    {
        self.drop_transaction();
        self.life = Life::Ended;
    }

    /// Gives up what the session has done and not committed.
    pub(crate) fn drop_transaction(&mut self)
        ensures seen { self.new ≡ begun_so self.old self.old.life self.old.settings }
        ensures no_reads { AreReadings empty.readings [] }
    {
        self.txn.roll_back();
        self.since = None;
        self.earlier = None;
    }
}
