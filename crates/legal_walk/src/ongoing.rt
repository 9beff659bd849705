//! A session's transaction, beside the commits of others.
ghost use Rattle.std.specs.Prelude.{◌≡◌, IsTrue, IfOk, OnOk};
ghost use Rattle.svc_values.specs.meaning.Fitting.{writes_fit};
ghost use Rattle.calls_again.specs.OnWay.{GoesBy, taken_with};
ghost use Rattle.table_txn.specs.Changes.{begun_at};
ghost use Rattle.legal_walk.specs.Holds.{HoldsSince};
ghost use Rattle.legal_walk.specs.Going.{begins_with, with_piece};
ghost use Rattle.legal_walk.specs.Moving.{piece_of};

use crate::performed::Performed;
use crate::service::Service;
use calls_again::Going;
use std::alloc::Global;
use svc_values::{Answers, NoMemory, Settings, Writes};

/// The transaction of a session on its way.
#[derive(Drop)]
pub(crate) struct Ongoing {
    pub(crate) going: Going,
    /// How many commits were applied when its first call was run, where one was.
    pub(crate) since: Option<u64>,
}

impl Ongoing {
    /// A transaction that begins with these settings. It takes no memory.
    pub(crate) fn new(alloc: Global, settings: Settings) -> Ongoing
        ensures { result ≡ begins_with settings }
    {
        Ongoing {
            going: Going::new(alloc, settings),
            since: None,
        }
    }

    /// Runs a call with its draws, as `Going::run` does. A table that no commit has written since
    /// the transaction began to read is not compared.
    pub(crate) fn run(
        &mut self,
        service: &Service<'_>,
        performed: &Performed<'_>,
    ) -> Result<Option<Answers>, NoMemory>
        requires fits { IsTrue (writes_fit service.now.tables.schemas self.old.going.writes) }
        requires holds { HoldsSince service.now self.old.since self.old.going.readings }
        ensures goes { IfOk result (λ told. GoesBy service.now.tables self.old.going
            (taken_with service.now.tables service.now.names self.old.going
            performed.entry.now.call.now performed.entry.now.draws.now) told self.new.going) }
        ensures since { self.new.since ≡ begun_at self.old.since service.now.changes.commits }
    {
        let known = service.changes.since(self.since);
        self.since = self.since.or(Some(service.changes.commits()));
        let Performed { call, draws, .. } = performed;
        let Service {
            alloc,
            tables,
            names,
            ..
        } = service;
        self.going.run(*alloc, tables, known, names, call, draws)
    }

    /// Keeps a call with its answers and draws.
    pub(crate) fn note(&mut self, alloc: Global, performed: &Performed<'_>) -> Result<(), NoMemory>
        ensures { OnOk result (self.new ≡ with_piece self.old (piece_of performed.entry.now)) }
    {
        let Performed {
            call,
            answers,
            draws,
            ..
        } = performed;
        self.going.note(alloc, call, answers, draws)
    }

    /// Ends the transaction, and begins the next one with the settings of now. What was written is
    /// moved out.
    pub(crate) fn end(&mut self, alloc: Global) -> Writes
        ensures writes { result ≡ self.old.going.writes }
        ensures begun { self.new ≡ begins_with self.old.going.settings }
    {
        self.since = None;
        self.going.end(alloc)
    }
}
