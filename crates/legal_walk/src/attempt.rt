//! A call that is tried with draws.
ghost use Rattle.std.specs.Prelude.{IsTrue};
ghost use Rattle.svc_values.specs.meaning.Fitting.{writes_fit};

use calls_again::Going;
use legal_draws::{Trial, drawn_whole};
use std::alloc::Global;
use svc_values::{Call, Draw, Names, NoMemory, ends_committed};
use table_store::Tables;
use table_txn::Known;

/// A call of a session, whose transaction it leaves as it is. Each trial copies what the session
/// wrote in it.
#[derive(Drop)]
pub(crate) struct Attempt<'w> {
    pub(crate) alloc: Global,
    pub(crate) tables: &'w Tables,
    pub(crate) names: &'w Names,
    pub(crate) going: &'w Going,
    pub(crate) call: &'w Call,
    ghost fits: { IsTrue (writes_fit tables.now.schemas going.now.writes) },
}

impl Trial for Attempt<'_> {
    ghost use Rattle.legal_walk.specs.Trying.{commits_with};

    ghost test = { λ s draws. commits_with s.tables.now s.names.now s.going.now s.call.now draws };

    fn meets(&self, draws: &[Draw]) -> Result<bool, NoMemory> {
        let mut going = self.going.probe(self.alloc)?;
        match going.run(
            self.alloc,
            self.tables,
            Known::All,
            self.names,
            self.call,
            draws,
        )? {
            Some(answers) => Ok(ends_committed(answers.as_slice())),
            None => Ok(false),
        }
    }

    /// The statements whose draws are all given are run: the call fails behind them where one of
    /// these is refused.
    fn fails_behind(&self, draws: &[Draw]) -> Result<bool, NoMemory> {
        let whole = drawn_whole(self.alloc, self.call, draws.len())?;
        let first = &draws[..whole];
        let mut going = self.going.probe(self.alloc)?;
        match going.run(
            self.alloc,
            self.tables,
            Known::All,
            self.names,
            self.call,
            first,
        )? {
            Some(answers) => Ok(!ends_committed(answers.as_slice())),
            None => Ok(false),
        }
    }
}
