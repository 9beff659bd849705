//! A session's transaction on its way.
ghost use Rattle.std.specs.Prelude.{◌≡◌, ◌++◌, ◌∷◌, [], List, IfOk, OnOk};
ghost use Rattle.std.specs.Option.{option_copied};
ghost use Rattle.stmt_meaning.specs.meaning.Reads.{Read};
ghost use Rattle.stmt_meaning.specs.Reads.{IsConflict};
ghost use Rattle.table_txn.specs.Knowing.{is_known};
ghost use Rattle.table_txn.specs.Readings.{AreReadings, StandWhere};
ghost use Rattle.calls_again.specs.OnWay.{begun_with, probed};

use std::alloc::Global;
use std::marker::Model;
use std::mem;
use svc_values::{
    Answer, Answers, Call, Draw, Draws, NoMemory, Piece, Pieces, Place, Settings, TryCopy, Writes,
    copies,
};
use table_store::Tables;
use table_txn::{Known, Txn};

/// The transaction of a session on its way, with the settings of now and those at its start.
#[derive(Drop)]
pub struct Going {
    pub(crate) settings: Settings,
    /// The settings before the transaction's first call, where a call has changed them.
    pub(crate) earlier: Option<Settings>,
    pub(crate) txn: Txn,
}

impl Model for Going {
    ghost use Rattle.calls_again.specs.OnWay.{OnWay, on_way};

    ghost Value = { OnWay };

    ghost view = { λ g. on_way g.settings g.earlier g.txn };
}

impl Going {
    /// A transaction that begins with these settings. It takes no memory.
    pub fn new(alloc: Global, settings: Settings) -> Going
        ensures made { result ≡ begun_with settings }
        ensures no_reads { AreReadings [] [] }
    {
        Going {
            settings,
            earlier: None,
            txn: Txn::new(alloc),
        }
    }

    /// The same writes and settings with nothing called or read, so that a call can be tried.
    /// Linear in the settings, and n log n for n writes.
    pub fn probe(&self, alloc: Global) -> Result<Going, NoMemory>
        ensures { IfOk result (λ made. made ≡ probed self.now) }
    {
        Ok(Going {
            settings: self.settings.copy(alloc)?,
            earlier: None,
            txn: self.txn.probe(alloc)?,
        })
    }

    /// The settings before the first call.
    pub fn at_start(&self) -> &Settings
        ensures { result.now ≡ self.now.at_start }
    {
        match &self.earlier {
            Some(earlier) => earlier,
            None => &self.settings,
        }
    }

    /// The calls so far.
    pub fn pieces(&self) -> &Pieces
        ensures { result.now ≡ self.now.pieces }
    {
        self.txn.pieces()
    }

    /// Keeps a call with its answers and draws, which are copied.
    pub fn note(
        &mut self,
        alloc: Global,
        call: &Call,
        answers: &[Answer],
        draws: &[Draw],
    ) -> Result<(), NoMemory>
        ensures { OnOk result (self.new ≡ record self.old {
          pieces = self.old.pieces
              ++ record { call = call.now; answers = answers.now; draws = draws.now } ∷ [];
        }) }
    {
        self.txn.note(Piece {
            call: call.copy(alloc)?,
            answers: Answers::from_vec(copies(alloc, answers)?),
            draws: Draws::from_vec(copies(alloc, draws)?),
        })
    }

    /// A place that was read and has something else committed now than at the read, or two reads of
    /// which found different things. Linear in the places that were read, and in the rows of the
    /// tables that were read whole and are not known to have what they had.
    pub fn conflicts(&self, tables: &Tables, known: Known) -> Option<&Place>
        requires { StandWhere (is_known known) tables.now.rows self.now.readings }
        ensures { (reads : List Read) → AreReadings self.now.readings reads
            → IsConflict reads tables.now.rows (option_copied result) }
    {
        self.txn.conflicts(tables, known)
    }

    /// Ends the transaction, and begins the next one with the settings of now. What was written is
    /// moved out, and what was read is given up.
    pub fn end(&mut self, alloc: Global) -> Writes
        ensures writes { result ≡ self.old.writes }
        ensures begun { self.new ≡ begun_with self.old.settings }
    {
        let txn = mem::replace(&mut self.txn, Txn::new(alloc));
        self.earlier = None;
        let (_, writes) = txn.into_parts();
        writes
    }
}
