//! The statements of a call, run over the committed tables and the source of values.
ghost use Rattle.std.specs.Prelude.{◌≡◌, ◌+◌, [], true, IsTrue, IfOk};
ghost use Rattle.svc_values.specs.declared.call.Call.TheVariants as call_variant;
ghost use Rattle.svc_values.specs.declared.frame.Up.TheVariants as up;
ghost use Rattle.svc_values.specs.meaning.Calls.{sequences_in};
ghost use Rattle.svc_values.specs.meaning.Fitting.{writes_fit};
ghost use Rattle.table_txn.specs.Knowing.{is_known};
ghost use Rattle.table_txn.specs.Readings.{StandWhere};
ghost use Rattle.server_model.specs.Draws.{brought as brought_def};
ghost use Rattle.server_session.specs.Dealing.{IsPrepared};
ghost use Rattle.server_session.specs.Desks.{at_desk};
ghost use Rattle.server_session.specs.Running.{RunsOver, ended_as};

use crate::desk::Desk;
use commit_log::Log;
use disk_model::Disk;
use mutable_values::{Grants, Kept, Source};
use server_model::ServeFault;
use std::alloc::Global;
use svc_values::{Draws, NoMemory, Settings, Statements};
use table_store::Tables;
use table_txn::{Known, Ran, Txn, TxnFault};

/// The kept draws that a call brings: with the mark those that are granted, without it none.
pub(crate) fn brought(
    alloc: Global,
    source: &Source,
    grants: &Grants,
    replay: bool,
    kept: &Draws,
) -> Result<Kept, NoMemory>
    ensures { IfOk result (λ brought. brought ≡ brought_def grants.now source.now replay kept.now) }
{
    if replay {
        source.granted(alloc, grants, kept)
    } else {
        Ok(Kept::none(alloc))
    }
}

/// Runs statements, with draws from the source and the kept ones, at a tick. What the transaction
/// read before is compared where it is not known to have what it had.
pub(crate) fn run_over<D: Disk>(
    txn: &mut Txn,
    tables: &Tables,
    known: Known,
    settings: &Settings,
    statements: &Statements,
    source: &mut Source,
    kept: &mut Kept,
    log: &mut Log,
    disk: &mut D,
    tick: u64,
) -> Result<Ran, ServeFault>
    requires fits { IsTrue (writes_fit tables.now.schemas txn.old.writes) }
    requires stands { StandWhere (is_known known) tables.now.rows txn.old.readings }
    requires prepared { IsPrepared source.old log.old (D.state disk.old) }
    ensures { RunsOver tick (record {
      tables = tables.now;
      settings = settings.now;
      txn =
          txn.old;
      statements = statements.now;
    })
        (1 + sequences_in (up.Call true [] (call_variant.Work statements.now true)))
        (record { opening = source.old; left = kept.old; log = log.old; disk = D.state disk.old })
        result txn.new (record {
          opening = source.new;
          left = kept.new;
          log = log.new;
          disk =
              D.state disk.new;
        }) }
{
    let mut desk = Desk {
        source,
        kept,
        log,
        disk,
        tick,
    };
    desk.run(txn, tables, known, settings, statements)
}

impl<D: Disk> Desk<'_, D> {
    /// Runs statements with the draws of this desk, which holds the same borrows afterwards.
    fn run(
        &mut self,
        txn: &mut Txn,
        tables: &Tables,
        known: Known,
        settings: &Settings,
        statements: &Statements,
    ) -> Result<Ran, ServeFault>
        requires fits { IsTrue (writes_fit tables.now.schemas txn.old.writes) }
        requires stands { StandWhere (is_known known) tables.now.rows txn.old.readings }
        requires prepared { IsPrepared self.old.source.now self.old.log.now
            (D.state self.old.disk.now) }
        ensures ran { RunsOver self.old.tick
            (record {
              tables = tables.now;
              settings = settings.now;
              txn = txn.old;
              statements =
                  statements.now;
            }) (1 + sequences_in
            (up.Call true [] (call_variant.Work statements.now true))) (at_desk D.state self.old)
            result txn.new (at_desk D.state self.new) }
        ensures source { self.new.source.ghost_name ≡ self.old.source.ghost_name }
        ensures kept { self.new.kept.ghost_name ≡ self.old.kept.ghost_name }
        ensures log { self.new.log.ghost_name ≡ self.old.log.ghost_name }
        ensures disk { self.new.disk.ghost_name ≡ self.old.disk.ghost_name }
    {
        ended_by(txn.run(tables, known, settings, statements, self))
    }
}

/// The same, with a fault as the session tells it.
fn ended_by(ran: Result<Ran, TxnFault>) -> Result<Ran, ServeFault>
    ensures { result ≡ ended_as ran }
{
    match ran {
        Ok(ran) => Ok(ran),
        Err(TxnFault::NoMemory) => Err(ServeFault::NoMemory),
        Err(TxnFault::Stopped) => Err(ServeFault::Stopped),
    }
}
