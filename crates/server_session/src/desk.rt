//! Where the values come from that a call draws: the kept ones, and then the source, whose
//! reservations are stored before a value of one is given.
ghost use Rattle.std.specs.Prelude.{◌≡◌, true, IsTrue, IfOk, OnErr, IsErrOf, Some};
ghost use Rattle.svc_values.specs.Draws.{is_there as is_there_def};
ghost use Rattle.mutable_values.specs.Sources.{HasRoom, draw_of, may_reserve, names_of};
ghost use Rattle.server_session.specs.Dealing.{IsPrepared, IsReady, Reserves, DealsAs};

use crate::store::stored;
use commit_log::Log;
use disk_model::Disk;
use mutable_values::{DrawFault, Drawn, Kept, Source};
use server_model::ServeFault;
use std::alloc::Global;
use stmt_meaning::{DrawFrom, DrawFromFault};
use svc_values::{Draw, DrawKind, Name};

/// A source with the draws that are kept for a replay, beside the log in which its reservations are
/// stored and the log's disk.
#[derive(Drop)]
pub(crate) struct Desk<'a, D: Disk> {
    pub(crate) source: &'a mut Source,
    pub(crate) kept: &'a mut Kept,
    pub(crate) log: &'a mut Log,
    pub(crate) disk: &'a mut D,
    pub(crate) tick: u64,
}

impl<D: Disk> DrawFrom for Desk<'_, D> {
    ghost use Rattle.mutable_values.specs.Sources.{names_of};
    ghost use Rattle.server_session.specs.Dealing.{IsReady};
    ghost use Rattle.server_session.specs.Desks.{DrewAt};

    ghost names = { λ desk. names_of desk.source.now.sequences };

    ghost drew = { DrewAt D.state };

    ghost is_ready = { λ desk. IsReady desk.source.now desk.log.now (D.state desk.disk.now) };

    fn draw(&mut self, alloc: Global, kind: &DrawKind) -> Result<Draw, DrawFromFault> {
        if !self.source.is_there(kind) {
            return Err(DrawFromFault::NoSequence);
        }
        match draw_value(
            alloc,
            kind,
            self.source,
            self.kept,
            self.log,
            self.disk,
            self.tick,
        ) {
            Ok(draw) => Ok(draw),
            Err(ServeFault::NoMemory) => Err(DrawFromFault::NoMemory),
            Err(ServeFault::Stopped) => Err(DrawFromFault::Stopped),
        }
    }
}

/// A value of the kind, which is there.
fn draw_value<D: Disk>(
    alloc: Global,
    kind: &DrawKind,
    source: &mut Source,
    kept: &mut Kept,
    log: &mut Log,
    disk: &mut D,
    now: u64,
) -> Result<Draw, ServeFault>
    requires there { is_there_def (names_of source.old.sequences) kind.now ≡ true }
    requires ready { IsReady source.old log.old (D.state disk.old) }
    ensures drawn { DealsAs now (record {
      opening = source.old;
      left = kept.old;
      log =
          log.old;
      disk = D.state disk.old;
    }) kind.now result
        (record { opening = source.new; left = kept.new; log = log.new; disk = D.state disk.new }) }
    ensures names { names_of source.new.sequences ≡ names_of source.old.sequences }
    ensures ready { IsReady source.new log.new (D.state disk.new) }
{
    if !log.is_live() {
        return Err(ServeFault::Stopped);
    }
    match ask(alloc, kind, source, kept, now)? {
        Drawn::Value(draw) => Ok(draw),
        Drawn::Reserve { name, upto } => {
            reserve(source, log, disk, &name, upto)?;
            match ask(alloc, kind, source, kept, now)? {
                Drawn::Value(draw) => Ok(draw),
                Drawn::Reserve { .. } => unreachable!(),
            }
        }
    }
}

/// What the source answers to a draw, of a kind that is there. Where it has no room for another
/// value there is no memory.
fn ask(
    alloc: Global,
    kind: &DrawKind,
    source: &mut Source,
    kept: &mut Kept,
    now: u64,
) -> Result<Drawn, ServeFault>
    requires { is_there_def (names_of source.old.sequences) kind.now ≡ true }
    ensures asked { IfOk result (λ told. draw_of source.old kept.old kind.now now
        ≡ Some (record { answer = told; opening = source.new; kept = kept.new })) }
    ensures room { IfOk result (λ told. HasRoom source.old) }
    ensures source { OnErr result (source.new ≡ source.old) }
    ensures kept { OnErr result (kept.new ≡ kept.old) }
    ensures err { OnErr result (IsErrOf result ServeFault.NoMemory) }
{
    if !source.has_room() {
        return Err(ServeFault::NoMemory);
    }
    match source.draw(alloc, kind, kept, now) {
        Ok(told) => Ok(told),
        Err(DrawFault::NoMemory) => Err(ServeFault::NoMemory),
        Err(DrawFault::NoSequence) => unreachable!(),
    }
}

/// Stores a reservation, and then takes it into use.
fn reserve<D: Disk>(
    source: &mut Source,
    log: &mut Log,
    disk: &mut D,
    name: &Name,
    upto: i64,
) -> Result<(), ServeFault>
    requires prepared { IsPrepared source.old log.old (D.state disk.old) }
    requires may { IsTrue (may_reserve source.old name.now upto) }
    ensures { Reserves name.now upto result source.old (D.state disk.old) source.new log.new
        (D.state disk.new) }
{
    stored(log.reserve(disk, name, upto))?;
    source.reserved(name, upto);
    Ok(())
}
