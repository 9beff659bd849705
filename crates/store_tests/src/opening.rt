//! Stores that are made and opened.
ghost use Rattle.std.specs.Prelude.{IfOk, IfSome};
ghost use Rattle.disk_model.specs.Disk.{IsSettled};
ghost use Rattle.commit_log.specs.Bases.{IsBase};
ghost use Rattle.commit_log.specs.Logs.{CanLog};

use commit_log::{Base, BaseSequences, BaseTables, Journal, Log, LogFault};
use disk_model::Disk;
use std::alloc::Global;

#[tactic(auto, unfolding(commit_log::specs::meaning::Bases::is_base))]
pub fn no_tables(alloc: Global) -> Base
    ensures { IsBase result }
{
    Base {
        tables: BaseTables::new(alloc),
        sequences: BaseSequences::new(alloc),
    }
}

/// Opens the store with this horizon, if an opening may have it.
pub fn open_with<D: Disk>(
    alloc: Global,
    disk: &mut D,
    horizon: u64,
) -> Result<Option<(Log, Journal)>, LogFault>
    requires { IsSettled (D.state disk.old) }
    ensures { IfOk result (λ opened. IfSome opened (λ one. CanLog one.0 (D.state disk.new))) }
{
    let journal = Log::read(alloc, disk)?;
    if journal.incarnation >= 1 << 63 || horizon > journal.incarnation + 1 {
        return Ok(None);
    }
    let opened = Log::open(alloc, disk, horizon)?;
    Ok(Some(opened))
}
