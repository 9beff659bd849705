//! The report of a run that is over.
ghost use Rattle.std.specs.Prelude.{◌≡◌, IfOk, OnOk, drop, map};
ghost use Rattle.service_calls.specs.Ended.{IsEndOf};
ghost use Rattle.continuity_run.specs.meaning.Headline.{image_if};
ghost use Rattle.continuity_run.specs.Reading.{IsReadOff, MayBeRead, printed_by};

use crate::store::Before;
use commit_log::Recorded;
use outage_schedule::{Image, Report, ReportTable, ReportTables};
use service_calls::{Ended, ServeFault, Service};
use std::alloc::Global;
use svc_values::{Listed, NoMemory};
use table_store::{TableRows, Tables};
use world_run::Ran;

/// What stands behind the first of these.
fn behind<T: Drop>(alloc: Global, all: Vec<T>, first: usize) -> Result<Listed<T>, NoMemory>
    ensures { IfOk result (λ later. later ≡ drop first all.items) }
{
    let later = all.into_iter().skip(first).collect(alloc)?;
    Ok(Listed::from_vec(later))
}

/// The rows of each table, in order of key. They are moved, and the time is linear in them.
#[tactic(auto, using(crate::proofs::ReadOff::given_printed))]
fn report_tables(alloc: Global, tables: Tables) -> Result<ReportTables, NoMemory>
    ensures { IfOk result (λ all. all ≡ map (printed_by tables.rows) tables.schemas) }
{
    let mut all = Vec::new(alloc);
    for one in tables.into_rows()? {
        let TableRows { table, rows } = one;
        all.push(ReportTable {
            name: table,
            rows: Listed::from_vec(rows),
        })?;
    }
    Ok(Listed::from_vec(all))
}

/// What the service leaves at its end.
fn ended_of<S: Service>(alloc: Global, service: S) -> Result<Ended, NoMemory>
    requires { MayBeRead (S.sees service) 1 }
    ensures { IfOk result (IsEndOf (S.bytes service)) }
{
    match service.into_ended(alloc) {
        Ok(ended) => Ok(ended),
        Err(ServeFault::NoMemory) => Err(NoMemory),
        Err(ServeFault::Stopped) => unreachable!(),
    }
}

/// The bytes of the disk, where they are asked for.
fn image_of<S: Service>(
    alloc: Global,
    service: &mut S,
    print_image: bool,
) -> Result<Option<Image>, NoMemory>
    requires { MayBeRead (S.sees service.old) 2 }
    ensures image { IfOk result (λ image. image ≡ image_if print_image (S.bytes service.old)) }
    ensures unwritten { OnOk result (S.bytes service.new ≡ S.bytes service.old) }
    ensures again { OnOk result (MayBeRead (S.sees service.new) 1) }
{
    if !print_image {
        return Ok(None);
    }
    match service.image(alloc) {
        Ok(bytes) => Ok(Some(Listed::from_vec(bytes))),
        Err(ServeFault::NoMemory) => Err(NoMemory),
        Err(ServeFault::Stopped) => unreachable!(),
    }
}

/// The report: what the disk holds at the end, as an opening would read it, with what the run did.
pub(crate) fn report_of<S: Service + Drop>(
    alloc: Global,
    ran: Ran<S>,
    before: Before,
    print_image: bool,
) -> Result<Report, NoMemory>
    requires { MayBeRead (S.sees ran.service) 2 }
    ensures { IfOk result (IsReadOff (S.bytes ran.service) before print_image ran) }
{
    let Ran {
        mut service,
        notes,
        served,
        clients,
    } = ran;
    let image = image_of(alloc, &mut service, print_image)?;
    let Ended { recorded, tables } = ended_of(alloc, service)?;
    let Recorded {
        horizon,
        entries,
        blocked,
        alerts,
    } = recorded;
    Ok(Report {
        alerts: behind(alloc, alerts.into_vec(), before.alerts)?,
        blocked: behind(alloc, blocked.into_vec(), before.blocked)?,
        clients,
        entries: behind(alloc, entries.into_vec(), before.entries)?,
        forgotten: horizon,
        image,
        notes,
        served,
        tables: report_tables(alloc, tables)?,
    })
}
