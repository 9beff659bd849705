//! The image that a report prints, beside the journal after the run.
ghost use Rattle.std.specs.Prelude.{◌≡◌, ◌==◌, ◌&&◌, IfOk, IfSome};
ghost use Rattle.std.specs.Cmp.Lexicographic.{pointwise};
ghost use Rattle.commit_log.specs.meaning.Journals.{journal_of};
ghost use Rattle.run_clauses.specs.meaning.Before.{journal_before, tables_of as tables_def};
ghost use Rattle.run_clauses.specs.meaning.Horizons.{last_horizon};
ghost use Rattle.run_clauses.specs.meaning.Images.{follows, image_fits as image_fits_def};
ghost use Rattle.run_clauses.specs.meaning.Serial.{same_report_table, printed_tables};
ghost use Rattle.image_check.specs.Images.{is_grown as is_grown_def, IsRead, IsUsable};

use crate::alike::{are_joined, are_one_base};
use commit_log::laws::keeps_journal;
use commit_log::{Journal, Log, LogFault};
use disk_model::MemDisk;
use journal_tables::tables_of;
use outage_schedule::{Document, Report};
use serial_check::are_printed;
use std::alloc::Global;
use svc_values::NoMemory;

/// What the log of an image has, if it is one.
fn read_of(alloc: Global, image: &[u8]) -> Result<Option<Journal>, NoMemory>
    ensures { IfOk result (IsRead (journal_of image.now)) }
{
    let mut disk = MemDisk::of(alloc, image)?;
    match Log::read(alloc, &mut disk) {
        Ok(journal) => Ok(Some(journal)),
        Err(LogFault::NoMemory) => Err(NoMemory),
        Err(LogFault::Stopped) => unreachable!(),
        Err(LogFault::Damaged(_)) => Ok(None),
    }
}

/// The same, with what it keeps.
fn journal_in(alloc: Global, image: &[u8]) -> Result<Option<Journal>, NoMemory>
    ensures is { IfOk result (IsRead (journal_of image.now)) }
    ensures usable { IfOk result (λ journal. IfSome journal IsUsable) }
{
    keeps_journal();
    read_of(alloc, image)
}

/// Whether it has the base, the entries, the blocks and the alert lines of the journal before the
/// run, followed by those of the report.
fn is_grown(before: &Journal, report: &Report, journal: &Journal) -> bool
    ensures { result ≡ is_grown_def before.now report.now journal.now }
{
    are_one_base(&journal.base, &before.base)
        && are_joined(
            journal.entries.as_slice(),
            before.entries.as_slice(),
            report.entries.as_slice(),
        )
        && are_joined(
            journal.blocked.as_slice(),
            before.blocked.as_slice(),
            report.blocked.as_slice(),
        )
        && are_joined(
            journal.alerts.as_slice(),
            before.alerts.as_slice(),
            report.alerts.as_slice(),
        )
}

/// Whether the journal's tables are those that the report prints.
fn has_tables(alloc: Global, report: &Report, journal: Journal) -> Result<bool, NoMemory>
    requires { IsUsable journal }
    ensures { IfOk result (λ has. has
        ≡ pointwise same_report_table report.now.tables
        (printed_tables journal.base (tables_def journal))) }
{
    let Journal { base, entries, .. } = journal;
    let tables = tables_of(alloc, base, entries.as_slice())?;
    are_printed(alloc, report.tables.as_slice(), tables)
}

fn has_horizon(report: &Report, journal: &Journal) -> bool
    ensures { result ≡ (journal.now.horizon == report.now.forgotten) }
{
    journal.horizon == report.forgotten
}

/// Whether a journal that was read is that after the run.
fn is_after(
    alloc: Global,
    report: &Report,
    before: &Journal,
    journal: Journal,
) -> Result<bool, NoMemory>
    requires { IsUsable journal }
    ensures { IfOk result (λ is. is
        ≡ (follows before.now report.now journal && (journal.horizon == report.now.forgotten))) }
{
    if !has_horizon(report, &journal) {
        return Ok(false);
    }
    if !is_grown(before, report, &journal) {
        return Ok(false);
    }
    has_tables(alloc, report, journal)
}

/// Whether the report has its image, where the document asks for one: that of the journal after the
/// run. Linear, and n log n for n records of the image and rows of its tables.
pub fn image_fits(
    alloc: Global,
    document: &Document,
    report: &Report,
    before: &Journal,
) -> Result<bool, NoMemory>
    requires before { before.now ≡ journal_before document.now }
    requires forgotten { report.now.forgotten ≡ last_horizon document.now report.now }
    ensures { IfOk result (λ fits. fits ≡ image_fits_def document.now report.now) }
{
    if !document.print_image {
        return Ok(true);
    }
    let Some(image) = &report.image else {
        return Ok(false);
    };
    match journal_in(alloc, image.as_slice())? {
        None => Ok(false),
        Some(journal) => is_after(alloc, report, before, journal),
    }
}
