//! The verdict on a report.
ghost use Rattle.std.specs.Prelude.{◌≡◌, IfOk};
ghost use Rattle.doc_reader.specs.Keeping.{IsDocument};
ghost use Rattle.told_reports.specs.Keeping.{IsTold};
ghost use Rattle.report_check.specs.Judged.{IsJudged};

use entry_check::{judge_once, judge_same};
use json_form::Pointer;
use legal_check::judge_legal;
use outage_schedule::{Document, Report};
use program_ends::Clause;
use serial_check::laws::{fresh_is_placed, serial_is_placed};
use serial_check::{judge_fresh, judge_serial};
use std::alloc::Global;
use stored_check::judge_stored;
use svc_values::NoMemory;
use whole_check::judge_whole;

/// Whether each clause that is judged holds.
#[derive(Debug, Drop)]
pub enum Verdict {
    /// Each holds.
    Yes,
    /// This one is the first that does not. The path is a JSON Pointer (RFC 6901) from the report
    /// to the place where it fails: of `Serial` and `Fresh` it is promised that it is the first
    /// such place.
    No { clause: Clause, path: Pointer },
}

/// Judges a report with its document. A later clause is looked at only where those before it hold.
/// The cost is that of the judges of the clauses one after the other.
pub fn judge(alloc: Global, document: &Document, report: &Report) -> Result<Verdict, NoMemory>
    requires document { IsDocument document.now }
    requires told { IsTold report.now }
    ensures { IfOk result (IsJudged document.now report.now) }
{
    serial_is_placed();
    fresh_is_placed();
    if let Some(path) = judge_serial(alloc, document, report)? {
        return Ok(against(Clause::Serial, path));
    }
    if let Some(path) = judge_fresh(alloc, report)? {
        return Ok(against(Clause::Fresh, path));
    }
    if let Some(path) = judge_legal(alloc, document, report)? {
        return Ok(against(Clause::Legal, path));
    }
    if let Some(path) = judge_once(alloc, document, report)? {
        return Ok(against(Clause::Once, path));
    }
    if let Some(path) = judge_same(alloc, document, report)? {
        return Ok(against(Clause::Same, path));
    }
    if let Some(path) = judge_stored(alloc, document, report)? {
        return Ok(against(Clause::Stored, path));
    }
    if let Some(path) = judge_whole(alloc, document, report)? {
        return Ok(against(Clause::Whole, path));
    }
    Ok(Verdict::Yes)
}

/// That this clause is the first that fails, there.
fn against(clause: Clause, path: Pointer) -> Verdict
    ensures { result ≡ Verdict.No clause path }
{
    Verdict::No { clause, path }
}
