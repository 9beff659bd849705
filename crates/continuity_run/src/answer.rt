//! What is told of a document that was read: the text that is written.
ghost use Rattle.std.specs.Prelude.{IfOk};
ghost use Rattle.doc_reader.specs.Keeping.{IsDocument};
ghost use Rattle.continuity_run.specs.meaning.Clauses.{IsReported, IsCovered, Tells};

use crate::leaving::leave;
use crate::run::run_document;
use cover_core::{counts_of_run, cover_bytes};
use outage_schedule::Document;
use report_limits::report_kept;
use report_text::report_bytes;
use std::alloc::Global;
use svc_values::NoMemory;

/// What is told of a document that is run.
#[derive(Clone, Copy, Debug, PartialEq, Eq)]
pub enum Telling {
    /// Its report.
    Report,
    /// How many of its clients' calls were protected.
    Cover,
}

/// The text that is told of the document.
pub(crate) fn text_of(
    alloc: Global,
    telling: Telling,
    document: Document,
) -> Result<Vec<u8>, NoMemory>
    requires document { IsDocument document }
    ensures { IfOk result (λ text. Tells telling document text.items) }
{
    match telling {
        Telling::Report => report_text(alloc, document),
        Telling::Cover => cover_text(alloc, document),
    }
}

/// The text of the document's report.
fn report_text(alloc: Global, document: Document) -> Result<Vec<u8>, NoMemory>
    requires document { IsDocument document }
    ensures { IfOk result (λ text. IsReported document text.items) }
{
    let (clients, report) = run_document(alloc, document)?;
    report_kept(&report);
    let text = report_bytes(alloc, &report)?;
    leave(clients);
    leave(report);
    Ok(text)
}

/// The text that tells how many calls of the document's report were protected.
fn cover_text(alloc: Global, document: Document) -> Result<Vec<u8>, NoMemory>
    requires document { IsDocument document }
    ensures { IfOk result (λ text. IsCovered document text.items) }
{
    let of = document.service;
    let (clients, report) = run_document(alloc, document)?;
    let counts = counts_of_run(alloc, &of, clients.as_slice(), report.clients.as_slice())?;
    leave(clients);
    leave(report);
    cover_bytes(alloc, counts.as_slice())
}
