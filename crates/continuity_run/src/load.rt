//! What the command `load` writes.
ghost use Rattle.std.specs.Prelude.{IfOk};
ghost use Rattle.doc_reader.specs.Keeping.{IsDocument};
ghost use Rattle.continuity_run.specs.meaning.Load.{IsLined, IsLoaded};
ghost use Rattle.command_words.specs.LoadWords.{HasLoadNumbers};

use crate::leaving::leave;
use crate::run::run_document;
use load_document::{line_bytes, line_of, load_document};
use load_laws::laws::loads_keep_total;
use outage_schedule::Document;
use std::alloc::Global;
use svc_values::NoMemory;

/// The line of the document's report.
pub(crate) fn line_text(alloc: Global, document: Document) -> Result<Vec<u8>, NoMemory>
    requires document { IsDocument document }
    ensures { IfOk result (λ text. IsLined document text.items) }
{
    let (clients, report) = run_document(alloc, document)?;
    let line = line_of(&report)?;
    leave(clients);
    leave(report);
    line_bytes(alloc, &line)
}

/// The line of the document that is made of the numbers.
pub(crate) fn load_text(
    alloc: Global,
    seed: u64,
    clients: u64,
    requests: u64,
) -> Result<Vec<u8>, NoMemory>
    requires { HasLoadNumbers clients requests }
    ensures { IfOk result (λ text. IsLoaded seed clients requests text.items) }
{
    loads_keep_total();
    let document = load_document(alloc, seed, clients, requests)?;
    line_text(alloc, document)
}
