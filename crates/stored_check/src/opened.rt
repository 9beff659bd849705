//! Whether the store was opened before event 1.
ghost use Rattle.std.specs.Prelude.{◌≡◌, ◌≤◌, ◌^◌, ℕ, Err, IfOk};
ghost use Rattle.commit_log.specs.meaning.Journals.{so_far_of, journal_of, is_opened as is_opened_def};
ghost use Rattle.doc_reader.specs.Keeping.{IsDocument};
ghost use Rattle.run_clauses.specs.meaning.Before.{journal_before, was_opened as was_opened_def};

use commit_log::laws::keeps_journal;
use commit_log::{Journal, Log, LogFault};
use disk_model::MemDisk;
use outage_schedule::Document;
use std::alloc::Global;
use svc_values::NoMemory;

fn is_opened(alloc: Global, image: &[u8]) -> Result<bool, NoMemory>
    requires { (place : ℕ) → journal_of image.now ≡ Err place → ⊥ }
    ensures { IfOk result (λ opened. opened ≡ is_opened_def (so_far_of image.now)) }
{
    let mut disk = MemDisk::of(alloc, image)?;
    match Log::look(alloc, &mut disk) {
        Ok((_, opened)) => Ok(opened),
        Err(LogFault::NoMemory) => Err(NoMemory),
        Err(LogFault::Stopped) => unreachable!(),
        Err(LogFault::Damaged(_)) => unreachable!(),
    }
}

/// Whether the document's image has an opening. It takes the time in which the image is read.
pub(crate) fn was_opened(alloc: Global, document: &Document) -> Result<bool, NoMemory>
    requires { IsDocument document.now }
    ensures { IfOk result (λ opened. opened ≡ was_opened_def document.now) }
{
    match &document.image {
        None => Ok(false),
        Some(image) => is_opened(alloc, image.as_slice()),
    }
}

/// The incarnation of the last opening before event 1.
pub(crate) fn last_incarnation(document: &Document, before: &Journal) -> u64
    requires { before.now ≡ journal_before document.now }
    ensures is { result ≡ before.now.incarnation }
    ensures within { result ≤ 2 ^ 63 }
{
    let _ = &document.image;
    keeps_journal();
    before.incarnation
}
