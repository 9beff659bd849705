//! The journal before event 1.
ghost use Rattle.std.specs.Prelude.{◌≡◌, ℕ, All, Err, Ok, IfOk, IsTrue, None};
ghost use Rattle.svc_values.specs.meaning.Fitting.{writes_fit};
ghost use Rattle.commit_log.specs.meaning.Bases.{schemas_of};
ghost use Rattle.commit_log.specs.meaning.Journals.{journal_of};
ghost use Rattle.commit_log.specs.meaning.Rules.{new_journal};
ghost use Rattle.commit_log.specs.Bases.{IsBase};
ghost use Rattle.doc_reader.specs.Keeping.{IsDocument};
ghost use Rattle.run_clauses.specs.meaning.Before.{base_of as base_def, journal_before as journal_def};

use crate::base::{sequences_in, tables_in};
use commit_log::laws::keeps_journal;
use commit_log::{Base, Blocks, Entries, Journal, Lines, Log, LogFault, Ltxids};
use disk_model::MemDisk;
use outage_schedule::{Document, Image};
use std::alloc::Global;
use svc_values::NoMemory;

/// The base of a document's tables and sequences.
fn base_of(alloc: Global, document: &Document) -> Result<Base, NoMemory>
    requires { IsDocument document.now }
    ensures { IfOk result (λ base. base ≡ base_def document.now) }
{
    let tables = tables_in(alloc, document.tables.as_slice())?;
    let sequences = sequences_in(alloc, document.sequences.as_slice())?;
    Ok(Base { tables, sequences })
}

/// A journal of nothing but this base. It takes no memory.
fn new_of(alloc: Global, base: Base) -> Journal
    ensures { result ≡ new_journal base }
{
    Journal {
        base,
        incarnation: 0,
        horizon: 0,
        entries: Entries::new(alloc),
        blocked: Ltxids::new(alloc),
        reserved: Blocks::new(alloc),
        alerts: Lines::new(alloc),
    }
}

/// The journal that an image holds.
fn journal_in(alloc: Global, image: &Image) -> Result<Journal, NoMemory>
    requires { (place : ℕ) → journal_of image.now ≡ Err place → ⊥ }
    ensures { IfOk result (λ journal. journal_of image.now ≡ Ok journal) }
{
    let mut disk = MemDisk::of(alloc, image.as_slice())?;
    match Log::read(alloc, &mut disk) {
        Ok(journal) => Ok(journal),
        Err(LogFault::NoMemory) => Err(NoMemory),
        Err(LogFault::Stopped) => unreachable!(),
        Err(LogFault::Damaged(_)) => unreachable!(),
    }
}

/// What the document's image holds, and else a journal of nothing but the base that it gives.
fn given_before(alloc: Global, document: &Document) -> Result<Journal, NoMemory>
    requires { IsDocument document.now }
    ensures { IfOk result (λ journal. journal ≡ journal_def document.now) }
{
    match &document.image {
        None => Ok(new_of(alloc, base_of(alloc, document)?)),
        Some(image) => journal_in(alloc, image),
    }
}

/// The journal before event 1: that of the document's image, and else one of nothing but the base
/// that the document gives. Linear in the document, and n log n for n records of an image.
pub fn journal_before(alloc: Global, document: &Document) -> Result<Journal, NoMemory>
    requires { IsDocument document.now }
    ensures is { IfOk result (λ journal. journal ≡ journal_def document.now) }
    ensures base { IfOk result (λ journal. IsBase journal.base) }
    ensures fitting { IfOk result (λ journal.
        All (λ entry. IsTrue (writes_fit (schemas_of journal.base) entry.writes)) journal.entries) }
{
    keeps_journal();
    let journal = given_before(alloc, document)?;
    Ok(journal)
}
