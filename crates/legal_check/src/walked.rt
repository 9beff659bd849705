//! The walk of a report's items from what stands before event 1.
ghost use Rattle.std.specs.Prelude.{◌≡◌, is_none, map, IfOk};
ghost use Rattle.doc_reader.specs.Keeping.{IsDocument};
ghost use Rattle.legal_items.specs.Views.{item_in};
ghost use Rattle.plain_items.specs.Views.{item_as};
ghost use Rattle.run_clauses.specs.meaning.ServiceBase.{service_base};
ghost use Rattle.server_model.specs.meaning.Legal.{items_hold};
ghost use Rattle.server_model.specs.meaning.Walk.{walk_of};

use crate::sequences::sequences_of;
use before_run::{indexes_of, journal_before};
use commit_log::Journal;
use journal_tables::indexed_tables_of;
use legal_items::PlacedItem;
use legal_walk::{Start, Unlawful, first_unlawful};
use mutable_values::Grants;
use outage_schedule::{Document, Report};
use plain_items::Item;
use serial_check::{indexes_for, names_of};
use std::alloc::Global;
use svc_values::NoMemory;

/// The items without their places.
fn plain_of<'a>(alloc: Global, items: &[PlacedItem<'a>]) -> Result<Vec<Item<'a>>, NoMemory>
    ensures { IfOk result (λ plain. map item_as plain.items ≡ map item_in items.now) }
{
    let mut plain = Vec::with_capacity(alloc, items.len())?;
    for one in items {
        plain.push(one.item)?;
    }
    Ok(plain)
}

/// The first item that does not hold, from what stands before event 1 of a document, or behind all
/// of them the first entry of the report that none stored.
pub(crate) fn wrong_item(
    alloc: Global,
    document: &Document,
    report: &Report,
    items: &[PlacedItem<'_>],
) -> Result<Option<Unlawful>, NoMemory>
    requires { IsDocument document.now }
    ensures { IfOk result (λ one. is_none one ≡ items_hold (service_base document.now)
        (walk_of (service_base document.now) report.now.entries) (map item_in items.now)) }
{
    let plain = plain_of(alloc, items)?;
    let before = journal_before(alloc, document)?;
    let sequences = sequences_of(alloc, &before)?;
    let Journal {
        base,
        entries,
        blocked,
        incarnation,
        ..
    } = before;
    let names = names_of(alloc, &base.sequences)?;
    let declared = indexes_of(alloc, document.tables.as_slice())?;
    let indexes = indexes_for(alloc, &base, report.entries.as_slice(), declared)?;
    let tables = indexed_tables_of(alloc, base, entries.as_slice(), indexes.as_slice())?;
    let keep = document.service.keep;
    let start = Start {
        tables,
        names,
        sequences,
        grants: Grants {
            seq: keep.seq,
            clock: keep.clock,
            id: keep.id,
        },
        entries: entries.as_slice(),
        blocked: blocked.as_slice(),
        incarnation,
    };
    first_unlawful(alloc, start, report.entries.as_slice(), plain.as_slice())
}
