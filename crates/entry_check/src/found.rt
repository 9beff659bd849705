//! Identifiers that stand in a report once.
ghost use Rattle.std.specs.Prelude.{◌≡◌, is_none, IfOk, None};
ghost use Rattle.svc_values.specs.declared.entry.Ltxid.{Ltxid as Id};
ghost use Rattle.run_clauses.specs.meaning.Tried.{holds, ids_differ};
ghost use Rattle.entry_check.specs.Ids.{ids_in};

use crate::gather::IdAt;
use crate::place::Place;
use identifier_sets::Ids;
use std::alloc::Global;
use svc_values::NoMemory;

/// A set of identifiers, and the place of the first that was met a second time.
#[derive(Drop)]
pub(crate) struct Found {
    pub(crate) ids: Ids,
    pub(crate) twice: Option<Place>,
}

/// The set of the identifiers, up to the first that is met a second time.
pub(crate) fn set_of(alloc: Global, all: &[IdAt]) -> Result<Found, NoMemory>
    ensures twice { IfOk result (λ found. is_none found.twice ≡ ids_differ (ids_in all.now)) }
    ensures all { IfOk result (λ found. found.twice ≡ None → (x : Id)
        → holds found.ids x ≡ holds (ids_in all.now) x) }
{
    let mut ids = Ids::new(alloc);
    for one in all {
        if ids.has(&one.ltxid) {
            let twice = Some(one.place);
            return Ok(Found { ids, twice });
        }
        ids.add(&one.ltxid)?;
    }
    Ok(Found { ids, twice: None })
}
