//! Places in a report, as JSON Pointers from its root.
ghost use Rattle.std.specs.Prelude.{◌≡◌, ◌∷◌, ◌++◌, List, ℕ, IfOk, decimal};
ghost use Rattle.json_form.specs.meaning.Pointers.{escaped};
ghost use Rattle.serial_check.specs.meaning.Places.{entry_at as entry_def, piece_at as piece_def, table_at as table_def};
ghost use Rattle.serial_check.specs.Pointing.{IsAt};

use json_form::{DocCode, DocFault, Pointer};
use std::alloc::Global;
use svc_values::NoMemory;

/// What is at this place of an item, seen from the list that the item is in.
fn in_list(alloc: Global, name: &str, n: usize, fault: DocFault) -> DocFault
    ensures { (place : List ℕ) → IsAt place fault
        → IsAt (47 ∷ escaped name.now ++ (47 ∷ decimal n ++ place)) result }
{
    fault.under_item(alloc, n).under(alloc, name)
}

/// The place that a fault tells.
fn place_of(fault: DocFault) -> Result<Pointer, NoMemory>
    ensures { (place : List ℕ) → IsAt place fault → IfOk result (λ found. found ≡ place) }
{
    match fault {
        DocFault::NoMemory => Err(NoMemory),
        DocFault::At { path, .. } => Ok(path),
    }
}

/// The list in the report with this name.
pub(crate) fn list(alloc: Global, name: &str) -> Result<Pointer, NoMemory>
    ensures { IfOk result (λ place. place ≡ 47 ∷ escaped name.now) }
{
    place_of(DocFault::at_member(alloc, name, DocCode::BadReport))
}

/// The entry with this number, from 0.
pub(crate) fn entry(alloc: Global, n: usize) -> Result<Pointer, NoMemory>
    ensures { IfOk result (λ place. place ≡ entry_def n) }
{
    let here = DocFault::here(alloc, DocCode::BadReport);
    place_of(in_list(alloc, "entries", n, here))
}

/// The piece with this number of an entry.
pub(crate) fn piece(alloc: Global, n: usize, p: usize) -> Result<Pointer, NoMemory>
    ensures { IfOk result (λ place. place ≡ piece_def n p) }
{
    let here = DocFault::here(alloc, DocCode::BadReport);
    let piece = in_list(alloc, "pieces", p, here);
    place_of(in_list(alloc, "entries", n, piece))
}

/// The table with this number.
pub(crate) fn table(alloc: Global, n: usize) -> Result<Pointer, NoMemory>
    ensures { IfOk result (λ place. place ≡ table_def n) }
{
    let here = DocFault::here(alloc, DocCode::BadReport);
    place_of(in_list(alloc, "tables", n, here))
}
