//! Readings of members and items, seen from the object or the array.
ghost use Rattle.std.specs.Prelude.{◌≡◌, Result, Ok, IfOk};
ghost use Rattle.json_form.specs.meaning.Faults.{Fault, within as within_def, within_item as within_item_def};
ghost use Rattle.json_form.specs.Faults.{Gives};

use crate::fault::DocFault;
use std::alloc::Global;

/// The reading of a member, seen from the object: a fault's place gets the member's name first. It
/// costs nothing where there is no fault.
pub fn within<T>(alloc: Global, name: &str, read: Result<T, DocFault>) -> Result<T, DocFault>
    ensures read { (r : Result T Fault) → Gives read r → Gives result (within_def name.now r) }
    ensures same { IfOk result (λ value. read ≡ Ok value) }
{
    match read {
        Ok(value) => Ok(value),
        Err(fault) => Err(fault.under(alloc, name)),
    }
}

/// The reading of the item at a position, seen from the array.
pub fn within_item<T>(alloc: Global, at: usize, read: Result<T, DocFault>) -> Result<T, DocFault>
    ensures read { (r : Result T Fault) → Gives read r → Gives result (within_item_def at r) }
    ensures same { IfOk result (λ value. read ≡ Ok value) }
{
    match read {
        Ok(value) => Ok(value),
        Err(fault) => Err(fault.under_item(alloc, at)),
    }
}
