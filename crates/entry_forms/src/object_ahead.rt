//! Members of an object that are read in the order in which a report is written.
ghost use Rattle.std.specs.Prelude.{◌<◌, length, IfSome};
ghost use Rattle.entry_forms.specs.ObjectsAhead.{IsNext};

use json_form::{Reader, member_begins};
use std::alloc::Global;

/// What the member that is next is read as, once it is passed. There is none where it has another
/// name, and where the reader gives none.
pub(crate) fn member_next<T: Drop, R: Reader<T>>(
    alloc: Global,
    tokens: &mut json::Reader<'_>,
    depth: usize,
    name: &str,
    reader: &R,
) -> Option<T>
    ensures next { IfSome result (λ x. IsNext
        (R.Reader.reads reader.now) name.now depth tokens.old x tokens.new) }
    ensures shorter { IfSome result (λ _. length tokens.new < length tokens.old) }
{
    member_begins(tokens, name)?;
    let value = reader.ahead(alloc, tokens, depth)?;
    Some(value)
}
