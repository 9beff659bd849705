//! From bytes to a JSON value.
ghost use Rattle.serde_json.specs.View.{view};
ghost use Rattle.json_form.specs.Faults.{GivesBy};
ghost use Rattle.json_form.specs.meaning.Texts.{json_of, json_at};

use crate::fault::{DocCode, DocFault};
use serde_json::Value;
use std::alloc::Global;

/// The JSON value that bytes spell. Bytes that are not UTF-8 spell none.
fn value_from(alloc: Global, bytes: &[u8]) -> Result<Value, DocFault>
    ensures { GivesBy view result (json_of bytes.now) }
{
    match Value::from_slice(alloc, bytes) {
        Ok(value) => Ok(value),
        Err(e) => if e.is_memory() {
            Err(DocFault::NoMemory)
        } else {
            Err(DocFault::here(alloc, DocCode::NotJson))
        },
    }
}

/// The JSON value (RFC 8259) that at most `limit` bytes spell. Of equal members of an object the
/// last one stands. Nesting past 127, a lone surrogate and a number whose nearest double is
/// infinite are no JSON here. The cost is linear in the number of bytes, but for the n log n
/// comparisons of the names of an object's n members.
pub fn json_from(alloc: Global, bytes: &[u8], limit: usize) -> Result<Value, DocFault>
    ensures { GivesBy view result (json_at limit bytes.now) }
{
    if bytes.len() > limit {
        return Err(DocFault::here(alloc, DocCode::TooLong));
    }
    value_from(alloc, bytes)
}
