//! Reader of an object that has a document and a report.
ghost use Rattle.std.specs.Prelude.{◌≡◌, ◌<◌, [], Some, None, Ok, IfOk, IfSome};
ghost use Rattle.json.specs.Json.{read_key};
ghost use Rattle.serde_json.specs.Data.{Data, Members as MemberData, object};
ghost use Rattle.serde_json.specs.Read.{read};
ghost use Rattle.serde_json.specs.View.{view};
ghost use Rattle.json_form.specs.Faults.{Gives};
ghost use Rattle.json_form.specs.Streams.{members_ahead};
ghost use Rattle.doc_reader.specs.Keeping.{IsDocument};
ghost use Rattle.told_reports.specs.Keeping.{IsTold};
ghost use Rattle.report_check.specs.meaning.Pairs.{pair_of, pair_at};

use doc_reader::{document_ahead, document_from};
use json::{Reader, Scratch};
use json_form::{DocFault, json_from, object_begins, object_with, within};
use outage_schedule::{Document, Report};
use report_reader::{report_ahead, report_from};
use serde_json::Value as Json;
use std::alloc::Global;

/// The most bytes that a document and a report may have together, which is 64 MiB.
pub const CHECK_LIMIT: usize = 67_108_864;

/// How deep arrays and objects may nest.
const DEPTH: usize = 127;

/// The document and the report of a JSON value.
#[tactic(auto, unfolding(crate::specs::meaning::Pairs::pair_of), using(json_form::proofs::Offered::others_stay))]
fn pair_in(alloc: Global, value: Json) -> Result<(Document, Report), DocFault>
    ensures read { Gives result (pair_of (view value)) }
    ensures document { IfOk result (λ pair. IsDocument pair.0) }
    ensures told { IfOk result (λ pair. IsTold pair.1) }
{
    let mut members = object_with(alloc, value, &["document", "report"])?;
    let document = members.required(alloc, "document")?;
    let report = members.required(alloc, "report")?;
    let document = within(alloc, "document", document_from(alloc, document))?;
    let report = within(alloc, "report", report_from(alloc, &document, report))?;
    Ok((document, report))
}

/// Passes the name of a member, which has to be this one.
fn pass_name(tokens: &mut Reader<'_>, name: &str) -> Option<()>
    ensures { IfSome result (λ _. read_key tokens.old ≡ Some (Some name.now, tokens.new)) }
{
    let found = tokens.next_key().ok()??;
    if found == name { Some(()) } else { None }
}

/// Passes the brace that ends an object, behind which there is nothing.
fn pass_end(tokens: &mut Reader<'_>) -> Option<()>
    ensures { IfSome result (λ _. read_key tokens.old ≡ Some (None, [])) }
{
    match tokens.next_key().ok()? {
        Some(_) => None,
        None => if tokens.next().is_none() {
            Some(())
        } else {
            None
        },
    }
}

/// The document and then the report that are the members of an object, behind the brace that begins
/// it. There is nothing behind the object.
fn pair_ahead(alloc: Global, tokens: &mut Reader<'_>, depth: usize) -> Option<(Document, Report)>
    ensures read { IfSome result (λ pair. (ms : MemberData)
        × (members_ahead depth tokens.old ≡ Some (ms, [])) × (pair_of (object ms) ≡ Ok pair)) }
    ensures document { IfSome result (λ pair. IsDocument pair.0) }
    ensures told { IfSome result (λ pair. IsTold pair.1) }
{
    pass_name(tokens, "document")?;
    let document = document_ahead(alloc, tokens, depth)?;
    pass_name(tokens, "report")?;
    let report = report_ahead(alloc, tokens, depth, &document)?;
    pass_end(tokens)?;
    Some((document, report))
}

/// The document and then the report of the object that the text spells.
fn text_ahead(alloc: Global, text: &str) -> Option<(Document, Report)>
    ensures read { IfSome result
        (λ pair. (d : Data) × (read text.now ≡ Some d) × (pair_of d ≡ Ok pair)) }
    ensures document { IfSome result (λ pair. IsDocument pair.0) }
    ensures told { IfSome result (λ pair. IsTold pair.1) }
{
    let mut scratch = Scratch::new(alloc);
    let mut tokens = Reader::new(text, &mut scratch).ok()?;
    let inside = object_begins(&mut tokens, DEPTH)?;
    pair_ahead(alloc, &mut tokens, inside)
}

/// The document and its report that the bytes spell, of which the report is read item by item.
/// There are none where there is a fault, and in the forms that are read otherwise: `pair_from`
/// says which.
fn streamed(alloc: Global, bytes: &[u8]) -> Option<(Document, Report)>
    ensures read { IfSome result (λ pair. pair_at bytes.now ≡ Ok pair) }
    ensures document { IfSome result (λ pair. IsDocument pair.0) }
    ensures told { IfSome result (λ pair. IsTold pair.1) }
{
    if bytes.len() > CHECK_LIMIT {
        return None;
    }
    let text = simdutf8::compat::from_utf8(bytes).ok()?;
    text_ahead(alloc, text)
}

/// The document and its report that the bytes spell as a JSON object (RFC 8259), of at most 64 MiB,
/// or the first fault and its place. A fault of the object comes first, then one of the document,
/// and then one of the report, which has code 11. No more than one table, client or event of the
/// document stands there as a JSON value, and of the report one client, entry, note, served item or
/// table, beside its alert lines, blocked identifiers and the bytes of its disk. But where there is
/// a fault, a number that is no integer of 64 bits or is `-0`, a report before the document or
/// served items before the notes, the whole object does so. The cost is linear in the number of
/// bytes, but for the n log n comparisons of keys and names that stand in no rising order. Memory
/// is what is read, the bytes, and as many once more meanwhile, as room for texts with escapes.
pub fn pair_from(alloc: Global, bytes: &[u8]) -> Result<(Document, Report), DocFault>
    ensures read { Gives result (pair_at bytes.now) }
    ensures document { IfOk result (λ pair. IsDocument pair.0) }
    ensures told { IfOk result (λ pair. IsTold pair.1) }
{
    if let Some(pair) = streamed(alloc, bytes) {
        return Ok(pair);
    }
    pair_in(alloc, json_from(alloc, bytes, CHECK_LIMIT)?)
}
