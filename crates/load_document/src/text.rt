//! The line as JSON.
ghost use Rattle.std.specs.Prelude.{◌≡◌, ◌++◌, ◌∷◌, [], IfOk, OnOk, codes};
ghost use Rattle.json.specs.Token.{key};
ghost use Rattle.serde_json.specs.Written.{compact_text};
ghost use Rattle.json_form.specs.Tokens.{tokens_of};
ghost use Rattle.json_form.specs.meaning.Writing.{whole, integer};
ghost use Rattle.load_document.specs.meaning.Lines.{line_value};

use crate::line::LoadLine;
use json_form::TextWriter;
use std::alloc::{AllocError, Global};
use svc_values::NoMemory;

/// A member that is a count.
fn count_member(name: &str, number: u64, out: &mut TextWriter) -> Result<(), AllocError>
    ensures { OnOk result (out.new ≡ out.old ++ key name.now ∷ tokens_of (whole number)) }
{
    out.name(name)?;
    out.whole(number)
}

/// The last member.
fn total_member(line: &LoadLine, out: &mut TextWriter) -> Result<(), AllocError>
    ensures { OnOk result
        (out.new ≡ out.old ++ key (codes "total") ∷ tokens_of (integer line.now.total)) }
{
    out.name("total")?;
    out.integer(line.total)
}

/// The line as an object, its members in the order of their names.
#[tactic(auto, unfolding(crate::specs::meaning::Lines::line_value))]
fn line_written(line: &LoadLine, out: &mut TextWriter) -> Result<(), AllocError>
    ensures { OnOk result (out.new ≡ out.old ++ tokens_of (line_value line.now)) }
{
    out.begin_object()?;
    count_member("committed", line.committed, out)?;
    count_member("conflict", line.conflict, out)?;
    count_member("entries", line.entries, out)?;
    count_member("events", line.events, out)?;
    count_member("failed", line.failed, out)?;
    total_member(line, out)?;
    out.end_object()
}

/// The line as compact JSON (RFC 8259), with a line feed at its end.
pub fn line_bytes(alloc: Global, line: &LoadLine) -> Result<Vec<u8>, NoMemory>
    ensures { IfOk result (λ bytes. bytes.items ≡ compact_text (line_value line.now) ++ 10 ∷ []) }
{
    let mut out = TextWriter::new(alloc);
    line_written(line, &mut out)?;
    let mut bytes = out.into_bytes();
    bytes.push(b'\n')?;
    Ok(bytes)
}
