//! The counts as JSON.
ghost use Rattle.std.specs.Prelude.{◌≡◌, ◌++◌, ◌∷◌, Some, IfOk, OnOk, IsUtf8};
ghost use Rattle.json.specs.Token.{key};
ghost use Rattle.serde_json.specs.Read.{read};
ghost use Rattle.serde_json.specs.Written.{compact_text};
ghost use Rattle.json_form.specs.Tokens.{tokens_of};
ghost use Rattle.json_form.specs.meaning.Writing.{whole, list_by};
ghost use Rattle.cover_core.specs.meaning.Text.{counts_value, cover_value};

use crate::counts::Counts;
use crate::walk::ClientCounts;
use json_form::{TextWriter, Writer};
use std::alloc::{AllocError, Global};
use svc_values::NoMemory;

/// A member that is a number.
fn number_member(name: &str, number: u64, out: &mut TextWriter) -> Result<(), AllocError>
    ensures { OnOk result (out.new ≡ out.old ++ key name.now ∷ tokens_of (whole number)) }
{
    out.name(name)?;
    out.whole(number)
}

struct CountsWriter;

impl Writer<Counts> for CountsWriter {
    ghost writes = { λ s. counts_value };

    #[tactic(auto, unfolding(crate::specs::meaning::Text::counts_value))]
    fn write(&self, _alloc: Global, item: &Counts, out: &mut TextWriter) -> Result<(), AllocError> {
        out.begin_object()?;
        number_member("calls", item.calls(), out)?;
        number_member("protected", item.protected(), out)?;
        out.end_object()
    }
}

struct ClientWriter;

impl Writer<ClientCounts> for ClientWriter {
    ghost writes = { λ s. list_by counts_value };

    fn write(
        &self,
        alloc: Global,
        item: &ClientCounts,
        out: &mut TextWriter,
    ) -> Result<(), AllocError> {
        out.array_of(alloc, item.as_slice(), &CountsWriter)
    }
}

/// The counts of all clients, as an object with the one member `clients`.
#[tactic(auto, unfolding(crate::specs::meaning::Text::cover_value))]
fn cover_written(
    alloc: Global,
    all: &[ClientCounts],
    out: &mut TextWriter,
) -> Result<(), AllocError>
    ensures { OnOk result (out.new ≡ out.old ++ tokens_of (cover_value all.now)) }
{
    out.begin_object()?;
    out.name("clients")?;
    out.array_of(alloc, all, &ClientWriter)?;
    out.end_object()
}

/// The counts as compact JSON (RFC 8259), without a line end: an object for each report of each
/// client. Linear in its length.
#[tactic(auto, using(crate::proofs::CoverForm::cover_form))]
pub fn cover_bytes(alloc: Global, all: &[ClientCounts]) -> Result<Vec<u8>, NoMemory>
    ensures text { IfOk result (λ bytes. bytes.items ≡ compact_text (cover_value all.now)) }
    ensures reads { IfOk result (λ bytes. read bytes.items ≡ Some (cover_value all.now)) }
    ensures utf8 { IfOk result (λ bytes. IsUtf8 bytes.items) }
{
    let mut out = TextWriter::new(alloc);
    cover_written(alloc, all, &mut out)?;
    Ok(out.into_bytes())
}
