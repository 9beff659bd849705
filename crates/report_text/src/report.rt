//! The whole report as JSON: its text, and the value that is read from it.
ghost use Rattle.std.specs.Prelude.{◌≡◌, ◌++◌, ◌∷◌, Some, IfOk, OnOk, IsUtf8, codes};
ghost use Rattle.json.specs.Token.{key};
ghost use Rattle.serde_json.specs.Read.{read};
ghost use Rattle.serde_json.specs.View.{view};
ghost use Rattle.serde_json.specs.Written.{compact_text};
ghost use Rattle.json_form.specs.Tokens.{tokens_of};
ghost use Rattle.json_form.specs.meaning.Writing.{text};
ghost use Rattle.report_text.specs.meaning.Values.{digits};
ghost use Rattle.report_text.specs.meaning.Report.{forgotten_member, image_member, report_value};
ghost use Rattle.report_text.specs.Tokens.{named};

use crate::entry::EntryWriter;
use crate::identifier::LtxidWriter;
use crate::item::ServedWriter;
use crate::note::NoteWriter;
use crate::part::list_member;
use crate::request::TranscriptWriter;
use crate::table::TableWriter;
use json_form::{TextWriter, Writer};
use outage_schedule::{Image, Report};
use serde_json::Value;
use std::alloc::{AllocError, Global};
use svc_values::{NoMemory, Text};

struct AlertWriter;

impl Writer<Text> for AlertWriter {
    ghost writes = { λ s. text };

    fn write(&self, _alloc: Global, item: &Text, out: &mut TextWriter) -> Result<(), AllocError> {
        out.text(item.as_str())
    }
}

/// A horizon of 0 is none.
fn forgotten_written(horizon: u64, out: &mut TextWriter) -> Result<(), AllocError>
    ensures { OnOk result (out.new ≡ out.old ++ named (forgotten_member horizon)) }
{
    if horizon == 0 {
        return Ok(());
    }
    out.name("forgotten")?;
    out.whole(horizon)
}

/// The bytes of the disk as hexadecimal digits.
fn bytes_written(alloc: Global, bytes: &Image, out: &mut TextWriter) -> Result<(), AllocError>
    ensures { OnOk result
        (out.new ≡ out.old ++ key (codes "image") ∷ tokens_of (digits bytes.now)) }
{
    out.name("image")?;
    out.octets(alloc, bytes.as_slice())
}

/// The member with the bytes of the disk, where there are any.
fn image_written(
    alloc: Global,
    image: &Option<Image>,
    out: &mut TextWriter,
) -> Result<(), AllocError>
    ensures { OnOk result (out.new ≡ out.old ++ named (image_member image.now)) }
{
    match image {
        None => Ok(()),
        Some(bytes) => bytes_written(alloc, bytes, out),
    }
}

/// The report as an object, its members in the order of their names.
fn report_written(alloc: Global, report: &Report, out: &mut TextWriter) -> Result<(), AllocError>
    ensures { OnOk result (out.new ≡ out.old ++ tokens_of (report_value report.now)) }
{
    out.begin_object()?;
    list_member(alloc, "alerts", &report.alerts, &AlertWriter, out)?;
    list_member(alloc, "blocked", &report.blocked, &LtxidWriter, out)?;
    list_member(alloc, "clients", &report.clients, &TranscriptWriter, out)?;
    list_member(alloc, "entries", &report.entries, &EntryWriter, out)?;
    forgotten_written(report.forgotten, out)?;
    image_written(alloc, &report.image, out)?;
    list_member(alloc, "notes", &report.notes, &NoteWriter, out)?;
    list_member(alloc, "served", &report.served, &ServedWriter, out)?;
    list_member(alloc, "tables", &report.tables, &TableWriter, out)?;
    out.end_object()
}

/// The report as compact JSON (RFC 8259), without a line end, written from the report as it stands:
/// no JSON value of it is made, and nothing of it is copied. A reader of JSON gets the report's
/// value from it. The cost is linear in its length.
#[tactic(auto, using(crate::proofs::ReportForm::report_form))]
pub fn report_bytes(alloc: Global, report: &Report) -> Result<Vec<u8>, NoMemory>
    ensures text { IfOk result (λ bytes. bytes.items ≡ compact_text (report_value report.now)) }
    ensures reads { IfOk result (λ bytes. read bytes.items ≡ Some (report_value report.now)) }
    ensures utf8 { IfOk result (λ bytes. IsUtf8 bytes.items) }
{
    let mut out = TextWriter::new(alloc);
    report_written(alloc, report, &mut out)?;
    Ok(out.into_bytes())
}

/// The report as a JSON value, read from its text, so that there is one writer of the form. Text
/// and value are held at once while it is read; `report_bytes` makes no value. The cost is linear
/// in the text's length.
pub fn report_of(alloc: Global, report: &Report) -> Result<Value, NoMemory>
    ensures { IfOk result (λ value. view value ≡ report_value report.now) }
{
    let bytes = report_bytes(alloc, report)?;
    match Value::from_slice(alloc, bytes.as_slice()) {
        Ok(value) => Ok(value),
        Err(error) => if error.is_memory() {
            Err(NoMemory)
        } else {
            unreachable!()
        },
    }
}
