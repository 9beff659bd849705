//! Reader of the whole report.
ghost use Rattle.std.specs.Prelude.{◌≡◌, Bool, Result, IfOk};
ghost use Rattle.serde_json.specs.View.{view};
ghost use Rattle.json_form.specs.meaning.Faults.{Fault};
ghost use Rattle.json_form.specs.Faults.{Gives, GivesBy};
ghost use Rattle.json_form.specs.Objects.{members_at};
ghost use Rattle.told_reports.specs.Keeping.{IsTold};
ghost use Rattle.report_reader.specs.meaning.Reports.{alerts_in, image_bytes_in, image_in, front_in, middle_in, back_in, report_with as report_with_def, members_in, report_in, as_bad as as_bad_def, report_of};

use answer_forms::{KnownRows, LtxidsReader};
use call_forms::LineReader;
use entry_forms::{ClientsReader, EntriesReader, TablesReader};
use json_form::{
    Digits, DocCode, DocFault, Members, Reader, Whole, list_from, object_with, octets_from,
};
use note_forms::{ItemsReader, NotesReader};
use outage_schedule::{
    Alerts, Document, Image, Ltxids, Notes, Report, ReportEntries, ReportTables, ServedItems,
    Transcripts,
};
use serde_json::Value as Json;
use std::alloc::Global;
use svc_values::Listed;

/// Reads the horizon of a run that forgot something.
pub(crate) const HORIZON: Whole = Whole {
    low: 1,
    high: u64::MAX,
};

/// Reads alert lines, in order.
pub(crate) struct AlertsReader;

impl Reader<Alerts> for AlertsReader {
    ghost reads = { λ s. alerts_in };

    fn read(&self, alloc: Global, value: Json) -> Result<Alerts, DocFault> {
        let lines = list_from(alloc, value, &LineReader)?;
        Ok(Listed::from_vec(lines))
    }
}

/// Reads the bytes of the disk.
struct ImageReader;

impl Reader<Option<Image>> for ImageReader {
    ghost reads = { λ s. image_bytes_in };

    fn read(&self, alloc: Global, value: Json) -> Result<Option<Image>, DocFault> {
        let bytes = octets_from(alloc, value, Digits::Lower)?;
        Ok(Some(Listed::from_vec(bytes)))
    }
}

/// Alert lines, blocked identifiers, and what clients were shown.
#[derive(Drop)]
pub struct Front {
    pub alerts: Alerts,
    pub blocked: Ltxids,
    pub clients: Transcripts,
}

/// The first part of the report, among its members, which are taken out.
#[tactic(auto, unfolding(crate::specs::meaning::Reports::front_in), using(json_form::proofs::Offered::others_stay, crate::proofs::Stays::middle_stays, crate::proofs::Stays::back_stays))]
fn front_from(alloc: Global, members: &mut Members) -> Result<Front, DocFault>
    ensures read { Gives result (front_in (members_at members.old)) }
    ensures middle { IfOk result (λ _. (print : Bool) →
        middle_in print (members_at members.new) ≡ middle_in print (members_at members.old)) }
    ensures back { IfOk result (λ _.
        back_in (members_at members.new) ≡ back_in (members_at members.old)) }
{
    let alerts = members.read(alloc, "alerts", &AlertsReader)?;
    let blocked = members.read(alloc, "blocked", &LtxidsReader)?;
    let clients = members.read(alloc, "clients", &ClientsReader)?;
    Ok(Front {
        alerts,
        blocked,
        clients,
    })
}

/// Entries, the horizon, and the bytes of the disk.
#[derive(Drop)]
pub struct Middle {
    pub entries: ReportEntries,
    pub forgotten: u64,
    pub image: Option<Image>,
}

/// The bytes of the disk, where the document asks for them.
#[tactic(auto, using(crate::proofs::Stays::back_stays))]
pub(crate) fn image_from(
    alloc: Global,
    members: &mut Members,
    print: bool,
) -> Result<Option<Image>, DocFault>
    ensures read { Gives result (image_in print (members_at members.old)) }
    ensures back { IfOk result (λ _.
        back_in (members_at members.new) ≡ back_in (members_at members.old)) }
{
    if print {
        members.read(alloc, "image", &ImageReader)
    } else {
        Ok(None)
    }
}

/// The second part of the report, among its members, which are taken out.
#[tactic(auto, unfolding(crate::specs::meaning::Reports::middle_in), using(json_form::proofs::Offered::others_stay, crate::proofs::Stays::image_stays, crate::proofs::Stays::back_stays))]
fn middle_from(
    alloc: Global,
    members: &mut Members,
    known: &KnownRows,
    print: bool,
) -> Result<Middle, DocFault>
    ensures read { Gives result (middle_in print (members_at members.old)) }
    ensures back { IfOk result (λ _.
        back_in (members_at members.new) ≡ back_in (members_at members.old)) }
{
    let entries = members.read(alloc, "entries", &EntriesReader { known })?;
    let forgotten = members.optional(alloc, "forgotten", &HORIZON, 0)?;
    let image = image_from(alloc, members, print)?;
    Ok(Middle {
        entries,
        forgotten,
        image,
    })
}

/// Notes, the items that stand at them, and tables.
#[derive(Drop)]
pub struct Back {
    pub notes: Notes,
    pub served: ServedItems,
    pub tables: ReportTables,
}

/// The last part of the report, among its members, which are taken out.
#[tactic(auto, unfolding(crate::specs::meaning::Reports::back_in), using(json_form::proofs::Offered::others_stay))]
fn back_from(alloc: Global, members: &mut Members, known: &KnownRows) -> Result<Back, DocFault>
    ensures { Gives result (back_in (members_at members.old)) }
{
    let notes = members.read(alloc, "notes", &NotesReader)?;
    let reader = ItemsReader {
        notes: &notes,
        known,
    };
    let served = members.read(alloc, "served", &reader)?;
    let tables = members.read(alloc, "tables", &TablesReader)?;
    Ok(Back {
        notes,
        served,
        tables,
    })
}

/// The report of its three parts.
fn report_with(front: Front, middle: Middle, back: Back) -> Report
    ensures { result ≡ report_with_def front middle back }
{
    let Front {
        alerts,
        blocked,
        clients,
    } = front;
    let Middle {
        entries,
        forgotten,
        image,
    } = middle;
    let Back {
        notes,
        served,
        tables,
    } = back;
    Report {
        alerts,
        blocked,
        clients,
        entries,
        forgotten,
        image,
        notes,
        served,
        tables,
    }
}

const PRINTED: [&str; 9] = [
    "alerts",
    "blocked",
    "clients",
    "entries",
    "forgotten",
    "image",
    "notes",
    "served",
    "tables",
];

const NEEDED_PRINTED: [&str; 8] = [
    "alerts", "blocked", "clients", "entries", "image", "notes", "served", "tables",
];

const PLAIN: [&str; 8] = [
    "alerts",
    "blocked",
    "clients",
    "entries",
    "forgotten",
    "notes",
    "served",
    "tables",
];

const NEEDED_PLAIN: [&str; 7] = [
    "alerts", "blocked", "clients", "entries", "notes", "served", "tables",
];

/// The members of a report, of which none is missing and none unknown. The bytes of the disk stand
/// exactly where the document asks for them.
fn members_of(alloc: Global, value: Json, print: bool) -> Result<Members, DocFault>
    ensures { GivesBy members_at result (members_in print (view value)) }
{
    if print {
        let members = object_with(alloc, value, &PRINTED)?;
        members.require(alloc, &NEEDED_PRINTED)?;
        Ok(members)
    } else {
        let members = object_with(alloc, value, &PLAIN)?;
        members.require(alloc, &NEEDED_PLAIN)?;
        Ok(members)
    }
}

/// The report, or its first fault with the code of that fault.
#[tactic(auto, unfolding(crate::specs::meaning::Reports::report_in))]
fn report_in_form(alloc: Global, value: Json, print: bool) -> Result<Report, DocFault>
    ensures { Gives result (report_in print (view value)) }
{
    let mut members = members_of(alloc, value, print)?;
    let front = front_from(alloc, &mut members)?;
    let known = KnownRows::shown(alloc, &front.clients);
    let middle = middle_from(alloc, &mut members, &known, print)?;
    let back = back_from(alloc, &mut members, &known)?;
    Ok(report_with(front, middle, back))
}

/// A reading whose fault is told by the one code of reports.
fn as_bad<T>(read: Result<T, DocFault>) -> Result<T, DocFault>
    ensures { (r : Result T Fault) → Gives read r → Gives result (as_bad_def r) }
{
    match read {
        Ok(value) => Ok(value),
        Err(DocFault::At { path, .. }) => Err(DocFault::At {
            code: DocCode::BadReport,
            path,
        }),
        Err(DocFault::NoMemory) => Err(DocFault::NoMemory),
    }
}

/// The report of a document that a JSON value is, or the first place at fault, which has code 11.
/// No report shows writes, so its entries have none. The cost is linear in the size of the value,
/// but for n log n steps over a list of n settings.
pub fn report_from(alloc: Global, document: &Document, value: Json) -> Result<Report, DocFault>
    ensures read { Gives result (report_of document.now (view value)) }
    ensures told { IfOk result IsTold }
{
    as_bad(report_in_form(alloc, value, document.print_image))
}
