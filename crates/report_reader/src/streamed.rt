//! Reader of a report whose clients, entries, notes, served items and tables are read one after
//! the other.
ghost use Rattle.std.specs.Prelude.{◌≡◌, ◌<◌, length, Bool, true, Some, None, IfSome, Ok};
ghost use Rattle.serde_json.specs.Data.{Members as MemberData, object};
ghost use Rattle.json_form.specs.Faults.{Gives};
ghost use Rattle.json_form.specs.meaning.Objects.{named, known, is_among as is_among_def};
ghost use Rattle.json_form.specs.Objects.{members_at};
ghost use Rattle.json_form.specs.Streams.{Begins, members_ahead as members_ahead_def};
ghost use Rattle.told_reports.specs.Keeping.{IsTold};
ghost use Rattle.report_reader.specs.meaning.Reports.{report_members, report_in, report_of};
ghost use Rattle.report_reader.specs.Ahead.{held_members, others_in, AreRead};

use crate::report::{AlertsReader, HORIZON, image_from};
use answer_forms::{KnownRows, LtxidsReader};
use entry_forms::{clients_ahead, entries_ahead, tables_ahead};
use json_form::{DocFault, Members, is_among, object_begins, value_from};
use note_forms::{notes_ahead, served_ahead};
use outage_schedule::{
    Alerts, Document, Image, Ltxids, Notes, Report, ReportEntries, ReportTables, ServedItems,
    Transcripts,
};
use std::alloc::Global;

const HELD_PRINTED: [&str; 4] = ["alerts", "blocked", "forgotten", "image"];

const HELD_PLAIN: [&str; 3] = ["alerts", "blocked", "forgotten"];

/// Whether a member has this name whose value is held until the last member was passed. The bytes
/// of the disk are one where the document asks for them.
fn is_held(print: bool, name: &str) -> bool
    ensures { result ≡ is_among_def (held_members print) name.now }
{
    if print {
        is_among(&HELD_PRINTED, name)
    } else {
        is_among(&HELD_PLAIN, name)
    }
}

/// What was read of a report's members so far.
#[derive(Drop)]
pub struct Ahead {
    pub clients: Option<Transcripts>,
    pub entries: Option<ReportEntries>,
    pub notes: Option<Notes>,
    pub served: Option<ServedItems>,
    pub tables: Option<ReportTables>,
    pub others: Members,
}

impl Ahead {
    ghost use Rattle.std.specs.Prelude.{codes};
    ghost use Rattle.report_reader.specs.Ahead.{Passes};

    fn new(alloc: Global) -> Ahead
        ensures { (print : Bool) → AreRead print result (λ name. None) }
    {
        Ahead {
            clients: None,
            entries: None,
            notes: None,
            served: None,
            tables: None,
            others: Members::new(alloc),
        }
    }

    /// The rows that clients were shown, if clients were read.
    fn known(&self, alloc: Global) -> KnownRows {
        match self.clients.as_ref() {
            Some(clients) => KnownRows::shown(alloc, clients),
            None => KnownRows::new(alloc),
        }
    }

    fn take_clients(
        &mut self,
        alloc: Global,
        tokens: &mut json::Reader<'_>,
        depth: usize,
    ) -> Option<()>
        ensures read { IfSome result (λ _. (print : Bool)
            → Passes print depth (codes "clients") self.old tokens.old self.new tokens.new) }
        ensures shorter { IfSome result (λ _. length tokens.new < length tokens.old) }
    {
        let clients = clients_ahead(alloc, tokens, depth)?;
        self.clients = Some(clients);
        Some(())
    }

    fn take_entries(
        &mut self,
        alloc: Global,
        tokens: &mut json::Reader<'_>,
        depth: usize,
    ) -> Option<()>
        ensures read { IfSome result (λ _. (print : Bool)
            → Passes print depth (codes "entries") self.old tokens.old self.new tokens.new) }
        ensures shorter { IfSome result (λ _. length tokens.new < length tokens.old) }
    {
        let known = self.known(alloc);
        let entries = entries_ahead(alloc, tokens, depth, &known)?;
        self.entries = Some(entries);
        Some(())
    }

    /// The notes, behind which no items were read, since these are judged by them.
    fn take_notes(
        &mut self,
        alloc: Global,
        tokens: &mut json::Reader<'_>,
        depth: usize,
    ) -> Option<()>
        ensures read { IfSome result (λ _. (print : Bool)
            → Passes print depth (codes "notes") self.old tokens.old self.new tokens.new) }
        ensures shorter { IfSome result (λ _. length tokens.new < length tokens.old) }
    {
        if self.served.is_some() {
            return None;
        }
        let notes = notes_ahead(alloc, tokens, depth)?;
        self.notes = Some(notes);
        Some(())
    }

    fn take_served(
        &mut self,
        alloc: Global,
        tokens: &mut json::Reader<'_>,
        depth: usize,
    ) -> Option<()>
        ensures read { IfSome result (λ _. (print : Bool)
            → Passes print depth (codes "served") self.old tokens.old self.new tokens.new) }
        ensures shorter { IfSome result (λ _. length tokens.new < length tokens.old) }
    {
        let notes = self.notes.as_ref()?;
        let known = self.known(alloc);
        let served = served_ahead(alloc, tokens, depth, notes, &known)?;
        self.served = Some(served);
        Some(())
    }

    fn take_tables(
        &mut self,
        alloc: Global,
        tokens: &mut json::Reader<'_>,
        depth: usize,
    ) -> Option<()>
        ensures read { IfSome result (λ _. (print : Bool)
            → Passes print depth (codes "tables") self.old tokens.old self.new tokens.new) }
        ensures shorter { IfSome result (λ _. length tokens.new < length tokens.old) }
    {
        let tables = tables_ahead(alloc, tokens, depth)?;
        self.tables = Some(tables);
        Some(())
    }

    fn hold(
        &mut self,
        alloc: Global,
        tokens: &mut json::Reader<'_>,
        depth: usize,
        name: &str,
    ) -> Option<()>
        ensures read { IfSome result (λ _. (print : Bool)
            → is_among_def (held_members print) name.now ≡ true
            → Passes print depth name.now self.old tokens.old self.new tokens.new) }
        ensures shorter { IfSome result (λ _. length tokens.new < length tokens.old) }
    {
        let key = String::from_str(alloc, name).ok()?;
        let value = value_from(alloc, tokens, depth)?;
        self.others.put(key, value).ok()?;
        Some(())
    }

    /// The member with this name, whose value the tokens begin with.
    fn take(
        &mut self,
        alloc: Global,
        tokens: &mut json::Reader<'_>,
        depth: usize,
        print: bool,
        name: &str,
    ) -> Option<()>
        ensures read { IfSome result
            (λ _. Passes print depth name.now self.old tokens.old self.new tokens.new) }
        ensures known { IfSome result (λ _. is_among_def (report_members print) name.now ≡ true) }
        ensures shorter { IfSome result (λ _. length tokens.new < length tokens.old) }
    {
        if name == "clients" {
            return self.take_clients(alloc, tokens, depth);
        }
        if name == "entries" {
            return self.take_entries(alloc, tokens, depth);
        }
        if name == "notes" {
            return self.take_notes(alloc, tokens, depth);
        }
        if name == "served" {
            return self.take_served(alloc, tokens, depth);
        }
        if name == "tables" {
            return self.take_tables(alloc, tokens, depth);
        }
        if is_held(print, name) {
            return self.hold(alloc, tokens, depth, name);
        }
        None
    }
}

/// What is read of the members of a report, behind the bracket that begins it.
fn members_ahead(
    alloc: Global,
    tokens: &mut json::Reader<'_>,
    depth: usize,
    print: bool,
) -> Option<Ahead>
    ensures read { IfSome result (λ ahead. (ms : MemberData)
        × (members_ahead_def depth tokens.old ≡ Some (ms, tokens.new))
        × (known (report_members print) ms ≡ Ok tt) × AreRead print ahead (named ms)) }
    ensures shorter { IfSome result (λ _. length tokens.new < length tokens.old) }
{
    let mut ahead = Ahead::new(alloc);
    'members: while let Some(name) = tokens.next_key().ok()? {
        ahead.take(alloc, tokens, depth, print, name)?;
    }
    Some(ahead)
}

/// What a report says in the members that are held.
#[derive(Drop)]
pub struct Others {
    pub alerts: Alerts,
    pub blocked: Ltxids,
    pub forgotten: u64,
    pub image: Option<Image>,
}

/// What these members of a report say, which are taken out.
#[tactic(auto, unfolding(crate::specs::Ahead::others_in), using(json_form::proofs::Offered::others_stay, crate::proofs::Stays::image_stays))]
fn others_from(alloc: Global, members: &mut Members, print: bool) -> Result<Others, DocFault>
    ensures { Gives result (others_in print (members_at members.old)) }
{
    let alerts = members.read(alloc, "alerts", &AlertsReader)?;
    let blocked = members.read(alloc, "blocked", &LtxidsReader)?;
    let forgotten = members.optional(alloc, "forgotten", &HORIZON, 0)?;
    let image = image_from(alloc, members, print)?;
    Ok(Others {
        alerts,
        blocked,
        forgotten,
        image,
    })
}

/// The report of which this was read.
fn joined(alloc: Global, ahead: Ahead, print: bool) -> Option<Report>
    ensures { IfSome result (λ report. (ms : MemberData) → known (report_members print) ms ≡ Ok tt
        → AreRead print ahead (named ms) → report_in print (object ms) ≡ Ok report) }
{
    let Ahead {
        clients,
        entries,
        notes,
        served,
        tables,
        mut others,
    } = ahead;
    let Others {
        alerts,
        blocked,
        forgotten,
        image,
    } = others_from(alloc, &mut others, print).ok()?;
    Some(Report {
        alerts,
        blocked,
        clients: clients?,
        entries: entries?,
        forgotten,
        image,
        notes: notes?,
        served: served?,
        tables: tables?,
    })
}

/// The report of a document that the tokens begin with, nested no deeper than `depth`. Its clients,
/// entries, notes, served items and tables are read one after the other, so that no more than one
/// of them stands as a JSON value; alert lines, blocked identifiers and the bytes of the disk do so
/// until the end. There is none where there is a fault, a number that is no integer of 64 bits or
/// is `-0`, or served items before the notes: such a report is for `report_from`. The cost is
/// linear in the number of tokens, but for n log n steps over a list of n settings.
pub fn report_ahead(
    alloc: Global,
    tokens: &mut json::Reader<'_>,
    depth: usize,
    document: &Document,
) -> Option<Report>
    ensures read { IfSome result
        (λ report. Begins (report_of document.now) depth tokens.old report tokens.new) }
    ensures told { IfSome result IsTold }
    ensures shorter { IfSome result (λ _. length tokens.new < length tokens.old) }
{
    let print = document.print_image;
    let inside = object_begins(tokens, depth)?;
    let ahead = members_ahead(alloc, tokens, inside, print)?;
    joined(alloc, ahead, print)
}
