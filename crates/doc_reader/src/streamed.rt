//! Reader of a document whose tables, clients and events are read one after the other.
ghost use Rattle.std.specs.Prelude.{◌≡◌, ◌<◌, length, true, Some, None, IfSome, Ok, codes, option_map};
ghost use Rattle.serde_json.specs.Data.{Data, Members as MemberData, object};
ghost use Rattle.serde_json.specs.Read.{read};
ghost use Rattle.json_form.specs.meaning.Objects.{Named, named, known, is_among as is_among_def};
ghost use Rattle.json_form.specs.Objects.{members_at};
ghost use Rattle.json_form.specs.Streams.{Begins, members_ahead as members_ahead_def};
ghost use Rattle.document_forms.specs.meaning.Tables.{tables_of};
ghost use Rattle.doc_reader.specs.meaning.Documents.{begin_of, document_members, document_of, document_at};
ghost use Rattle.doc_reader.specs.Keeping.{IsDocument};
ghost use Rattle.doc_reader.specs.Ahead.{held_members, held_back, AreRead, Passes};

use crate::counts::small;
use crate::document::{Begin, begin_from, clients_ahead, document_with};
use document_forms::{all_fit, schedule_ahead, tables_ahead};
use document_limits::DOCUMENT_LIMIT;
use json::{Reader, Scratch};
use json_form::{Members, is_among, object_begins, value_from};
use outage_schedule::{Clients, DocTables, Document, Events};
use std::alloc::Global;
use svc_values::Listed;

/// How deep arrays and objects may nest.
const DEPTH: usize = 127;

/// The other members. Their values are held until the last member was passed.
const HELD: [&str; 4] = ["service", "sequences", "image", "print_image"];

/// What was read of a document's members so far.
#[derive(Drop)]
pub struct Ahead {
    pub tables: Option<DocTables>,
    pub clients: Option<Clients>,
    pub schedule: Option<Events>,
    pub others: Members,
}

impl Ahead {
    fn new(alloc: Global) -> Ahead
        ensures { AreRead result (λ name. None) }
    {
        Ahead {
            tables: None,
            clients: None,
            schedule: None,
            others: Members::new(alloc),
        }
    }

    fn take_tables(&mut self, alloc: Global, tokens: &mut Reader<'_>, depth: usize) -> Option<()>
        ensures read { IfSome result (λ _. Passes depth (codes "tables") self.old tokens.old
            self.new tokens.new) }
        ensures shorter { IfSome result (λ _. length tokens.new < length tokens.old) }
    {
        let tables = tables_ahead(alloc, tokens, depth)?;
        self.tables = Some(tables);
        Some(())
    }

    fn take_clients(&mut self, alloc: Global, tokens: &mut Reader<'_>, depth: usize) -> Option<()>
        ensures read { IfSome result (λ _. Passes depth (codes "clients") self.old tokens.old
            self.new tokens.new) }
        ensures shorter { IfSome result (λ _. length tokens.new < length tokens.old) }
    {
        let clients = clients_ahead(alloc, tokens, depth)?;
        self.clients = Some(clients);
        Some(())
    }

    /// The events, whose clients may stand behind them.
    fn take_schedule(&mut self, alloc: Global, tokens: &mut Reader<'_>, depth: usize) -> Option<()>
        ensures read { IfSome result (λ _. Passes depth (codes "schedule") self.old tokens.old
            self.new tokens.new) }
        ensures shorter { IfSome result (λ _. length tokens.new < length tokens.old) }
    {
        let events = schedule_ahead(alloc, tokens, depth)?;
        self.schedule = Some(events);
        Some(())
    }

    fn hold(
        &mut self,
        alloc: Global,
        tokens: &mut Reader<'_>,
        depth: usize,
        name: &str,
    ) -> Option<()>
        ensures read { IfSome result (λ _. is_among_def held_members name.now ≡ true
            → Passes depth name.now self.old tokens.old self.new tokens.new) }
        ensures shorter { IfSome result (λ _. length tokens.new < length tokens.old) }
    {
        let key = String::from_str(alloc, name).ok()?;
        let value = value_from(alloc, tokens, depth)?;
        self.others.put(key, value).ok()?;
        Some(())
    }

    /// The member with this name, whose value the tokens begin with.
    fn take(
        &mut self,
        alloc: Global,
        tokens: &mut Reader<'_>,
        depth: usize,
        name: &str,
    ) -> Option<()>
        ensures read { IfSome result (λ _. Passes depth name.now self.old tokens.old self.new
            tokens.new) }
        ensures known { IfSome result (λ _. is_among_def document_members name.now ≡ true) }
        ensures shorter { IfSome result (λ _. length tokens.new < length tokens.old) }
    {
        if name == "tables" {
            return self.take_tables(alloc, tokens, depth);
        }
        if name == "clients" {
            return self.take_clients(alloc, tokens, depth);
        }
        if name == "schedule" {
            return self.take_schedule(alloc, tokens, depth);
        }
        if is_among(&HELD, name) {
            return self.hold(alloc, tokens, depth, name);
        }
        None
    }
}

/// What is read of the members of an object, behind the bracket that begins it.
fn members_ahead(alloc: Global, tokens: &mut Reader<'_>, depth: usize) -> Option<Ahead>
    ensures read { IfSome result (λ ahead. (ms : MemberData)
        × (members_ahead_def depth tokens.old ≡ Some (ms, tokens.new))
        × (known document_members ms ≡ Ok tt) × AreRead ahead (named ms)) }
    ensures shorter { IfSome result (λ _. length tokens.new < length tokens.old) }
{
    let mut ahead = Ahead::new(alloc);
    'members: while let Some(name) = tokens.next_key().ok()? {
        ahead.take(alloc, tokens, depth, name)?;
    }
    Some(ahead)
}

/// What a run begins with, among members of which the tables were read before. An image beside them
/// is at fault.
fn begin_with(alloc: Global, others: &mut Members, tables: Option<DocTables>) -> Option<Begin>
    ensures { IfSome result (λ begin. (ms : Named) → members_at others.old ≡ held_back ms
        → option_map tables_of (ms (codes "tables")) ≡ option_map (λ ts. Ok ts) tables
        → begin_of ms ≡ Ok begin) }
{
    match tables {
        Some(tables) => {
            if others.has("image") {
                return None;
            }
            let mut begin = begin_from(alloc, others).ok()?;
            begin.store.tables = tables;
            Some(begin)
        }
        None => begin_from(alloc, others).ok(),
    }
}

/// The document of which this was read. An event that does not fit it is at fault.
fn joined(alloc: Global, ahead: Ahead) -> Option<Document>
    ensures { IfSome result (λ document. (ms : MemberData) → known document_members ms ≡ Ok tt
        → AreRead ahead (named ms)
        → document_of (object ms) ≡ Ok document) }
{
    let Ahead {
        tables,
        clients,
        schedule,
        mut others,
    } = ahead;
    let clients = clients?;
    let begin = begin_with(alloc, &mut others, tables)?;
    let events = schedule.unwrap_or(Listed::new(alloc));
    let count = clients.len() as u64;
    if !all_fit(events.as_slice(), count, begin.service.standby) {
        return None;
    }
    small(alloc, document_with(begin, clients, events)).ok()
}

/// The document that the tokens begin with, nested no deeper than `depth`. Its tables, clients and
/// events are read one after the other, so that no more than one of them stands as a JSON value.
/// There is none where there is a fault, and in the forms that are read otherwise: `read_document`
/// says which. How many bytes the tokens were read from is no matter. The cost is that of
/// `read_document`.
pub fn document_ahead(alloc: Global, tokens: &mut Reader<'_>, depth: usize) -> Option<Document>
    ensures read { IfSome result
        (λ document. Begins document_of depth tokens.old document tokens.new) }
    ensures document { IfSome result IsDocument }
    ensures shorter { IfSome result (λ _. length tokens.new < length tokens.old) }
{
    let inside = object_begins(tokens, depth)?;
    let ahead = members_ahead(alloc, tokens, inside)?;
    joined(alloc, ahead)
}

/// The document that the text spells.
fn text_ahead(alloc: Global, text: &str) -> Option<Document>
    ensures { IfSome result (λ document. (d : Data) × (read text.now ≡ Some d)
        × (document_of d ≡ Ok document)) }
{
    let mut scratch = Scratch::new(alloc);
    let mut tokens = Reader::new(text, &mut scratch).ok()?;
    let document = document_ahead(alloc, &mut tokens, DEPTH)?;
    if tokens.next().is_some() {
        return None;
    }
    Some(document)
}

/// The document that the bytes spell, whose tables, clients and events are read one after the
/// other. There is none where there is a fault, and in the forms that are read otherwise:
/// `read_document` says which.
pub(crate) fn streamed(alloc: Global, bytes: &[u8]) -> Option<Document>
    ensures { IfSome result (λ document. document_at bytes.now ≡ Ok document) }
{
    if bytes.len() > DOCUMENT_LIMIT {
        return None;
    }
    let text = simdutf8::compat::from_utf8(bytes).ok()?;
    text_ahead(alloc, text)
}
