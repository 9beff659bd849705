//! Reader of the whole document.
ghost use Rattle.std.specs.Prelude.{◌≡◌, ◌<◌, length, IfOk, IfSome, codes, [], option_map};
ghost use Rattle.serde_json.specs.View.{view};
ghost use Rattle.json_form.specs.Faults.{Gives};
ghost use Rattle.json_form.specs.meaning.Objects.{read_or};
ghost use Rattle.json_form.specs.Objects.{members_at, without};
ghost use Rattle.json_form.specs.Streams.{Begins};
ghost use Rattle.document_forms.specs.meaning.Events.{schedule_of};
ghost use Rattle.doc_reader.specs.Keeping.{IsDocument};
ghost use Rattle.doc_reader.specs.meaning.Documents.{store_of, begin_of, document_with as document_with_def, clients_of, rest_of, document_of, document_at};

use crate::counts::small;
use crate::image::ImageReader;
use crate::streamed::streamed;
use document_forms::{
    ClientReader, ScheduleReader, SequencesReader, ServiceReader, TablesReader, usual_service,
};
use document_limits::{Count, DOCUMENT_LIMIT};
use json_form::{
    DocFault, Flag, Members, Reader, array_ahead, array_from, json_from, object_with, within,
};
use outage_schedule::{Clients, DocSequences, DocTables, Document, Events, Image, ServiceOf};
use serde_json::Value as Json;
use std::alloc::Global;
use svc_values::Listed;

/// What a run's store begins with.
#[derive(Drop)]
pub struct Store {
    pub tables: DocTables,
    pub sequences: DocSequences,
    pub image: Option<Image>,
}

/// What the store begins with, among the members of the document, which are taken out.
#[tactic(auto, unfolding(crate::specs::meaning::Documents::store_of), using(json_form::proofs::Offered::others_stay))]
fn store_from(alloc: Global, members: &mut Members) -> Result<Store, DocFault>
    ensures read { Gives result (store_of (members_at members.old)) }
    ensures left { IfOk result (λ _. members_at members.new
        ≡ without (codes "image") (without (codes "sequences")
        (without (codes "tables") (members_at members.old)))) }
{
    let alone = !members.has("tables") && !members.has("sequences");
    let tables = members.optional(alloc, "tables", &TablesReader, Listed::new(alloc))?;
    let sequences = members.optional(alloc, "sequences", &SequencesReader, Listed::new(alloc))?;
    let image = members.optional(alloc, "image", &ImageReader { alone }, None)?;
    Ok(Store {
        tables,
        sequences,
        image,
    })
}

/// What a run begins with.
#[derive(Drop)]
pub struct Begin {
    pub service: ServiceOf,
    pub store: Store,
    pub print_image: bool,
}

/// What a run begins with, among the members of the document, which are taken out.
#[tactic(auto, unfolding(crate::specs::meaning::Documents::begin_of), using(json_form::proofs::Offered::others_stay, crate::proofs::Parts::parts_stay))]
pub(crate) fn begin_from(alloc: Global, members: &mut Members) -> Result<Begin, DocFault>
    ensures read { Gives result (begin_of (members_at members.old)) }
    ensures left { IfOk result (λ _. members_at members.new
        ≡ without (codes "print_image") (without (codes "image") (without (codes "sequences")
        (without (codes "tables") (without (codes "service") (members_at members.old)))))) }
{
    let service = members.optional(alloc, "service", &ServiceReader, usual_service())?;
    let store = store_from(alloc, members)?;
    let print_image = members.optional(alloc, "print_image", &Flag, false)?;
    Ok(Begin {
        service,
        store,
        print_image,
    })
}

pub(crate) fn document_with(begin: Begin, clients: Clients, schedule: Events) -> Document
    ensures { result ≡ document_with_def begin clients schedule }
{
    let Begin {
        service,
        store,
        print_image,
    } = begin;
    let Store {
        tables,
        sequences,
        image,
    } = store;
    Document {
        service,
        tables,
        sequences,
        image,
        print_image,
        clients,
        schedule,
    }
}

/// The clients, at most 64.
fn clients_from(alloc: Global, value: Json) -> Result<Clients, DocFault>
    ensures { Gives result (clients_of (view value)) }
{
    let limit = Count::Clients.limit();
    let clients = array_from(alloc, value, limit.least, limit.most, &ClientReader)?;
    Ok(Listed::from_vec(clients))
}

/// The clients that `clients_from` reads, each read as soon as its tokens are passed.
pub(crate) fn clients_ahead(
    alloc: Global,
    tokens: &mut json::Reader<'_>,
    depth: usize,
) -> Option<Clients>
    ensures read { IfSome result (λ clients. Begins clients_of
        depth tokens.old clients tokens.new) }
    ensures shorter { IfSome result (λ _. length tokens.new < length tokens.old) }
{
    let most = Count::Clients.limit().most;
    let clients = array_ahead(alloc, tokens, depth, most, &ClientReader)?;
    Some(Listed::from_vec(clients))
}

/// The events of a document with so many clients, and with a second store or not.
fn schedule_from(
    alloc: Global,
    schedule: Option<Json>,
    clients: u64,
    standby: bool,
) -> Result<Events, DocFault>
    ensures { Gives result (read_or (codes "schedule") [] (schedule_of clients standby)
        (option_map view schedule)) }
{
    match schedule {
        Some(value) => {
            let reader = ScheduleReader { clients, standby };
            within(alloc, "schedule", reader.read(alloc, value))
        }
        None => Ok(Listed::new(alloc)),
    }
}

/// The clients and the events, behind what the run begins with.
#[tactic(auto, unfolding(crate::specs::meaning::Documents::rest_of))]
fn rest_from(
    alloc: Global,
    schedule: Option<Json>,
    clients: Json,
    begin: Begin,
) -> Result<Document, DocFault>
    ensures { Gives result (rest_of (option_map view schedule) (view clients) begin) }
{
    let clients = within(alloc, "clients", clients_from(alloc, clients))?;
    let standby = begin.service.standby;
    let events = schedule_from(alloc, schedule, clients.len() as u64, standby)?;
    small(alloc, document_with(begin, clients, events))
}

const MEMBERS: [&str; 7] = [
    "service",
    "tables",
    "sequences",
    "image",
    "print_image",
    "clients",
    "schedule",
];

/// The document of a JSON value, or the first fault and its place. How many bytes the value was
/// read from is no matter. The cost is that of `read_document`.
#[tactic(auto, unfolding(crate::specs::meaning::Documents::document_of), using(crate::proofs::Parts::parts_stay))]
pub fn document_from(alloc: Global, value: Json) -> Result<Document, DocFault>
    ensures read { Gives result (document_of (view value)) }
    ensures document { IfOk result IsDocument }
{
    let mut members = object_with(alloc, value, &MEMBERS)?;
    let clients = members.required(alloc, "clients")?;
    let begin = begin_from(alloc, &mut members)?;
    let schedule = members.take("schedule");
    rest_from(alloc, schedule, clients, begin)
}

/// The document that the bytes spell as JSON (RFC 8259), of at most 8 MiB, or the first fault and
/// its place. Its tables, clients and events are read one after the other, so that no more than one
/// of them stands as a JSON value, but where there is a fault, a number that is no integer of 64
/// bits or is `-0`, rows or an index before the columns of their table, columns a second time
/// behind them, or a client's `requests` twice: then the whole value stands there first. The cost
/// is linear in the number of bytes, but for the n log n comparisons of the keys of a table whose n
/// rows do not stand in rising order of key, and of the names of a list of n names in no such
/// order, and for what `Log::read` takes of an image.
pub fn read_document(alloc: Global, bytes: &[u8]) -> Result<Document, DocFault>
    ensures read { Gives result (document_at bytes.now) }
    ensures document { IfOk result IsDocument }
{
    if let Some(document) = streamed(alloc, bytes) {
        return Ok(document);
    }
    let value = json_from(alloc, bytes, DOCUMENT_LIMIT)?;
    document_from(alloc, value)
}
