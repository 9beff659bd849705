//! The document: the service, its tables, the clients and the schedule.
ghost use Rattle.std.specs.Prelude.{◌≡◌, IfOk};

use crate::event::{Calls, Events};
use std::alloc::Global;
use svc_values::{Columns, Listed, Name, NoMemory, Row, Settings, TryCopy};

/// What a driver does at an outage: it replays by the boundaries that the consistency gives, or
/// nothing, or it replays by boundaries that it finds itself.
#[derive(Clone, Copy)]
pub enum Failover {
    Transaction,
    /// The document's word is `none`.
    Off,
    Auto,
}

/// Whether a commit disables replay until the next request (dynamic), or a `set` does (static).
#[derive(Clone, Copy)]
pub enum Consistency {
    Dynamic,
    Static,
}

/// The pool: how many slots it has, and for how many ticks a request waits for one.
#[derive(Clone, Copy)]
pub struct PoolOf {
    pub max: u64,
    pub wait: u64,
}

/// The kinds of draws whose values are kept at a replay.
#[derive(Clone, Copy)]
pub struct KeepOf {
    pub seq: bool,
    pub clock: bool,
    pub id: bool,
}

/// What the document says of the service and of its drivers. `record_limit`, the document's
/// `record`, is the most calls that are recorded for a replay. `delay`, `timeout` and `retention`
/// are ticks: between two tries to connect, from a request's first call to its replay, and from the
/// end of an incarnation for as long as its outcomes are kept. `standby` tells whether the service
/// has a second store.
#[derive(Clone, Copy)]
pub struct ServiceOf {
    pub failover: Failover,
    pub consistency: Consistency,
    pub retries: u64,
    pub delay: u64,
    pub timeout: u64,
    pub replays: u64,
    pub record_limit: u64,
    pub pool: PoolOf,
    pub keep: KeepOf,
    pub retention: u64,
    pub standby: bool,
}

/// Rows of a table, without a limit.
pub type DocRows = Listed<Row>;

/// Columns by which the rows of a table are indexed, without a limit.
pub type IndexColumns = Listed<Name>;

/// A table with the rows that it begins with, and the columns by which its rows are indexed.
#[derive(Drop)]
pub struct DocTable {
    pub name: Name,
    pub columns: Columns,
    pub rows: DocRows,
    pub index: IndexColumns,
}

/// Tables in the order of the document, without a limit.
pub type DocTables = Listed<DocTable>;

/// A sequence: its first value, and whether its values are kept at a replay.
#[derive(Drop)]
pub struct DocSequence {
    pub name: Name,
    pub start: i64,
    pub keep: bool,
}

/// Sequences in the order of the document, without a limit.
pub type DocSequences = Listed<DocSequence>;

/// The bytes of a disk.
pub type Image = Listed<u8>;

/// One request of a client: the settings that it begins with, its calls, and how often it is
/// submitted again at most where it was not committed.
#[derive(Drop)]
pub struct Request {
    pub settings: Settings,
    pub calls: Calls,
    pub again: u64,
}

/// The requests of a client, in order, without a limit.
pub type Requests = Listed<Request>;

/// A client's script.
#[derive(Drop)]
pub struct Client {
    pub requests: Requests,
}

/// The clients, numbered from 1, without a limit.
pub type Clients = Listed<Client>;

/// The whole document. With an `image` there are neither tables nor sequences: the image has both.
#[derive(Drop)]
pub struct Document {
    pub service: ServiceOf,
    pub tables: DocTables,
    pub sequences: DocSequences,
    pub image: Option<Image>,
    pub print_image: bool,
    pub clients: Clients,
    pub schedule: Events,
}

/// A copy of the bytes of a disk, if there are any.
pub(crate) fn image_copy(alloc: Global, image: &Option<Image>) -> Result<Option<Image>, NoMemory>
    ensures { IfOk result (λ copy. copy ≡ image.now) }
{
    match image {
        None => Ok(None),
        Some(bytes) => Ok(Some(bytes.copy(alloc)?)),
    }
}

impl TryCopy for Failover {
    fn copy(&self, _alloc: Global) -> Result<Failover, NoMemory> {
        Ok(*self)
    }
}

impl TryCopy for Consistency {
    fn copy(&self, _alloc: Global) -> Result<Consistency, NoMemory> {
        Ok(*self)
    }
}

impl TryCopy for PoolOf {
    fn copy(&self, _alloc: Global) -> Result<PoolOf, NoMemory> {
        Ok(*self)
    }
}

impl TryCopy for KeepOf {
    fn copy(&self, _alloc: Global) -> Result<KeepOf, NoMemory> {
        Ok(*self)
    }
}

impl TryCopy for ServiceOf {
    fn copy(&self, _alloc: Global) -> Result<ServiceOf, NoMemory> {
        Ok(*self)
    }
}

impl TryCopy for DocTable {
    fn copy(&self, alloc: Global) -> Result<DocTable, NoMemory> {
        Ok(DocTable {
            name: self.name.copied(),
            columns: self.columns.copy(alloc)?,
            rows: self.rows.copy(alloc)?,
            index: self.index.copy(alloc)?,
        })
    }
}

impl TryCopy for DocSequence {
    fn copy(&self, _alloc: Global) -> Result<DocSequence, NoMemory> {
        Ok(DocSequence {
            name: self.name.copied(),
            start: self.start,
            keep: self.keep,
        })
    }
}

impl TryCopy for Request {
    fn copy(&self, alloc: Global) -> Result<Request, NoMemory> {
        Ok(Request {
            settings: self.settings.copy(alloc)?,
            calls: self.calls.copy(alloc)?,
            again: self.again,
        })
    }
}

impl TryCopy for Client {
    fn copy(&self, alloc: Global) -> Result<Client, NoMemory> {
        Ok(Client {
            requests: self.requests.copy(alloc)?,
        })
    }
}

impl TryCopy for Document {
    fn copy(&self, alloc: Global) -> Result<Document, NoMemory> {
        Ok(Document {
            service: self.service,
            tables: self.tables.copy(alloc)?,
            sequences: self.sequences.copy(alloc)?,
            image: image_copy(alloc, &self.image)?,
            print_image: self.print_image,
            clients: self.clients.copy(alloc)?,
            schedule: self.schedule.copy(alloc)?,
        })
    }
}
