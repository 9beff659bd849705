//! The report of a run.

use crate::document::{DocRows, Image, image_copy};
use crate::item::ServedItems;
use crate::note::Notes;
use crate::request::{Ltxids, Transcripts};
use std::alloc::Global;
use svc_values::{Entry, Listed, Name, NoMemory, Text, TryCopy};

/// Alert lines in order, without a limit.
pub type Alerts = Listed<Text>;

/// Entries in the order in which they were stored, without a limit.
pub type ReportEntries = Listed<Entry>;

/// A table's rows at the end, in order of key.
#[derive(Drop)]
pub struct ReportTable {
    pub name: Name,
    pub rows: DocRows,
}

/// All tables, in the order in which they were declared, without a limit.
pub type ReportTables = Listed<ReportTable>;

/// What a run shows: what the store holds at the end, what the clients were shown, and what each
/// event did. `forgotten` is the horizon below which outcomes are kept no more, and 0 where there
/// is none.
#[derive(Drop)]
pub struct Report {
    pub alerts: Alerts,
    pub blocked: Ltxids,
    pub clients: Transcripts,
    pub entries: ReportEntries,
    pub forgotten: u64,
    pub image: Option<Image>,
    pub notes: Notes,
    pub served: ServedItems,
    pub tables: ReportTables,
}

impl TryCopy for ReportTable {
    fn copy(&self, alloc: Global) -> Result<ReportTable, NoMemory> {
        Ok(ReportTable {
            name: self.name.copied(),
            rows: self.rows.copy(alloc)?,
        })
    }
}

impl TryCopy for Report {
    fn copy(&self, alloc: Global) -> Result<Report, NoMemory> {
        Ok(Report {
            alerts: self.alerts.copy(alloc)?,
            blocked: self.blocked.copy(alloc)?,
            clients: self.clients.copy(alloc)?,
            entries: self.entries.copy(alloc)?,
            forgotten: self.forgotten,
            image: image_copy(alloc, &self.image)?,
            notes: self.notes.copy(alloc)?,
            served: self.served.copy(alloc)?,
            tables: self.tables.copy(alloc)?,
        })
    }
}
