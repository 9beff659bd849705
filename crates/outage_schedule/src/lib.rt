//! The document that a run reads and the report that it gives: events, notes, transcripts.
#![tactic(auto)]

mod document;
mod event;
mod failure;
mod item;
mod note;
mod report;
mod request;

pub use document::{
    Client, Clients, Consistency, DocRows, DocSequence, DocSequences, DocTable, DocTables,
    Document, Failover, Image, IndexColumns, KeepOf, PoolOf, Request, Requests, ServiceOf,
};
pub use event::{Calls, Event, Events};
pub use failure::{Failure, Reason};
pub use item::{Item, Served, ServedItems, Sessions};
pub use note::{
    AskResult, FrameName, GoNote, Note, NoteRun, NoteRuns, Notes, OutsideNote, Reached,
};
pub use report::{Alerts, Report, ReportEntries, ReportTable, ReportTables};
pub use request::{
    Ltxids, Outcome, Outcomes, RequestReport, ShownCall, ShownCalls, Transcript, Transcripts, Tried,
};
