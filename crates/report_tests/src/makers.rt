//! Parts of reports that the tests begin with.

use outage_schedule::{
    Alerts, Notes, Report, ReportEntries, ReportTables, ServedItems, Transcripts,
};
use std::alloc::Global;
use std::process::Abort;
use svc_values::{Limited, Listed, Ltxid, Name, Octets, Text, Value};

/// A list of these items.
pub fn listed<T: Drop, const N: usize>(rt: &impl Abort, alloc: Global, items: [T; N]) -> Listed<T> {
    Listed::from_vec(Vec::from_array(alloc, items).expect(rt, "memory"))
}

/// A list of these items, which are not more than its limit.
pub fn limited<T: Drop, const N: usize, const LIMIT: usize>(
    rt: &impl Abort,
    alloc: Global,
    items: [T; N],
) -> Limited<T, LIMIT> {
    let mut list = Limited::new(alloc);
    for item in Vec::from_array(alloc, items).expect(rt, "memory") {
        list.push(item).expect(rt, "room");
    }
    list
}

pub fn name(rt: &impl Abort, alloc: Global, text: &str) -> Name {
    Name::new(alloc, text).expect(rt, "a name")
}

pub fn text(rt: &impl Abort, alloc: Global, text: &str) -> Text {
    Text::new(alloc, text).expect(rt, "a text")
}

pub fn octets(rt: &impl Abort, alloc: Global, bytes: &[u8]) -> Value {
    Value::Bytes(Octets::new(alloc, bytes).expect(rt, "octets"))
}

/// An identifier of the first opening.
pub fn ltxid(session: u64, number: u64) -> Ltxid {
    Ltxid {
        incarnation: 1,
        session,
        number,
    }
}

/// A report of nothing.
pub fn empty(alloc: Global) -> Report {
    Report {
        alerts: Alerts::new(alloc),
        blocked: Listed::new(alloc),
        clients: Transcripts::new(alloc),
        entries: ReportEntries::new(alloc),
        forgotten: 0,
        image: None,
        notes: Notes::new(alloc),
        served: ServedItems::new(alloc),
        tables: ReportTables::new(alloc),
    }
}
