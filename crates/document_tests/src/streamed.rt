//! Documents whose members stand in any order, which are read one after the other or as one value.

use crate::makers::{document, is_told};
use outage_schedule::Event;
use std::alloc::Global;
use std::process::Abort;

/// Sees how many tables, clients and events the document of a text has.
fn has(rt: &impl Abort, alloc: Global, text: &str, wanted: [usize; 3]) {
    let document = document(rt, alloc, text);
    let tables = document.tables.len();
    let clients = document.clients.len();
    let events = document.schedule.len();
    assert_eq!(rt; [tables, clients, events], wanted, "{text}");
}

const ANY_ORDER: [&str; 6] = [
    r#"{"tables":[{"name":"t","columns":[["id","int"]],"rows":[[1],[2]]}],"clients":[{"requests":[]}],"schedule":[["go",1],["tick"]]}"#,
    r#"{"clients":[{"requests":[]}],"schedule":[["go",1],["tick"]],"tables":[{"name":"t","columns":[["id","int"]],"rows":[[1],[2]]}]}"#,
    r#"{"schedule":[["go",1],["tick"]],"clients":[{"requests":[]}],"tables":[{"name":"t","columns":[["id","int"]],"rows":[[1],[2]]}]}"#,
    r#"{"schedule":[["go",1],["tick"]],"tables":[{"name":"t","columns":[["id","int"]],"rows":[[1],[2]]}],"clients":[{"requests":[]}]}"#,
    r#"{"service":{"retries":1},"\u0074ables":[{"n\u0061me":"t","columns":[["id","int"]],"rows":[[1],[2]]}],"print_image":true,"clients":[{"requests":[]}],"sequences":[],"schedule":[["go",1],["tick"]]}"#,
    " {\n\t\"clients\" : [ { \"requests\" : [ ] } ] ,\r\n \"schedule\" : [ [ \"go\" , 1 ] , [ \"tick\" ] ] , \"tables\" : [ { \"name\" : \"t\" , \"columns\" : [ [ \"id\" , \"int\" ] ] } ] }\n ",
];

#[test]
fn members_stand_in_any_order(rt: HostRuntime) {
    for text in ANY_ORDER {
        has(&rt, rt.alloc(), text, [1, 1, 2]);
    }
}

/// Documents with equal members, and how many tables, clients and events they have.
const EQUAL: [(&str, [usize; 3]); 8] = [
    (
        r#"{"clients":[],"tables":[{"name":"t","columns":[["id","int"]]}],"tables":[]}"#,
        [0, 0, 0],
    ),
    (
        r#"{"clients":[],"tables":[],"tables":[{"name":"t","columns":[["id","int"]]}]}"#,
        [1, 0, 0],
    ),
    (
        r#"{"clients":[],"tables":1,"tables":[{"name":"t","columns":[["id","int"]]}]}"#,
        [1, 0, 0],
    ),
    (
        r#"{"clients":[],"schedule":[["tick"],["tick"]],"schedule":[["up"]]}"#,
        [0, 0, 1],
    ),
    (
        r#"{"clients":[],"clients":[{"requests":[]}],"schedule":[["go",1]]}"#,
        [0, 1, 1],
    ),
    (
        r#"{"clients":[],"schedule":[["go",1]],"clients":[{"requests":[]}]}"#,
        [0, 1, 1],
    ),
    (
        r#"{"clients":[{"requests":[]}],"schedule":[["tick"]],"clients":[]}"#,
        [0, 0, 1],
    ),
    (r#"{"clients":[],"service":1,"service":{}}"#, [0, 0, 0]),
];

#[test]
fn the_last_of_equal_members_stands(rt: HostRuntime) {
    for (text, wanted) in EQUAL {
        has(&rt, rt.alloc(), text, wanted);
    }
}

/// Sees how many columns the index of the first table names.
fn is_indexed(rt: &impl Abort, alloc: Global, text: &str, columns: usize) {
    let document = document(rt, alloc, text);
    let table = document.tables.get(0).expect(rt, "a table");
    assert_eq!(rt; table.index.len(), columns, "{text}");
}

const INDEXED: [&str; 4] = [
    r#"{"clients":[],"tables":[{"name":"t","columns":[["id","int"],["a","int"]],"rows":[[1,2]],"index":["a","id"]}]}"#,
    r#"{"clients":[],"tables":[{"name":"t","columns":[["id","int"],["a","int"]],"index":["a","id"],"rows":[[1,2]]}]}"#,
    r#"{"clients":[],"tables":[{"index":["a","id"],"rows":[[1,2]],"columns":[["id","int"],["a","int"]],"name":"t"}]}"#,
    r#"{"clients":[],"tables":[{"name":"t","index":["id"],"columns":[["id","int"],["a","int"]],"index":["a","id"]}]}"#,
];

#[test]
fn an_index_stands_before_the_rows_or_behind_them(rt: HostRuntime) {
    for text in INDEXED {
        is_indexed(&rt, rt.alloc(), text, 2);
    }
}

/// The picks of the crashes of these events.
fn picks(rt: &impl Abort, alloc: Global, events: &[Event]) -> Vec<u8> {
    let mut picks = Vec::new(alloc);
    for event in events {
        if let Event::Crash { pick, .. } = event {
            picks.push(*pick).expect(rt, "memory");
        }
    }
    picks
}

/// Sees the picks of a document's crashes.
fn has_picks(rt: &impl Abort, alloc: Global, text: &str, wanted: &[u8]) {
    let document = document(rt, alloc, text);
    let picks = picks(rt, alloc, document.schedule.as_slice());
    assert_eq!(rt; picks.as_slice(), wanted, "{text}");
}

const WITH_A_SECOND: [&str; 4] = [
    r#"{"service":{"standby":true},"clients":[],"schedule":[["failover",1,4,0],["crash",1,4,3],["failover",0,0,3]]}"#,
    r#"{"clients":[],"schedule":[["failover",1,4,0],["crash",1,4,3],["failover",0,0,3]],"service":{"standby":true}}"#,
    r#"{"schedule":[["failover",1,4,0],["crash",1,4,3],["failover",0,0,3]],"clients":[],"service":{"standby":true}}"#,
    r#"{"service":{},"clients":[],"schedule":[["failover",1,4,0],["crash",1,4,3],["failover",0,0,3]],"service":{"standby":true}}"#,
];

const WITHOUT_A_SECOND: [&str; 3] = [
    r#"{"clients":[],"schedule":[["tick"],["failover",1,4,0]]}"#,
    r#"{"clients":[],"schedule":[["tick"],["failover",1,4,0]],"service":{"standby":false}}"#,
    r#"{"service":{"standby":true},"clients":[],"schedule":[["tick"],["failover",1,4,0]],"service":{}}"#,
];

#[test]
fn a_second_store_is_told_before_the_events_or_behind_them(rt: HostRuntime) {
    for text in WITH_A_SECOND {
        has_picks(&rt, rt.alloc(), text, &[4, 3, 7]);
    }
    for text in WITHOUT_A_SECOND {
        is_told(&rt, rt.alloc(), text, 8, "/schedule/1");
    }
}
