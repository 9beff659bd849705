//! An entry, written and read again with something behind it.
ghost use Rattle.canon_bytes.specs.Entries.{IsMadeEntry};
ghost use Rattle.svc_values.specs.Calls.{IsMade};

use canon_bytes::{put_call, put_entry, take_entry};
use std::alloc::Global;
use std::process::Abort;
use svc_values::{
    Answers, Call, Draws, Entry, Ltxid, Name, Piece, Pieces, Row, Settings, Statements, Value,
    Write, Writes,
};

fn lone_commit(rt: &impl Abort, alloc: Global) -> Call
    ensures { IsMade result }
{
    let none = Statements::of(alloc, Vec::new(alloc)).expect(rt, "memory");
    Call::work(none, true).expect(rt, "a call")
}

#[test]
fn a_lone_commit_is_ten_bytes(rt: HostRuntime) {
    let mut out = Vec::new(rt.alloc());
    let commit = lone_commit(&rt, rt.alloc());
    put_call(rt.alloc(), &commit, &mut out).expect(&rt, "memory");
    assert_eq!(rt; out.as_slice(), [1, 0, 0, 0, 0, 0, 0, 0, 0, 1].as_slice());
}

/// The write of an empty row.
fn writes(rt: &impl Abort, alloc: Global) -> Writes {
    let mut writes = Writes::new(alloc);
    let write = Write {
        table: Name::new(alloc, "t").expect(rt, "a name"),
        key: Value::Int(1),
        row: Some(Row::new(alloc)),
    };
    writes.push(write).expect(rt, "memory");
    writes
}

const LTXID: Ltxid = Ltxid {
    incarnation: 1,
    session: 2,
    number: 0,
};

/// An entry of one call.
fn entry(rt: &impl Abort, alloc: Global) -> Entry
    ensures { IsMadeEntry result }
{
    let mut pieces = Pieces::new(alloc);
    let piece = Piece {
        call: Call::Disable,
        answers: Answers::new(alloc),
        draws: Draws::new(alloc),
    };
    pieces.push(piece).expect(rt, "memory");
    Entry {
        ltxid: LTXID,
        completed: true,
        settings: Settings::new(alloc),
        pieces,
        writes: writes(rt, alloc),
    }
}

#[test]
fn an_entry_is_read_again(rt: HostRuntime) {
    let entry = entry(&rt, rt.alloc());
    let mut out = Vec::new(rt.alloc());
    put_entry(rt.alloc(), &entry, &mut out).expect(&rt, "memory");
    let length = out.len();
    out.push(7).expect(&rt, "memory");
    let (read, taken) = take_entry(rt.alloc(), &out).expect(&rt, "an entry");
    assert_eq!(rt; taken, length);
    assert!(rt; read == entry);
}
