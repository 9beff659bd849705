use crate::makers::{answers, call, counts, draws, name, row, settings};
use std::alloc::Global;
use std::process::Abort;
use svc_values::{
    Ahead, Answer, Call, CallFault, Down, Entry, Ltxid, Piece, Pieces, TryCopy, Up, Value, Write,
    Writes, ends_committed, ends_conflict, ends_transaction,
};

/// A call of as many counts, and a commit or none.
fn work(rt: &impl Abort, alloc: Global, number: u8, commit: bool) -> Result<Call, CallFault> {
    Call::work(counts(rt, alloc, number), commit)
}

/// Sees whether such a call has a commit, and whether it is that alone.
fn has(rt: &impl Abort, alloc: Global, number: u8, commit: bool, alone: bool) {
    let call = work(rt, alloc, number, commit).expect(rt, "a call");
    assert_eq!(rt; call.has_commit(), commit);
    assert_eq!(rt; call.is_lone_commit(), alone);
}

#[test]
fn work_calls_have_one_to_eight_parts(rt: HostRuntime) {
    let nothing = work(&rt, rt.alloc(), 0, false);
    assert!(rt; matches!(nothing, Err(CallFault::Empty)));
    let overfull = work(&rt, rt.alloc(), 8, true);
    assert!(rt; matches!(overfull, Err(CallFault::TooMany)));
    has(&rt, rt.alloc(), 8, false, false);
    has(&rt, rt.alloc(), 0, true, true);
}

#[test]
fn endings_are_those_of_the_last_answer(rt: HostRuntime) {
    let committed = [Answer::Done(1), Answer::Committed];
    assert!(rt; ends_committed(&committed) && ends_transaction(&committed));
    assert!(rt; !ends_conflict(&committed));
    assert!(rt; ends_conflict(&[Answer::Conflict]) && ends_transaction(&[Answer::Conflict]));
    assert!(rt; ends_transaction(&[Answer::RolledBack]));
    assert!(rt; !ends_transaction(&[Answer::Committed, Answer::Done(1)]));
    assert!(rt; !ends_transaction(&[]));
}

const LTXID: Ltxid = Ltxid {
    incarnation: 1,
    session: 2,
    number: 3,
};

/// Sees that a copy is the same.
fn is_copied<T: TryCopy + PartialEq + Drop>(rt: &impl Abort, alloc: Global, value: T) {
    let copy = value.copy(alloc).expect(rt, "a copy");
    assert!(rt; copy == value);
}

fn up(rt: &impl Abort, alloc: Global) -> Up {
    Up::Call {
        replay: true,
        kept: draws(rt, alloc),
        call: call(rt, alloc),
    }
}

fn down(rt: &impl Abort, alloc: Global) -> Down {
    Down::Reply {
        answers: answers(rt, alloc),
        draws: draws(rt, alloc),
        ltxid: LTXID,
    }
}

#[test]
fn frames_are_copied(rt: HostRuntime) {
    is_copied(&rt, rt.alloc(), up(&rt, rt.alloc()));
    is_copied(&rt, rt.alloc(), down(&rt, rt.alloc()));
    is_copied(&rt, rt.alloc(), Ahead::Forgotten);
}

/// The piece of one call.
fn pieces(rt: &impl Abort, alloc: Global) -> Pieces {
    let mut pieces = Pieces::new(alloc);
    let piece = Piece {
        call: call(rt, alloc),
        answers: answers(rt, alloc),
        draws: draws(rt, alloc),
    };
    pieces.push(piece).expect(rt, "a piece");
    pieces
}

/// The write of one row.
fn writes(rt: &impl Abort, alloc: Global) -> Writes {
    let mut writes = Writes::new(alloc);
    let write = Write {
        table: name(rt, alloc, "t"),
        key: Value::Int(7),
        row: Some(row(rt, alloc, 7)),
    };
    writes.push(write).expect(rt, "a write");
    writes
}

fn entry(rt: &impl Abort, alloc: Global) -> Entry {
    Entry {
        ltxid: LTXID,
        completed: false,
        settings: settings(rt, alloc, &[("a", 1)]),
        pieces: pieces(rt, alloc),
        writes: writes(rt, alloc),
    }
}

#[test]
fn an_entry_is_copied(rt: HostRuntime) {
    is_copied(&rt, rt.alloc(), entry(&rt, rt.alloc()));
}
