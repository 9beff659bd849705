//! Transactions over committed tables: what they see of their own, and conflicts.

use crate::makers::sequences;
use crate::script::Does::{self, Add, Count, Delete, Get, Insert, Select, Set, Show, Sum};
use crate::script::Puts::{Int, Next};
use crate::script::Says::{Accounts, Done, Number, Refused};
use crate::script::statements;
use crate::teller::Step::{
    self, Commits, ConflictsAt, ConflictsOnATable, Deletes, IsClear, RollsBack, Tells, TellsNot,
};
use crate::teller::{Teller, go, play, teller_of};
use std::alloc::Global;
use std::process::Abort;
use svc_values::StatementFault::{DuplicateKey, NoSequence, SumRange, TooManyRows};
use svc_values::{Answer, Answers, Call, Draws, Names, Piece};
use table_txn::{ListDraws, Txn, TxnFault};

const CHANGED_BACK: &[Step] = &[
    Tells(Get(1), Accounts(&[(1, 100)])),
    IsClear,
    Commits(1, 90),
    ConflictsAt(1),
    Commits(1, 100),
    IsClear,
];

#[test]
fn a_changed_row_conflicts_until_it_is_changed_back(rt: HostRuntime) {
    play(&rt, rt.alloc(), &[100], CHANGED_BACK);
}

const TWO_READS: &[Step] = &[
    Tells(Get(1), Accounts(&[(1, 100)])),
    Commits(1, 90),
    Tells(Get(1), Accounts(&[(1, 90)])),
    Commits(1, 100),
    ConflictsAt(1),
    RollsBack,
    IsClear,
];

#[test]
fn two_reads_that_differ_conflict_for_good(rt: HostRuntime) {
    play(&rt, rt.alloc(), &[100], TWO_READS);
}

const A_TABLE: &[Step] = &[
    Tells(Count, Number(1)),
    Commits(2, 7),
    ConflictsOnATable,
    Deletes(2),
    IsClear,
];

#[test]
fn a_whole_table_is_read(rt: HostRuntime) {
    play(&rt, rt.alloc(), &[100], A_TABLE);
}

const A_MISSING_ROW: &[Step] = &[
    Tells(Delete(9), Done(0)),
    IsClear,
    Commits(9, 1),
    ConflictsAt(9),
];

#[test]
fn a_missing_row_is_read(rt: HostRuntime) {
    play(&rt, rt.alloc(), &[100], A_MISSING_ROW);
}

const OWN_WRITES: &[Step] = &[
    Tells(Delete(2), Done(1)),
    Tells(Insert("acc", Int(0), Int(5)), Done(1)),
    Tells(Add(Int(3), "bal", Int(11)), Done(1)),
    Tells(Get(2), Accounts(&[])),
    Tells(Select(Int(5)), Accounts(&[(0, 5), (1, 100), (3, 311)])),
    Tells(Count, Number(3)),
    Tells(Sum("acc", "bal"), Number(416)),
];

#[test]
fn own_writes_are_seen(rt: HostRuntime) {
    play(&rt, rt.alloc(), &[100, 200, 300], OWN_WRITES);
}

const MANY_ROWS: &[Step] = &[
    TellsNot(Select(Int(7)), Refused(TooManyRows)),
    Commits(33, 7),
    Tells(Select(Int(7)), Refused(TooManyRows)),
];

#[test]
fn a_select_answers_32_rows_and_no_more(rt: HostRuntime) {
    play(&rt, rt.alloc(), &[7; 32], MANY_ROWS);
}

const A_LARGE_SUM: &[Step] = &[Tells(Sum("acc", "bal"), Refused(SumRange))];

#[test]
fn a_sum_past_the_integers_is_refused(rt: HostRuntime) {
    play(&rt, rt.alloc(), &[9223372036854775807, 1], A_LARGE_SUM);
}

/// A change, an insert under a new number, an insert over account 1, and a statement that is not
/// run.
const A_REFUSED_CALL: &[Does] = &[
    Set(Int(2), "bal", Int(2)),
    Insert("acc", Next("s"), Int(5)),
    Insert("acc", Int(1), Int(5)),
    Delete(1),
];

/// Sees that the refused call is answered up to the statement that is refused, and writes nothing.
fn is_refused(rt: &impl Abort, alloc: Global, teller: &mut Teller) {
    let answers = teller.run(rt, &statements(rt, alloc, A_REFUSED_CALL));
    assert_eq!(rt; answers.len(), 3);
    assert!(rt; answers.get(2) == Some(&Answer::Refused(DuplicateKey)));
    assert!(rt; teller.writes_nothing());
}

const ITS_READ_CONFLICTS: &[Step] = &[Commits(1, 99), ConflictsAt(1)];

#[test]
fn a_refused_call_keeps_its_reads(rt: HostRuntime) {
    let mut teller = teller_of(&rt, rt.alloc(), &[100, 200]);
    is_refused(&rt, rt.alloc(), &mut teller);
    go(&rt, &mut teller, ITS_READ_CONFLICTS);
}

/// What a call is answered that shows the next value of s, where a source with these names has no
/// draw.
fn shown_without_draws(
    rt: &impl Abort,
    alloc: Global,
    teller: &mut Teller,
    names: Names,
) -> Result<Answers, TxnFault> {
    let statements = statements(rt, alloc, &[Show(Next("s"))]);
    let mut source = ListDraws::new(names, Draws::new(alloc));
    teller.run_from(&statements, &mut source)
}

#[test]
fn a_source_without_draws_stops(rt: HostRuntime) {
    let alloc = rt.alloc();
    let mut teller = teller_of(&rt, alloc, &[]);
    let stopped = shown_without_draws(&rt, alloc, &mut teller, sequences(&rt, alloc));
    assert!(rt; matches!(stopped, Err(TxnFault::Stopped)));
    let ran = shown_without_draws(&rt, alloc, &mut teller, Names::new(alloc));
    let answers = ran.expect(&rt, "answers");
    assert!(rt; answers.get(0) == Some(&Answer::Refused(NoSequence)));
}

#[test]
fn calls_are_kept(rt: HostRuntime) {
    let alloc = rt.alloc();
    let mut txn = Txn::new(alloc);
    let piece = Piece {
        call: Call::Rollback,
        answers: Answers::new(alloc),
        draws: Draws::new(alloc),
    };
    txn.note(piece).expect(&rt, "memory");
    let (pieces, writes) = txn.into_parts();
    assert_eq!(rt; pieces.len(), 1);
    assert!(rt; writes.is_empty());
}
