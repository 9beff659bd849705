//! A book, and the outcomes that it gives.
ghost use Rattle.std.specs.Prelude.{◌≡◌};
ghost use Rattle.svc_values.specs.Identifiers.{IsLtxid};

use ltxid_book::{Book, State};
use outcome_call::{Verdict, decide};
use std::alloc::Global;
use std::process::Abort;
use svc_values::{Entry, Ltxid, Pieces, Settings, Writes};

// The commits of a journal, each with whether its call had no statements: two of the first session
// of opening 1, and one of that of opening 2.
const COMMITS: [(u64, u64, u64, bool); 3] = [(1, 1, 0, true), (1, 1, 1, false), (2, 1, 0, true)];

fn ltxid(incarnation: u64, session: u64, number: u64) -> Ltxid
    ensures { result ≡ record { incarnation = incarnation; session = session; number = number } }
{
    Ltxid {
        incarnation,
        session,
        number,
    }
}

/// Commits the identifier, if it may commit.
fn commit_next(rt: &impl Abort, book: &mut Book, x: &Ltxid, completed: bool) -> bool
    requires { IsLtxid x.now }
{
    if !book.may_commit(x) {
        return false;
    }
    book.commit(x, completed).expect(rt, "memory");
    true
}

/// Blocks the identifier, if it may be blocked.
fn block_next(rt: &impl Abort, book: &mut Book, x: &Ltxid) -> bool {
    if !book.may_commit(x) {
        return false;
    }
    book.block(x).expect(rt, "memory");
    true
}

/// The book with these commits, in which the first session of opening 1 is blocked then.
fn told_one_by_one(rt: &impl Abort, alloc: Global) -> Book {
    let mut book = Book::new(alloc);
    commit_next(rt, &mut book, &ltxid(1, 1, 0), true);
    commit_next(rt, &mut book, &ltxid(1, 1, 1), false);
    block_next(rt, &mut book, &ltxid(1, 1, 2));
    commit_next(rt, &mut book, &ltxid(2, 1, 0), true);
    book
}

fn entry(alloc: Global, ltxid: Ltxid, completed: bool) -> Entry {
    Entry {
        ltxid,
        completed,
        settings: Settings::new(alloc),
        pieces: Pieces::new(alloc),
        writes: Writes::new(alloc),
    }
}

// The same from a journal with this horizon.
fn told_at_once(rt: &impl Abort, alloc: Global, horizon: u64) -> Book {
    let mut entries = Vec::new(alloc);
    for (incarnation, session, number, completed) in COMMITS {
        let x = ltxid(incarnation, session, number);
        entries
            .push(entry(alloc, x, completed))
            .expect(rt, "memory");
    }
    Book::of_journal(alloc, horizon, &entries, &[ltxid(1, 1, 2)]).expect(rt, "memory")
}

/// Sees that three sessions have these states.
fn are(rt: &impl Abort, book: &Book, states: [State; 3]) {
    let found = [book.state(1, 1), book.state(1, 2), book.state(2, 1)];
    assert_eq!(rt; found, states);
}

const UNTOUCHED: State = State {
    next: 0,
    blocked: false,
    completed: false,
};

const BLOCKED: State = State {
    next: 2,
    blocked: true,
    completed: false,
};

const COMMITTED_ONCE: State = State {
    next: 1,
    blocked: false,
    completed: true,
};

/// Sees that the identifier neither commits nor is blocked.
fn is_settled(rt: &impl Abort, book: &mut Book, x: &Ltxid)
    requires { IsLtxid x.now }
{
    assert!(rt; !commit_next(rt, book, x, true));
    assert!(rt; !block_next(rt, book, x));
}

#[test]
fn counts_commits_until_the_block(rt: HostRuntime) {
    let mut book = told_one_by_one(&rt, rt.alloc());
    are(&rt, &book, [BLOCKED, UNTOUCHED, COMMITTED_ONCE]);
    assert!(rt; !book.can_commit(&ltxid(1, 1, 2)));
    is_settled(&rt, &mut book, &ltxid(1, 1, 2));
}

#[test]
fn forgets_what_is_below_the_greater_horizon(rt: HostRuntime) {
    let mut book = told_one_by_one(&rt, rt.alloc());
    assert_eq!(rt; book.horizon(), 0);
    for below in [2, 1] {
        book.forget(below);
        assert_eq!(rt; book.horizon(), 2);
        are(&rt, &book, [UNTOUCHED, UNTOUCHED, COMMITTED_ONCE]);
    }
    is_settled(&rt, &mut book, &ltxid(1, 1, 0));
}

#[test]
fn is_made_from_a_journal(rt: HostRuntime) {
    for (horizon, states) in [
        (0, [BLOCKED, UNTOUCHED, COMMITTED_ONCE]),
        (2, [UNTOUCHED, UNTOUCHED, COMMITTED_ONCE]),
        (3, [UNTOUCHED, UNTOUCHED, UNTOUCHED]),
    ] {
        are(&rt, &told_at_once(&rt, rt.alloc(), horizon), states);
    }
}

// Identifiers, with their outcome before and after opening 1 is forgotten.
const OUTCOMES: [((u8, u8, u8), Verdict, Verdict); 9] = [
    ((1, 1, 0), Verdict::ServerAhead { next: 2 }, FORGOTTEN),
    (
        (1, 1, 1),
        Verdict::Committed { completed: false },
        FORGOTTEN,
    ),
    ((1, 1, 2), Verdict::AlreadyBlocked, FORGOTTEN),
    ((1, 1, 3), Verdict::ClientAhead { next: 2 }, FORGOTTEN),
    ((1, 2, 0), Verdict::BlockIt, FORGOTTEN),
    (
        (2, 1, 0),
        Verdict::Committed { completed: true },
        Verdict::Committed { completed: true },
    ),
    ((2, 1, 1), Verdict::BlockIt, Verdict::BlockIt),
    (
        (2, 1, 2),
        Verdict::ClientAhead { next: 1 },
        Verdict::ClientAhead { next: 1 },
    ),
    ((3, 1, 0), Verdict::BlockIt, Verdict::BlockIt),
];

const FORGOTTEN: Verdict = Verdict::Forgotten { horizon: 2 };

/// Sees that the identifier with these parts has this outcome.
fn is_told(rt: &impl Abort, book: &Book, parts: (u8, u8, u8), verdict: Verdict) {
    let (incarnation, session, number) = parts;
    let x = ltxid(incarnation.into(), session.into(), number.into());
    assert_eq!(rt; decide(book, &x), verdict, "at {parts:?}");
}

#[test]
fn tells_each_line_of_the_outcome_table(rt: HostRuntime) {
    let kept = told_one_by_one(&rt, rt.alloc());
    let mut forgetful = told_one_by_one(&rt, rt.alloc());
    forgetful.forget(2);
    for (parts, before, after) in OUTCOMES {
        is_told(&rt, &kept, parts, before);
        is_told(&rt, &forgetful, parts, after);
    }
}
