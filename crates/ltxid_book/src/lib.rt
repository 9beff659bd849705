//! The book of commits and blocks: for each session how often it committed, whether its next
//! identifier is blocked, and whether its last commit was a lone one.
//!
//! It is kept in memory beside a journal, which it can be made from again. Of sessions below its
//! horizon it knows nothing.
#![tactic(auto)]

ghost use Rattle.std.specs.Prelude.{◌≡◌, ◌<◌, ◌≤◌, ◌+◌, ◌^◌, ℕ, IsTrue, IfOk, OnOk, OnErr, map};
ghost use Rattle.svc_values.specs.Identifiers.{IsLtxid};
ghost use Rattle.ltxid_book.specs.meaning.Sessions.{can_commit as can_commit_def, may_commit as may_commit_def};
ghost use Rattle.ltxid_book.specs.Sessions.{state_in, sessions_in, none_yet, after_commit, after_block, after_forgetting};
ghost use Rattle.ltxid_book.specs.meaning.Journal.{committed_of, book_of};
ghost use Rattle.ltxid_book.specs.InnerMaking.{counted, marked};

pub mod laws;
mod verdict;

use std::alloc::Global;
use std::collections::BTreeMap;
use std::marker::Model;
use svc_values::{Entry, Ltxid, NoMemory};
pub use verdict::Verdict;

/// What the book says of a session. `next` is the number of the session's commits and so the number
/// of its next identifier, `blocked` tells that this identifier is blocked, and `completed` that
/// the session's last commit was a call without statements (false before the first).
#[derive(Clone, Copy, Debug, PartialEq, Eq)]
pub struct State {
    pub next: u64,
    pub blocked: bool,
    pub completed: bool,
}

const UNTOUCHED: State = State {
    next: 0,
    blocked: false,
    completed: false,
};

/// The state of each session that is not forgotten. Each call but those that say so takes time
/// logarithmic in the number of these sessions that committed or were blocked, and the calls that
/// only look take no memory.
#[derive(Drop)]
pub struct Book {
    horizon: u64,
    sessions: BTreeMap<(u64, u64), State>,
}

impl Model for Book {
    ghost use Rattle.ltxid_book.specs.Sessions.{Contents};

    ghost Value = { Contents };

    ghost view = { λ b. record { horizon = b.horizon; sessions = b.sessions.entries } };
}

// Lets go of the sessions of all incarnations below this one. Linear in the sessions.
fn drop_below(sessions: &mut BTreeMap<(u64, u64), State>, below: u64)
    ensures { (incarnation session : ℕ) → below ≤ incarnation
        → state_in sessions.new.entries incarnation session
        ≡ state_in sessions.old.entries incarnation session }
{
    sessions.retain(|key, _| key.0 >= below);
}

impl Book {
    /// The book in which no session has committed and none is forgotten. It takes no memory.
    pub fn new(alloc: Global) -> Book
        ensures { sessions_in result ≡ none_yet }
    {
        Book {
            horizon: 0,
            sessions: BTreeMap::new(alloc),
        }
    }

    /// The book of a journal with this horizon, these entries and these blocked identifiers, each
    /// in the order in which they were stored: n log n for n of both.
    pub fn of_journal(
        alloc: Global,
        horizon: u64,
        entries: &[Entry],
        blocked: &[Ltxid],
    ) -> Result<Book, NoMemory>
        ensures { IfOk result (λ book. sessions_in book
            ≡ book_of horizon (map committed_of entries.now) blocked.now) }
    {
        let mut book = Book {
            horizon,
            sessions: BTreeMap::new(alloc),
        };
        for entry in entries {
            book.count(&entry.ltxid, entry.completed)?;
        }
        for x in blocked {
            book.mark(x)?;
        }
        Ok(book)
    }

    /// The incarnation below which sessions are forgotten.
    pub fn horizon(&self) -> u64
        ensures { result ≡ (sessions_in self.now).horizon }
    {
        self.horizon
    }

    /// What the book says of the session: no commit and no block where it was never told of one,
    /// and where the session is forgotten.
    pub fn state(&self, incarnation: u64, session: u64) -> State
        ensures { result ≡ (sessions_in self.now).state incarnation session }
    {
        if incarnation < self.horizon {
            return UNTOUCHED;
        }
        match self.sessions.get(&(incarnation, session)) {
            Some(state) => *state,
            None => UNTOUCHED,
        }
    }

    /// Whether the identifier is its session's next one and is not blocked.
    pub fn can_commit(&self, x: &Ltxid) -> bool
        ensures { result ≡ can_commit_def (sessions_in self.now) x.now }
    {
        let state = self.state(x.incarnation, x.session);
        x.number == state.next && !state.blocked
    }

    /// Whether `commit` and `block` take the identifier: it can commit, and its session is not
    /// forgotten.
    pub fn may_commit(&self, x: &Ltxid) -> bool
        ensures { result ≡ may_commit_def (sessions_in self.now) x.now }
    {
        x.incarnation >= self.horizon && self.can_commit(x)
    }

    /// Notes a commit. Where memory is refused the book stays as it was.
    pub fn commit(&mut self, x: &Ltxid, completed: bool) -> Result<(), NoMemory>
        requires parts { IsLtxid x.now }
        requires may { IsTrue (may_commit_def (sessions_in self.old) x.now) }
        ensures ok { OnOk result (sessions_in self.new
            ≡ after_commit (sessions_in self.old) x.now completed) }
        ensures err { OnErr result (self.new ≡ self.old) }
    {
        let state = State {
            next: x.number + 1,
            blocked: false,
            completed,
        };
        self.sessions.insert((x.incarnation, x.session), state)?;
        Ok(())
    }

    /// Notes that the identifier is blocked: its session can commit no more. Where memory is
    /// refused the book stays as it was.
    pub fn block(&mut self, x: &Ltxid) -> Result<(), NoMemory>
        requires { IsTrue (may_commit_def (sessions_in self.old) x.now) }
        ensures ok { OnOk result (sessions_in self.new ≡ after_block (sessions_in self.old) x.now) }
        ensures err { OnErr result (self.new ≡ self.old) }
    {
        let mut state = self.state(x.incarnation, x.session);
        state.blocked = true;
        self.sessions.insert((x.incarnation, x.session), state)?;
        Ok(())
    }

    /// Forgets the sessions of all incarnations below this one, and keeps the greater horizon.
    /// Linear in the number of sessions that the book knows, and it takes no memory.
    pub fn forget(&mut self, below: u64)
        ensures { sessions_in self.new ≡ after_forgetting (sessions_in self.old) below }
    {
        if below > self.horizon {
            self.horizon = below;
            drop_below(&mut self.sessions, below);
        }
    }

    // Counts a commit of the identifier's session, whatever its number.
    fn count(&mut self, x: &Ltxid, completed: bool) -> Result<(), NoMemory>
        requires { ((sessions_in self.old).state x.now.incarnation x.now.session).next + 1
            < 2 ^ 64 }
        ensures { OnOk result (sessions_in self.new
            ≡ counted (sessions_in self.old) (record { ltxid = x.now; completed = completed })) }
    {
        if x.incarnation < self.horizon {
            return Ok(());
        }
        let mut state = self.state(x.incarnation, x.session);
        state.next += 1;
        state.completed = completed;
        self.sessions.insert((x.incarnation, x.session), state)?;
        Ok(())
    }

    // Blocks the identifier, if it is its session's next one.
    fn mark(&mut self, x: &Ltxid) -> Result<(), NoMemory>
        ensures { OnOk result (sessions_in self.new ≡ marked (sessions_in self.old) x.now) }
    {
        if x.incarnation < self.horizon {
            return Ok(());
        }
        let mut state = self.state(x.incarnation, x.session);
        if x.number != state.next {
            return Ok(());
        }
        state.blocked = true;
        self.sessions.insert((x.incarnation, x.session), state)?;
        Ok(())
    }
}
