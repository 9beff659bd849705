//! Under which identifiers a request tried to commit.
ghost use Rattle.std.specs.Prelude.{◌≡◌, IfOk, OnOk, option_map, if◌then◌else◌};
ghost use Rattle.std.specs.List.{list_any};
ghost use Rattle.svc_values.specs.meaning.Endings.{ends_transaction as ends_transaction_def};
ghost use Rattle.svc_values.specs.meaning.Identifiers.{same_ltxid};
ghost use Rattle.transcript_core.specs.Attempts.{none_yet, put_once as put_once_def, put_in, settled, answered as answered_def, answered_by as answered_by_def, told_ltxid as told_ltxid_def, next_transaction, submitted, hears, sends, lists_of};

use crate::heard::Heard;
use client_model::Shown;
use outage_schedule::{Ltxids, Tried};
use std::alloc::Global;
use std::marker::Model;
use std::mem;
use svc_values::{Answer, Call, Ltxid, NoMemory, Up, ends_transaction};

/// The last unmarked call that went out: its transaction, from 0; its identifier; whether it has a
/// commit; and whether it counts as a try, as its reply stands.
#[derive(Clone, Copy)]
pub(crate) struct Attempt {
    pub(crate) transaction: usize,
    pub(crate) ltxid: Ltxid,
    pub(crate) commits: bool,
    pub(crate) tried: bool,
}

/// For each transaction the identifiers under which it may have committed.
#[derive(Drop)]
pub(crate) struct Attempts {
    alloc: Global,
    over: Vec<Ltxids>,
    now: Ltxids,
    pub(crate) held: Option<Ltxid>,
    last: Option<Attempt>,
}

impl Model for Attempts {
    ghost use Rattle.transcript_core.specs.Attempts.{Attempts as Kept};

    ghost Value = { Kept };

    ghost view = { λ a. record { over = a.over.items; now = a.now; held = a.held; last = a.last } };
}

/// Whether the two are one identifier.
fn is_same(one: &Ltxid, other: &Ltxid) -> bool
    ensures { result ≡ same_ltxid one.now other.now }
{
    one == other
}

/// Whether the identifier is among these.
fn is_among(found: &[Ltxid], ltxid: Ltxid) -> bool
    ensures { result ≡ list_any (λ other. same_ltxid other ltxid) found.now }
{
    found.iter().any(|other| is_same(other, &ltxid))
}

/// The identifier is put last, where it is not there yet.
fn put_once(found: &mut Ltxids, ltxid: Ltxid) -> Result<(), NoMemory>
    ensures { OnOk result (found.new ≡ put_once_def found.old ltxid) }
{
    if is_among(found.as_slice(), ltxid) {
        return Ok(());
    }
    match found.push(ltxid) {
        Ok(()) => Ok(()),
        Err(_) => Err(NoMemory),
    }
}

impl Attempts {
    /// None yet. It takes no memory.
    pub(crate) fn new(alloc: Global) -> Attempts
        ensures { result ≡ none_yet }
    {
        Attempts {
            alloc,
            over: Vec::new(alloc),
            now: Ltxids::new(alloc),
            held: None,
            last: None,
        }
    }

    /// An identifier was tried in this transaction.
    fn put(&mut self, transaction: usize, ltxid: Ltxid) -> Result<(), NoMemory>
        ensures { OnOk result (self.new ≡ put_in self.old transaction ltxid) }
    {
        if transaction < self.over.len() {
            return put_once(&mut self.over[transaction], ltxid);
        }
        put_once(&mut self.now, ltxid)
    }

    /// No reply to the last call is to come any more.
    fn settle(&mut self) -> Result<(), NoMemory>
        ensures { OnOk result (self.new ≡ settled self.old) }
    {
        match self.last {
            None => Ok(()),
            Some(attempt) => {
                if !attempt.tried {
                    return Ok(());
                }
                self.put(attempt.transaction, attempt.ltxid)
            }
        }
    }
}

/// The identifier that comes with a session or with a reply that is shown.
fn told_ltxid(heard: Heard, shown: &Option<Shown>) -> Option<Ltxid>
    ensures { result ≡ told_ltxid_def heard shown.now }
{
    match heard {
        Heard::Session { ltxid } => Some(ltxid),
        Heard::Reply { ltxid, .. } => match shown {
            Some(_) => Some(ltxid),
            None => None,
        },
        Heard::Outcome { .. } => None,
        Heard::Nothing => None,
    }
}

/// The last call with its answers, of which the last may say committed.
fn answered(last: Option<Attempt>, committed: bool) -> Option<Attempt>
    ensures { result ≡ option_map (answered_def committed) last }
{
    match last {
        Some(attempt) => Some(Attempt {
            transaction: attempt.transaction,
            ltxid: attempt.ltxid,
            commits: attempt.commits,
            tried: attempt.commits && committed,
        }),
        None => None,
    }
}

/// The last call, which a reply answers that is shown.
fn answered_by(last: Option<Attempt>, heard: Heard, shown: &Option<Shown>) -> Option<Attempt>
    ensures { result ≡ answered_by_def heard shown.now last }
{
    match heard {
        Heard::Reply { committed, .. } => match shown {
            Some(_) => answered(last, committed),
            None => last,
        },
        Heard::Session { .. } => last,
        Heard::Outcome { .. } => last,
        Heard::Nothing => last,
    }
}

/// Hearing and sending.
impl Attempts {
    /// What a step tells before frames go out: the identifier that is held from now on, the answers
    /// to the last call, and whether its transaction is over.
    pub(crate) fn hear(&mut self, heard: Heard, shown: &Option<Shown>) -> Result<(), NoMemory>
        ensures { OnOk result (self.new ≡ hears self.old heard shown.now) }
    {
        self.held = told_ltxid(heard, shown).or(self.held);
        self.last = answered_by(self.last, heard, shown);
        match shown {
            Some(shown) => self.end(shown.answers.as_slice()),
            None => Ok(()),
        }
    }

    /// The answers of a shown call may end its transaction.
    fn end(&mut self, answers: &[Answer]) -> Result<(), NoMemory>
        ensures { OnOk result
            (self.new
            ≡ (if ends_transaction_def answers.now then next_transaction self.old else self.old)) }
    {
        if !ends_transaction(answers) {
            return Ok(());
        }
        let over = mem::replace(&mut self.now, Ltxids::new(self.alloc));
        self.over.push(over)?;
        Ok(())
    }

    /// An unmarked call goes out.
    fn submit(&mut self, ltxid: Ltxid, call: &Call) -> Result<(), NoMemory>
        ensures { OnOk result (self.new ≡ submitted self.old ltxid call.now) }
    {
        let transaction = self.over.len();
        self.settle()?;
        let commits = call.has_commit();
        self.last = Some(Attempt {
            transaction,
            ltxid,
            commits,
            tried: commits,
        });
        Ok(())
    }

    /// A frame goes out.
    pub(crate) fn send(&mut self, frame: &Up) -> Result<(), NoMemory>
        ensures { OnOk result (self.new ≡ sends self.old frame.now) }
    {
        match self.held {
            None => Ok(()),
            Some(ltxid) => match frame {
                Up::Call { replay, call, .. } => {
                    if *replay {
                        return Ok(());
                    }
                    self.submit(ltxid, call)
                }
                Up::Connect => Ok(()),
                Up::Begin { .. } => Ok(()),
                Up::Outcome { .. } => Ok(()),
                Up::End => Ok(()),
                Up::Close => Ok(()),
            },
        }
    }

    /// A list for each transaction that is over, and one for the last.
    pub(crate) fn into_tried(mut self) -> Result<Tried, NoMemory>
        ensures { IfOk result (λ tried. tried ≡ lists_of (settled self)) }
    {
        self.settle()?;
        let Attempts {
            over: mut lists,
            now,
            ..
        } = self;
        lists.push(now)?;
        Ok(Tried::from_vec(lists))
    }
}
