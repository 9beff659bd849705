//! A report, gone through note by note.
ghost use Rattle.std.specs.Prelude.{◌≡◌, ◌+◌, ◌<◌, ◌^◌, ◌==◌, [], ◌∷◌, ◌++◌, option_map, MatchOption, OnOk};
ghost use Rattle.std.specs.Option.{option_copied};
ghost use Rattle.shown_clauses.specs.meaning.KeptDraws.{is_marked_item};
ghost use Rattle.shown_clauses.specs.meaning.Links.{is_hello as is_hello_def};
ghost use Rattle.shown_clauses.specs.meaning.Steps.{reply_at, greeted as greeted_def, session_at};
ghost use Rattle.report_story.specs.Passing.{begun_with, repeated_by as repeated_by_def, with_go, with_step, with_one, with_item, with_note, pass as pass_def};
ghost use Rattle.report_story.specs.Plain.{is_idle as is_idle_def, step_by};
ghost use Rattle.report_story.specs.Views.{repeated_as};

use crate::line::{Repeated, is_hello};
use crate::seen::Seen;
use crate::steps::Step;
use outage_schedule::{GoNote, Item, Note, Served};
use std::alloc::Global;
use std::marker::Model;
use svc_values::{NoMemory, SessionId};

/// How far a report was gone through: the event of the next note, what was seen, the steps that
/// were made, what each served item repeats, and the items that are left.
#[derive(Drop)]
pub(crate) struct Passing<'a> {
    pub(crate) event: u64,
    pub(crate) seen: Seen<'a>,
    pub(crate) steps: Vec<Step<'a>>,
    pub(crate) repeated: Vec<Option<Repeated>>,
    pub(crate) left: &'a [Served],
}

impl<'a> Model for Passing<'a> {
    ghost use Rattle.std.specs.Prelude.{map, option_map};
    ghost use Rattle.report_story.specs.Passing.{Passed};
    ghost use Rattle.report_story.specs.Views.{repeated_as, step_as};

    ghost Value = { Passed };

    ghost view = { λ p. record {
      event = p.event;
      seen = p.seen;
      steps = map step_as p.steps.items;
      repeated = map (option_map repeated_as) p.repeated.items;
      left = p.left.now;
    } };
}

/// Whether the item is a call with the mark.
pub fn is_marked(item: &Item) -> bool
    ensures { result ≡ is_marked_item item.now }
{
    match item {
        Item::Call { replay, .. } => *replay,
        Item::Connect => false,
        Item::Begin { .. } => false,
        Item::Blocked { .. } => false,
        Item::Outcome { .. } => false,
        Item::End => false,
        Item::Close => false,
        Item::Refused { .. } => false,
        Item::CrashedCall { .. } => false,
        Item::CrashedOutcome { .. } => false,
    }
}

/// Whether the client is finished.
fn is_idle(did: GoNote) -> bool
    ensures { result ≡ is_idle_def did }
{
    matches!(did, GoNote::Idle)
}

/// Whether the item is of this event.
fn is_at(one: &Served, event: u64) -> bool
    ensures { result ≡ (one.now.event == event) }
{
    one.event == event
}

/// The first of some items, and those behind it.
#[derive(Clone, Copy)]
struct First<'a> {
    one: &'a Served,
    behind: &'a [Served],
}

fn first_of(items: &[Served]) -> Option<First<'_>>
    ensures { MatchOption result (items.now ≡ [])
        (λ first. items.now ≡ first.one.now ∷ first.behind.now) }
{
    if items.is_empty() {
        return None;
    }
    Some(First {
        one: &items[0],
        behind: &items[1..],
    })
}

/// The session of a Hello.
fn greeted(taken: Option<&Served>) -> Option<SessionId>
    ensures { result
        ≡ greeted_def (is_hello_def (option_copied taken.entry)) (option_copied taken.entry) }
{
    let Some(one) = taken else {
        return None;
    };
    if is_hello(one) {
        return Some(one.session);
    }
    None
}

/// The session that a step acquires which takes this reply.
fn session_of(seen: &Seen<'_>, did: GoNote, taken: Option<&Served>) -> Option<SessionId>
    ensures { result ≡ session_at seen.now.links did (option_copied taken.entry) }
{
    match did {
        GoNote::Lent { connection } => seen.session_on(connection),
        GoNote::Idle => greeted(taken),
        GoNote::Wait => greeted(taken),
        GoNote::NoFrame => greeted(taken),
        GoNote::Early => greeted(taken),
        GoNote::Down => greeted(taken),
        GoNote::Open { .. } => greeted(taken),
        GoNote::Took { .. } => greeted(taken),
        GoNote::Lost { .. } => greeted(taken),
    }
}

/// The reply that a step takes.
fn reply_of<'a>(seen: &Seen<'a>, did: GoNote) -> Option<&'a Served>
    ensures { option_copied result ≡ reply_at seen.now.links did }
{
    match did {
        GoNote::Took { connection, .. } => seen.reply_on(connection),
        GoNote::Idle => None,
        GoNote::Wait => None,
        GoNote::NoFrame => None,
        GoNote::Early => None,
        GoNote::Down => None,
        GoNote::Open { .. } => None,
        GoNote::Lent { .. } => None,
        GoNote::Lost { .. } => None,
    }
}

/// What an item repeats, by what was seen before it.
fn repeated_by(seen: &Seen<'_>, one: &Served) -> Option<Repeated>
    ensures { option_map repeated_as result ≡ repeated_by_def seen.now one.now }
{
    if is_marked(&one.item) {
        return seen.repeated(one.session);
    }
    None
}

impl<'a> Passing<'a> {
    /// At the first note, with all items left. It takes no memory.
    pub(crate) fn new(alloc: Global, left: &'a [Served]) -> Passing<'a>
        ensures { result ≡ begun_with left.now }
    {
        Passing {
            event: 1,
            seen: Seen::new(alloc),
            steps: Vec::new(alloc),
            repeated: Vec::new(alloc),
            left,
        }
    }

    /// A step of a client.
    #[tactic(auto, using(crate::proofs::Pushed::step_pushed))]
    fn push_step(&mut self, client: u64, did: GoNote) -> Result<(), NoMemory>
        ensures { OnOk result (self.new ≡ record self.old {
          steps = self.old.steps
              ++ step_by self.old.seen.links self.old.event client did ∷ [];
        }) }
    {
        let taken = reply_of(&self.seen, did);
        let session = session_of(&self.seen, did, taken);
        self.steps.push(Step {
            event: self.event,
            client,
            did,
            taken,
            session,
        })?;
        Ok(())
    }

    /// A step of a client that is not finished.
    #[tactic(auto, using(crate::proofs::Pushed::no_step))]
    fn go(&mut self, client: u64, did: GoNote) -> Result<(), NoMemory>
        ensures { OnOk result (self.new ≡ with_go client did self.old) }
    {
        if is_idle(did) {
            return Ok(());
        }
        self.push_step(client, did)
    }

    /// The step of a note.
    #[tactic(auto, using(crate::proofs::Pushed::no_step))]
    fn step(&mut self, noted: &Note) -> Result<(), NoMemory>
        ensures { OnOk result (self.new ≡ with_step noted.now self.old) }
    {
        match noted {
            Note::Go { client, did } => self.go(*client, *did),
            Note::Serve { .. } => Ok(()),
            Note::Cut { .. } => Ok(()),
            Note::Reap { .. } => Ok(()),
            Note::Crash { .. } => Ok(()),
            Note::Up { .. } => Ok(()),
            Note::UpCrash { .. } => Ok(()),
            Note::Tick => Ok(()),
            Note::Outside { .. } => Ok(()),
            Note::Ask { .. } => Ok(()),
            Note::Drain { .. } => Ok(()),
        }
    }

    /// The first item that is left is of this event.
    fn serve_one(&mut self, noted: &Note, first: First<'a>) -> Result<(), NoMemory>
        ensures { OnOk result (self.new
            ≡ with_one noted.now self.old first.entry.one.now first.entry.behind.now) }
    {
        let repeated = repeated_by(&self.seen, first.one);
        self.seen.serve(noted, first.one)?;
        self.repeated.push(repeated)?;
        self.left = first.behind;
        Ok(())
    }

    /// The item of this event, if there is one.
    fn serve(&mut self, noted: &Note) -> Result<(), NoMemory>
        ensures { OnOk result (self.new ≡ with_item noted.now self.old) }
    {
        let Some(first) = first_of(self.left) else {
            return Ok(());
        };
        if is_at(first.one, self.event) {
            return self.serve_one(noted, first);
        }
        Ok(())
    }

    /// On to the next note.
    fn end(&mut self, noted: &Note) -> Result<(), NoMemory>
        requires { self.old.event < 2 ^ 63 }
        ensures { OnOk result (self.new ≡ with_note noted.now self.old) }
    {
        self.seen.note(self.event, noted)?;
        self.event += 1;
        Ok(())
    }

    /// Goes through one note.
    pub(crate) fn pass(&mut self, noted: &Note) -> Result<(), NoMemory>
        requires { self.old.event < 2 ^ 63 }
        ensures { OnOk result (self.new ≡ pass_def self.old noted.now) }
    {
        self.step(noted)?;
        self.serve(noted)?;
        self.end(noted)
    }
}
