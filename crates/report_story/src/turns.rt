//! Turns: what a session served since a `begin`.
ghost use Rattle.std.specs.Prelude.{◌≡◌, [], filter, length, map, reverse, option_map, OnOk};
ghost use Rattle.shown_clauses.specs.meaning.Links.{add_call};
ghost use Rattle.shown_clauses.specs.meaning.KeptDraws.{place_in};
ghost use Rattle.report_story.specs.Views.{acquired_as, marked_as};

use std::alloc::Global;
use std::marker::Model;
use svc_values::{Call, NoMemory};

/// The step by which a client came to a session: it was lent the connection, or took its Hello.
#[derive(Clone, Copy)]
pub struct Acquired {
    pub client: u64,
    pub event: u64,
}

/// A call that a session served, with the replay mark or without, and the event of its item.
#[derive(Clone, Copy)]
pub struct Marked<'a> {
    pub event: u64,
    pub replay: bool,
    pub call: &'a Call,
}

/// What a session served since one `begin`: the event of that item, the last acquisition of the
/// session before it, and the calls in order, those too that were blocked or that a crash stopped.
#[derive(Drop)]
pub struct Turn<'a> {
    pub begun: u64,
    acquired: Option<Acquired>,
    calls: Vec<Marked<'a>>,
}

impl<'a> Model for Turn<'a> {
    ghost use Rattle.std.specs.Prelude.{map, reverse, option_map};
    ghost use Rattle.shown_clauses.specs.meaning.Links.{Turn as TurnSeen};
    ghost use Rattle.report_story.specs.Views.{acquired_as, marked_as};

    ghost Value = { TurnSeen };

    ghost view = { λ t. record {
      acquired = option_map acquired_as t.acquired;
      calls = reverse (map marked_as t.calls.items);
    } };
}

/// How many of the calls have the mark.
fn count_marked(calls: &[Marked<'_>]) -> usize
    ensures { result ≡ length (filter (λ one. one.replay) calls.now) }
{
    calls.iter().filter(|one| one.replay).count()
}

impl<'a> Turn<'a> {
    /// One in which nothing was served yet. It takes no memory.
    pub(crate) fn new(alloc: Global, begun: u64, acquired: Option<Acquired>) -> Turn<'a>
        ensures { result ≡ record { acquired = option_map acquired_as acquired; calls = [] } }
    {
        Turn {
            begun,
            acquired,
            calls: Vec::new(alloc),
        }
    }

    /// The call was served at an event.
    #[tactic(auto, using(crate::proofs::Turned::one_more))]
    pub(crate) fn add(&mut self, event: u64, replay: bool, call: &'a Call) -> Result<(), NoMemory>
        ensures { OnOk result (self.new ≡ add_call replay call.now self.old) }
    {
        self.calls.push(Marked {
            event,
            replay,
            call,
        })?;
        Ok(())
    }

    /// The last acquisition of the session before it.
    pub fn acquired(&self) -> Option<Acquired>
        ensures { option_map acquired_as result ≡ self.now.acquired }
    {
        self.acquired
    }

    /// The calls in order.
    pub fn calls(&self) -> &[Marked<'a>]
        ensures { self.now.calls ≡ reverse (map marked_as result.now) }
    {
        self.calls.as_slice()
    }

    /// How many of its calls have the mark. Linear.
    pub(crate) fn marked_len(&self) -> usize
        ensures { result ≡ place_in self.now }
    {
        count_marked(self.calls.as_slice())
    }
}
