//! Connections, as the notes and the served items tell of them.
ghost use Rattle.std.specs.Prelude.{◌≡◌, [], ◌∷◌, ◌++◌, None, option_map, OnOk};
ghost use Rattle.std.specs.Option.{option_copied};
ghost use Rattle.shown_clauses.specs.meaning.Fronts.{first_item};
ghost use Rattle.shown_clauses.specs.meaning.Links.{new_link, is_link, has_session as has_session_def, call_served, turn_begun, acquire, take_reply, turn_of, is_connect};
ghost use Rattle.report_story.specs.Lines.{repeated_on, as_turns, without_turn};
ghost use Rattle.report_story.specs.Placing.{identity_of, is_which};
ghost use Rattle.report_story.specs.Views.{repeated_as};

use crate::turns::{Acquired, Turn};
use crate::which::Which;
use outage_schedule::{Item, Served};
use std::alloc::Global;
use std::collections::VecDeque;
use std::marker::Model;
use svc_values::{Call, NoMemory, SessionId};

/// A call that is repeated: the acquisition of the session before its turn, and how many calls with
/// the mark stood in the turn before it.
#[derive(Clone, Copy)]
pub struct Repeated {
    pub acquired: Acquired,
    pub place: usize,
}

/// A connection whose Connect was served: its session, the replies that were not taken yet, its
/// last acquisition, and what its session served since the last `begin`.
#[derive(Drop)]
pub(crate) struct Line<'a> {
    connection: u64,
    session: SessionId,
    replies: VecDeque<&'a Served>,
    acquired: Option<Acquired>,
    turn: Option<Turn<'a>>,
}

impl<'a> Model for Line<'a> {
    ghost use Rattle.std.specs.Prelude.{map, option_map};
    ghost use Rattle.shown_clauses.specs.meaning.Links.{Link};
    ghost use Rattle.report_story.specs.Views.{acquired_as};

    ghost Value = { Link };

    ghost view = { λ l. record {
      connection = l.connection;
      session = l.session;
      replies = map (λ one. one.now) l.replies.items;
      ended = 0;
      acquired = option_map acquired_as l.acquired;
      turn = l.turn;
    } };
}

/// Whether the reply is a Hello.
pub fn is_hello(reply: &Served) -> bool
    ensures { result ≡ is_connect reply.now.item }
{
    matches!(reply.item, Item::Connect)
}

impl<'a> Line<'a> {
    /// A connection of a session. It takes no memory.
    pub(crate) fn new(alloc: Global, connection: u64, session: SessionId) -> Line<'a>
        ensures { result ≡ new_link connection session [] }
    {
        Line {
            connection,
            session,
            replies: VecDeque::new(alloc),
            acquired: None,
            turn: None,
        }
    }

    /// Whether it has this number.
    pub(crate) fn has_number(&self, connection: u64) -> bool
        ensures { result ≡ is_link connection self.now }
    {
        self.connection == connection
    }

    /// Whether it has this session.
    pub(crate) fn has_session(&self, session: SessionId) -> bool
        ensures { result ≡ has_session_def session self.now }
    {
        self.session.incarnation == session.incarnation && self.session.session == session.session
    }

    /// Whether it is named so.
    pub(crate) fn is_which(&self, which: Which) -> bool
        ensures { result ≡ is_which which self.now }
    {
        match which {
            Which::Number(connection) => self.has_number(connection),
            Which::Session(session) => self.has_session(session),
        }
    }

    pub(crate) fn connection(&self) -> u64
        ensures { result ≡ self.now.connection }
    {
        self.connection
    }

    pub(crate) fn session(&self) -> SessionId
        ensures { result ≡ self.now.session }
    {
        self.session
    }

    /// The first reply that was not taken yet.
    pub(crate) fn reply(&self) -> Option<&'a Served>
        ensures { option_copied result ≡ first_item self.now.replies }
    {
        match self.replies.front() {
            Some(one) => Some(*one),
            None => None,
        }
    }

    /// A reply was served on it.
    pub(crate) fn add_reply(&mut self, one: &'a Served) -> Result<(), NoMemory>
        ensures is { OnOk result (self.new
            ≡ record self.old { replies = self.old.replies ++ one.now ∷ [] }) }
        ensures identity { identity_of self.new ≡ identity_of self.old }
    {
        self.replies.push_back(one)?;
        Ok(())
    }

    /// A client came to it at this event.
    pub(crate) fn acquire(&mut self, client: u64, event: u64)
        ensures is { self.new ≡ acquire client event self.old }
        ensures identity { identity_of self.new ≡ identity_of self.old }
    {
        self.acquired = Some(Acquired { client, event });
    }

    /// A client took the first reply.
    pub(crate) fn take_reply(&mut self, client: u64, event: u64)
        ensures is { self.new ≡ take_reply client event self.old }
        ensures identity { identity_of self.new ≡ identity_of self.old }
    {
        if let Some(one) = self.replies.pop_front() {
            if is_hello(one) {
                self.acquired = Some(Acquired { client, event });
            }
        }
    }

    /// Its session served a `begin` at an event.
    pub(crate) fn begin(&mut self, alloc: Global, event: u64)
        ensures is { self.new ≡ turn_begun self.old }
        ensures identity { identity_of self.new ≡ identity_of self.old }
    {
        self.turn = Some(Turn::new(alloc, event, self.acquired));
    }

    /// Its session served a call at an event.
    pub(crate) fn add_call(
        &mut self,
        event: u64,
        replay: bool,
        call: &'a Call,
    ) -> Result<(), NoMemory>
        ensures is { OnOk result (self.new ≡ call_served replay call.now self.old) }
        ensures identity { identity_of self.new ≡ identity_of self.old }
    {
        match &mut self.turn {
            Some(turn) => turn.add(event, replay, call),
            None => Ok(()),
        }
    }

    /// The turn, moved out.
    pub(crate) fn take_turn(&mut self) -> Option<Turn<'a>>
        ensures turn { as_turns result ≡ turn_of self.old }
        ensures rest { self.new ≡ without_turn self.old }
    {
        self.turn.take()
    }

    /// The turn of a connection that is done with.
    pub(crate) fn into_turn(self) -> Option<Turn<'a>>
        ensures { as_turns result ≡ turn_of self.entry }
    {
        let Line {
            connection: _,
            session: _,
            replies: _,
            acquired: _,
            turn,
        } = self;
        turn
    }

    /// What its session repeats where it serves a call with the mark now. Linear in the turn's
    /// calls.
    pub(crate) fn repeated(&self) -> Option<Repeated>
        ensures { option_map repeated_as result ≡ repeated_on self.now }
    {
        let Some(turn) = &self.turn else {
            return None;
        };
        let Some(acquired) = turn.acquired() else {
            return None;
        };
        let place = turn.marked_len();
        Some(Repeated { acquired, place })
    }
}
