//! What the events of a run did to its connections and to the turns of its sessions.
ghost use Rattle.std.specs.Prelude.{◌≡◌, ◌∷◌, ◌++◌, is_some, reverse, option_and_then, option_map, IfOk, OnOk};
ghost use Rattle.std.specs.Option.{option_copied};
ghost use Rattle.shown_clauses.specs.meaning.Fronts.{first_item};
ghost use Rattle.shown_clauses.specs.meaning.Links.{nothing_seen, link_of, add_reply, connected, served_on, stopped_on, linked, after_go};
ghost use Rattle.shown_clauses.specs.meaning.Steps.{turns_seen};
ghost use Rattle.report_story.specs.Lines.{as_turns};
ghost use Rattle.report_story.specs.Passing.{repeated_at};
ghost use Rattle.report_story.specs.Plain.{plain_item, plain_note};
ghost use Rattle.report_story.specs.Seeing.{with_links, connect_stopped as connect_stopped_def, begun_on, called_on, turned, IsTurnOver};
ghost use Rattle.report_story.specs.Views.{repeated_as};

use crate::change::{Begun, Called, Lent, Replied, Taken};
use crate::connections::Connections;
use crate::line::{Line, Repeated};
use crate::turns::Turn;
use crate::which::Which;
use outage_schedule::{GoNote, Item, Note, Served};
use std::alloc::Global;
use std::marker::Model;
use svc_values::{Call, NoMemory, SessionId};

/// The connections, the newest first, and the turns that another `begin` followed. Each call takes
/// the logarithm of the number of connections, as long as no two have one number or one session.
#[derive(Drop)]
pub(crate) struct Seen<'a> {
    alloc: Global,
    lines: Connections<'a>,
    over: Vec<Turn<'a>>,
}

impl<'a> Model for Seen<'a> {
    ghost use Rattle.std.specs.Prelude.{reverse};
    ghost use Rattle.shown_clauses.specs.meaning.Links.{Seen as AllSeen};

    ghost Value = { AllSeen };

    ghost view = { λ s. record { links = s.lines; over = reverse s.over.items } };
}

/// Puts a turn last, if there is one.
fn put_turn<'a>(turns: &mut Vec<Turn<'a>>, turn: Option<Turn<'a>>) -> Result<(), NoMemory>
    ensures { OnOk result (turns.new.items ≡ turns.old.items ++ as_turns turn.entry) }
{
    match turn {
        Some(turn) => {
            turns.push(turn)?;
            Ok(())
        },
        None => Ok(()),
    }
}

impl<'a> Seen<'a> {
    /// None yet. It takes no memory.
    pub(crate) fn new(alloc: Global) -> Seen<'a>
        ensures { result ≡ nothing_seen }
    {
        Seen {
            alloc,
            lines: Connections::new(alloc),
            over: Vec::new(alloc),
        }
    }

    /// What the session repeats where it serves a call with the mark now.
    pub(crate) fn repeated(&self, session: SessionId) -> Option<Repeated>
        ensures { option_map repeated_as result ≡ repeated_at self.now session }
    {
        match self.lines.find(Which::Session(session)) {
            Some(line) => line.repeated(),
            None => None,
        }
    }

    /// The first reply on the connection of this number that was not taken yet.
    pub(crate) fn reply_on(&self, connection: u64) -> Option<&'a Served>
        ensures { option_copied result ≡ option_and_then (λ link. first_item link.replies)
            (link_of connection self.now.links) }
    {
        match self.lines.find(Which::Number(connection)) {
            Some(line) => line.reply(),
            None => None,
        }
    }

    /// The session of the connection of this number.
    pub(crate) fn session_on(&self, connection: u64) -> Option<SessionId>
        ensures { result ≡ option_map (λ link. link.session) (link_of connection self.now.links) }
    {
        match self.lines.find(Which::Number(connection)) {
            Some(line) => Some(line.session()),
            None => None,
        }
    }

    /// Whether a connection has this number.
    fn has_line(&self, connection: u64) -> bool
        ensures { result ≡ is_some (link_of connection self.now.links) }
    {
        self.lines.find(Which::Number(connection)).is_some()
    }

    /// A reply was served on the connection of this number, if there is one.
    fn reply(&mut self, connection: u64, one: &'a Served) -> Result<(), NoMemory>
        ensures { OnOk result (self.new
            ≡ with_links self.old (add_reply connection one.now self.old.links)) }
    {
        self.lines
            .change(Which::Number(connection), &Replied { one })
    }

    /// A connection was made.
    fn put(&mut self, line: Line<'a>) -> Result<(), NoMemory>
        ensures { OnOk result (self.new ≡ with_links self.old (line.entry ∷ self.old.links)) }
    {
        self.lines.put(self.alloc, line)
    }

    /// The Connect of a connection was served.
    fn connect(&mut self, connection: u64, one: &'a Served) -> Result<(), NoMemory>
        ensures { OnOk result (self.new
            ≡ with_links self.old (connected connection one.now
            (link_of connection self.old.links) self.old.links)) }
    {
        if self.has_line(connection) {
            return self.reply(connection, one);
        }
        let mut line = Line::new(self.alloc, connection, one.session);
        line.add_reply(one)?;
        self.put(line)
    }

    /// An item of a `serve` of the connection.
    fn serve_on(&mut self, connection: u64, one: &'a Served) -> Result<(), NoMemory>
        ensures { OnOk result (self.new
            ≡ with_links self.old (served_on connection one.now one.now.item self.old.links)) }
    {
        match &one.item {
            Item::Connect => self.connect(connection, one),
            Item::Call { .. } => self.reply(connection, one),
            Item::Blocked { .. } => self.reply(connection, one),
            Item::Outcome { .. } => self.reply(connection, one),
            Item::Refused { .. } => self.reply(connection, one),
            Item::Begin { .. } => Ok(()),
            Item::End => Ok(()),
            Item::Close => Ok(()),
            Item::CrashedCall { .. } => Ok(()),
            Item::CrashedOutcome { .. } => Ok(()),
        }
    }

    /// The item that a crash of the connection stopped.
    fn stop_on(&mut self, connection: u64, one: &'a Served) -> Result<(), NoMemory>
        ensures { OnOk result (self.new
            ≡ with_links self.old (stopped_on connection one.now one.now.item self.old.links)) }
    {
        match &one.item {
            Item::Connect => self.connect_stopped(connection, one.session),
            Item::Call { .. } => Ok(()),
            Item::Blocked { .. } => Ok(()),
            Item::Outcome { .. } => Ok(()),
            Item::Refused { .. } => Ok(()),
            Item::Begin { .. } => Ok(()),
            Item::End => Ok(()),
            Item::Close => Ok(()),
            Item::CrashedCall { .. } => Ok(()),
            Item::CrashedOutcome { .. } => Ok(()),
        }
    }

    /// The Connect of a connection was stopped.
    fn connect_stopped(&mut self, connection: u64, session: SessionId) -> Result<(), NoMemory>
        ensures { OnOk result (self.new
            ≡ with_links self.old (connect_stopped_def connection session
            (link_of connection self.old.links) self.old.links)) }
    {
        if self.has_line(connection) {
            return Ok(());
        }
        self.put(Line::new(self.alloc, connection, session))
    }

    /// An item, by the connection that its note names.
    fn link(&mut self, noted: &Note, one: &'a Served) -> Result<(), NoMemory>
        ensures { OnOk result (self.new
            ≡ with_links self.old (linked noted.now self.old.links one.now)) }
    {
        match noted {
            Note::Serve { connection, frame } => {
                if frame.is_none() {
                    return Ok(());
                }
                self.serve_on(*connection, one)
            },
            Note::Crash { connection, down } => {
                if *down {
                    return Ok(());
                }
                self.stop_on(*connection, one)
            },
            Note::Go { .. } => Ok(()),
            Note::Cut { .. } => Ok(()),
            Note::Reap { .. } => Ok(()),
            Note::Up { .. } => Ok(()),
            Note::UpCrash { .. } => Ok(()),
            Note::Tick => Ok(()),
            Note::Outside { .. } => Ok(()),
            Note::Ask { .. } => Ok(()),
            Note::Drain { .. } => Ok(()),
        }
    }

    /// The turn that another `begin` of the session, at this event, follows. One of a session that
    /// no connection has is a turn that nobody acquired.
    fn turn_over(&mut self, session: SessionId, event: u64) -> Result<(), NoMemory>
        ensures { OnOk result (IsTurnOver session self.old self.new) }
    {
        let turn = self.lines.take_turn(self.alloc, session, event);
        put_turn(&mut self.over, turn)
    }

    /// The session served a `begin` at an event.
    fn begin(&mut self, session: SessionId, event: u64) -> Result<(), NoMemory>
        ensures { OnOk result (self.new ≡ begun_on session self.old) }
    {
        self.turn_over(session, event)?;
        let alloc = self.alloc;
        self.lines
            .change(Which::Session(session), &Begun { alloc, event })
    }

    /// The session of an item served a call.
    fn call(&mut self, one: &Served, replay: bool, call: &'a Call) -> Result<(), NoMemory>
        ensures { OnOk result (self.new ≡ called_on one.now.session replay call.now self.old) }
    {
        self.lines.change(
            Which::Session(one.session),
            &Called {
                event: one.event,
                replay,
                call,
            },
        )
    }

    /// An item, by its session.
    fn turn(&mut self, one: &'a Served) -> Result<(), NoMemory>
        ensures { OnOk result (self.new ≡ turned one.now.session one.now.item self.old) }
    {
        match &one.item {
            Item::Begin { .. } => self.begin(one.session, one.event),
            Item::Call { replay, call, .. } => self.call(one, *replay, call),
            Item::Blocked { call } => self.call(one, false, call),
            Item::CrashedCall { replay, call } => self.call(one, *replay, call),
            Item::Connect => Ok(()),
            Item::Outcome { .. } => Ok(()),
            Item::End => Ok(()),
            Item::Close => Ok(()),
            Item::Refused { .. } => Ok(()),
            Item::CrashedOutcome { .. } => Ok(()),
        }
    }

    /// An item at the event of this note.
    pub(crate) fn serve(&mut self, noted: &Note, one: &'a Served) -> Result<(), NoMemory>
        ensures { OnOk result (self.new ≡ plain_item noted.now self.old one.now) }
    {
        self.link(noted, one)?;
        self.turn(one)
    }

    /// A step of a client.
    fn go(&mut self, client: u64, event: u64, did: GoNote) -> Result<(), NoMemory>
        ensures { OnOk result (self.new
            ≡ with_links self.old (after_go client event did self.old.links)) }
    {
        match did {
            GoNote::Lent { connection } => self
                .lines
                .change(Which::Number(connection), &Lent { client, event }),
            GoNote::Took { connection, .. } => self
                .lines
                .change(Which::Number(connection), &Taken { client, event }),
            GoNote::Idle => Ok(()),
            GoNote::Wait => Ok(()),
            GoNote::NoFrame => Ok(()),
            GoNote::Early => Ok(()),
            GoNote::Down => Ok(()),
            GoNote::Open { .. } => Ok(()),
            GoNote::Lost { .. } => Ok(()),
        }
    }

    /// The note itself, behind the items of its event.
    pub(crate) fn note(&mut self, event: u64, noted: &Note) -> Result<(), NoMemory>
        ensures { OnOk result (self.new
            ≡ with_links self.old (plain_note event noted.now self.old.links)) }
    {
        match noted {
            Note::Go { client, did } => self.go(*client, event, *did),
            Note::Serve { .. } => Ok(()),
            Note::Cut { .. } => Ok(()),
            Note::Reap { .. } => Ok(()),
            Note::Crash { .. } => Ok(()),
            Note::Up { .. } => Ok(()),
            Note::UpCrash { .. } => Ok(()),
            Note::Tick => Ok(()),
            Note::Outside { .. } => Ok(()),
            Note::Ask { .. } => Ok(()),
            Note::Drain { .. } => Ok(()),
        }
    }

    /// All turns, moved out: those that are over, and the last of each connection.
    pub(crate) fn into_turns(self) -> Result<Vec<Turn<'a>>, NoMemory>
        ensures { IfOk result (λ turns. reverse turns.items ≡ turns_seen self.entry) }
    {
        let Seen {
            alloc: _,
            lines,
            over,
        } = self;
        let mut lines = lines.into_lines();
        let mut turns = over;
        while let Some(line) = lines.pop() {
            put_turn(&mut turns, line.into_turn())?;
        }
        Ok(turns)
    }
}
