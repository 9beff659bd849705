//! Connections, found by their numbers and their sessions.
ghost use Rattle.std.specs.Prelude.{◌≡◌, ◌==◌, ◌||◌, ◌∷◌, [], ℕ, Some, is_some, length, map, if◌then◌else◌, OnOk};
ghost use Rattle.std.specs.Option.{option_copied};
ghost use Rattle.svc_values.specs.Keys.{value_of};
ghost use Rattle.shown_clauses.specs.meaning.Fronts.{first_of, with_changed};
ghost use Rattle.shown_clauses.specs.meaning.Links.{has_session, link_of_session, over_on, turn_begun};
ghost use Rattle.report_story.specs.Lines.{as_turns, turns_on, without_turn};
ghost use Rattle.report_story.specs.Placing.{identity_of, is_which, key_of as key_of_def, same_key, place_of, older_at, changed_at};

use crate::change::{Change, change_all};
use crate::line::Line;
use crate::turns::Turn;
use crate::which::Which;
use std::alloc::Global;
use std::collections::VecDeque;
use std::marker::Model;
use svc_values::{KeyMap, NoMemory, SessionId};

/// The two numbers of a session.
type Key = (u64, u64);

/// Connections, seen as the list of them, the newest first. The place of one is how many are older.
/// Each call takes the logarithm of their number, but for a change where two have one number or one
/// session, which is linear.
#[derive(Drop)]
pub(crate) struct Connections<'a> {
    lines: VecDeque<Line<'a>>,
    numbers: KeyMap<u64, usize>,
    sessions: KeyMap<Key, usize>,
    twice: bool,
}

impl<'a> Model for Connections<'a> {
    ghost use Rattle.std.specs.Prelude.{List, map};
    ghost use Rattle.shown_clauses.specs.meaning.Links.{Link};
    ghost use Rattle.report_story.specs.Placing.{identity_of, IsIndexed};

    ghost Value = { List Link };

    ghost view = { λ c. c.lines.items };

    ghost invariant = { λ c. IsIndexed c.numbers c.sessions c.twice
        (map identity_of c.lines.items) };
}

fn key_of(session: SessionId) -> Key
    ensures { result ≡ key_of_def session }
{
    (session.incarnation, session.session)
}

/// Whether two have one number or one session, or one of these is a connection's that is put.
fn comes_twice(
    twice: bool,
    numbers: &KeyMap<u64, usize>,
    sessions: &KeyMap<Key, usize>,
    line: &Line<'_>,
) -> bool
    ensures { result
        ≡ ((twice || is_some (value_of (λ a b. a == b) numbers.now line.now.connection))
        || is_some (value_of same_key sessions.now (key_of_def line.now.session))) }
{
    let connection = line.connection();
    let key = key_of(line.session());
    twice || numbers.has(&connection) || sessions.has(&key)
}

/// The connection at a place.
fn line_at<'b, 'a>(lines: &'b VecDeque<Line<'a>>, place: usize) -> Option<&'b Line<'a>>
    ensures { option_copied result ≡ older_at place lines.now.items }
{
    let count = lines.len();
    if count <= place {
        return None;
    }
    Some(&lines[count - 1 - place])
}

/// Changes the connection at a place.
fn change_at<'a, C: Change<'a>>(
    lines: &mut VecDeque<Line<'a>>,
    place: usize,
    change: &C,
) -> Result<(), NoMemory>
    ensures is { OnOk result (lines.new.items
        ≡ changed_at (C.change change.now) place lines.old.items) }
    ensures identities { map identity_of lines.new.items ≡ map identity_of lines.old.items }
{
    let count = lines.len();
    if count <= place {
        return Ok(());
    }
    let line = &mut lines[count - 1 - place];
    change.apply(line)?;
    Ok(())
}

/// The turn of the connection at a place, moved out.
fn take_turn_at<'a>(lines: &mut VecDeque<Line<'a>>, place: usize) -> Option<Turn<'a>>
    ensures turn { as_turns result ≡ turns_on (older_at place lines.old.items) }
    ensures rest { lines.new.items ≡ changed_at without_turn place lines.old.items }
{
    let count = lines.len();
    if count <= place {
        return None;
    }
    let line = &mut lines[count - 1 - place];
    line.take_turn()
}

/// Puts a connection first, and notes its place.
fn put_in<'a>(
    lines: &mut VecDeque<Line<'a>>,
    numbers: &mut KeyMap<u64, usize>,
    sessions: &mut KeyMap<Key, usize>,
    line: Line<'a>,
) -> Result<(), NoMemory>
    ensures lines { OnOk result (lines.new.items ≡ line.entry ∷ lines.old.items) }
    ensures numbers { OnOk result ((k : ℕ) → value_of (λ a b. a == b) numbers.new k
        ≡ (if k == line.entry.connection then Some (length lines.old.items)
        else value_of (λ a b. a == b) numbers.old k)) }
    ensures sessions { OnOk result ((k : ℕ × ℕ) → value_of same_key sessions.new k
        ≡ (if same_key k (key_of_def line.entry.session) then Some (length lines.old.items)
        else value_of same_key sessions.old k)) }
{
    let place = lines.len();
    numbers.put(line.connection(), place)?;
    sessions.put(key_of(line.session()), place)?;
    lines.push_front(line)?;
    Ok(())
}

impl<'a> Connections<'a> {
    /// None yet. It takes no memory.
    pub(crate) fn new(alloc: Global) -> Connections<'a>
        ensures { result ≡ [] }
    {
        Connections {
            lines: VecDeque::new(alloc),
            numbers: KeyMap::new(alloc),
            sessions: KeyMap::new(alloc),
            twice: false,
        }
    }

    /// Puts a newer one. Where memory is refused none is left.
    pub(crate) fn put(&mut self, alloc: Global, line: Line<'a>) -> Result<(), NoMemory>
        ensures { OnOk result (self.new ≡ line.entry ∷ self.old) }
    {
        let twice = comes_twice(self.twice, &self.numbers, &self.sessions, &line);
        match put_in(&mut self.lines, &mut self.numbers, &mut self.sessions, line) {
            Ok(()) => {
                self.twice = twice;
                Ok(())
            },
            Err(NoMemory) => {
                self.lines.clear();
                self.numbers = KeyMap::new(alloc);
                self.sessions = KeyMap::new(alloc);
                Err(NoMemory)
            },
        }
    }

    /// The place of the newest that is named so.
    fn place(&self, which: Which) -> Option<usize>
        ensures { result ≡ place_of (is_which which) self.now }
    {
        match which {
            Which::Number(connection) => self.numbers.get(&connection).copied(),
            Which::Session(session) => self.sessions.get(&key_of(session)).copied(),
        }
    }

    /// The newest that is named so.
    pub(crate) fn find(&self, which: Which) -> Option<&Line<'a>>
        ensures { option_copied result ≡ first_of (is_which which) self.now }
    {
        match self.place(which) {
            Some(place) => line_at(&self.lines, place),
            None => None,
        }
    }

    /// Changes each that is named so.
    pub(crate) fn change<C: Change<'a>>(&mut self, which: Which, change: &C) -> Result<(), NoMemory>
        ensures { OnOk result (self.new
            ≡ with_changed (is_which which) (C.change change.now) self.old) }
    {
        if self.twice {
            return change_all(self.lines.make_contiguous(), which, change);
        }
        let Some(place) = self.place(which) else {
            return Ok(());
        };
        change_at(&mut self.lines, place, change)?;
        Ok(())
    }

    /// The turn of the newest connection of a session, moved out before another one begins at this
    /// event. One of a session that no connection has is a turn that nobody acquired.
    pub(crate) fn take_turn(
        &mut self,
        alloc: Global,
        session: SessionId,
        event: u64,
    ) -> Option<Turn<'a>>
        ensures turn { as_turns result ≡ over_on (link_of_session session self.old) }
        ensures links { with_changed (has_session session) turn_begun self.new
            ≡ with_changed (has_session session) turn_begun self.old }
    {
        match self.place(Which::Session(session)) {
            Some(place) => take_turn_at(&mut self.lines, place),
            None => Some(Turn::new(alloc, event, None)),
        }
    }

    /// All of them, the newest first.
    pub(crate) fn into_lines(self) -> Vec<Line<'a>>
        ensures { result.items ≡ self.entry }
    {
        let Connections {
            lines,
            numbers: _,
            sessions: _,
            twice: _,
        } = self;
        lines.into_vec()
    }
}
