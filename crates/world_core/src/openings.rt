//! The openings of a run's store, and what each of them forgets.
ghost use Rattle.std.specs.Prelude.{◌≡◌, ◌≤◌, ◌<◌, ◌^◌, ℕ, drop, max, OnOk};
ghost use Rattle.std.specs.Option.{option_map_or};
ghost use Rattle.run_clauses.specs.meaning.Horizons.{Openings as Told, first_opening, after_note, wanted_horizon};
ghost use Rattle.world_core.specs.Forgetting.{Tracks, IsTracked, NotesOpening, FirstFits, MayTick, settled, passed_first, ticked, ends_unless};

use outage_schedule::Note;
use std::alloc::Global;
use std::marker::Model;
use svc_values::NoMemory;

/// The greatest incarnation that ended at a tick.
#[derive(Clone, Copy)]
pub(crate) struct Ended {
    pub(crate) incarnation: u64,
    pub(crate) tick: u64,
}

/// Which incarnations of a run have ended, and when. The outcomes of one are kept for `retention`
/// ticks from its end.
///
/// Of those that ended in one tick the greatest is held. Each is passed at the tick from which it
/// may be forgotten, so that an opening asks at no cost.
#[derive(Drop)]
pub struct Openings {
    retention: u64,
    tick: u64,
    running: Option<u64>,
    // in this tick
    ending: Option<u64>,
    // in those before, the earliest first
    ended: Vec<Ended>,
    passed: usize,
    wanted: u64,
}

impl Model for Openings {
    ghost use Rattle.world_core.specs.Forgetting.{Held};

    ghost Value = { Held };

    ghost view = { λ o.
        record {
          retention = o.retention;
          tick = o.tick;
          running = o.running;
          ending = o.ending;
          ended = o.ended.items;
          passed = o.passed;
          wanted = o.wanted;
        } };
}

/// The greater one, where there are two.
fn greatest(one: u64, other: Option<u64>) -> u64
    ensures { result ≡ option_map_or (max one) other one }
{
    match other {
        Some(other) if one < other => other,
        _ => one,
    }
}

impl Openings {
    /// The opening before event 1, of a store whose last incarnation is `last`, or that was never
    /// opened. It takes no memory.
    pub fn new(alloc: Global, retention: u64, opened: bool, last: u64) -> Openings
        requires kept { retention ≤ 2 ^ 62 }
        requires room { last < 2 ^ 63 }
        ensures { Tracks retention result (first_opening opened last) }
    {
        Openings {
            retention,
            tick: 0,
            running: Some(last + 1),
            ending: if opened { Some(last) } else { None },
            ended: Vec::new(alloc),
            passed: 0,
            wanted: 0,
        }
    }

    /// The horizon that an opening wants now: one more than the greatest incarnation that ended
    /// more than `retention` ticks ago, and 0 where there is none.
    pub fn wanted(&self) -> u64
        ensures { (retention : ℕ) (told : Told) → Tracks retention self.now told
            → result ≡ wanted_horizon retention told }
    {
        self.wanted
    }

    /// The incarnation that ended in this tick stands behind the earlier ones.
    fn settle(&mut self) -> Result<(), NoMemory>
        ensures { OnOk result (self.new ≡ settled self.old) }
    {
        if let Some(incarnation) = self.ending.take() {
            self.ended.push(Ended {
                incarnation,
                tick: self.tick,
            })?;
        }
        Ok(())
    }

    /// The first that was not passed is passed, if it may be forgotten from the next tick on.
    fn pass_first(&mut self)
        requires { FirstFits self.old (drop self.old.passed self.old.ended) }
        ensures { self.new ≡ passed_first self.old (drop self.old.passed self.old.ended) }
    {
        if let Some(first) = self.ended.get(self.passed) {
            if first.tick + self.retention == self.tick {
                self.wanted = greatest(first.incarnation + 1, Some(self.wanted));
                self.passed += 1;
            }
        }
    }

    /// One tick passes.
    fn pass(&mut self) -> Result<(), NoMemory>
        requires { MayTick self.old }
        ensures { OnOk result (self.new ≡ ticked self.old) }
    {
        self.settle()?;
        self.pass_first();
        self.tick += 1;
        Ok(())
    }

    /// The incarnation that goes on ends, if one does, unless the server was down.
    fn end_unless(&mut self, was_down: bool)
        ensures { self.new ≡ ends_unless was_down self.old }
    {
        if was_down {
            return;
        }
        if let Some(incarnation) = self.running.take() {
            self.ending = Some(greatest(incarnation, self.ending));
        }
    }

    /// What an event did, by its note.
    pub fn follow(&mut self, note: &Note) -> Result<(), NoMemory>
        requires tracked { IsTracked self.old }
        requires ticks { self.old.tick < 2 ^ 48 }
        requires room { NotesOpening (λ incarnation. incarnation < 2 ^ 63) note.now }
        ensures { OnOk result ((retention : ℕ) (told : Told) → Tracks retention self.old told
            → Tracks retention self.new (after_note told note.now)) }
    {
        match note {
            Note::Tick => self.pass(),
            Note::Crash { connection, down } => {
                self.end_unless(*down);
                Ok(())
            }
            Note::Up {
                incarnation: Some(incarnation),
            } => {
                self.running = Some(*incarnation);
                Ok(())
            }
            _ => Ok(()),
        }
    }
}
