//! The horizons that the notes of a report want.
ghost use Rattle.std.specs.Prelude.{◌≡◌, ◌<◌, ◌≤◌, ◌+◌, ◌^◌, ℕ, false, nat_lt, IfOk, OnOk};
ghost use Rattle.outage_schedule.specs.declared.note.Note.TheVariants as note;
ghost use Rattle.run_clauses.specs.meaning.Horizons.{first_opening, ended_before as ended_before_def, after_note, wanted_horizon as wanted_def, wanted_at as wanted_at_def, wanted_from};
ghost use Rattle.report_horizons.specs.Horizons.{wanted_with, openings_as, all_ended, part_of as part_def, most_by, IsFront, IsFrontAt};

use crate::wanted_horizons::{WantedHorizons, greater};
use outage_schedule::Note;
use std::alloc::Global;
use svc_values::NoMemory;

/// An incarnation that ended, and the tick of its end.
#[derive(Clone, Copy)]
struct EndedAt {
    incarnation: u64,
    tick: u64,
}

/// How far a run has come: the tick, the incarnation that goes on, if any does, and those that
/// ended.
#[derive(Drop)]
struct OpeningsAt {
    tick: u64,
    running: Option<u64>,
    ended: Vec<EndedAt>,
}

/// Whether an incarnation ended more than so many ticks ago.
fn is_past(one: &EndedAt, retention: u64, tick: u64) -> bool
    ensures { result ≡ nat_lt (one.now.tick + retention) tick }
{
    let last = one.tick as u128 + retention as u128;
    last < tick as u128
}

/// The first of the incarnations that ended, all of them so long ago that each asks for its
/// horizon from now on: how many they are, and the greatest of their horizons.
#[derive(Clone, Copy)]
struct Front {
    passed: usize,
    most: u128,
}

/// The front goes on, over those that ended long enough ago by now: one step for each of these.
fn further(front: Front, ended: &[EndedAt], retention: u64, tick: u64) -> Front
    requires { IsFront retention tick front (all_ended ended.now) }
    ensures is { IsFront retention tick result (all_ended ended.now) }
    ensures most { result.most ≡ most_by (part_def retention tick) (all_ended ended.now) }
{
    let mut passed = front.passed;
    let mut most = front.most;
    while passed < ended.len() {
        let one = &ended[passed];
        if !is_past(one, retention, tick) {
            return Front { passed, most };
        }
        most = greater(most, one.incarnation as u128 + 1);
        passed += 1;
    }
    Front { passed, most }
}

/// The incarnations that ended before event 1: the last one of a store that was opened.
fn ended_before(alloc: Global, opened: bool, last: u64) -> Result<Vec<EndedAt>, NoMemory>
    ensures { IfOk result (λ ended. all_ended ended.items ≡ ended_before_def opened last) }
{
    let mut ended = Vec::new(alloc);
    if !opened {
        return Ok(ended);
    }
    ended.push(EndedAt {
        incarnation: last,
        tick: 0,
    })?;
    Ok(ended)
}

impl OpeningsAt {
    /// The opening before event 1.
    fn first(alloc: Global, opened: bool, last: u64) -> Result<OpeningsAt, NoMemory>
        requires { last ≤ 2 ^ 63 }
        ensures is { IfOk result (λ openings. openings_as openings ≡ first_opening opened last) }
        ensures tick { IfOk result (λ openings. openings.tick ≡ 0) }
    {
        let ended = ended_before(alloc, opened, last)?;
        Ok(OpeningsAt {
            tick: 0,
            running: Some(last + 1),
            ended,
        })
    }

    /// The incarnation that goes on ends.
    fn end(&mut self) -> Result<(), NoMemory>
        ensures is { OnOk result (openings_as self.new
            ≡ after_note (openings_as self.old) (note.Crash 0 false)) }
        ensures tick { self.new.tick ≡ self.old.tick }
    {
        let Some(incarnation) = self.running else {
            return Ok(());
        };
        self.ended.push(EndedAt {
            incarnation,
            tick: self.tick,
        })?;
        self.running = None;
        Ok(())
    }

    /// Goes on behind a note.
    fn follow(&mut self, note: &Note) -> Result<(), NoMemory>
        requires { self.old.tick < 2 ^ 63 }
        ensures is { OnOk result (openings_as self.new
            ≡ after_note (openings_as self.old) note.now) }
        ensures tick { self.new.tick ≤ self.old.tick + 1 }
    {
        match note {
            Note::Tick => {
                self.tick += 1;
                Ok(())
            }
            Note::Crash { down: false, .. } => self.end(),
            Note::Up {
                incarnation: Some(incarnation),
            } => {
                self.running = Some(*incarnation);
                Ok(())
            }
            _ => Ok(()),
        }
    }

    /// The horizon that is wanted now, up to which the front goes on.
    fn wanted(&self, front: &mut Front, retention: u64) -> u128
        requires { IsFrontAt retention front.old (openings_as self.now) }
        ensures is { result ≡ wanted_def retention (openings_as self.now) }
        ensures front { IsFrontAt retention front.new (openings_as self.now) }
    {
        *front = further(*front, self.ended.as_slice(), retention, self.tick);
        front.most
    }

    /// The horizon that a note wants at its event, if it is that of an opening.
    fn wanted_at(&self, front: &mut Front, retention: u64, note: &Note) -> Option<u128>
        requires { IsFrontAt retention front.old (openings_as self.now) }
        ensures is { (event : ℕ) → wanted_with event result
            ≡ wanted_at_def retention event (openings_as self.now) note.now }
        ensures front { IsFrontAt retention front.new (openings_as self.now) }
    {
        let Note::Up {
            incarnation: Some(_),
        } = note
        else {
            return None;
        };
        Some(self.wanted(front, retention))
    }
}

/// The horizons that the notes want, in their order, where outcomes are kept for so many ticks:
/// from the opening before event 1 on, behind the last incarnation of a store that was opened or
/// not. Linear in the notes: each incarnation that ended is passed once, by the first opening that
/// it counts for.
pub fn wanted_in(
    alloc: Global,
    opened: bool,
    last: u64,
    retention: u64,
    notes: &[Note],
) -> Result<WantedHorizons, NoMemory>
    requires { last ≤ 2 ^ 63 }
    ensures { IfOk result (λ all. all
        ≡ wanted_from retention 1 (first_opening opened last) notes.now) }
{
    let mut openings = OpeningsAt::first(alloc, opened, last)?;
    let mut front = Front { passed: 0, most: 0 };
    let mut all = WantedHorizons::new(alloc);
    for (at, note) in notes.iter().enumerate() {
        let horizon = openings.wanted_at(&mut front, retention, note);
        all.put(at as u64 + 1, horizon)?;
        openings.follow(note)?;
    }
    Ok(all)
}
