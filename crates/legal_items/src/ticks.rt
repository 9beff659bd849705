//! The ticks before each event of a run.
ghost use Rattle.std.specs.Prelude.{◌≡◌, ◌-◌, ◌<◌, ◌^◌, IfOk, slice_index};
ghost use Rattle.shown_clauses.specs.meaning.Happenings.{tick_after};
ghost use Rattle.legal_items.specs.Told.{ticks_from};

use outage_schedule::Note;
use std::alloc::Global;
use svc_values::NoMemory;

/// The place of an event and its note.
pub(crate) fn place_of(event: u64) -> usize
    ensures { result ≡ event - 1 }
{
    event.saturating_sub(1) as usize
}

/// The ticks behind a note.
fn tick_behind(tick: u64, note: &Note) -> u64
    requires { tick < 2 ^ 63 }
    ensures { result ≡ tick_after tick note.now }
{
    match note {
        Note::Tick => tick + 1,
        _ => tick,
    }
}

/// The ticks before each event. Linear.
pub(crate) fn ticks_of(alloc: Global, notes: &[Note]) -> Result<Vec<u64>, NoMemory>
    ensures { IfOk result (λ ticks. ticks.items ≡ ticks_from 0 notes.now) }
{
    let mut ticks = Vec::new(alloc);
    let mut tick = 0;
    for note in notes {
        ticks.push(tick)?;
        tick = tick_behind(tick, note);
    }
    Ok(ticks)
}

/// Those before one event.
pub(crate) fn ticks_before(ticks: &[u64], event: u64) -> u64
    ensures { result ≡ slice_index ticks.now (event - 1) }
{
    match ticks.get(place_of(event)) {
        Some(tick) => *tick,
        None => 0,
    }
}
