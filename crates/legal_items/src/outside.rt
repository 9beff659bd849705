//! What the session of an `outside` did.
ghost use Rattle.std.specs.Prelude.{◌≡◌, ◌-◌, ◌++◌, [], OnOk, false, map, slice_get};
ghost use Rattle.plain_items.specs.Views.{thing_as};
ghost use Rattle.shown_clauses.specs.meaning.LegalItems.{all_did, calls_of, outside_items, things_of};
ghost use Rattle.server_model.specs.meaning.Items.{Called, MetBlock};
ghost use Rattle.legal_items.specs.Told.{at_place};
ghost use Rattle.legal_items.specs.Views.{placed_as};

use crate::placed::{PlacedItem, When};
use crate::ticks::place_of;
use outage_schedule::{Event, NoteRun};
use plain_items::Thing;
use svc_values::{Call, NoMemory, SessionId};

/// The calls of an event, and none where it is no `outside`.
pub(crate) fn calls_at(schedule: &[Event], event: u64) -> &[Call]
    ensures { result.now ≡ calls_of (slice_get schedule.now (event - 1)) }
{
    match schedule.get(place_of(event)) {
        Some(Event::Outside { calls }) => calls.as_slice(),
        _ => &[],
    }
}

/// A call that ran.
fn called<'a>(call: &'a Call, run: &'a NoteRun) -> Thing<'a>
    ensures { thing_as result ≡ Called false [] call.now run.now.answers run.now.draws }
{
    Thing::Called {
        replay: false,
        kept: &[],
        call,
        answers: run.answers.as_slice(),
        draws: run.draws.as_slice(),
    }
}

/// A call that met a block.
fn met_block(call: &Call) -> Thing<'_>
    ensures { thing_as result ≡ MetBlock false call.now }
{
    Thing::MetBlock {
        replay: false,
        call,
    }
}

/// Puts the calls that ran last, each with what was run; where there are more, the next one met a
/// block.
fn put_calls<'a>(
    items: &mut Vec<PlacedItem<'a>>,
    when: &When,
    session: SessionId,
    calls: &'a [Call],
    runs: &'a [NoteRun],
) -> Result<(), NoMemory>
    ensures { OnOk result (map placed_as items.new.items ≡ map placed_as items.old.items
        ++ at_place when.now.at
        (all_did when.now.event when.now.tick session (things_of calls.now runs.now))) }
{
    for (at, call) in calls.iter().enumerate() {
        let Some(run) = runs.get(at) else {
            items.push(when.did(session, met_block(call)))?;
            return Ok(());
        };
        items.push(when.did(session, called(call, run)))?;
    }
    Ok(())
}

/// Puts what the session did last.
pub(crate) fn put_outside<'a>(
    items: &mut Vec<PlacedItem<'a>>,
    when: &When,
    session: SessionId,
    calls: &'a [Call],
    runs: &'a [NoteRun],
) -> Result<(), NoMemory>
    ensures { OnOk result (map placed_as items.new.items ≡ map placed_as items.old.items
        ++ at_place when.now.at
        (outside_items when.now.event when.now.tick session calls.now runs.now)) }
{
    items.push(when.did(session, Thing::Connected))?;
    items.push(when.did(session, Thing::Began { settings: None }))?;
    put_calls(items, when, session, calls, runs)
}
