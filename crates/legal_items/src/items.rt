//! What a service did at all events, item by item.
ghost use Rattle.std.specs.Prelude.{◌≡◌, ◌++◌, [], All, IfOk, OnOk, map, slice_get};
ghost use Rattle.std.specs.Option.{option_map_or};
ghost use Rattle.told_reports.specs.Keeping.{IsTold};
ghost use Rattle.report_moments.specs.Views.{happened_as};
ghost use Rattle.shown_clauses.specs.meaning.LegalItems.{items_of as items_of_def};
ghost use Rattle.legal_items.specs.Told.{at_place, items_then, items_told, served_count};
ghost use Rattle.legal_items.specs.Places.{IsPlacedItem};
ghost use Rattle.legal_items.specs.Views.{item_in, moment_at, placed_as};

use crate::outside::{calls_at, put_outside};
use crate::placed::{PlacedItem, When};
use crate::served::thing_of;
use crate::ticks::{ticks_before, ticks_of};
use outage_schedule::{Document, Event, Report};
use report_moments::{Moment, What, moments_of};
use report_parts::kept_draws;
use std::alloc::Global;
use svc_values::{Draw, NoMemory};

/// Puts the items of what happened then last. `kept` is what it brings where it is a served item.
fn put_items<'a>(
    items: &mut Vec<PlacedItem<'a>>,
    schedule: &'a [Event],
    when: &When,
    kept: &'a [Draw],
    what: What<'a>,
) -> Result<(), NoMemory>
    ensures { OnOk result (map placed_as items.new.items ≡ map placed_as items.old.items
        ++ at_place when.now.at
        (items_then schedule.now when.now.tick kept.now when.now.event (happened_as what.entry))) }
{
    match what {
        What::Served(one) => {
            items.push(when.did(one.session, thing_of(kept, &one.item)))?;
            Ok(())
        },
        What::Outside(ran) => {
            let session = ran.ltxid.session_of();
            let calls = calls_at(schedule, when.event);
            put_outside(items, when, session, calls, ran.runs.as_slice())
        },
        What::Asked { ltxid, told } => {
            items.push(when.told(ltxid, told))?;
            Ok(())
        },
    }
}

/// How many served items it is.
fn served_by(what: What<'_>) -> usize
    ensures { result ≡ served_count (happened_as what.entry) }
{
    match what {
        What::Served(_) => 1,
        What::Outside(_) => 0,
        What::Asked { .. } => 0,
    }
}

/// What the served item at a place brings, and nothing past the end.
fn draws_at<'a>(kept: &[&'a [Draw]], at: usize) -> &'a [Draw]
    ensures { result.now ≡ option_map_or (λ draws. draws.now) (slice_get kept.now at) [] }
{
    match kept.get(at) {
        Some(draws) => *draws,
        None => &[],
    }
}

/// The items of these moments, where the served ones among them bring so much in turn.
fn items_in<'a>(
    alloc: Global,
    schedule: &'a [Event],
    ticks: &[u64],
    kept: &[&'a [Draw]],
    moments: &[Moment<'a>],
) -> Result<Vec<PlacedItem<'a>>, NoMemory>
    ensures { IfOk result (λ items. map placed_as items.items
        ≡ items_told schedule.now ticks.now
        (map (λ draws. draws.now) kept.now) (map moment_at moments.now)) }
{
    let mut items = Vec::new(alloc);
    let mut next = 0;
    for moment in moments {
        let when = When {
            at: moment.at,
            event: moment.event,
            tick: ticks_before(ticks, moment.event),
        };
        put_items(
            &mut items,
            schedule,
            &when,
            draws_at(kept, next),
            moment.what,
        )?;
        next += served_by(moment.what);
    }
    Ok(items)
}

/// The items of a report, in the order of events, each with its place. It is linear beside what
/// `kept_draws` costs.
pub fn items_of<'a>(
    alloc: Global,
    document: &'a Document,
    report: &'a Report,
) -> Result<Vec<PlacedItem<'a>>, NoMemory>
    requires { IsTold report.now }
    ensures told { IfOk result (λ items. map item_in items.items
        ≡ items_of_def document.now report.now) }
    ensures placed { IfOk result (λ items. All (IsPlacedItem report.now)
        (map placed_as items.items)) }
{
    let kept = kept_draws(alloc, document, report)?;
    let ticks = ticks_of(alloc, report.notes.as_slice())?;
    let moments = moments_of(alloc, report)?;
    let schedule = document.schedule.as_slice();
    let items = items_in(
        alloc,
        schedule,
        ticks.as_slice(),
        kept.as_slice(),
        moments.as_slice(),
    )?;
    Ok(items)
}
