//! The lines that a service was handed, beside the alerts of a report.
ghost use Rattle.std.specs.Prelude.{◌≡◌, ◌++◌, is_none, false, List, map, IfOk};
ghost use Rattle.std.specs.Option.{option_map, option_to_list};
ghost use Rattle.alert_lines.specs.Views.{line_as};
ghost use Rattle.alert_lines.specs.Lines.{standing_of, may_go_on};
ghost use Rattle.legal_check.specs.Handed.{lines_at};
ghost use Rattle.legal_items.specs.Views.{item_in};
ghost use Rattle.plain_items.specs.Views.{item_as, thing_as};
ghost use Rattle.server_model.specs.meaning.Legal.{Line as Given, line_if, line_in, lines_of, lines_stand};

use crate::place::Place;
use alert_lines::laws::fronts_decide;
use alert_lines::{Line, Standing};
use legal_items::PlacedItem;
use plain_items::{Item, Thing};
use std::alloc::Global;
use svc_values::{Call, NoMemory, Text};

/// The line of a call, if it hands one.
fn line_of_call(call: &Call, is_answered: bool) -> Option<Line<'_>>
    ensures { option_to_list (option_map line_as result) ≡ line_if call.now is_answered }
{
    match call {
        Call::Alter { line } => Some(Line {
            text: line,
            is_answered,
        }),
        _ => None,
    }
}

/// The line that a session handed. One that a stop met in a replay was never handed.
fn line_of_thing<'a>(thing: &Thing<'a>) -> Option<Line<'a>>
    ensures { option_to_list (option_map line_as result) ≡ line_in (thing_as thing.now) }
{
    match *thing {
        Thing::Called { call, .. } => line_of_call(call, true),
        Thing::CallStopped { replay, call } => {
            if replay {
                return None;
            }
            line_of_call(call, false)
        },
        _ => None,
    }
}

/// The line that was handed in an item.
fn line_of<'a>(item: &Item<'a>) -> Option<Line<'a>>
    ensures { option_to_list (option_map line_as result) ≡ lines_at (item_as item.now) }
{
    match item {
        Item::Did { thing, .. } => line_of_thing(thing),
        Item::AskTold { .. } => None,
    }
}

/// Goes on behind an item. False tells that no lines behind it can make the alerts.
fn goes_on(standing: &mut Standing, item: &Item<'_>, alerts: &[Text]) -> bool
    ensures goes { (lines : List Given) → standing.old ≡ standing_of lines alerts.now
        → standing.new ≡ standing_of (lines ++ lines_at (item_as item.now)) alerts.now }
    ensures ends { (lines : List Given) → standing.old ≡ standing_of lines alerts.now
        → result ≡ false → may_go_on (lines ++ lines_at (item_as item.now)) alerts.now ≡ false }
{
    let Some(line) = line_of(item) else {
        return true;
    };
    standing.add(line, alerts);
    standing.can_stand()
}

/// The first item after which no lines can make the alerts, or all alerts, where those of the items
/// do not make them. Linear in lines times alerts.
pub(crate) fn wrong_line(
    alloc: Global,
    items: &[PlacedItem<'_>],
    alerts: &[Text],
) -> Result<Option<Place>, NoMemory>
    ensures { IfOk result (λ place.
        is_none place ≡ lines_stand (lines_of (map item_in items.now)) alerts.now) }
{
    fronts_decide();
    let mut standing = Standing::new(alloc, alerts)?;
    for one in items {
        if !goes_on(&mut standing, &one.item, alerts) {
            return Ok(Some(Place::Item(one.at)));
        }
    }
    if standing.is_whole() {
        return Ok(None);
    }
    Ok(Some(Place::Alerts))
}
