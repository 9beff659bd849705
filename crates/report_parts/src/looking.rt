//! What a session repeats, among the calls that were shown.
ghost use Rattle.std.specs.Prelude.{◌≡◌, ◌<◌, ◌≤◌, ◌+◌, ◌^◌, ◌==◌, ◌&&◌, [], cond, drop, filter, is_some, length, map, nat_lt, option_map, slice_get, take};
ghost use Rattle.std.specs.List.{list_any};
ghost use Rattle.std.specs.Option.{option_copied, option_map_or};
ghost use Rattle.shown_clauses.specs.meaning.Fronts.{first_of};
ghost use Rattle.shown_clauses.specs.meaning.KeptDraws.{is_step_of, shown_before as shown_before_def, shown_since, draws_shown};
ghost use Rattle.shown_clauses.specs.meaning.Showings.{showing_at};
ghost use Rattle.shown_clauses.specs.meaning.Turns.{ends_decided as ends_decided_def};
ghost use Rattle.report_story.specs.Brought.{brought as brought_def};
ghost use Rattle.report_parts.specs.PartViews.{part_as};
ghost use Rattle.report_story.specs.Views.{repeated_as, step_as};

use crate::parts::Part;
use crate::showing::shows;
use outage_schedule::ShownCall;
use report_story::{Repeated, Step};
use svc_values::{Answer, Draw, ends_committed, ends_conflict};

/// Whether the last answer is `Committed` or `Conflict`.
pub fn ends_decided(answers: &[Answer]) -> bool
    ensures { result ≡ ends_decided_def answers.now }
{
    ends_committed(answers) || ends_conflict(answers)
}

/// Whether one of the steps is of this event.
fn has_event(steps: &[Step<'_>], event: u64) -> bool
    ensures { result ≡ list_any (λ step. step.event == event) steps.now }
{
    steps.iter().any(|step| step.event == event)
}

/// The same of the steps as they are seen.
fn has_step(steps: &[Step<'_>], event: u64) -> bool
    ensures { result ≡ list_any (λ step. step.event == event) (map step_as steps.now) }
{
    has_event(steps, event)
}

/// Whether the step shows a call before this event.
fn shows_before(step: &Step<'_>, event: u64) -> bool
    ensures { result
        ≡ (is_some (showing_at (step_as step.now)) && nat_lt (step_as step.now).event event) }
{
    shows(step) && step.event < event
}

/// How many of the steps do.
fn count_before(steps: &[Step<'_>], event: u64) -> usize
    ensures { result ≡ length (filter (λ step.
        is_some (showing_at (step_as step)) && nat_lt (step_as step).event event) steps.now) }
{
    steps
        .iter()
        .filter(|step| shows_before(step, event))
        .count()
}

/// How many calls were shown before this event.
fn shown_before(steps: &[Step<'_>], event: u64) -> usize
    ensures { result ≡ shown_before_def (map step_as steps.now) event }
{
    count_before(steps, event)
}

/// The first part with a step of this event.
fn part_with<'b, 'a>(parts: &'b [Part<'a>], event: u64) -> Option<&'b Part<'a>>
    ensures { option_map part_as (option_copied result)
        ≡ first_of (is_step_of event) (map part_as parts.now) }
{
    for part in parts {
        if has_step(part.steps.as_slice(), event) {
            return Some(part);
        }
    }
    None
}

/// Whether a call that was shown so ended its transaction otherwise than by a rollback.
fn is_decided(shown: &ShownCall) -> bool
    ensures { result ≡ ends_decided_def shown.now.answers }
{
    ends_decided(shown.answers.as_slice())
}

/// The place behind this call where it ended so, and else the one before.
fn next_from(one: &ShownCall, at: usize, from: usize) -> usize
    requires { at < 2 ^ 63 }
    ensures { result ≡ cond (ends_decided_def one.now.answers) (at + 1) from }
{
    if is_decided(one) {
        return at + 1;
    }
    from
}

/// The place behind the last of these calls that ended so, and 0 where none did.
fn behind_decided(shown: &[ShownCall]) -> usize
    ensures place { shown_since (length shown.now) [] shown.now ≡ drop result shown.now }
    ensures within { result ≤ length shown.now }
{
    let mut from = 0;
    for (at, one) in shown.iter().enumerate() {
        from = next_from(one, at, from);
    }
    from
}

/// The first calls, so many of them as there are.
fn first_calls(shown: &[ShownCall], count: usize) -> &[ShownCall]
    ensures { result.now ≡ take count shown.now }
{
    if count < shown.len() {
        return &shown[..count];
    }
    shown
}

/// The calls from a place on.
fn calls_behind(shown: &[ShownCall], from: usize) -> &[ShownCall]
    requires { from ≤ length shown.now }
    ensures { result.now ≡ drop from shown.now }
{
    &shown[from..]
}

/// Of the first calls, those behind the last one that ended so.
fn since(shown: &[ShownCall], count: usize) -> &[ShownCall]
    ensures { result.now ≡ shown_since count [] shown.now }
{
    let first = first_calls(shown, count);
    calls_behind(first, behind_decided(first))
}

/// The call at a place.
fn call_at(shown: &[ShownCall], place: usize) -> Option<&ShownCall>
    ensures { option_copied result ≡ slice_get shown.now place }
{
    shown.get(place)
}

/// The draws of the call at a place, and none where there is none.
fn draws_of(shown: &[ShownCall], place: usize) -> &[Draw]
    ensures { result.now ≡ option_map_or (λ one. one.draws) (slice_get shown.now place) [] }
{
    match call_at(shown, place) {
        Some(one) => one.draws.as_slice(),
        None => &[],
    }
}

/// The draws of the call at a place behind the last decided one that the part was shown before an
/// event.
fn shown_draws<'a>(part: &Part<'a>, acquired: u64, place: usize) -> &'a [Draw]
    ensures { result.now ≡ draws_shown acquired place (part_as part.now) }
{
    let count = shown_before(part.steps.as_slice(), acquired);
    let copy = part.submission.copy;
    draws_of(since(copy.calls.as_slice(), count), place)
}

/// The draws of the call that a served item repeats. Linear in the steps of all parts.
pub(crate) fn brought<'a>(parts: &[Part<'a>], repeated: &Option<Repeated>) -> &'a [Draw]
    ensures { result.now
        ≡ brought_def (map part_as parts.now) (option_map repeated_as repeated.now) }
{
    let Some(one) = repeated else {
        return &[];
    };
    match part_with(parts, one.acquired.event) {
        Some(part) => shown_draws(part, one.acquired.event, one.place),
        None => &[],
    }
}
