//! Whether what a session served since a `begin` is right: a call that is not replayed comes after
//! those that are.
ghost use Rattle.std.specs.Prelude.{◌≡◌, ◌≤◌, ◌<◌, ◌+◌, ◌^◌, ◌==◌, ◌&&◌, [], cond, drop, length, map, not, reverse, take};
ghost use Rattle.std.specs.List.{list_all};
ghost use Rattle.svc_values.specs.meaning.Same.{same_calls};
ghost use Rattle.shown_clauses.specs.meaning.Fronts.{front_of, rest_of};
ghost use Rattle.shown_clauses.specs.meaning.Turns.{begins_with, ends_decided as ends_decided_def, fits_from, fits_here, is_marked, is_turn_right as is_turn_right_def};
ghost use Rattle.report_parts.specs.SubmissionViews.{submission_as};
ghost use Rattle.report_story.specs.Views.{marked_as};
ghost use Rattle.whole_check.specs.Marks.{calls_in};

use crate::alike::is_call;
use outage_schedule::ShownCall;
use report_parts::{Submission, ends_decided};
use report_story::{Marked, Turn};
use svc_values::Call;

/// How many calls with the mark stand first.
fn marked_first(calls: &[Marked<'_>]) -> usize
    ensures within { result ≤ length calls.now }
    ensures front { front_of is_marked (map marked_as calls.now)
        ≡ map marked_as (take result calls.now) }
    ensures rest { rest_of is_marked (map marked_as calls.now)
        ≡ map marked_as (drop result calls.now) }
{
    for (at, one) in calls.iter().enumerate() {
        if !one.replay {
            return at;
        }
    }
    calls.len()
}

/// Whether none of the calls has the mark.
fn are_unmarked(calls: &[Marked<'_>]) -> bool
    ensures { result ≡ list_all (λ one. not one.replay) (map marked_as calls.now) }
{
    for one in calls {
        if one.replay {
            return false;
        }
    }
    true
}

/// Whether the calls that were served are these of the script, one by one.
fn are_calls(marked: &[Marked<'_>], since: &[Call]) -> bool
    ensures { result ≡ same_calls (calls_in (map marked_as marked.now)) since.now }
{
    for (at, one) in marked.iter().enumerate() {
        let Some(call) = since.get(at) else {
            return false;
        };
        if !is_call(one.call, call) {
            return false;
        }
    }
    marked.len() == since.len()
}

/// Whether this call can be the first one without the mark, and those with the mark these before
/// it.
fn fits_at(first: &Call, marked: &[Marked<'_>], since: &[Call], call: &Call) -> bool
    ensures { result ≡ fits_here first.now (reverse (calls_in (map marked_as marked.now)))
        (reverse since.now) call.now }
{
    if since.len() != marked.len() {
        return false;
    }
    if !is_call(call, first) {
        return false;
    }
    are_calls(marked, since)
}

/// The place behind this call where it was shown to end so, and else the one before.
fn next_from(one: &ShownCall, at: usize, from: usize) -> usize
    requires { at < 2 ^ 63 }
    ensures { result ≡ cond (ends_decided_def one.now.answers) (at + 1) from }
{
    if ends_decided(one.answers.as_slice()) {
        return at + 1;
    }
    from
}

/// The calls from one place up to another.
fn between(calls: &[Call], from: usize, to: usize) -> &[Call]
    requires from { from ≤ to }
    requires to { to ≤ length calls.now }
    ensures { result.now ≡ drop from (take to calls.now) }
{
    &calls[from..to]
}

/// Whether a call of the script, of those that were shown and the next one, can be the first one
/// without the mark. Linear: of each length one stretch at most is compared.
fn fits(first: &Call, marked: &[Marked<'_>], script: &[Call], shown: &[ShownCall]) -> bool
    ensures { result ≡ fits_from first.now (reverse (calls_in (map marked_as marked.now))) []
        script.now shown.now }
{
    let mut from = 0;
    for (at, call) in script.iter().enumerate() {
        if fits_at(first, marked, between(script, from, at), call) {
            return true;
        }
        let Some(one) = shown.get(at) else {
            return false;
        };
        from = next_from(one, at, from);
    }
    false
}

/// Whether the calls with the mark are repeated from the submission, and the others come behind
/// them.
fn begins(submission: &Submission<'_>, marked: &[Marked<'_>], rest: &[Marked<'_>]) -> bool
    ensures { result ≡ begins_with (submission_as submission.now) (map marked_as marked.now)
        (map marked_as rest.now) }
{
    if rest.is_empty() {
        return true;
    }
    let script = submission.request.calls.as_slice();
    let shown = submission.copy.calls.as_slice();
    are_unmarked(&rest[1..]) && fits(rest[0].call, marked, script, shown)
}

/// The event of the turn's first call without the mark, and where there is none that of its
/// `begin`.
pub(crate) fn unmarked_event(turn: &Turn<'_>) -> u64 {
    for one in turn.calls() {
        if !one.replay {
            return one.event;
        }
    }
    turn.begun
}

/// Whether the turn is one of the submission. Linear in both.
pub(crate) fn is_turn_right(submission: &Submission<'_>, turn: &Turn<'_>) -> bool
    ensures { result ≡ is_turn_right_def (submission_as submission.now) turn.now }
{
    let calls = turn.calls();
    let count = marked_first(calls);
    begins(submission, &calls[..count], &calls[count..])
}
