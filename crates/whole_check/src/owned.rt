//! Whose a turn is.
ghost use Rattle.std.specs.Prelude.{◌≡◌, ◌<◌, ◌≤◌, false, is_none, length, map, None, option_map, IfOk};
ghost use Rattle.std.specs.List.{last_or, list_all};
ghost use Rattle.std.specs.List.Sorted.{IsNonDecreasingBy, IsPartitionPoint, IsPermutation};
ghost use Rattle.std.specs.Option.{option_copied};
ghost use Rattle.shown_clauses.specs.meaning.Fronts.{first_item};
ghost use Rattle.shown_clauses.specs.meaning.Turns.{has_client as has_client_def, has_request as has_request_def, is_turn_right as is_turn_right_def, owned_between, owned_by as owned_by_def, turns_of as turns_of_def, turns_right};
ghost use Rattle.report_parts.specs.PartViews.{part_as};
ghost use Rattle.report_parts.specs.SubmissionViews.{submission_as};
ghost use Rattle.report_story.specs.Views.{step_as};
ghost use Rattle.whole_check.specs.Views.{owned_as};

use crate::turn::{is_turn_right, unmarked_event};
use report_parts::{Part, Submission};
use report_story::{Step, Turn};
use std::alloc::Global;
use svc_values::NoMemory;

/// What a session served since a `begin`, and the event of the acquisition before it.
#[derive(Clone, Copy)]
pub(crate) struct OwnedAt<'b, 'a> {
    pub(crate) event: u64,
    pub(crate) turn: &'b Turn<'a>,
}

/// The earlier of an event and of one that may have been found before.
fn earlier(found: Option<u64>, event: u64) -> Option<u64>
    ensures { is_none result ≡ false }
{
    match found {
        Some(first) => Some(first.min(event)),
        None => Some(event),
    }
}

/// Whether the session of the turn was acquired by one of so many clients.
fn has_client(clients: u64, turn: &Turn<'_>) -> bool
    ensures { result ≡ has_client_def clients turn.now }
{
    match turn.acquired() {
        Some(acquired) => 0 < acquired.client && acquired.client <= clients,
        None => false,
    }
}

/// The event of the first `begin` whose session was acquired by none of so many clients.
pub(crate) fn turn_of_nobody(clients: u64, turns: &[Turn<'_>]) -> Option<u64>
    ensures { is_none result ≡ list_all (has_client_def clients) turns.now }
{
    let mut found = None;
    for turn in turns {
        if !has_client(clients, turn) {
            found = earlier(found, turn.begun);
        }
    }
    found
}

/// The turn with its acquisition, where it was this client that acquired its session.
fn owned_by<'b, 'a>(client: u64, turn: &'b Turn<'a>) -> Option<OwnedAt<'b, 'a>>
    ensures { option_map owned_as result ≡ owned_by_def client turn.now }
{
    let Some(acquired) = turn.acquired() else {
        return None;
    };
    if acquired.client == client {
        let event = acquired.event;
        return Some(OwnedAt { event, turn });
    }
    None
}

/// The turns of the sessions that a client acquired.
fn owned_of<'b, 'a>(
    alloc: Global,
    client: u64,
    turns: &'b [Turn<'a>],
) -> Result<Vec<OwnedAt<'b, 'a>>, NoMemory>
    ensures { IfOk result (λ owned. map owned_as owned.items ≡ turns_of_def client turns.now) }
{
    let mut owned = Vec::new(alloc);
    for turn in turns {
        if let Some(one) = owned_by(client, turn) {
            owned.push(one)?;
        }
    }
    Ok(owned)
}

/// The same in the order of the acquisitions. n log n.
pub(crate) fn turns_of<'b, 'a>(
    alloc: Global,
    client: u64,
    turns: &'b [Turn<'a>],
) -> Result<Vec<OwnedAt<'b, 'a>>, NoMemory>
    ensures same { IfOk result (λ owned.
        IsPermutation (turns_of_def client turns.now) (map owned_as owned.items)) }
    ensures rises { IfOk result (λ owned. IsNonDecreasingBy (λ one. one.event) owned.items) }
{
    let mut owned = owned_of(alloc, client, turns)?;
    owned.sort_by_key(|one| one.event)?;
    Ok(owned)
}

/// Whether the turn's session was acquired before this step, if there is one.
fn has_request(left: &Option<Step<'_>>, one: &OwnedAt<'_, '_>) -> bool
    ensures { result ≡ has_request_def (option_map step_as left.now) (owned_as one.now) }
{
    match left {
        Some(step) => one.event < step.event,
        None => true,
    }
}

/// The event of the first `begin` whose session was acquired by this step or a later one of its
/// client, if there is one.
pub(crate) fn turn_of_no_request(left: &Option<Step<'_>>, owned: &[OwnedAt<'_, '_>]) -> Option<u64>
    ensures { is_none result
        ≡ list_all (has_request_def (option_map step_as left.now)) (map owned_as owned.now) }
{
    let mut found = None;
    for one in owned {
        if !has_request(left, one) {
            let turn = one.turn;
            found = earlier(found, turn.begun);
        }
    }
    found
}

/// How many come before an event.
fn count_before(owned: &[OwnedAt<'_, '_>], event: u64) -> usize
    requires { IsNonDecreasingBy (λ one. one.event) owned.now }
    ensures point { IsPartitionPoint (λ one. one.event < event) (λ one. event ≤ one.event)
        owned.now result }
    ensures within { result ≤ length owned.now }
{
    owned.partition_point(|one| one.event < event)
}

/// How many come up to an event.
fn count_up_to(owned: &[OwnedAt<'_, '_>], event: u64) -> usize
    requires { IsNonDecreasingBy (λ one. one.event) owned.now }
    ensures point { IsPartitionPoint (λ one. one.event ≤ event) (λ one. event < one.event)
        owned.now result }
    ensures within { result ≤ length owned.now }
{
    owned.partition_point(|one| one.event <= event)
}

/// Those whose acquisition is between two events, these included.
fn between<'c, 'b, 'a>(owned: &'c [OwnedAt<'b, 'a>], first: u64, last: u64) -> &'c [OwnedAt<'b, 'a>]
    requires { IsNonDecreasingBy (λ one. one.event) owned.now }
    ensures { map owned_as result.now ≡ owned_between first last (map owned_as owned.now) }
{
    let start = count_before(owned, first);
    let end = count_up_to(owned, last);
    if start >= end {
        return &[];
    }
    &owned[start..end]
}

/// The event of the first call without the mark of the turns that are not right.
fn wrong_of(submission: &Submission<'_>, owned: &[OwnedAt<'_, '_>]) -> Option<u64>
    ensures { is_none result ≡ list_all
        (λ one. is_turn_right_def (submission_as submission.now) one.turn)
        (map owned_as owned.now) }
{
    let mut found = None;
    for one in owned {
        if !is_turn_right(submission, one.turn) {
            found = earlier(found, unmarked_event(one.turn));
        }
    }
    found
}

fn first_of<'b, 'a>(steps: &'b [Step<'a>]) -> Option<&'b Step<'a>>
    ensures { option_map step_as (option_copied result) ≡ first_item (map step_as steps.now) }
{
    steps.first()
}

fn last_of<'b, 'a>(steps: &'b [Step<'a>]) -> Option<&'b Step<'a>>
    ensures { option_map step_as (option_copied result) ≡ last_or None (map step_as steps.now) }
{
    steps.last()
}

/// The event of the first call without the mark of the part's turns that are not right, among those
/// of its client. For each turn of the part it is linear in the part's calls, and else logarithmic.
pub(crate) fn wrong_turn(part: &Part<'_>, owned: &[OwnedAt<'_, '_>]) -> Option<u64>
    requires { IsNonDecreasingBy (λ one. one.event) owned.now }
    ensures { is_none result ≡ turns_right (map owned_as owned.now) (part_as part.now) }
{
    let steps = part.steps.as_slice();
    let Some(first) = first_of(steps) else {
        return None;
    };
    let Some(last) = last_of(steps) else {
        return None;
    };
    wrong_of(&part.submission, between(owned, first.event, last.event))
}
