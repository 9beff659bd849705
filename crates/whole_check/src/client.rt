//! Whether the requests of a client were shown what its steps took.
ghost use Rattle.std.specs.Prelude.{◌≡◌, ◌<◌, ◌+◌, ◌^◌, is_none, map, IfOk};
ghost use Rattle.std.specs.List.{list_all};
ghost use Rattle.std.specs.List.Sorted.{IsNonDecreasingBy};
ghost use Rattle.entry_events.specs.Numbering.{up_to};
ghost use Rattle.report_parts.specs.PartViews.{part_as};
ghost use Rattle.report_parts.specs.SubmissionViews.{submission_as};
ghost use Rattle.report_story.specs.Views.{step_as};
ghost use Rattle.whole_check.specs.Judging.{are_clients_right, is_client_right, is_part_right};
ghost use Rattle.whole_check.specs.Views.{owned_as, submissions_as};

use crate::owned::{OwnedAt, turn_of_no_request, turns_of};
use crate::part::{PartFault, fault_of_part};
use crate::place::Place;
use entry_events::Numbers;
use report_parts::{Part, Submission, Submissions, left_of, parts_of, steps_of};
use report_story::Story;
use std::alloc::Global;
use svc_values::NoMemory;

/// What a report tells, and how many entries of each session were stored by an event.
#[derive(Drop)]
pub(crate) struct Told<'a> {
    pub(crate) story: Story<'a>,
    pub(crate) numbers: Numbers,
}

/// The place of a fault of this request of a client.
fn place_of(fault: PartFault, client: usize, request: usize) -> Place {
    match fault {
        PartFault::Whole => Place::Request { client, request },
        PartFault::Call(call) => Place::Call {
            client,
            request,
            call,
        },
        PartFault::ServedAt(event) => Place::ServedAt(event),
    }
}

/// The first fault of a client's requests.
fn fault_of_parts(
    alloc: Global,
    numbers: &Numbers,
    owned: &[OwnedAt<'_, '_>],
    parts: &[Part<'_>],
    client: usize,
) -> Result<Option<Place>, NoMemory>
    requires { IsNonDecreasingBy (λ one. one.event) owned.now }
    ensures { IfOk result (λ place. is_none place ≡ list_all
        (is_part_right (up_to numbers.now) (map owned_as owned.now)) (map part_as parts.now)) }
{
    for (request, part) in parts.iter().enumerate() {
        if let Some(fault) = fault_of_part(alloc, numbers, owned, part)? {
            return Ok(Some(place_of(fault, client, request)));
        }
    }
    Ok(None)
}

/// The first fault of the client at a place, which has these submissions.
fn fault_of_client(
    alloc: Global,
    told: &Told<'_>,
    submissions: &[Submission<'_>],
    client: usize,
) -> Result<Option<Place>, NoMemory>
    requires { client < 2 ^ 63 }
    ensures { IfOk result (λ place. is_none place ≡ is_client_right (up_to told.now.numbers)
        (map step_as told.now.story.steps.items) told.now.story.turns.items (client + 1)
        (map submission_as submissions.now)) }
{
    let number = client as u64 + 1;
    let mine = steps_of(alloc, number, told.story.steps.as_slice())?;
    let owned = turns_of(alloc, number, told.story.turns.as_slice())?;
    let left = left_of(submissions, mine.as_slice());
    if let Some(event) = turn_of_no_request(&left, owned.as_slice()) {
        return Ok(Some(Place::ServedAt(event)));
    }
    let parts = parts_of(alloc, submissions, mine.as_slice())?;
    fault_of_parts(
        alloc,
        &told.numbers,
        owned.as_slice(),
        parts.as_slice(),
        client,
    )
}

/// The first fault of all clients, in their order. For each client it is linear in the steps and
/// the turns of all.
pub(crate) fn fault_of_clients(
    alloc: Global,
    told: &Told<'_>,
    clients: &[Submissions<'_>],
) -> Result<Option<Place>, NoMemory>
    ensures { IfOk result (λ place. is_none place ≡ are_clients_right (up_to told.now.numbers)
        (map step_as told.now.story.steps.items) told.now.story.turns.items 1
        (map submissions_as clients.now)) }
{
    for (client, made) in clients.iter().enumerate() {
        let place = fault_of_client(alloc, told, made.all.as_slice(), client)?;
        if place.is_some() {
            return Ok(place);
        }
    }
    Ok(None)
}
