//! Which steps are a request's.
ghost use Rattle.std.specs.Prelude.{◌≡◌, ◌≤◌, ◌<◌, ◌+◌, ◌^◌, ◌==◌, ◌++◌, cond, drop, filter, length, map, min, option_map, slice_get, take, IfOk, OnOk};
ghost use Rattle.shown_clauses.specs.meaning.Parts.{acquires as acquires_def, left_of as left_of_def, parts_of as parts_of_def};
ghost use Rattle.report_parts.specs.Cutting.{IsReach, sessions_in};
ghost use Rattle.report_parts.specs.PartViews.{part_as};
ghost use Rattle.report_parts.specs.SubmissionViews.{submission_as};
ghost use Rattle.report_story.specs.Views.{step_as};

use crate::submitting::Submission;
use outage_schedule::GoNote;
use report_story::{Step, is_hello};
use std::alloc::Global;
use svc_values::NoMemory;

/// A submission with its steps: from those that acquire its sessions up to the next that acquires
/// one.
#[derive(Drop)]
pub struct Part<'a> {
    pub submission: Submission<'a>,
    pub steps: Vec<Step<'a>>,
}

/// The steps of one client. Linear.
pub fn steps_of<'a>(
    alloc: Global,
    client: u64,
    steps: &[Step<'a>],
) -> Result<Vec<Step<'a>>, NoMemory>
    ensures { IfOk result (λ mine. mine.items ≡ filter (λ step. step.client == client) steps.now) }
{
    let mut mine = Vec::new(alloc);
    for step in steps {
        if step.client == client {
            mine.push(*step)?;
        }
    }
    Ok(mine)
}

/// Whether the step acquires a session.
fn acquires(step: &Step<'_>) -> bool
    ensures { result ≡ acquires_def (step_as step.now) }
{
    if let GoNote::Lent { .. } = step.did {
        return true;
    }
    match step.taken {
        Some(one) => is_hello(one),
        None => false,
    }
}

/// How many sessions the step acquires.
fn acquired_by(step: &Step<'_>) -> usize
    ensures { result ≡ cond (acquires_def (step_as step.now)) 1 0 }
{
    if acquires(step) {
        return 1;
    }
    0
}

/// How many sessions are acquired up to a part's end, counted no further than `most`.
fn further(upto: usize, more: usize, most: usize) -> usize
    requires upto { upto < 2 ^ 63 }
    requires more { more < 2 ^ 63 }
    ensures { result ≡ min (upto + more) most }
{
    (upto + more).min(most)
}

/// How many steps are a part's, and how many sessions were acquired with the last of them.
#[derive(Clone, Copy)]
struct Cut {
    len: usize,
    acquired: usize,
}

/// Of steps before which so many sessions were acquired, the first ones up to that many.
fn reach(steps: &[Step<'_>], before: usize, upto: usize) -> Cut
    requires { before < 2 ^ 63 }
    ensures { IsReach (map step_as steps.now) before upto result.len result.acquired }
{
    let mut acquired = before;
    for (len, step) in steps.iter().enumerate() {
        let next = acquired + acquired_by(step);
        if next > upto {
            return Cut { len, acquired };
        }
        acquired = next;
    }
    Cut {
        len: steps.len(),
        acquired,
    }
}

/// A submission with these steps.
fn part_of<'a>(
    alloc: Global,
    submission: Submission<'a>,
    steps: &[Step<'a>],
) -> Result<Part<'a>, NoMemory>
    ensures { IfOk result (λ part. part_as part
        ≡ record { submission = submission_as submission.entry; steps = map step_as steps.now }) }
{
    let steps = Vec::from_slice(alloc, steps)?;
    Ok(Part { submission, steps })
}

/// The steps from a place on.
fn behind<'b, 'a>(steps: &'b [Step<'a>], from: usize) -> &'b [Step<'a>]
    requires { from ≤ length steps.now }
    ensures { result.now ≡ drop from steps.now }
{
    &steps[from..]
}

/// The first steps.
fn front<'b, 'a>(steps: &'b [Step<'a>], count: usize) -> &'b [Step<'a>]
    requires { count ≤ length steps.now }
    ensures { result.now ≡ take count steps.now }
{
    &steps[..count]
}

/// Puts the parts of a client with these submissions and these steps last. Linear.
pub(crate) fn put_parts<'a>(
    parts: &mut Vec<Part<'a>>,
    alloc: Global,
    submissions: &[Submission<'a>],
    mine: &[Step<'a>],
) -> Result<(), NoMemory>
    ensures { OnOk result (map part_as parts.new.items
        ≡ map part_as parts.old.items
        ++ parts_of_def (map submission_as submissions.now) (map step_as mine.now)) }
{
    let mut from = 0;
    let mut acquired = 0;
    let mut upto = 0;
    for submission in submissions {
        let sessions = submission.copy.sessions.as_slice();
        upto = further(upto, sessions.len(), mine.len());
        let rest = behind(mine, from);
        let here = reach(rest, acquired, upto);
        let part = part_of(alloc, *submission, front(rest, here.len))?;
        parts.push(part)?;
        from += here.len;
        acquired = here.acquired;
    }
    Ok(())
}

/// The parts of a client with these submissions and these steps. Linear.
pub fn parts_of<'a>(
    alloc: Global,
    submissions: &[Submission<'a>],
    mine: &[Step<'a>],
) -> Result<Vec<Part<'a>>, NoMemory>
    ensures { IfOk result (λ parts. map part_as parts.items
        ≡ parts_of_def (map submission_as submissions.now) (map step_as mine.now)) }
{
    let mut parts = Vec::new(alloc);
    put_parts(&mut parts, alloc, submissions, mine)?;
    Ok(parts)
}

/// How many sessions the submissions have, counted no further than `most`.
fn sessions_up_to(submissions: &[Submission<'_>], most: usize) -> usize
    requires { most < 2 ^ 63 }
    ensures { result ≡ min (sessions_in (map submission_as submissions.now)) most }
{
    let mut upto = 0;
    for submission in submissions {
        upto = further(upto, submission.copy.sessions.as_slice().len(), most);
    }
    upto
}

/// The step at a place, and none past the end.
fn step_at<'a>(steps: &[Step<'a>], place: usize) -> Option<Step<'a>>
    ensures { result ≡ slice_get steps.now place }
{
    match steps.get(place) {
        Some(step) => Some(*step),
        None => None,
    }
}

/// The first of a client's steps that is of none of these submissions, since it acquires a session
/// of none. Linear.
pub fn left_of<'a>(submissions: &[Submission<'_>], mine: &[Step<'a>]) -> Option<Step<'a>>
    ensures { option_map step_as result ≡ left_of_def (map submission_as submissions.now)
        (map step_as mine.now) }
{
    let upto = sessions_up_to(submissions, mine.len());
    step_at(mine, reach(mine, 0, upto).len)
}
