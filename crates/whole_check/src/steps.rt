//! What the steps of the clients took.
ghost use Rattle.std.specs.Prelude.{◌≡◌, filter_map, is_none, map, IfOk};
ghost use Rattle.std.specs.Option.{option_copied};
ghost use Rattle.shown_clauses.specs.meaning.Showings.{showing_at, showings as showings_def};
ghost use Rattle.shown_clauses.specs.meaning.Whole.{are_taken, took_it, takes};
ghost use Rattle.report_story.specs.Views.{step_as};

use outage_schedule::{GoNote, Served};
use report_parts::is_showing;
use report_story::Step;
use std::alloc::Global;
use svc_values::{NoMemory, SessionId};

/// Whether the notes give what the step took.
fn is_taken(step: &Step<'_>) -> bool
    ensures { result ≡ took_it (takes (step_as step.now).did) (step_as step.now) }
{
    match step.did {
        GoNote::Took { .. } => step.taken.is_some(),
        _ => true,
    }
}

/// The event of the first step that took nothing where its note says that it took a reply.
pub(crate) fn step_without_reply(steps: &[Step<'_>]) -> Option<u64>
    ensures { is_none result ≡ are_taken (map step_as steps.now) }
{
    for step in steps {
        if !is_taken(step) {
            return Some(step.event);
        }
    }
    None
}

/// The reply by which the step shows a call.
fn showing_of<'a>(step: &Step<'a>) -> Option<&'a Served>
    ensures { option_copied result ≡ showing_at (step_as step.now) }
{
    let Some(one) = step.taken else {
        return None;
    };
    if is_showing(one) {
        return Some(one);
    }
    None
}

/// The replies by which these steps show calls, in order.
pub(crate) fn showings<'a>(alloc: Global, steps: &[Step<'a>]) -> Result<Vec<&'a Served>, NoMemory>
    ensures { IfOk result (λ all. map (λ one. one.now) all.items
        ≡ showings_def (map step_as steps.now)) }
{
    let mut all = Vec::new(alloc);
    for step in steps {
        if let Some(one) = showing_of(step) {
            all.push(one)?;
        }
    }
    Ok(all)
}

/// The sessions that these steps acquired, in order.
pub(crate) fn sessions_of(alloc: Global, steps: &[Step<'_>]) -> Result<Vec<SessionId>, NoMemory>
    ensures { IfOk result (λ all. all.items
        ≡ filter_map (λ step. step.session) (map step_as steps.now)) }
{
    let mut all = Vec::new(alloc);
    for step in steps {
        if let Some(session) = step.session {
            all.push(session)?;
        }
    }
    Ok(all)
}
