//! Replies by which calls are shown.
ghost use Rattle.std.specs.Prelude.{◌≡◌, is_some};
ghost use Rattle.shown_clauses.specs.meaning.Showings.{is_showing as is_showing_def, showing_at};
ghost use Rattle.report_parts.specs.Showing.{tells_completed as tells_completed_def};
ghost use Rattle.report_story.specs.Views.{step_as};

use outage_schedule::{AskResult, Item, Served};
use report_story::Step;

/// Whether an outcome is told to be committed and completed.
fn tells_completed(told: AskResult) -> bool
    ensures { result ≡ tells_completed_def told }
{
    match told {
        AskResult::Committed { completed } => completed,
        AskResult::Uncommitted => false,
        AskResult::ServerAhead { .. } => false,
        AskResult::ClientAhead { .. } => false,
        AskResult::Forgotten { .. } => false,
    }
}

/// Whether a taken reply shows a call.
#[tactic(auto, using(crate::proofs::Showings::shows_call, crate::proofs::Showings::shows_outcome))]
pub fn is_showing(one: &Served) -> bool
    ensures { result ≡ is_showing_def one.now }
{
    match &one.item {
        Item::Call { replay, .. } => !*replay,
        Item::Outcome { result, .. } => tells_completed(*result),
        Item::Connect => false,
        Item::Begin { .. } => false,
        Item::Blocked { .. } => false,
        Item::End => false,
        Item::Close => false,
        Item::Refused { .. } => false,
        Item::CrashedCall { .. } => false,
        Item::CrashedOutcome { .. } => false,
    }
}

/// Whether the step shows a call.
#[tactic(auto, using(crate::proofs::Showings::step_shows))]
pub fn shows(step: &Step<'_>) -> bool
    ensures { result ≡ is_some (showing_at (step_as step.now)) }
{
    match step.taken {
        Some(one) => is_showing(one),
        None => false,
    }
}
