//! The story of a report.
ghost use Rattle.std.specs.Prelude.{◌≡◌, fold, map, option_map, reverse, IfOk};
ghost use Rattle.shown_clauses.specs.meaning.Steps.{steps as steps_def, turns as turns_def};
ghost use Rattle.told_reports.specs.Keeping.{IsTold};
ghost use Rattle.report_story.specs.Passing.{begun_with, pass, passed_by};
ghost use Rattle.report_story.specs.Plain.{plain_step};
ghost use Rattle.report_story.specs.Views.{repeated_as, step_as};

use crate::line::Repeated;
use crate::passing::Passing;
use crate::steps::Step;
use crate::turns::Turn;
use outage_schedule::{Note, Report, Served};
use std::alloc::Global;
use svc_values::NoMemory;

/// What a report tells: the steps of all clients in order, the turns of all sessions, and for each
/// served item what it repeats, where it is a call with the mark.
#[derive(Drop)]
pub struct Story<'a> {
    pub steps: Vec<Step<'a>>,
    pub turns: Vec<Turn<'a>>,
    pub repeated: Vec<Option<Repeated>>,
}

/// All notes gone through.
fn pass_all<'a>(alloc: Global, items: &'a [Served], notes: &[Note]) -> Result<Passing<'a>, NoMemory>
    ensures { IfOk result (λ passing. passing ≡ fold pass (begun_with items.now) notes.now) }
{
    let mut passing = Passing::new(alloc, items);
    for note in notes {
        passing.pass(note)?;
    }
    Ok(passing)
}

/// The story of a report that was read. For a report of size m it takes m log m, and for each call
/// with the mark the calls of its turn. Where two connections have one number or one session, each
/// event takes the number of connections.
pub fn story_of<'a>(alloc: Global, report: &'a Report) -> Result<Story<'a>, NoMemory>
    requires { IsTold report.now }
    ensures steps { IfOk result (λ story. map step_as story.steps.items
        ≡ map plain_step (steps_def report.now)) }
    ensures turns { IfOk result (λ story. reverse story.turns.items ≡ turns_def report.now) }
    ensures repeated { IfOk result (λ story. map (option_map repeated_as) story.repeated.items
        ≡ (passed_by report.now).repeated) }
{
    let notes = report.notes.as_slice();
    let passing = pass_all(alloc, report.served.as_slice(), notes)?;
    let Passing {
        event: _,
        seen,
        steps,
        repeated,
        left: _,
    } = passing;
    let turns = seen.into_turns()?;
    Ok(Story {
        steps,
        turns,
        repeated,
    })
}
