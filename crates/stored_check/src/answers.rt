//! What was answered at events, beside the journal.
ghost use Rattle.std.specs.Prelude.{◌≡◌, is_none};
ghost use Rattle.std.specs.List.{list_all};
ghost use Rattle.report_moments.specs.Views.{happened_as, moments_as};
ghost use Rattle.stored_check.specs.Facts.{marks_in, timing_in, is_answer as is_answer_def, is_item_right as is_item_right_def, is_right_at as is_right_at_def, is_right};

use crate::known::Known;
use crate::place::Place;
use crate::told::{is_rightly_forgotten, is_told, is_uncommitted};
use entry_events::Numbers;
use outage_schedule::{AskResult, Item};
use report_horizons::{WantedHorizons, raised};
use report_moments::{Moment, What};
use svc_values::Ltxid;

/// When entries were stored, and how the horizon rises.
#[derive(Drop)]
pub(crate) struct Times {
    pub(crate) numbers: Numbers,
    pub(crate) horizon: u64,
    pub(crate) openings: WantedHorizons,
}

impl Times {
    /// The number of the session's next identifier before an event.
    fn next_at(&self, event: u64, ltxid: &Ltxid) -> u64
        ensures { result ≡ (timing_in self.now).next event ltxid.now }
    {
        self.numbers.before(&ltxid.session_of(), event)
    }

    /// The horizon before an event. It takes the logarithm of the number of openings.
    pub(crate) fn horizon_before(&self, event: u64) -> u128
        ensures { result ≡ (timing_in self.now).horizon event }
    {
        raised(self.horizon, &self.openings, event)
    }
}

/// Whether it is answered as the journal has it.
fn is_answer(known: &Known, times: &Times, event: u64, ltxid: &Ltxid, answer: &AskResult) -> bool
    ensures { result
        ≡ is_answer_def (marks_in known.now) (timing_in times.now) event ltxid.now answer.now }
{
    let horizon = times.horizon_before(event);
    let next = times.next_at(event, ltxid);
    let mark = known.completed.find(ltxid);
    is_told(horizon, next, mark, ltxid, answer)
        && (!is_uncommitted(answer) || known.blocked.has(ltxid))
}

/// Whether what an item answered is right.
fn is_item_right(known: &Known, times: &Times, event: u64, item: &Item) -> bool
    ensures { result ≡ is_item_right_def (marks_in known.now) (timing_in times.now) event item.now }
{
    match item {
        Item::Outcome { ltxid, result } => {
            is_answer(known, times, event, ltxid, result)
                && is_rightly_forgotten(times.horizon_before(event), ltxid, result)
        }
        _ => true,
    }
}

/// Whether what was answered at a moment is right.
fn is_right_at(known: &Known, times: &Times, moment: &Moment<'_>) -> bool
    ensures { result ≡ is_right_at_def (marks_in known.now) (timing_in times.now)
        moment.now.event (happened_as moment.now.what) }
{
    match &moment.what {
        What::Asked { ltxid, told } => is_answer(known, times, moment.event, ltxid, told),
        What::Served(one) => is_item_right(known, times, moment.event, &one.item),
        What::Outside(_) => true,
    }
}

/// The first moment at which the journal has it otherwise. For each question it takes the
/// logarithms of the numbers of openings and of entries.
pub(crate) fn wrong_answer(known: &Known, times: &Times, moments: &[Moment<'_>]) -> Option<Place>
    ensures { is_none result
        ≡ list_all (is_right (marks_in known.now) (timing_in times.now)) (moments_as moments.now) }
{
    for moment in moments {
        if !is_right_at(known, times, moment) {
            return Some(Place::of(moment.at));
        }
    }
    None
}
