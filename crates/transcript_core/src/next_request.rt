//! Which request of its script a client submits next.
ghost use Rattle.std.specs.Prelude.{◌≡◌, List, [], ◌∷◌, ◌++◌, None, slice_get};
ghost use Rattle.std.specs.List.{last_or};
ghost use Rattle.std.specs.Option.{option_copied};
ghost use Rattle.outage_schedule.specs.declared.request.RequestReport.{RequestReport as Reported};
ghost use Rattle.run_clauses.specs.meaning.Copies.{may_be_repeated as may_be_repeated_def, is_last_uncommitted as is_last_uncommitted_def, is_repeated as is_repeated_def, next_of};
ghost use Rattle.transcript_core.specs.Following.{IsNext, at_place, follows};

use outage_schedule::{Failure, Outcome, Request, RequestReport};

/// Which request of a script comes next: its place, and how many further copies of it are allowed.
#[derive(Clone, Copy)]
pub struct NextRequest {
    place: usize,
    left: u64,
}

/// Whether a request that failed so may be submitted again.
fn may_be_repeated(failed: &Option<Failure>) -> bool
    ensures { result ≡ may_be_repeated_def failed.now }
{
    match failed {
        Some(Failure::Disabled { .. }) => true,
        Some(Failure::Mismatch { .. }) => true,
        Some(Failure::Replays { .. }) => true,
        Some(Failure::ReplayTimeout { .. }) => true,
        _ => false,
    }
}

/// The last outcome.
fn last_of(outcomes: &[Outcome]) -> Option<&Outcome>
    ensures { option_copied result ≡ last_or None outcomes.now }
{
    outcomes.last()
}

/// Whether the last outcome is that nothing was committed.
fn is_last_uncommitted(outcomes: &[Outcome]) -> bool
    ensures { result ≡ is_last_uncommitted_def outcomes.now }
{
    match last_of(outcomes) {
        Some(outcome) => !outcome.committed,
        None => false,
    }
}

/// Whether a further copy follows, where so many are allowed.
pub fn is_repeated(allowed: u64, report: &RequestReport) -> bool
    ensures { result ≡ is_repeated_def allowed report.now }
{
    allowed > 0
        && may_be_repeated(&report.failed)
        && is_last_uncommitted(report.outcomes.as_slice())
}

/// The request at a place, if there is one.
fn request_at(script: &[Request], place: usize) -> Option<&Request>
    ensures { option_copied result ≡ slice_get script.now place }
{
    script.get(place)
}

impl NextRequest {
    /// The first copy of the request at this place.
    fn at(script: &[Request], place: usize) -> NextRequest
        ensures { result ≡ at_place script.now place }
    {
        let left = match request_at(script, place) {
            Some(request) => request.again,
            None => 0,
        };
        NextRequest { place, left }
    }

    /// The first request of the script, before any was submitted. It takes no memory.
    pub fn first(script: &[Request]) -> NextRequest
        ensures { IsNext script.now [] result }
    {
        NextRequest::at(script, 0)
    }

    /// The request that comes next, if one is left. It takes no memory.
    pub fn request<'a>(&self, script: &'a [Request]) -> Option<&'a Request>
        ensures at_place { option_copied result ≡ slice_get script.now self.now.place }
        ensures next { (reports : List Reported) → IsNext script.now reports self.now
            → option_copied result ≡ next_of script.now reports }
    {
        request_at(script, self.place)
    }

    /// Which request follows one that was reported so: a further copy of it, or the one behind it.
    /// Constant, and takes no memory.
    pub fn follow(&mut self, script: &[Request], report: &RequestReport)
        ensures { (reports : List Reported) → IsNext script.now reports self.old
            → IsNext script.now (reports ++ report.now ∷ []) self.new }
    {
        *self = self.after(script, report);
    }

    /// The same as a value.
    fn after(&self, script: &[Request], report: &RequestReport) -> NextRequest
        ensures { result ≡ follows script.now self.now report.now }
    {
        if is_repeated(self.left, report) {
            return NextRequest {
                place: self.place,
                left: self.left - 1,
            };
        }
        if self.place < script.len() {
            return NextRequest::at(script, self.place + 1);
        }
        NextRequest::at(script, self.place)
    }
}
