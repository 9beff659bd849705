//! The submissions of a client: each report with its request of the script.
ghost use Rattle.std.specs.Prelude.{◌≡◌, ◌<◌, [], ◌∷◌, flat_map, map, option_map, IfOk, IfSome, MatchOption, OnOk};
ghost use Rattle.run_clauses.specs.meaning.Copies.{copies_of, is_in_script_order};
ghost use Rattle.shown_clauses.specs.meaning.Submissions.{submissions_of as submissions_of_def};
ghost use Rattle.report_parts.specs.Submitting.{begun_for, further_of, with_copy_of, with_first_of, with_report, submitted, is_complete as is_complete_def};
ghost use Rattle.report_parts.specs.SubmissionViews.{last_as, submission_as};

use outage_schedule::{Request, RequestReport};
use std::alloc::Global;
use std::marker::Model;
use svc_values::NoMemory;
use transcript_core::is_repeated;

/// A copy of a request, and what it was shown.
#[derive(Clone, Copy)]
pub struct Submission<'a> {
    pub request: &'a Request,
    pub copy: &'a RequestReport,
}

/// The last copy that was put, and how many further ones are allowed behind it.
#[derive(Clone, Copy)]
pub(crate) struct Last<'a> {
    allowed: u64,
    request: &'a Request,
    copy: &'a RequestReport,
}

/// How far the reports of a client were put to its requests.
#[derive(Drop)]
struct Submitting<'a> {
    script: &'a [Request],
    last: Option<Last<'a>>,
    over: bool,
    found: Vec<Submission<'a>>,
}

impl<'a> Model for Submitting<'a> {
    ghost use Rattle.std.specs.Prelude.{map, option_map};
    ghost use Rattle.report_parts.specs.Submitting.{Submitting as Put};
    ghost use Rattle.report_parts.specs.SubmissionViews.{last_as, submission_as};

    ghost Value = { Put };

    ghost view = { λ s. record {
      script = s.script.now;
      last = option_map last_as s.last;
      over = s.over;
      found = map submission_as s.found.items;
    } };
}

/// A request of a script, and those behind it.
#[derive(Clone, Copy)]
struct First<'a> {
    request: &'a Request,
    behind: &'a [Request],
}

fn first_of(script: &[Request]) -> Option<First<'_>>
    ensures { MatchOption result (script.now ≡ [])
        (λ first. script.now ≡ first.request.now ∷ first.behind.now) }
{
    if script.is_empty() {
        return None;
    }
    Some(First {
        request: &script[0],
        behind: &script[1..],
    })
}

/// The last copy, where a further one follows it.
fn further(last: Option<Last<'_>>) -> Option<Last<'_>>
    ensures further { option_map last_as result ≡ further_of (option_map last_as last.entry) }
    ensures allowed { IfSome result (λ one. 0 < one.allowed) }
{
    let Some(last) = last else {
        return None;
    };
    if last.allowed > 0 && is_repeated(last.allowed, last.copy) {
        return Some(last);
    }
    None
}

impl<'a> Submitting<'a> {
    /// Before the first report. It takes no memory.
    fn new(alloc: Global, script: &'a [Request]) -> Submitting<'a>
        ensures { result ≡ begun_for script.now }
    {
        Submitting {
            script,
            last: None,
            over: false,
            found: Vec::new(alloc),
        }
    }

    /// A copy of a request, with the requests that have none behind it.
    fn push(
        &mut self,
        script: &'a [Request],
        request: &'a Request,
        allowed: u64,
        copy: &'a RequestReport,
    ) -> Result<(), NoMemory>
        ensures { OnOk result (self.new
            ≡ with_copy_of self.old script.now request.now allowed copy.now) }
    {
        self.found.push(Submission { request, copy })?;
        self.script = script;
        self.last = Some(Last {
            allowed,
            request,
            copy,
        });
        Ok(())
    }

    /// A first copy of the next request.
    fn put_first(&mut self, copy: &'a RequestReport) -> Result<(), NoMemory>
        ensures { OnOk result (self.new ≡ with_first_of self.old copy.now self.old.script) }
    {
        let Some(first) = first_of(self.script) else {
            self.last = None;
            self.over = true;
            return Ok(());
        };
        self.push(first.behind, first.request, first.request.again, copy)
    }

    /// The next report.
    fn put(&mut self, copy: &'a RequestReport) -> Result<(), NoMemory>
        ensures { OnOk result (self.new ≡ with_report self.old copy.now) }
    {
        match further(self.last) {
            Some(last) => self.push(self.script, last.request, last.allowed - 1, copy),
            None => self.put_first(copy),
        }
    }

    /// Whether each request has its copies, and no report is left.
    fn is_complete(&self) -> bool
        ensures { result ≡ is_complete_def self.now }
    {
        self.script.is_empty() && further(self.last).is_none() && !self.over
    }
}

/// All reports of a client, put to the requests of its script.
fn put_all<'a>(
    alloc: Global,
    script: &'a [Request],
    reports: &'a [RequestReport],
) -> Result<Submitting<'a>, NoMemory>
    ensures { IfOk result (λ put. put ≡ submitted script.now reports.now) }
{
    let mut put = Submitting::new(alloc, script);
    for report in reports {
        put.put(report)?;
    }
    Ok(put)
}

/// The submissions of a client, and whether its reports are the copies of its requests, in the
/// order of the script.
#[derive(Drop)]
pub struct Submissions<'a> {
    pub all: Vec<Submission<'a>>,
    pub is_in_order: bool,
}

/// The submissions of a client with this script and these reports. Linear.
#[tactic(auto, using(crate::proofs::Submitted::submitted_all, crate::proofs::Submitted::submitted_in_order))]
pub fn submissions_of<'a>(
    alloc: Global,
    script: &'a [Request],
    reports: &'a [RequestReport],
) -> Result<Submissions<'a>, NoMemory>
    ensures all { IfOk result (λ made. map submission_as made.all.items
        ≡ flat_map submissions_of_def (copies_of script.now reports.now)) }
    ensures order { IfOk result (λ made. made.is_in_order
        ≡ is_in_script_order script.now reports.now) }
{
    let put = put_all(alloc, script, reports)?;
    let is_in_order = put.is_complete();
    let Submitting {
        script: _,
        last: _,
        over: _,
        found,
    } = put;
    Ok(Submissions {
        all: found,
        is_in_order,
    })
}
