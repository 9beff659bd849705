//! The counts of one report.
ghost use Rattle.std.specs.Prelude.{◌≡◌, IsTrue};
ghost use Rattle.std.specs.List.{list_all};
ghost use Rattle.shown_clauses.specs.meaning.Cover.{counts_of as counts_def};
ghost use Rattle.world_model.specs.meaning.Settings.{rules_of};
ghost use Rattle.cover_core.specs.Made.{has_made_calls};
ghost use Rattle.cover_core.specs.Coverings.{covered};
ghost use Rattle.auto_bounds.specs.Covered.{nothing_covered};
ghost use Rattle.svc_values.specs.meaning.Calls.{is_made};

use crate::laws::coverage_is_cover;
use auto_bounds::{AutoRule, Coverage};
use outage_schedule::{Consistency, Failover, Request, RequestReport, ServiceOf, ShownCall};
use request_bounds::{BoundRule, DynamicRule, OffRule, StaticRule};
use std::marker::Model;
use svc_values::Call;

/// How many calls of a request were shown, and how many of them were protected.
#[derive(Clone, Copy)]
pub struct Counts {
    calls: u64,
    protected: u64,
}

impl Model for Counts {
    ghost use Rattle.shown_clauses.specs.meaning.Cover.{Counts as Told};

    ghost Value = { Told };

    ghost view = { λ c. record { calls = c.calls; protected = c.protected } };

    ghost inverse = { λ c. record { calls = c.calls; protected = c.protected } };
}

impl Counts {
    /// How many calls were shown.
    pub fn calls(&self) -> u64
        ensures { result ≡ self.now.calls }
    {
        self.calls
    }

    /// How many of them were protected.
    pub fn protected(&self) -> u64
        ensures { result ≡ self.now.protected }
    {
        self.protected
    }
}

/// How many of the calls that were shown were protected, under a rule and a limit of recorded
/// calls.
fn protected_by<R: BoundRule + Copy>(
    rule: R,
    limit: u64,
    calls: &[Call],
    shown: &[ShownCall],
) -> u64
    requires { IsTrue (list_all is_made calls.now) }
    ensures { result
        ≡ (covered (R.rules rule) (nothing_covered rule limit) calls.now shown.now).guarded }
{
    let mut coverage = Coverage::new(rule, limit);
    for (place, call) in calls.iter().enumerate() {
        let Some(one) = shown.get(place) else {
            return coverage.counts().1;
        };
        coverage.submit(call);
        coverage.show(one.answers.as_slice());
    }
    coverage.counts().1
}

/// The counts of a report, by the rule of its service.
#[tactic(auto, unfolding(crate::specs::Made::has_made_calls))]
fn counts_by<R: BoundRule + Copy>(
    rule: R,
    of: &ServiceOf,
    request: &Request,
    report: &RequestReport,
) -> Counts
    requires rule { R.rules rule ≡ rules_of of.now.failover of.now.consistency }
    requires made { IsTrue (has_made_calls request.now) }
    ensures { result ≡ counts_def of.now (record { request = request.now; copy = report.now }) }
{
    coverage_is_cover::<R>();
    let shown = report.calls.as_slice();
    Counts {
        calls: shown.len() as u64,
        protected: protected_by(rule, of.record_limit, request.calls.as_slice(), shown),
    }
}

/// The counts of a report of a request. Linear in its calls, and takes no memory.
pub(crate) fn counts_of(of: &ServiceOf, request: &Request, report: &RequestReport) -> Counts
    requires made { IsTrue (has_made_calls request.now) }
    ensures { result ≡ counts_def of.now (record { request = request.now; copy = report.now }) }
{
    match (of.failover, of.consistency) {
        (Failover::Off, _) => counts_by(OffRule, of, request, report),
        (Failover::Auto, _) => counts_by(AutoRule, of, request, report),
        (Failover::Transaction, Consistency::Static) => counts_by(StaticRule, of, request, report),
        (Failover::Transaction, Consistency::Dynamic) => counts_by(
            DynamicRule,
            of,
            request,
            report,
        ),
    }
}
