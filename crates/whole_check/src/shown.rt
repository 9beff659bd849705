//! Each shown call, with its showing.
ghost use Rattle.std.specs.Prelude.{◌≡◌, ◌<◌, ◌+◌, ◌^◌, cond, drop, map, IfOk};
ghost use Rattle.svc_values.specs.meaning.Endings.{ends_transaction as ends_transaction_def};
ghost use Rattle.shown_clauses.specs.meaning.Showings.{shown_with, tried_by_call};
ghost use Rattle.whole_check.specs.Lists.{first_list};
ghost use Rattle.whole_check.specs.Views.{shown_as};

use outage_schedule::{Ltxids, RequestReport, Served, ShownCall};
use std::alloc::Global;
use svc_values::{Call, Ltxid, NoMemory, ends_transaction};

/// A shown call: the script's call, the identifiers that its transaction tried, what was shown, and
/// the reply that showed it.
#[derive(Clone, Copy)]
pub(crate) struct ShownAt<'a> {
    pub(crate) call: &'a Call,
    pub(crate) tried: &'a [Ltxid],
    pub(crate) shown: &'a ShownCall,
    pub(crate) showing: &'a Served,
}

/// The list at a place, and none past the end.
fn list_at(lists: &[Ltxids], at: usize) -> &[Ltxid]
    ensures { result.now ≡ first_list (drop at lists.now) }
{
    match lists.get(at) {
        Some(ids) => ids.as_slice(),
        None => &[],
    }
}

/// How many transactions are over behind a call, where so many were before it.
fn over_behind(call: &ShownCall, over: usize) -> usize
    requires { over < 2 ^ 63 }
    ensures { result ≡ cond (ends_transaction_def call.now.answers) (over + 1) over }
{
    if ends_transaction(call.answers.as_slice()) {
        return over + 1;
    }
    over
}

/// The shown calls of a copy of these calls, by these replies; what has no fellow is left out.
/// Linear.
pub(crate) fn shown_by<'a>(
    alloc: Global,
    script: &'a [Call],
    copy: &'a RequestReport,
    showings: &[&'a Served],
) -> Result<Vec<ShownAt<'a>>, NoMemory>
    ensures { IfOk result (λ all. map shown_as all.items
        ≡ shown_with script.now (tried_by_call copy.now) copy.now.calls
        (map (λ one. one.now) showings.now)) }
{
    let calls = copy.calls.as_slice();
    let lists = copy.tried.as_slice();
    let mut all = Vec::new(alloc);
    let mut over = 0;
    for (at, shown) in calls.iter().enumerate() {
        let Some(call) = script.get(at) else {
            return Ok(all);
        };
        let Some(showing) = showings.get(at) else {
            return Ok(all);
        };
        let tried = list_at(lists, over);
        all.push(ShownAt {
            call,
            tried,
            shown,
            showing,
        })?;
        over = over_behind(shown, over);
    }
    Ok(all)
}
