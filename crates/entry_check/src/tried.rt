//! The lists of identifiers that a request tried, and the entries among them.
ghost use Rattle.std.specs.Prelude.{◌≡◌, ◌<◌, ◌^◌, is_none, length, filter, drop};
ghost use Rattle.std.specs.List.{list_all};
ghost use Rattle.run_clauses.specs.meaning.Tried.{holds, has_its_lists};
ghost use Rattle.entry_check.specs.Once.{is_end as is_end_def, known_in as known_in_def, first_of, may_end as may_end_def, ends_right as ends_right_def, ended_right as ended_right_def, over_behind as over_behind_def, at_most_one};

use crate::place::Part;
use crate::requests::JudgesRequest;
use identifier_sets::{Ids, is_same};
use outage_schedule::{Failure, Ltxids, RequestReport, ShownCall};
use svc_values::{Ltxid, ends_committed, ends_transaction};

/// How many of the identifiers are those of entries.
pub(crate) fn known_in(stored: &Ids, ids: &[Ltxid]) -> usize
    ensures { result ≡ known_in_def (holds stored.now) ids.now }
{
    ids.iter().filter(|ltxid| stored.has(ltxid)).count()
}

/// Whether a call ended its transaction.
#[tactic(auto, unfolding(crate::specs::Once::is_end))]
pub(crate) fn is_end(call: &ShownCall) -> bool
    ensures { result ≡ is_end_def call.now }
{
    ends_transaction(call.answers.as_slice())
}

/// How many of these calls end a transaction.
fn ended_calls(calls: &[ShownCall]) -> usize
    ensures { result ≡ length (filter is_end_def calls.now) }
{
    calls.iter().filter(|call| is_end(call)).count()
}

/// A request has as many lists as transactions.
#[derive(Drop)]
pub(crate) struct HasLists;

impl JudgesRequest for HasLists {
    ghost test = { λ _. has_its_lists };

    fn fault(&self, request: &RequestReport) -> Option<Part> {
        let ended = ended_calls(request.calls.as_slice());
        if request.tried.len() == ended + 1 {
            return None;
        }
        Some(Part::Whole)
    }
}

/// No list has the identifiers of two entries.
#[derive(Drop)]
pub(crate) struct HasOne<'a> {
    pub(crate) stored: &'a Ids,
}

/// The first list with the identifiers of two entries.
fn list_with_two(stored: &Ids, lists: &[Ltxids]) -> Option<Part>
    ensures { is_none result ≡ list_all (at_most_one (holds stored.now)) lists.now }
{
    for (at, ids) in lists.iter().enumerate() {
        if known_in(stored, ids.as_slice()) > 1 {
            return Some(Part::Tried(at));
        }
    }
    None
}

impl JudgesRequest for HasOne<'_> {
    ghost test = { λ s request. list_all (at_most_one (holds s.stored.now)) request.tried };

    fn fault(&self, request: &RequestReport) -> Option<Part> {
        list_with_two(self.stored, request.tried.as_slice())
    }
}

/// The list at a place, and none past the end.
#[tactic(auto, using(crate::proofs::Ends::first_here))]
pub(crate) fn list_at(lists: &[Ltxids], at: usize) -> &[Ltxid]
    ensures { result.now ≡ first_of (drop at lists.now) }
{
    match lists.get(at) {
        Some(ids) => ids.as_slice(),
        None => &[],
    }
}

/// Whether an identifier is among these. Linear.
fn is_among(ids: &[Ltxid], ltxid: &Ltxid) -> bool
    ensures { result ≡ holds ids.now ltxid.now }
{
    ids.iter().any(|other| is_same(ltxid, other))
}

/// Whether a request that failed so may have these as its last list.
fn may_end(stored: &Ids, failed: &Option<Failure>, ids: &[Ltxid]) -> bool
    ensures { result ≡ may_end_def (holds stored.now) failed.now ids.now }
{
    match failed {
        Some(Failure::Incomplete { ltxid }) => is_among(ids, ltxid) && stored.has(ltxid),
        Some(Failure::Retries { .. }) => known_in(stored, ids) <= 1,
        Some(Failure::Unknown { .. }) => known_in(stored, ids) <= 1,
        _ => known_in(stored, ids) == 0,
    }
}

/// Whether a transaction whose last call was shown these answers may have these as its list.
fn ended_right(stored: &Ids, call: &ShownCall, ids: &[Ltxid]) -> bool
    ensures { result ≡ ended_right_def (holds stored.now) call.now ids.now }
{
    if ends_committed(call.answers.as_slice()) {
        return known_in(stored, ids) == 1;
    }
    known_in(stored, ids) == 0
}

/// Each transaction of a request has the entries that it was shown to have.
#[derive(Drop)]
pub(crate) struct EndsRight<'a> {
    pub(crate) stored: &'a Ids,
}

/// How many transactions are over behind a call, where so many were before it, and `None` where its
/// end is not that of its transaction.
#[tactic(auto, unfolding(crate::specs::Once::is_end))]
fn over_behind(stored: &Ids, call: &ShownCall, lists: &[Ltxids], over: usize) -> Option<usize>
    requires { over < 2 ^ 63 }
    ensures { result ≡ over_behind_def (holds stored.now) call.now lists.now over }
{
    if !is_end(call) {
        return Some(over);
    }
    if ended_right(stored, call, list_at(lists, over)) {
        return Some(over + 1);
    }
    None
}

/// The first call that was shown another end than its transaction's.
fn wrong_end(stored: &Ids, request: &RequestReport) -> Option<Part>
    ensures { is_none result ≡ ends_right_def (holds stored.now) request.now }
{
    let calls = request.calls.as_slice();
    let lists = request.tried.as_slice();
    let mut over = 0;
    for (at, call) in calls.iter().enumerate() {
        let Some(behind) = over_behind(stored, call, lists, over) else {
            return Some(Part::Call(at));
        };
        over = behind;
    }
    if may_end(stored, &request.failed, list_at(lists, over)) {
        return None;
    }
    Some(Part::Whole)
}

impl JudgesRequest for EndsRight<'_> {
    ghost test = { λ s. ends_right_def (holds s.stored.now) };

    fn fault(&self, request: &RequestReport) -> Option<Part> {
        wrong_end(self.stored, request)
    }
}
