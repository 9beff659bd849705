//! The identifiers that a run blocked, beside what was answered of them.
ghost use Rattle.std.specs.Prelude.{◌≡◌, ◌≤◌, ◌&&◌, is_none, List, length, drop, IfOk, OnOk};
ghost use Rattle.std.specs.List.{list_all, list_any};
ghost use Rattle.std.specs.Option.{option_map};
ghost use Rattle.svc_values.specs.declared.entry.Ltxid.{Ltxid as Id};
ghost use Rattle.svc_values.specs.meaning.Identifiers.{same_ltxid};
ghost use Rattle.ltxid_book.specs.meaning.Journal.{is_blocked};
ghost use Rattle.run_clauses.specs.meaning.Blocks.{Blocks, answered_if as answered_if_def, answered_by_item, answered_at, answered_in as answered_def, blocks_answered, after_answer, is_done as is_done_def, blocks_in_order};
ghost use Rattle.run_clauses.specs.meaning.Outcomes.{is_uncommitted as is_uncommitted_def};
ghost use Rattle.report_moments.specs.Views.{happened_as, moments_as};
ghost use Rattle.stored_check.specs.Blocking.{answered_as, all_answered, is_first, IsAt};
ghost use Rattle.stored_check.specs.Keys.{as_list};

use crate::told::is_uncommitted;
use identifier_sets::{Ids, is_same};
use outage_schedule::{AskResult, Item};
use report_moments::{Moment, What};
use std::alloc::Global;
use svc_values::{Ltxid, NoMemory};

/// An identifier that was answered uncommitted, or that a crashed item carries: then it may have
/// been blocked or not.
#[derive(Clone, Copy)]
pub(crate) struct AnsweredAt {
    pub(crate) ltxid: Ltxid,
    pub(crate) may_be: bool,
}

/// What an answer tells of a block.
fn answered_if(ltxid: &Ltxid, answer: &AskResult) -> Option<AnsweredAt>
    ensures { as_list (option_map answered_as result)
        ≡ answered_if_def (is_uncommitted_def answer.now) ltxid.now }
{
    if !is_uncommitted(answer) {
        return None;
    }
    Some(AnsweredAt {
        ltxid: *ltxid,
        may_be: false,
    })
}

/// What an item tells of a block.
fn answered_by(item: &Item) -> Option<AnsweredAt>
    ensures { as_list (option_map answered_as result) ≡ answered_by_item item.now }
{
    match item {
        Item::Outcome { ltxid, result } => answered_if(ltxid, result),
        Item::CrashedOutcome { ltxid } => Some(AnsweredAt {
            ltxid: *ltxid,
            may_be: true,
        }),
        _ => None,
    }
}

/// What a moment tells of a block.
fn answered_of(moment: &Moment<'_>) -> Option<AnsweredAt>
    ensures { as_list (option_map answered_as result) ≡ answered_at (happened_as moment.now.what) }
{
    match &moment.what {
        What::Served(one) => answered_by(&one.item),
        What::Asked { ltxid, told } => answered_if(ltxid, told),
        What::Outside(_) => None,
    }
}

/// What was answered, in the order of events.
pub(crate) fn answered_in(
    alloc: Global,
    moments: &[Moment<'_>],
) -> Result<Vec<AnsweredAt>, NoMemory>
    ensures { IfOk result (λ all. all_answered all.items ≡ answered_def (moments_as moments.now)) }
{
    let mut all = Vec::new(alloc);
    for moment in moments {
        if let Some(one) = answered_of(moment) {
            all.push(one)?;
        }
    }
    Ok(all)
}

/// The set of the identifiers that were answered.
fn ids_of(alloc: Global, answered: &[AnsweredAt]) -> Result<Ids, NoMemory>
    ensures { IfOk result (λ ids. (x : Id) → is_blocked ids x
        ≡ list_any (λ one. same_ltxid one.ltxid x) (all_answered answered.now)) }
{
    let mut ids = Ids::new(alloc);
    for one in answered {
        ids.add(&one.ltxid)?;
    }
    Ok(ids)
}

/// The first that is not among them.
fn first_other(ids: &Ids, blocked: &[Ltxid]) -> Option<usize>
    ensures { is_none result ≡ list_all (is_blocked ids.now) blocked.now }
{
    for (at, ltxid) in blocked.iter().enumerate() {
        if !ids.has(ltxid) {
            return Some(at);
        }
    }
    None
}

/// The first blocked identifier that was not answered. n log n.
pub(crate) fn first_unanswered(
    alloc: Global,
    answered: &[AnsweredAt],
    blocked: &[Ltxid],
) -> Result<Option<usize>, NoMemory>
    ensures { IfOk result (λ place. is_none place
        ≡ blocks_answered (all_answered answered.now) blocked.now) }
{
    let ids = ids_of(alloc, answered)?;
    Ok(first_other(&ids, blocked))
}

/// The blocks of a run on the way over the answers: the identifiers that are blocked, those of so
/// many that come next, and the place among them at which an answer came first that they have not.
#[derive(Drop)]
pub(crate) struct Blocking<'a> {
    done: Ids,
    coming: &'a [Ltxid],
    total: usize,
    wrong: Option<usize>,
}

/// The place that was wrong first, where one more answer may be left out or not.
fn missed(wrong: Option<usize>, may_be: bool, at: usize) -> Option<usize>
    ensures { is_none result ≡ (is_none wrong && may_be) }
{
    if may_be {
        return wrong;
    }
    match wrong {
        Some(first) => Some(first),
        None => Some(at),
    }
}

/// Those behind the first one.
fn behind_first(coming: &[Ltxid]) -> &[Ltxid]
    requires { 1 ≤ length coming.now }
    ensures { result.now ≡ drop 1 coming.now }
{
    &coming[1..]
}

impl Blocking<'_> {
    /// The place of the next one.
    fn at(&self) -> usize {
        self.total.saturating_sub(self.coming.len())
    }

    /// Whether the identifier is the next one.
    fn is_next(&self, ltxid: &Ltxid) -> bool
        ensures { result ≡ is_first self.now.coming.now ltxid.now }
    {
        match self.coming.first() {
            Some(next) => is_same(next, ltxid),
            None => false,
        }
    }

    /// Goes on behind an answer.
    fn follow(&mut self, one: &AnsweredAt) -> Result<(), NoMemory>
        ensures { OnOk result ((blocks : Blocks) → IsAt self.old blocks
            → IsAt self.new (after_answer blocks (answered_as one.now))) }
    {
        if self.done.has(&one.ltxid) {
            return Ok(());
        }
        if !self.is_next(&one.ltxid) {
            self.wrong = missed(self.wrong, one.may_be, self.at());
            return Ok(());
        }
        self.done.add(&one.ltxid)?;
        self.coming = behind_first(self.coming);
        Ok(())
    }

    /// The first place that is wrong: one at which an answer was left out, or that of one that did
    /// not come.
    fn fault(&self) -> Option<usize>
        ensures { (blocks : Blocks) → IsAt self.now blocks → is_none result ≡ is_done_def blocks }
    {
        if self.wrong.is_some() {
            return self.wrong;
        }
        if self.coming.is_empty() {
            return None;
        }
        Some(self.at())
    }
}

/// The place of the first block that does not stand in the order of the answers, each once, behind
/// those that were there. It may be the end of them. n log n.
pub(crate) fn first_disordered(
    done: Ids,
    answered: &[AnsweredAt],
    blocked: &[Ltxid],
) -> Result<Option<usize>, NoMemory>
    ensures { IfOk result (λ place. (before : List Id)
        → ((x : Id) → is_blocked done x ≡ is_blocked before x)
        → is_none place ≡ blocks_in_order before (all_answered answered.now) blocked.now) }
{
    let mut blocking = Blocking {
        done,
        coming: blocked,
        total: blocked.len(),
        wrong: None,
    };
    for one in answered {
        blocking.follow(one)?;
    }
    Ok(blocking.fault())
}
