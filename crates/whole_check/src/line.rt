//! Lines on shown calls.
ghost use Rattle.std.specs.Prelude.{◌≡◌, ◌&&◌, [], ◌∷◌, is_none, map};
ghost use Rattle.std.specs.List.{list_all, list_any};
ghost use Rattle.svc_values.specs.declared.answer.Answer.TheVariants as answer;
ghost use Rattle.svc_values.specs.meaning.Identifiers.{same_session};
ghost use Rattle.svc_values.specs.meaning.Same.{same_answers};
ghost use Rattle.run_clauses.specs.meaning.Tried.{holds};
ghost use Rattle.entry_events.specs.Numbering.{up_to};
ghost use Rattle.shown_clauses.specs.meaning.Showings.{is_served as is_served_def, is_shown_by as is_shown_by_def, says_completed as says_completed_def};
ghost use Rattle.whole_check.specs.Judging.{has_number as has_number_def};
ghost use Rattle.whole_check.specs.Views.{shown_as};

use crate::alike::{are_answers, are_draws, is_call, is_session};
use crate::shown::ShownAt;
use entry_events::Numbers;
use identifier_sets::is_same;
use outage_schedule::{Item, Outcome, RequestReport};
use svc_values::{Answer, Ltxid, SessionId, ends_committed};

/// Whether these are `[Committed]`.
fn is_committed_alone(answers: &[Answer]) -> bool
    ensures { result ≡ same_answers answers.now (answer.Committed ∷ []) }
{
    answers.len() == 1 && ends_committed(answers)
}

/// Whether the call was shown as the reply says.
fn is_shown_by(one: &ShownAt<'_>) -> bool
    ensures { result ≡ is_shown_by_def (shown_as one.now) (shown_as one.now).showing.item }
{
    let shown = one.shown;
    match &one.showing.item {
        Item::Call { answers, draws, .. } => {
            are_answers(&shown.answers, answers) && are_draws(&shown.draws, draws)
        },
        _ => is_committed_alone(shown.answers.as_slice()) && shown.draws.as_slice().is_empty(),
    }
}

/// The first call that was shown otherwise than its reply says.
fn shown_otherwise(calls: &[ShownAt<'_>]) -> Option<usize>
    ensures { is_none result
        ≡ list_all (λ one. is_shown_by_def one one.showing.item) (map shown_as calls.now) }
{
    for (at, one) in calls.iter().enumerate() {
        if !is_shown_by(one) {
            return Some(at);
        }
    }
    None
}

/// Whether the session is among these. Linear.
fn is_among(sessions: &[SessionId], session: &SessionId) -> bool
    ensures { result ≡ list_any (same_session session.now) sessions.now }
{
    for other in sessions {
        if is_session(session, other) {
            return true;
        }
    }
    false
}

/// Whether the identifier is among these. Linear.
fn is_tried(ids: &[Ltxid], ltxid: &Ltxid) -> bool
    ensures { result ≡ holds ids.now ltxid.now }
{
    for other in ids {
        if is_same(ltxid, other) {
            return true;
        }
    }
    false
}

/// Whether the outcome says committed and completed of an identifier.
fn says_completed(ltxid: &Ltxid, outcome: &Outcome) -> bool
    ensures { result ≡ says_completed_def ltxid.now outcome.now }
{
    is_same(&outcome.ltxid, ltxid) && outcome.committed && outcome.completed
}

/// Whether one of the outcomes does. Linear.
fn has_completed(outcomes: &[Outcome], ltxid: &Ltxid) -> bool
    ensures { result ≡ list_any (says_completed_def ltxid.now) outcomes.now }
{
    for outcome in outcomes {
        if says_completed(ltxid, outcome) {
            return true;
        }
    }
    false
}

/// Whether the call was served to its request: by one of the request's sessions, or as a lone
/// commit that an outcome of the request tells of.
fn is_served(copy: &RequestReport, one: &ShownAt<'_>) -> bool
    ensures { result
        ≡ is_served_def copy.now (shown_as one.now) (shown_as one.now).showing.item }
{
    match &one.showing.item {
        Item::Call { call, .. } => {
            is_call(one.call, call) && is_among(copy.sessions.as_slice(), &one.showing.session)
        },
        Item::Outcome { ltxid, .. } => {
            one.call.is_lone_commit()
                && is_tried(one.tried, ltxid)
                && has_completed(copy.outcomes.as_slice(), ltxid)
        },
        _ => false,
    }
}

/// The first call that was not served to its request. For each call it is linear in the request's
/// sessions, or in its outcomes and the identifiers that were tried.
fn not_served(copy: &RequestReport, calls: &[ShownAt<'_>]) -> Option<usize>
    ensures { is_none result
        ≡ list_all (λ one. is_served_def copy.now one one.showing.item)
        (map shown_as calls.now) }
{
    for (at, one) in calls.iter().enumerate() {
        if !is_served(copy, one) {
            return Some(at);
        }
    }
    None
}

/// Whether the call was shown with the identifier that its session has behind the reply.
fn has_number(numbers: &Numbers, one: &ShownAt<'_>) -> bool
    ensures { result ≡ has_number_def (up_to numbers.now) (shown_as one.now) }
{
    let shown = one.shown.ltxid;
    let session = one.showing.session;
    shown.incarnation == session.incarnation
        && shown.session == session.session
        && shown.number == numbers.up_to(&session, one.showing.event)
}

/// The first call that was shown with another identifier.
fn without_number(numbers: &Numbers, calls: &[ShownAt<'_>]) -> Option<usize>
    ensures { is_none result ≡ list_all (has_number_def (up_to numbers.now))
        (map shown_as calls.now) }
{
    for (at, one) in calls.iter().enumerate() {
        if !has_number(numbers, one) {
            return Some(at);
        }
    }
    None
}

/// The first of a request's shown calls that is wrong: of those that were shown otherwise than the
/// reply says, then of those that were not served to the request, then of those with another
/// identifier. The identifier takes the logarithm of the number of entries.
pub(crate) fn wrong_call(
    numbers: &Numbers,
    copy: &RequestReport,
    calls: &[ShownAt<'_>],
) -> Option<usize>
    ensures { is_none result
        ≡ (list_all (λ one. is_shown_by_def one one.showing.item) (map shown_as calls.now)
        && (list_all (λ one. is_served_def copy.now one one.showing.item)
        (map shown_as calls.now)
        && list_all (has_number_def (up_to numbers.now)) (map shown_as calls.now))) }
{
    if let Some(at) = shown_otherwise(calls) {
        return Some(at);
    }
    if let Some(at) = not_served(copy, calls) {
        return Some(at);
    }
    without_number(numbers, calls)
}
