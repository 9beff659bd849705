//! What the outcome of an identifier is told to be.
ghost use Rattle.std.specs.Prelude.{◌≡◌, ◌<◌, ◌+◌, ◌==◌, nat_lt, Some};
ghost use Rattle.std.specs.Option.{option_map};
ghost use Rattle.outage_schedule.specs.declared.note.AskResult.TheVariants as told;
ghost use Rattle.run_clauses.specs.meaning.Outcomes.{outcome_of, is_told as is_told_def, is_uncommitted as is_uncommitted_def, says_forgotten as says_forgotten_def, is_forgotten as is_forgotten_def};
ghost use Rattle.stored_check.specs.Facts.{is_rightly_forgotten as rightly_def};
ghost use Rattle.stored_check.specs.Told.{told_in};

use crate::known::same_bool;
use outage_schedule::AskResult;
use svc_values::Ltxid;

pub(crate) fn is_uncommitted(answer: &AskResult) -> bool
    ensures { result ≡ is_uncommitted_def answer.now }
{
    match answer {
        AskResult::Uncommitted => true,
        _ => false,
    }
}

fn is_forgotten(answer: &AskResult) -> bool
    ensures { result ≡ is_forgotten_def answer.now }
{
    match answer {
        AskResult::Forgotten { .. } => true,
        _ => false,
    }
}

/// Whether it says that the outcome is forgotten, with this horizon.
fn says_forgotten(answer: &AskResult, horizon: u128) -> bool
    ensures { result ≡ says_forgotten_def answer.now horizon }
{
    match answer {
        AskResult::Forgotten { horizon: told } => *told as u128 == horizon,
        _ => false,
    }
}

/// Whether it says committed with this mark, where there is one.
fn says_committed(answer: &AskResult, mark: Option<bool>) -> bool
    ensures { result ≡ is_told_def (option_map told.Committed mark) answer.now }
{
    let Some(mark) = mark else {
        return false;
    };
    match answer {
        AskResult::Committed { completed } => same_bool(mark, *completed),
        _ => false,
    }
}

fn says_server_ahead(answer: &AskResult, next: u64) -> bool
    ensures { result ≡ is_told_def (Some (told.ServerAhead next)) answer.now }
{
    match answer {
        AskResult::ServerAhead { next: told } => next == *told,
        _ => false,
    }
}

fn says_client_ahead(answer: &AskResult, next: u64) -> bool
    ensures { result ≡ is_told_def (Some (told.ClientAhead next)) answer.now }
{
    match answer {
        AskResult::ClientAhead { next: told } => next == *told,
        _ => false,
    }
}

/// Whether a number is the one before the next one.
fn is_last(number: u64, next: u64) -> bool
    requires { number < next }
    ensures { result ≡ ((number + 1) == next) }
{
    number + 1 == next
}

fn is_below(ltxid: &Ltxid, horizon: u128) -> bool
    ensures { result ≡ nat_lt ltxid.now.incarnation horizon }
{
    (ltxid.incarnation as u128) < horizon
}

/// Whether it is the outcome of this number of a session with so many commits, of which nothing is
/// forgotten.
fn is_told_in(next: u64, mark: Option<bool>, number: u64, answer: &AskResult) -> bool
    ensures { result ≡ is_told_def (told_in next mark number) answer.now }
{
    if number == next {
        return is_uncommitted(answer);
    }
    if number > next {
        return says_client_ahead(answer, next);
    }
    if is_last(number, next) {
        return says_committed(answer, mark);
    }
    says_server_ahead(answer, next)
}

/// Whether it is the outcome of an identifier, by the horizon, the number of its session's commits
/// and whether its entry is completed.
pub(crate) fn is_told(
    horizon: u128,
    next: u64,
    mark: Option<bool>,
    ltxid: &Ltxid,
    answer: &AskResult,
) -> bool
    ensures { result ≡ is_told_def (outcome_of horizon next mark ltxid.now) answer.now }
{
    if is_below(ltxid, horizon) {
        return says_forgotten(answer, horizon);
    }
    is_told_in(next, mark, ltxid.number, answer)
}

/// Whether it says forgotten exactly where the incarnation is below the horizon, with this horizon.
pub(crate) fn is_rightly_forgotten(horizon: u128, ltxid: &Ltxid, answer: &AskResult) -> bool
    ensures { result ≡ rightly_def horizon ltxid.now answer.now }
{
    same_bool(is_forgotten(answer), is_below(ltxid, horizon))
        && (!is_forgotten(answer) || says_forgotten(answer, horizon))
}
