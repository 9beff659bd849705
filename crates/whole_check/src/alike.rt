//! What is the same.
ghost use Rattle.std.specs.Prelude.{◌≡◌};
ghost use Rattle.std.specs.Cmp.Lexicographic.{pointwise};
ghost use Rattle.svc_values.specs.meaning.Identifiers.{same_session};
ghost use Rattle.svc_values.specs.meaning.Same.{same_answers, same_call, same_draws};

use equality_laws::tests_equality;
use svc_values::{Answers, Call, Draws, SessionId};

pub(crate) fn is_call(one: &Call, other: &Call) -> bool
    ensures { result ≡ same_call one.now other.now }
{
    tests_equality();
    *one == *other
}

pub(crate) fn are_answers(one: &Answers, other: &Answers) -> bool
    ensures { result ≡ same_answers one.now other.now }
{
    tests_equality();
    *one == *other
}

pub(crate) fn are_draws(one: &Draws, other: &Draws) -> bool
    ensures { result ≡ same_draws one.now other.now }
{
    tests_equality();
    *one == *other
}

pub(crate) fn is_session(one: &SessionId, other: &SessionId) -> bool
    ensures { result ≡ same_session one.now other.now }
{
    one == other
}

/// Whether the two are the same sessions, one by one.
pub(crate) fn are_sessions(one: &[SessionId], other: &[SessionId]) -> bool
    ensures { result ≡ pointwise same_session one.now other.now }
{
    *one == *other
}
