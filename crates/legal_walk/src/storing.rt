//! Whether an entry is that of a transaction, and when a transaction is over.
ghost use Rattle.std.specs.Prelude.{◌≡◌, ◌||◌};
ghost use Rattle.std.specs.Option.{option_copied};
ghost use Rattle.std.specs.Cmp.Lexicographic.{pointwise};
ghost use Rattle.svc_values.specs.meaning.Endings.{last_answer, ends_committed as ends_committed_def, ends_conflict as ends_conflict_def};
ghost use Rattle.svc_values.specs.meaning.Same.{same_bool as same_bool_def, same_piece};
ghost use Rattle.server_model.specs.meaning.Walk.{ends as ends_def};
ghost use Rattle.legal_walk.specs.Judging.{is_entry_with};

use calls_again::Going;
use equality_laws::tests_equality;
use identifier_sets::is_same;
use svc_values::{Answer, Entry, Ltxid, Pieces, ends_committed, ends_conflict};

fn same_bool(one: bool, other: bool) -> bool
    ensures { result ≡ same_bool_def one other }
{
    if one { other } else { !other }
}

/// Whether the two are the same pieces.
fn are_same(one: &Pieces, other: &Pieces) -> bool
    ensures { result ≡ pointwise same_piece one.now other.now }
{
    tests_equality();
    *one == *other
}

/// Whether an entry has this identifier, the transaction, the settings at its start, and tells a
/// lone commit.
pub(crate) fn is_entry_of(entry: &Entry, next: &Ltxid, going: &Going, is_lone: bool) -> bool
    ensures { result ≡ is_entry_with next.now going.now is_lone entry.now }
{
    is_same(&entry.ltxid, next)
        && are_same(&entry.pieces, going.pieces())
        && entry.settings == *going.at_start()
        && same_bool(entry.completed, is_lone)
}

/// Whether a call with these answers comes only under an identifier that is not blocked.
pub(crate) fn must_be_free(answers: &[Answer]) -> bool
    ensures { result ≡ (ends_committed_def answers.now || ends_conflict_def answers.now) }
{
    ends_committed(answers) || ends_conflict(answers)
}

fn last_of(answers: &[Answer]) -> Option<&Answer>
    ensures { option_copied result ≡ last_answer answers.now }
{
    answers.last()
}

/// Whether the answers end a transaction.
pub(crate) fn ends(answers: &[Answer]) -> bool
    ensures { result ≡ ends_def answers.now }
{
    matches!(
        last_of(answers),
        Some(Answer::Committed | Answer::Conflict | Answer::RolledBack | Answer::CommitInReplay)
    )
}
