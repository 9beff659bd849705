//! How the answers of a call end.
ghost use Rattle.std.specs.Prelude.{◌≡◌};
ghost use Rattle.std.specs.Option.{option_copied};
ghost use Rattle.svc_values.specs.meaning.Endings.{last_answer, ends_committed as ends_committed_def, ends_conflict as ends_conflict_def, ends_transaction as ends_transaction_def};

use crate::answer::Answer;

fn last_of(answers: &[Answer]) -> Option<&Answer>
    ensures { option_copied result ≡ last_answer answers.now }
{
    answers.last()
}

/// Whether the last answer is `Committed`.
pub fn ends_committed(answers: &[Answer]) -> bool
    ensures { result ≡ ends_committed_def answers.now }
{
    matches!(last_of(answers), Some(Answer::Committed))
}

/// Whether the last answer is `Conflict`.
pub fn ends_conflict(answers: &[Answer]) -> bool
    ensures { result ≡ ends_conflict_def answers.now }
{
    matches!(last_of(answers), Some(Answer::Conflict))
}

/// Whether the answers end a transaction: the last one is `Committed`, `Conflict` or `RolledBack`.
pub fn ends_transaction(answers: &[Answer]) -> bool
    ensures { result ≡ ends_transaction_def answers.now }
{
    matches!(
        last_of(answers),
        Some(Answer::Committed | Answer::Conflict | Answer::RolledBack)
    )
}
