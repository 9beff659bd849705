//! What the lines of `Whole` say of the parts of a client's steps, in every run. Each law is the
//! clause of a function with nothing to run.
ghost use Rattle.shown_laws.specs.AnswersTold.{CallsAreAnswered, OutcomesAreLone, CallsAreServed};
ghost use Rattle.shown_laws.specs.Identified.{IdentifiersAreStored};
ghost use Rattle.shown_laws.specs.PartsTold.{SessionsAreAcquired, OutcomesAreTaken, CallsAreShown, RepliesAreTaken, ShownByOwnSessions};

/// The steps of a client are cut by the sessions of its reports, and each part has the steps of its
/// request from the first session on: those that it acquired are the sessions of the report, in
/// order.
pub fn sessions_are_acquired()
    ensures { SessionsAreAcquired }
{
    invariant_laws::kept_laws::runs_keep_invariant();
    crate::laws::steps_are_told();
}

/// The outcomes of a report are those that the steps of its request took, each with the identifier
/// that was asked, in order.
pub fn outcomes_are_taken()
    ensures { OutcomesAreTaken }
{
    invariant_laws::kept_laws::runs_keep_invariant();
    crate::laws::steps_are_told();
}

/// The calls of a report are those that its steps were shown, in order and with the same answers
/// and draws: by a reply to a call without the mark, or by an outcome that says committed and
/// completed.
pub fn calls_are_shown()
    ensures { CallsAreShown }
{
    invariant_laws::kept_laws::runs_keep_invariant();
    crate::laws::steps_are_told();
}

/// Each step that is noted to take a reply takes one that is told: what came first on its
/// connection and was not taken yet.
pub fn replies_are_taken()
    ensures { RepliesAreTaken }
{
    invariant_laws::kept_laws::runs_keep_invariant();
    crate::laws::connections_are_told();
    crate::laws::held_connections_stay_unclosed();
}

/// Each reply that showed a call of a report is of a session of that report.
pub fn showings_are_own()
    ensures { ShownByOwnSessions }
{
    invariant_laws::kept_laws::runs_keep_invariant();
    crate::laws::steps_are_told();
}

/// Each call of a report was answered: by a reply to that call of its script, of a session of the
/// report, or by an outcome that the report has, which says committed and completed of the
/// identifier that was asked.
pub fn calls_are_answered()
    ensures { CallsAreAnswered }
{
    invariant_laws::kept_laws::runs_keep_invariant();
    crate::laws::steps_are_told();
}

/// A call that an outcome showed is a commit without a statement, and the identifier of the outcome
/// stands in the report's list of its transaction.
pub fn outcomes_are_lone()
    ensures { OutcomesAreLone }
{
    invariant_laws::kept_laws::runs_keep_invariant();
    crate::laws::steps_are_told();
}

/// Each call of a report was served: by a reply to that call of its script, of a session of the
/// report, or, where it is a commit without a statement, by an outcome of an identifier in the list
/// of its transaction, which the report has as committed and completed.
pub fn calls_are_served()
    ensures { CallsAreServed }
{
    calls_are_answered();
    outcomes_are_lone();
}

/// Each call of a report has the identifier of the item that showed it: its session, with the
/// number of that session's entries that were stored up to the event of the item.
pub fn identifiers_are_stored()
    ensures { IdentifiersAreStored }
{
    invariant_laws::kept_laws::runs_keep_invariant();
    crate::laws::calls_are_identified();
}
