//! Each transaction stands in the journal at most once, and outcomes that were told are the stored
//! ones. Each law is the clause of a function with nothing to run.
ghost use Rattle.once_laws.specs.OnceLaws.{ReportsAreOnce, RunsTellTried, OutcomesAreStored};
ghost use Rattle.once_laws.specs.CallEndings.{end_fittingly};
ghost use Rattle.invariant_laws.specs.SameLaws.{HoldsAtEnds, HoldsInRuns};
ghost use Rattle.once_laws.specs.Showing.{show_replies};
ghost use Rattle.once_laws.specs.StoredOnce.{are_stored_once};

/// Each transaction of the report of a whole run stands in its journal at most once, where the
/// requests of the document are right: what the invariant says of all entries and of each request
/// that is over holds of the report's entries and of each request, since the entries of the image
/// are of no connection's session and every request is over.
pub fn reports_are_once()
    ensures { ReportsAreOnce }
{
    invariant_laws::kept_laws::runs_keep_invariant();
}

/// At the end of a run, where the requests of the document are right, the lists of `tried` are by
/// the rule on sendings: in each the identifiers of the transaction's calls with a commit that went
/// out without the mark and have no reply, or one that ends with Committed, in order of first
/// sending, each once. So the rule by which a client's steps give its report is the rule by which
/// the clauses read it.
pub fn runs_tell_tried()
    ensures { RunsTellTried }
{
    invariant_laws::kept_laws::runs_keep_invariant();
}

/// Wherever such a run has come to, and at its end: the answers to a call that a connection served
/// end with RolledBack exactly where the call is a rollback; and where they end with Committed, the
/// call has a commit, and was sent without the mark.
pub fn calls_end_fittingly()
    ensures reached { HoldsInRuns end_fittingly }
    ensures run { HoldsAtEnds end_fittingly }
{
    invariant_laws::history_laws::runs_serve();
    world_model::laws::runs_are_orderly();
}

/// Wherever such a run has come to, and at its end: each reply to a call without the mark that its
/// request took, on whatever connection, has the answers, the draws and the identifier that were
/// shown of that call.
pub fn replies_are_shown()
    ensures reached { HoldsInRuns show_replies }
    ensures run { HoldsAtEnds show_replies }
{
    invariant_laws::kept_laws::runs_keep_invariant();
}

/// Each outcome that a client was told is the stored one, where the requests of the document are
/// right: it has committed exactly where the journal has an entry of its identifier, and completed
/// is that entry's; where it has not, it is not completed, and its identifier is blocked.
pub fn outcomes_are_stored()
    ensures { OutcomesAreStored }
{
    world_model::laws::orderly_is_kept();
    run_laws::stored_laws::blocks_stay_apart();
    run_laws::stored_laws::answers_are_right();
}

/// No two calls of connections that are of transactions that were stored are one call of one
/// request. It holds wherever a run of a document whose requests are right has come to, and at its
/// end.
pub fn calls_are_stored_once()
    ensures so_far { HoldsInRuns are_stored_once }
    ensures whole { HoldsAtEnds are_stored_once }
{
    invariant_laws::kept_laws::runs_keep_invariant();
    calls_end_fittingly();
    replies_are_shown();
}
