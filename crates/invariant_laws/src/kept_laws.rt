//! The invariant holds as a whole, wherever a run has come to. The law is the clause of a function
//! with nothing to run.
ghost use Rattle.invariant_laws.specs.KeptLaws.{RunsKeepInvariant, FinishesKeepInvariant, WholeRunsKeepInvariant};

/// Wherever a run of a document whose requests are right has come to, the invariant holds as a
/// whole: so it does wherever the finish has come to, and at the end of the run.
pub fn runs_keep_invariant()
    ensures reached { RunsKeepInvariant }
    ensures finishing { FinishesKeepInvariant }
    ensures run { WholeRunsKeepInvariant }
{
    commit_log::laws::keeps_journal();
    server_model::laws::runs_number();
    world_model::laws::runs_are_orderly();
    crate::history_laws::runs_ran();
    crate::history_laws::runs_started();
}
