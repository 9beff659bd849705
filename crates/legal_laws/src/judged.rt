//! What a run's service did is legal, and drew no value anew twice. Each law is the clause of a
//! function with nothing to run.
ghost use Rattle.legal_laws.specs.RunsJudged.{RunsAreLegal, RunsAreFreshNew, RunsAreSetAside};

/// What a run served is legal, as a walk over its items judges that knows them, the entries and the
/// alerts alone.
pub fn runs_are_legal()
    ensures { RunsAreLegal }
{
    server_model::laws::runs_legal();
}

/// What a run drew anew was drawn once, over all openings.
pub fn runs_are_fresh_new()
    ensures { RunsAreFreshNew }
{
    server_model::laws::runs_fresh_new();
}

/// What a run drew anew lies in what its service has set aside, and of no sequence is that less
/// than it was before event 1.
pub fn runs_are_set_aside()
    ensures { RunsAreSetAside }
{
    server_model::laws::runs_set_aside();
}
