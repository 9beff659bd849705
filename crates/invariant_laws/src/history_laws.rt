//! What a run's connections served and ran, beside the service's history and entries. Each law is
//! the clause of a function with nothing to run.
ghost use Rattle.invariant_laws.specs.SameLaws.{RunsServe, RunsRan, RunsStarted};

/// Wherever a run of a document whose requests are right has come to, what the service's history
/// has of a connection's session is what the connection served: frame by frame, with what was told.
pub fn runs_serve()
    ensures { RunsServe }
{
    world_model::laws::runs_are_orderly();
}

/// Wherever such a run has come to, the entry of a number of a connection's session has the pieces
/// of the transaction of this number that the connection ran; of a call that was stopped the call
/// alone is known.
pub fn runs_ran()
    ensures { RunsRan }
{
    runs_serve();
    world_model::laws::runs_are_orderly();
    server_model::laws::runs_legal();
}

/// Such an entry has the settings of the session at the start of this transaction.
pub fn runs_started()
    ensures { RunsStarted }
{
    runs_serve();
    world_model::laws::runs_are_orderly();
    server_model::laws::runs_legal();
}
