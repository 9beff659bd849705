//! Every request of a calm run is answered. The law is the clause of a function with nothing to
//! run.
ghost use Rattle.calm_laws.specs.CalmRuns.{CalmRunsAnswer};

/// In a run whose schedule has no `cut`, `crash`, `failover`, `upcrash` and `ask`, and whose image,
/// if it has one, blocks no identifier of an incarnation after its last, every request is shown all
/// its answers, or fails with PoolWait.
pub fn calm_runs_answer()
    ensures { CalmRunsAnswer }
{
    invariant_laws::kept_laws::runs_keep_invariant();
    server_model::laws::runs_last();
    shown_laws::laws::held_connections_stay_unclosed();
    shown_laws::reports::runs_are_whole();
}
