//! To whom the values of a run are given, and that none is given twice. Each law is the clause of a
//! function with nothing to run.
ghost use Rattle.fresh_laws.specs.RunsFresh.{RunsAreFresh};
ghost use Rattle.fresh_laws.specs.ValueLaws.{ValuesEndWithOneOwner, ValuesHaveOneOwner, ValuesAreOwn, ValuesEndOwn, StoredValuesAreFresh, StoredValuesEndFresh};

/// No value stands twice among what the entries of a run drew, in documents whose requests are
/// right. A tick of the clock may. A call that was repeated gives its values again, and no call is
/// stored twice.
pub fn runs_are_fresh()
    ensures { RunsAreFresh }
{
    invariant_laws::kept_laws::runs_keep_invariant();
    stored_values_are_fresh();
    once_laws::laws::calls_are_stored_once();
}

/// Of two values that a run gave to calls and that are the same, the later one is given to a marked
/// call, and both to one call of one request. A tick of the clock may come again. It holds wherever
/// a run has come to, and at its end.
pub fn values_have_one_owner()
    ensures so_far { ValuesHaveOneOwner }
    ensures whole { ValuesEndWithOneOwner }
{
    server_model::laws::runs_legal();
    server_model::laws::runs_fresh_new();
    world_model::laws::runs_are_orderly();
    invariant_laws::history_laws::runs_serve();
}

/// No value that a run gave to calls is one that a run from outside drew, or that an entry has
/// which the run added and which is of no connection. A tick of the clock may be. It holds wherever
/// a run has come to, and at its end.
pub fn values_are_own()
    ensures so_far { ValuesAreOwn }
    ensures whole { ValuesEndOwn }
{
    server_model::laws::runs_legal();
    server_model::laws::runs_fresh_new();
    world_model::laws::runs_are_orderly();
    invariant_laws::history_laws::runs_serve();
}

/// No value stands twice among what the entries drew that a run added, where no two calls that they
/// are of are one call of one request. A tick of the clock may. It holds wherever a run has come
/// to, and at its end.
pub fn stored_values_are_fresh()
    ensures so_far { StoredValuesAreFresh }
    ensures whole { StoredValuesEndFresh }
{
    server_model::laws::runs_legal();
    server_model::laws::runs_fresh_new();
    world_model::laws::runs_are_orderly();
    invariant_laws::history_laws::runs_serve();
}
