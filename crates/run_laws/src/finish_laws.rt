//! The finish of a run is short. The law is the clause of a function with nothing to run.
ghost use Rattle.run_laws.specs.FinishShort.{FinishIsShort};

/// The finish of a run is short: wherever a run of at most 100,000 events has come to, what is left
/// of the finish that begins there is at most 2^44, in documents within the limits of a document.
/// So a count of its events has room in 64 bits.
pub fn finish_is_short()
    ensures { FinishIsShort }
{
    world_model::laws::runs_are_orderly();
}
