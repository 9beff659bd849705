//! What the test of a stretch tells. The law is the clause of a function with nothing to run.
ghost use Rattle.script_clauses.specs.Places.{StretchesHavePlaces};

/// An entry is a stretch of a script exactly where it has the calls from some place of it on, and
/// the settings behind the calls before that place.
pub fn stretches_have_places()
    ensures { StretchesHavePlaces }
{}
