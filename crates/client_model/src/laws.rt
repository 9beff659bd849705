//! What holds of a client, whatever answers it. Each law is the clause of a function with nothing
//! to run.
ghost use Rattle.client_model.specs.Laws.{ReplaysOnlyVerified, FailsForCause, FailsAtCause, HasOneCause, BeginsKnown, FewReplays, HasTablesReason, KeepsWhatIsTold, ReleasesRightly, TriesUnderHeld};

/// A call is sent without the mark on a session that is not that of the first Begin only once the
/// outcome of the lost identifier was taken on it. Uncommitted: each recorded call was repeated
/// there and answered with the recorded digest, and the lost call is the first one sent. Committed:
/// completed too, and the call behind the lost one is sent first. Each such call is the one behind
/// those shown.
pub fn replays_only_verified()
    ensures { ReplaysOnlyVerified }
{}

/// Whatever error is shown, its cause came in: as many failed tries in a row, an outcome with the
/// reason that stood, the replays started or the ticks passed, a reply that differs, as many ticks
/// in the queue, an identifier that is forgotten, a frame that no server sends there.
pub fn cause_of_failure()
    ensures { FailsForCause }
{}

/// Where such a cause holds at a step, the step shows its error: no request goes on past it.
pub fn failure_at_cause()
    ensures { FailsAtCause }
{}

/// At most one error has its cause at a step.
pub fn one_cause()
    ensures { HasOneCause }
{}

/// Each Begin carries the request's settings, or under a rule that keeps settings those known at
/// the last purge.
pub fn begun_with()
    ensures { BeginsKnown }
{}

/// A request takes at most one outcome more than `replays` that says uncommitted.
pub fn few_replays()
    ensures { FewReplays }
{}

/// The track of a request is what its steps told. While no reason against a replay stands, the
/// recorded calls are those shown since the last purge, with their digests and draws.
pub fn recorded_is_shown()
    ensures { KeepsWhatIsTold }
{}

/// A request that goes on keeps slot and connection. One that ended with its last reply sends End
/// and gives back its connection, or drops one that has ended. One that failed drops it, after a
/// Close where it is open.
pub fn releases_rightly()
    ensures { ReleasesRightly }
{}

/// Under each row of the table of rules, the reason that the steps tell is the earliest of these:
/// Off at the first submitted call, an alter, a disable, a set where settings are static, a decided
/// reply where they are dynamic, a full recorder.
pub fn reason_is_first()
    ensures { HasTablesReason }
{}

/// Each call that is sent without the mark is noted, in order, under the identifier that the
/// request held when it was sent.
pub fn tried_is_held()
    ensures { TriesUnderHeld }
{}
