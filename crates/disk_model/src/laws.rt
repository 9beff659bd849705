//! Laws of what the calls of a disk say. Each function does nothing, and its contract is the law.
ghost use Rattle.disk_model.specs.Laws.{LeavesSince, LeavesNow, QuietHasNoFault};

/// What a crash leaves that comes in a call or behind it: what it may leave at the call's start, or
/// at a moment that the call added.
///
/// So where a call began with nothing pending and says by `Meanwhile` what the moments leave that
/// it added, the same is known of each crash since its start, and of what a read gives at its end.
pub fn leaves()
    ensures since { LeavesSince }
    ensures now { LeavesNow }
{}

/// A quiet disk has no fault in a call under no stop, or under one that lets it pass.
pub fn quiet_has_no_fault<T, E>()
    ensures { QuietHasNoFault T E }
{}
