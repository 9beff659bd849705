//! The outcome of an identifier.

/// The outcome of an identifier, where `next` is the number of its session's commits.
#[derive(Clone, Copy, Debug, PartialEq, Eq)]
pub enum Verdict {
    /// The identifier is the session's last commit. `completed` tells whether that was a call
    /// without statements.
    Committed { completed: bool },
    /// It is the session's next one, and nothing blocks it yet: before it may be called
    /// uncommitted, it has to be blocked for good.
    BlockIt,
    /// It is the session's next one and is blocked: uncommitted.
    AlreadyBlocked,
    /// It is of an older transaction of the session than the last one.
    ServerAhead { next: u64 },
    /// The session has not come so far.
    ClientAhead { next: u64 },
    /// Its incarnation is below the horizon, and what became of it is no longer kept.
    Forgotten { horizon: u64 },
}
