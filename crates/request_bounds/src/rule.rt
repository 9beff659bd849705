//! Rules: what a submitted call and a reply do to the protection of a request.

/// Why a request can't be replayed any more. A number is the index of the call in the request, from
/// 0, that of `Full` the greatest number of calls that are recorded.
#[derive(Clone, Copy, PartialEq, Eq)]
pub enum Why {
    /// There is no replay.
    Off,
    /// A transaction ended, and the settings of its session are not known to be the same again.
    AfterCommit,
    /// A call alters the service.
    Restricted(u64),
    /// A call changes the settings where they are declared static.
    Settings(u64),
    /// The application asked for it.
    Asked(u64),
    /// The recorder is full.
    Full(u64),
    /// The settings that were shown before are gone with their session.
    StateLost(u64),
}

/// What a reply does to the recorder.
#[derive(Clone, Copy, PartialEq, Eq)]
pub enum After {
    /// Its call is recorded.
    Record,
    /// The recorded calls are dropped, since their transaction has ended, and the call is not
    /// recorded.
    Purge,
    /// The request is not replayed any more.
    Stop(Why),
}
