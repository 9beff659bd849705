//! What a service counts and notes beside its store.

/// What a service counts and notes beside its store.
#[derive(Clone, Copy)]
pub struct Notes {
    /// Nothing is pending on its disk.
    pub is_settled: bool,
    /// It was opened since it was made and since its last crash.
    pub is_opened: bool,
    /// How many sessions this opening has made.
    pub sessions: u64,
    /// The stop at the start of the last frame or opening.
    pub kept: Option<u64>,
    pub crashes: u64,
    /// The pick and the stop of the last crash.
    pub last_pick: Option<u8>,
    pub last_stop: Option<u64>,
    pub calls: u64,
    /// How often its records were read for a second store: at most once behind each call.
    pub reads: u64,
    /// A call found no memory.
    pub is_spent: bool,
}
