//! What a pool answers.

/// What a client gets that asks for a connection.
#[derive(Clone, Copy)]
pub enum Take {
    /// A slot, and this idle connection.
    Lent(u64),
    /// A slot, and leave to open a connection.
    Open,
    /// A place in the queue.
    Waiting,
}

/// What becomes of a connection that is given back.
#[derive(Clone, Copy)]
pub enum Back {
    /// It is idle from now on.
    Idle,
    /// It drains and is not kept: the caller closes it.
    Closed,
}
