//! Where a session is in its life.

/// Before its Connect, between requests, in a request, and at its end.
#[derive(Clone, Copy, Debug, PartialEq, Eq)]
pub enum Life {
    New,
    Idle,
    Begun,
    Ended,
}
