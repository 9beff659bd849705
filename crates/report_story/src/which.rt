//! By what connections are named.

use svc_values::SessionId;

/// The connections of a number, or those of a session.
#[derive(Clone, Copy)]
pub(crate) enum Which {
    Number(u64),
    Session(SessionId),
}
