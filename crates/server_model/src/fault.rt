//! Why a session or a service gives no answer.
ghost use Rattle.std.specs.Prelude.{◌≡◌};

use svc_values::NoMemory;
use thiserror::Error;

/// Why a call of a session or of a service has no answer. After either the session or the service
/// may only be dropped, but that a service which was stopped may be crashed and opened again.
#[derive(Clone, Copy, Debug, PartialEq, Eq, Error)]
pub enum ServeFault {
    /// There was no memory.
    #[error("out of memory")]
    NoMemory,
    /// The store failed, or a stop was reached. Of what the call stores, a front may be there.
    #[error("the store was stopped")]
    Stopped,
}

impl From<NoMemory> for ServeFault {
    ghost use Rattle.server_model.specs.declared.fault.ServeFault.TheVariants as serve_fault;

    ghost from_gives = { λ _ e. e ≡ serve_fault.NoMemory };

    fn from(_e: NoMemory) -> ServeFault {
        ServeFault::NoMemory
    }
}
