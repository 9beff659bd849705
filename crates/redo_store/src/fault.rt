//! Why a store refused a call.
ghost use Rattle.std.specs.Prelude.{◌≡◌};
ghost use Rattle.disk_model.specs.declared.disk.DiskFault.{DiskFault};
ghost use Rattle.redo_store.specs.declared.fault.RedoFault.TheVariants.{NoMemory};

use disk_model::DiskFault;
use std::alloc::{AllocError, AllocFailed};
use thiserror::Error;

/// Why a store refused a call.
#[derive(Clone, Copy, Debug, PartialEq, Eq, Error)]
pub enum RedoFault {
    /// There was no memory, here or at the disk. The records are as before.
    #[error("out of memory")]
    NoMemory,
    /// The disk failed. What is durable is not known, and the store is to be opened again.
    #[error("the disk failed")]
    Stopped,
    /// The bytes are no store. The place is the offset of the gate with no whole record behind it,
    /// and 0 where the first eight bytes are not those of a store.
    #[error("the store is damaged at {0}")]
    Damaged(u64),
}

impl From<DiskFault> for RedoFault {
    ghost use Rattle.redo_store.specs.declared.fault.RedoFault.{RedoFault};

    ghost from_gives = { λ fault e. (fault ≡ DiskFault.Failed → e ≡ RedoFault.Stopped)
        × (fault ≡ DiskFault.NoMemory → e ≡ RedoFault.NoMemory) };

    fn from(fault: DiskFault) -> Self {
        match fault {
            DiskFault::Failed => RedoFault::Stopped,
            DiskFault::NoMemory => RedoFault::NoMemory,
        }
    }
}

impl From<AllocError> for RedoFault {
    ghost from_gives = { λ _ e. e ≡ NoMemory };

    fn from(_: AllocError) -> Self {
        RedoFault::NoMemory
    }
}

impl<T: Drop> From<AllocFailed<T>> for RedoFault {
    ghost from_gives = { λ _ e. e ≡ NoMemory };

    fn from(_: AllocFailed<T>) -> Self {
        RedoFault::NoMemory
    }
}
