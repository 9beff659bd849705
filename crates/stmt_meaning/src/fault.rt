//! Why nothing was drawn, and why statements were not run.
ghost use Rattle.std.specs.Prelude.{◌≡◌};

use std::alloc::AllocFailed;
use svc_values::NoMemory;
use thiserror::Error;

/// Why nothing was drawn.
#[derive(Clone, Copy, Debug, PartialEq, Eq, Error)]
pub enum DrawFromFault {
    #[error("there is no sequence of this name")]
    NoSequence,
    #[error("out of memory")]
    NoMemory,
    #[error("the source of draws stopped")]
    Stopped,
}

/// Why statements were not run to their end.
#[derive(Clone, Copy, Debug, PartialEq, Eq, Error)]
pub enum TxnFault {
    #[error("out of memory")]
    NoMemory,
    #[error("the source of draws stopped")]
    Stopped,
}

impl From<NoMemory> for TxnFault {
    ghost use Rattle.stmt_meaning.specs.declared.fault.TxnFault.TheVariants as txn_fault;

    ghost from_gives = { λ _ e. e ≡ txn_fault.NoMemory };

    fn from(_e: NoMemory) -> TxnFault {
        TxnFault::NoMemory
    }
}

impl<T: Drop> From<AllocFailed<T>> for TxnFault {
    ghost use Rattle.stmt_meaning.specs.declared.fault.TxnFault.TheVariants as txn_fault;

    ghost from_gives = { λ _ e. e ≡ txn_fault.NoMemory };

    fn from(_e: AllocFailed<T>) -> TxnFault {
        TxnFault::NoMemory
    }
}
