//! Why a statement comes to no plan.
ghost use Rattle.std.specs.Prelude.{◌≡◌};
ghost use Rattle.stmt_meaning.specs.InnerStops.{stop_of_draw, stop_of_plan};
ghost use Rattle.stmt_meaning.specs.declared.fault.TxnFault.TheVariants as txn_fault;
ghost use Rattle.stmt_meaning.specs.declared.stop.Stop.TheVariants as stop;

use crate::fault::{DrawFromFault, TxnFault};
use crate::planning::PlanFault;
use std::alloc::AllocFailed;
use svc_values::{NoMemory, StatementFault};

/// Why a statement comes to no plan.
#[derive(Clone, Copy)]
pub enum Stop {
    /// There was no memory, or the source of draws stopped.
    Ended(TxnFault),
    /// The statement is refused.
    Refused(StatementFault),
}

impl From<NoMemory> for Stop {
    ghost use Rattle.std.specs.Prelude.{◌≡◌};
    ghost use Rattle.stmt_meaning.specs.declared.stop.Stop.TheVariants as stop;
    ghost use Rattle.stmt_meaning.specs.declared.fault.TxnFault.TheVariants as txn_fault;

    ghost from_gives = { λ _ e. e ≡ stop.Ended txn_fault.NoMemory };

    fn from(_e: NoMemory) -> Stop {
        Stop::Ended(TxnFault::NoMemory)
    }
}

impl<T: Drop> From<AllocFailed<T>> for Stop {
    ghost use Rattle.stmt_meaning.specs.declared.stop.Stop.TheVariants as stop;
    ghost use Rattle.stmt_meaning.specs.declared.fault.TxnFault.TheVariants as txn_fault;

    ghost from_gives = { λ _ e. e ≡ stop.Ended txn_fault.NoMemory };

    fn from(_e: AllocFailed<T>) -> Stop {
        Stop::Ended(TxnFault::NoMemory)
    }
}

impl From<StatementFault> for Stop {
    ghost use Rattle.stmt_meaning.specs.declared.stop.Stop.TheVariants as stop;

    ghost from_gives = { λ fault e. e ≡ stop.Refused fault };

    fn from(fault: StatementFault) -> Stop {
        Stop::Refused(fault)
    }
}

impl From<PlanFault> for Stop {
    ghost use Rattle.stmt_meaning.specs.InnerStops.{stop_of_plan};

    ghost from_gives = { λ fault e. e ≡ stop_of_plan fault };

    fn from(fault: PlanFault) -> Stop {
        match fault {
            PlanFault::NoMemory => Stop::Ended(TxnFault::NoMemory),
            PlanFault::Refused(fault) => Stop::Refused(fault),
        }
    }
}

impl From<DrawFromFault> for Stop {
    ghost use Rattle.stmt_meaning.specs.InnerStops.{stop_of_draw};

    ghost from_gives = { λ fault e. e ≡ stop_of_draw fault };

    fn from(fault: DrawFromFault) -> Stop {
        match fault {
            DrawFromFault::NoSequence => Stop::Refused(StatementFault::NoSequence),
            DrawFromFault::NoMemory => Stop::Ended(TxnFault::NoMemory),
            DrawFromFault::Stopped => Stop::Ended(TxnFault::Stopped),
        }
    }
}
