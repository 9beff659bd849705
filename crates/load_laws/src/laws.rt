//! The total of the accounts of a load, which no run changes. Each law is the clause of a function
//! with nothing to run.
ghost use Rattle.load_laws.specs.Accounts.{TransfersKeepAccounts, SerialRunsKeepAccounts};
ghost use Rattle.load_laws.specs.Insides.{InsidesTellNone};
ghost use Rattle.load_laws.specs.Loads.{LoadsRunTransfers, LoadsKeepTotal};

/// The total of the balances that the report of a load tells is 16,000, whatever was cut, repeated,
/// refused or lost on the way. It rests on no digests.
pub fn loads_keep_total()
    ensures { LoadsKeepTotal }
{
    loads_run_transfers();
    serial_runs_keep_accounts();
}

/// The calls of a transfer keep the accounts and their total: the one that reads and the commit
/// write nothing, and the one that moves money takes 1 from an account and adds 1 to one, also
/// where both are the same, or is refused and writes nothing.
pub fn transfers_keep_accounts()
    ensures { TransfersKeepAccounts }
{}

/// So does a serial run of entries whose calls are all of transfers.
pub fn serial_runs_keep_accounts()
    ensures { SerialRunsKeepAccounts }
{
    transfers_keep_accounts();
}

/// Where a schedule has no `outside`, the report of its run tells no session of one, so no
/// identifier is foreign.
pub fn insides_tell_none()
    ensures { InsidesTellNone }
{}

/// Each call of each entry of a load is one of a transfer between two of the sixteen accounts: the
/// entry's identifier stands in a list of a request, since none is foreign, and the entry is a
/// stretch of its script.
pub fn loads_run_transfers()
    ensures { LoadsRunTransfers }
{
    insides_tell_none();
}
