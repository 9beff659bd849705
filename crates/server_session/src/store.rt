//! What is told of a record that was to be stored.
ghost use Rattle.std.specs.Prelude.{◌≡◌, ℕ, IsErrOf};
ghost use Rattle.server_session.specs.Stored.{stored_as};

use commit_log::LogFault;
use server_model::ServeFault;

/// What the log answers, to a record that was to be stored: it tells no damage.
pub(crate) fn stored(answer: Result<(), LogFault>) -> Result<(), ServeFault>
    requires { (place : ℕ) → IsErrOf answer (LogFault.Damaged place) → ⊥ }
    ensures { result ≡ stored_as answer }
{
    match answer {
        Ok(()) => Ok(()),
        Err(LogFault::NoMemory) => Err(ServeFault::NoMemory),
        Err(LogFault::Stopped) => Err(ServeFault::Stopped),
        Err(LogFault::Damaged(_)) => unreachable!(),
    }
}
