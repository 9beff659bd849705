//! The outcome of an identifier.
ghost use Rattle.std.specs.Prelude.{◌≡◌, ◌+◌, ℕ, IsTrue};
ghost use Rattle.svc_values.specs.declared.frame.Up.TheVariants as up;
ghost use Rattle.svc_values.specs.meaning.Calls.{sequences_in};
ghost use Rattle.svc_values.specs.Identifiers.{IsLtxid};
ghost use Rattle.ltxid_book.specs.meaning.Sessions.{may_commit};
ghost use Rattle.ltxid_book.specs.Sessions.{sessions_in};
ghost use Rattle.commit_log.specs.declared.records.Record.TheVariants as kept;
ghost use Rattle.server_model.specs.Outcomes.{down_of as down_of_def};
ghost use Rattle.server_model.specs.Serve.{is_serving};
ghost use Rattle.server_session.specs.Fits.{Fits, Belongs};
ghost use Rattle.server_session.specs.Serving.{Serves, served_as};
ghost use Rattle.server_session.specs.Storing.{Stores, Tells};

use crate::session::Session;
use crate::shared::Core;
use crate::store::stored;
use disk_model::Disk;
use outcome_call::{Verdict, decide};
use server_model::ServeFault;
use svc_values::{Ahead, Down, Ltxid};

/// Tells the outcome of an identifier by the book. One that is to be blocked is blocked first: the
/// block is stored before it is told. As long as it is not told, the call may be taken as one that
/// was stopped, with the block or without it. Logarithmic in the sessions of the book.
pub fn tell_outcome<D: Disk>(
    core: &mut Core,
    disk: &mut D,
    x: &Ltxid,
) -> Result<Verdict, ServeFault>
    requires fits { Fits core.old (D.state disk.old) }
    requires identifier { IsLtxid x.now }
    ensures { Tells x.now result core.old (D.state disk.old) core.new (D.state disk.new) }
{
    match decide(&core.book, x) {
        Verdict::BlockIt => {
            block(core, disk, x)?;
            Ok(Verdict::BlockIt)
        }
        verdict => Ok(verdict),
    }
}

/// Blocks an identifier. The book has the block once its record is written.
fn block<D: Disk>(core: &mut Core, disk: &mut D, x: &Ltxid) -> Result<(), ServeFault>
    requires fits { Fits core.old (D.state disk.old) }
    requires identifier { IsLtxid x.now }
    requires may { IsTrue (may_commit (sessions_in core.old.book) x.now) }
    ensures { Stores (kept.Blocked x.now) result core.old (D.state disk.old) core.new
        (D.state disk.new) }
{
    stored(core.log.block(disk, x))?;
    core.book.block(x)?;
    Ok(())
}

/// The frame that tells a verdict.
fn down_of(verdict: Verdict) -> Down
    ensures { result ≡ down_of_def verdict }
{
    match verdict {
        Verdict::Committed { completed } => Down::OutcomeIs {
            committed: true,
            completed,
        },
        Verdict::BlockIt | Verdict::AlreadyBlocked => Down::OutcomeIs {
            committed: false,
            completed: false,
        },
        Verdict::ServerAhead { next } => Down::OutcomeRefused {
            ahead: Ahead::Server,
            next,
        },
        Verdict::ClientAhead { next } => Down::OutcomeRefused {
            ahead: Ahead::Client,
            next,
        },
        Verdict::Forgotten { horizon } => Down::OutcomeRefused {
            ahead: Ahead::Forgotten,
            next: horizon,
        },
    }
}

impl Session {
    /// Answers what became of an identifier.
    pub(crate) fn outcome<D: Disk>(
        &self,
        core: &mut Core,
        disk: &mut D,
        x: &Ltxid,
    ) -> Result<Option<Down>, ServeFault>
        requires serving { IsTrue (is_serving self.now.life) }
        requires fits { Fits core.old (D.state disk.old) }
        requires belongs { Belongs core.old self.now }
        requires identifier { IsLtxid x.now }
        ensures { (now : ℕ) → Serves (served_as (up.Outcome x.now) now)
            (1 + sequences_in (up.Outcome x.now)) result self.now core.old (D.state disk.old)
            self.now core.new (D.state disk.new) }
    {
        let verdict = tell_outcome(core, disk, x)?;
        Ok(Some(down_of(verdict)))
    }
}
