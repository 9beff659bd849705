//! A call, served in a request.
ghost use Rattle.std.specs.Prelude.{◌≡◌, ◌+◌};
ghost use Rattle.svc_values.specs.declared.call.Call.TheVariants as call_variant;
ghost use Rattle.svc_values.specs.declared.frame.Up.TheVariants as up;
ghost use Rattle.svc_values.specs.meaning.Calls.{sequences_in};
ghost use Rattle.svc_values.specs.Calls.{IsMade};
ghost use Rattle.server_session.specs.Fits.{Fits, Belongs};
ghost use Rattle.server_session.specs.Serving.{Serves, called_as};

use crate::commit::closed;
use crate::running::{brought, run_over};
use crate::session::Session;
use crate::shared::Core;
use disk_model::Disk;
use server_model::ServeFault;
use svc_values::{Call, Down, Draws, Statements, ends_committed};
use table_txn::Ran;

impl Session {
    /// Serves a call, with the replay mark or without it.
    pub(crate) fn call<D: Disk>(
        &mut self,
        core: &mut Core,
        disk: &mut D,
        replay: bool,
        kept: &Draws,
        call: &Call,
        now: u64,
    ) -> Result<Option<Down>, ServeFault>
        requires fits { Fits core.old (D.state disk.old) }
        requires belongs { Belongs core.old self.old }
        requires made { IsMade call.now }
        ensures { Serves (called_as replay kept.now call.now now)
            (1 + sequences_in (up.Call replay kept.now call.now)) result self.old core.old
            (D.state disk.old) self.new core.new (D.state disk.new) }
    {
        match call {
            Call::Work { statements, commit } => {
                self.work(core, disk, replay, kept, call, statements, *commit, now)
            }
            Call::Set { name, value } => {
                let told = self.set(call, name, value)?;
                Ok(Some(told))
            }
            Call::Alter { line } => self.alter(core, disk, replay, call, line),
            Call::Disable => {
                let told = self.disable(call)?;
                Ok(Some(told))
            }
            Call::Rollback => {
                let told = self.roll_back()?;
                Ok(Some(told))
            }
        }
    }

    /// Runs the statements of a work call, and commits where that is asked for and none was
    /// refused.
    fn work<D: Disk>(
        &mut self,
        core: &mut Core,
        disk: &mut D,
        replay: bool,
        kept: &Draws,
        call: &Call,
        statements: &Statements,
        commit: bool,
        now: u64,
    ) -> Result<Option<Down>, ServeFault>
        requires call { call.now ≡ call_variant.Work statements.now commit }
        requires fits { Fits core.old (D.state disk.old) }
        requires belongs { Belongs core.old self.old }
        requires made { IsMade call.now }
        ensures { Serves (called_as replay kept.now call.now now)
            (1 + sequences_in (up.Call replay kept.now call.now)) result self.old core.old
            (D.state disk.old) self.new core.new (D.state disk.new) }
    {
        let mut left = brought(self.alloc, &core.source, &core.grants, replay, kept)?;
        let known = core.changes.since(self.since);
        let Ran { answers, draws } = run_over(
            &mut self.txn,
            &core.tables,
            known,
            &self.state.settings,
            statements,
            &mut core.source,
            &mut left,
            &mut core.log,
            disk,
            now,
        )?;
        self.since = self.since.or(Some(core.changes.commits()));
        let answers = closed(answers, commit)?;
        if ends_committed(answers.as_slice()) {
            return self.commit(core, disk, replay, call, answers, draws);
        }
        let told = self.answer(call, answers, draws)?;
        Ok(Some(told))
    }
}
