//! Calls that are run from outside, in a session of their own.
ghost use Rattle.std.specs.Prelude.{◌≡◌, ◌<◌, ◌^◌, IfOk, IsErrOf, false, true};
ghost use Rattle.std.specs.List.{AllByRecursion};
ghost use Rattle.svc_values.specs.Calls.{IsMade};
ghost use Rattle.svc_values.specs.meaning.Identifiers.{session_of};
ghost use Rattle.server_model.specs.Sessions.{Begun, New};
ghost use Rattle.server_model.specs.ServiceCalls.{RanOutside, StoppedOutside};
ghost use Rattle.service_calls.specs.Answers.{Ends, NotMemory, runs_of};
ghost use Rattle.service_calls.specs.Kept.{Goes, HaveOneBase};
ghost use Rattle.service_core.specs.Seeing.{LeavesIn, SeesIn, bytes_in, state_in};
ghost use Rattle.service_core.specs.Shipping.{Broke, GrewBy};
ghost use Rattle.service_core.specs.Unanswered.{HaltedCalls, IsHaltedAs, MayHalt, StandsBetween};
ghost use Rattle.service_core.specs.Through.{Begins, IsGoing, RunsAll, RunsFrom, RunsOne, run_in as run_in_def};

use crate::one::OneService;
use crate::resting::Resting;
use crate::serving::next_ltxid;
use disk_model::{Disk, StopDisk};
use outage_schedule::{NoteRun, NoteRuns, OutsideNote};
use server_model::ServeFault;
use server_session::{Core, Session};
use std::alloc::Global;
use svc_values::{Call, Down, Draws, Settings, TryCopy, Up};

/// What a reply tells of a call: its answers and draws. Any other answer tells none.
fn run_in(told: Option<Down>) -> Option<NoteRun>
    ensures { result ≡ run_in_def told }
{
    match told {
        Some(Down::Reply { answers, draws, .. }) => Some(NoteRun { answers, draws }),
        _ => None,
    }
}

/// Begins a request without settings in a session that was just made.
fn begin<D: Disk>(
    alloc: Global,
    core: &mut Core,
    disk: &mut D,
    session: &mut Session,
    now: u64,
) -> Result<(), ServeFault>
    requires going { IsGoing core.old (D.state disk.old) session.old }
    requires new { session.old.life ≡ New }
    ensures { Begins now result session.old core.old (D.state disk.old) session.new core.new
        (D.state disk.new) }
{
    match session.serve(core, disk, &Up::Connect, now) {
        Ok(_) => {}
        Err(fault) => return Err(fault),
    }
    let settings = Settings::new(alloc);
    match session.serve(core, disk, &Up::Begin { settings }, now) {
        Ok(_) => Ok(()),
        Err(fault) => Err(fault),
    }
}

/// Runs a call in a request. None where it is not answered by a reply.
fn run_one<D: Disk>(
    alloc: Global,
    core: &mut Core,
    disk: &mut D,
    session: &mut Session,
    call: &Call,
    now: u64,
) -> Result<Option<NoteRun>, ServeFault>
    requires going { IsGoing core.old (D.state disk.old) session.old }
    requires begun { session.old.life ≡ Begun }
    requires made { IsMade call.now }
    ensures { RunsOne now call.now result session.old core.old (D.state disk.old) session.new
        core.new (D.state disk.new) }
{
    let frame = Up::Call {
        replay: false,
        kept: Draws::new(alloc),
        call: call.copy(alloc)?,
    };
    match session.serve(core, disk, &frame, now) {
        Ok(told) => Ok(run_in(told)),
        Err(fault) => Err(fault),
    }
}

/// Runs calls in a request, up to the first that is answered Blocked. Each is copied.
fn run_all<D: Disk>(
    alloc: Global,
    core: &mut Core,
    disk: &mut D,
    session: &mut Session,
    calls: &[Call],
    now: u64,
) -> Result<NoteRuns, ServeFault>
    requires going { IsGoing core.old (D.state disk.old) session.old }
    requires begun { session.old.life ≡ Begun }
    requires made { AllByRecursion IsMade calls.now }
    ensures { RunsAll now (session_of session.old.ltxid) calls.now result session.old core.old
        (D.state disk.old) session.new core.new (D.state disk.new) }
{
    let mut runs = Vec::new(alloc);
    for call in calls {
        match run_one(alloc, core, disk, session, call, now) {
            Ok(Some(run)) => {
                if runs.push(run).is_err() {
                    return Err(ServeFault::NoMemory);
                }
            }
            Ok(None) => return Ok(NoteRuns::from_vec(runs)),
            Err(fault) => return Err(fault),
        }
    }
    Ok(NoteRuns::from_vec(runs))
}

/// Begins a request in a session that was just made, and runs calls in it.
fn begin_and_run<D: Disk>(
    alloc: Global,
    core: &mut Core,
    disk: &mut D,
    session: &mut Session,
    calls: &[Call],
    now: u64,
) -> Result<NoteRuns, ServeFault>
    requires going { IsGoing core.old (D.state disk.old) session.old }
    requires new { session.old.life ≡ New }
    requires made { AllByRecursion IsMade calls.now }
    ensures { RunsFrom now calls.now result session.old core.old (D.state disk.old) session.new
        core.new (D.state disk.new) }
{
    match begin(alloc, core, disk, session, now) {
        Ok(()) => run_all(alloc, core, disk, session, calls, now),
        Err(fault) => Err(fault),
    }
}

impl<D: StopDisk> OneService<D> {
    /// Runs calls in a session of their own, up to the first that is answered Blocked.
    pub fn run_outside(
        &mut self,
        alloc: Global,
        calls: &[Call],
        now: u64,
    ) -> Result<OutsideNote, ServeFault>
        requires live { self.old.notes.is_spent ≡ false }
        requires few { self.old.notes.calls < 2 ^ 48 }
        requires up { (state_in self.old).is_up ≡ true }
        requires made { AllByRecursion IsMade calls.now }
        ensures ran { Ends result (λ ran. Goes (SeesIn self.old) (SeesIn self.new)
            (λ old new. RanOutside old calls.now now ran.ltxid (runs_of ran) new))
            (Goes (SeesIn self.old) (SeesIn self.new)
            (λ old new. StoppedOutside old (LeavesIn self.new) new)) }
        ensures base { NotMemory result (HaveOneBase (bytes_in self.old) (bytes_in self.new)) }
        ensures grew { IfOk result (λ _. GrewBy self.old self.new) }
        ensures broke { IsErrOf result ServeFault.Stopped → Broke self.old self.new }
        ensures halted { MayHalt result self.old self.new
            → Goes (SeesIn self.old) (IsHaltedAs self.old self.new)
            (λ old new. HaltedCalls old (StandsBetween self.old self.new) new) }
        ensures uncounted { IsErrOf result ServeFault.NoMemory
            → self.new.disk.faults ≡ self.old.disk.faults }
    {
        self.notes.calls += 1;
        let mut core = match self.core.take() {
            Some(core) => core,
            None => unreachable!(),
        };
        let ltxid = next_ltxid(&core, &mut self.notes.sessions);
        let mut session = Session::new(alloc, ltxid);
        match begin_and_run(alloc, &mut core, &mut self.disk, &mut session, calls, now) {
            Ok(runs) => {
                self.core = Some(core);
                Ok(OutsideNote { ltxid, runs })
            }
            Err(ServeFault::Stopped) => {
                self.resting = Some(Resting::of(core));
                self.held.clear();
                self.notes.is_settled = false;
                Err(ServeFault::Stopped)
            }
            Err(ServeFault::NoMemory) => {
                self.notes.is_spent = true;
                Err(ServeFault::NoMemory)
            }
        }
    }
}
