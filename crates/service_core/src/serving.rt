//! A frame, served by its connection's session.
ghost use Rattle.std.specs.Prelude.{◌≡◌, ◌≢◌, ◌+◌, ◌<◌, ◌^◌, None, Some, IfOk, IfSome, IsErrOf, false};
ghost use Rattle.svc_values.specs.meaning.Identifiers.{ltxid_of};
ghost use Rattle.canon_bytes.specs.UpBytes.{IsMadeUp};
ghost use Rattle.canon_bytes.specs.DownBytes.{IsMadeDown};
ghost use Rattle.server_model.specs.Seen.{Lives};
ghost use Rattle.server_model.specs.ServiceCalls.{ServedOne};
ghost use Rattle.service_calls.specs.Answers.{IfTold, NotMemory};
ghost use Rattle.service_calls.specs.Kept.{Goes, HaveOneBase};
ghost use Rattle.service_core.specs.Held.{Holds, held_at};
ghost use Rattle.service_core.specs.Seeing.{LeavesIn, SeesIn, bytes_in, state_in};
ghost use Rattle.service_core.specs.Shipping.{Broke, GrewBy};
ghost use Rattle.service_core.specs.Unanswered.{HaltedFrame, IsHaltedAs, MayHalt, StandsBetween};
ghost use Rattle.service_core.specs.Taking.{IsTaken, kept_of};

use crate::connections::Connections;
use crate::one::OneService;
use crate::resting::Resting;
use disk_model::{Disk, StopDisk};
use server_model::ServeFault;
use server_session::{Core, Session};
use std::alloc::Global;
use svc_values::{Down, Ltxid, Up};

/// The first identifier of the next session, which is counted.
pub(crate) fn next_ltxid(core: &Core, made: &mut u64) -> Ltxid
    requires { made.old < 2 ^ 63 }
    ensures next { result ≡ ltxid_of (record {
      incarnation = core.now.source.incarnation;
      session =
          made.old + 1;
    }) 0 }
    ensures counted { made.new ≡ made.old + 1 }
{
    *made += 1;
    Ltxid {
        incarnation: core.source.incarnation(),
        session: *made,
        number: 0,
    }
}

/// Takes the session of a connection out: the one that it has, or the next, which is made.
fn take_session(
    alloc: Global,
    core: &Core,
    held: &mut Connections,
    made: &mut u64,
    connection: u64,
) -> Session
    requires lives { held_at held.old connection ≢ None }
    requires few { made.old < 2 ^ 63 }
    ensures { IsTaken core.now held.old made.old connection result held.new made.new }
{
    match held.take(connection) {
        Some(Some(session)) => session,
        Some(None) => Session::new(alloc, next_ltxid(core, made)),
        None => unreachable!(),
    }
}

/// Puts a session back to its connection, which ends with a session that has ended.
fn put_back(held: &mut Connections, connection: u64, session: Session)
    requires { held_at held.old connection ≢ None }
    ensures { Holds connection (kept_of session) held.old held.new }
{
    if session.is_live() {
        held.give(connection, session);
    } else {
        held.end(connection);
    }
}

impl<D: StopDisk> OneService<D> {
    /// Serves one frame of a living connection, by its session: the one that it has, or the next.
    pub fn serve_frame(
        &mut self,
        alloc: Global,
        connection: u64,
        frame: &Up,
        now: u64,
    ) -> Result<Option<Down>, ServeFault>
        requires live { self.old.notes.is_spent ≡ false }
        requires few { self.old.notes.calls < 2 ^ 48 }
        requires lives { Lives (state_in self.old) connection }
        requires made { IsMadeUp frame.now }
        ensures made { IfOk result (λ told. IfSome told IsMadeDown) }
        ensures served { IfTold result (λ told. Goes (SeesIn self.old) (SeesIn self.new)
            (λ old new. ServedOne old connection now frame.now told (LeavesIn self.new) new)) }
        ensures base { NotMemory result (HaveOneBase (bytes_in self.old) (bytes_in self.new)) }
        ensures grew { IfOk result (λ _. GrewBy self.old self.new) }
        ensures broke { IsErrOf result ServeFault.Stopped → Broke self.old self.new }
        ensures halted { MayHalt result self.old self.new
            → Goes (SeesIn self.old) (IsHaltedAs self.old self.new)
            (λ old new. HaltedFrame old connection now frame.now (StandsBetween self.old self.new)
            new) }
        ensures uncounted { IsErrOf result ServeFault.NoMemory
            → self.new.disk.faults ≡ self.old.disk.faults }
    {
        self.notes.calls += 1;
        self.notes.kept = self.disk.left();
        let mut core = match self.core.take() {
            Some(core) => core,
            None => unreachable!(),
        };
        let mut session = take_session(
            alloc,
            &core,
            &mut self.held,
            &mut self.notes.sessions,
            connection,
        );
        match session.serve(&mut core, &mut self.disk, frame, now) {
            Ok(told) => {
                put_back(&mut self.held, connection, session);
                self.core = Some(core);
                Ok(told)
            }
            Err(ServeFault::Stopped) => {
                self.resting = Some(Resting::of(core));
                self.held.clear();
                self.notes.is_settled = false;
                Err(ServeFault::Stopped)
            }
            Err(ServeFault::NoMemory) => {
                self.notes.is_spent = true;
                Err(ServeFault::NoMemory)
            }
        }
    }
}
