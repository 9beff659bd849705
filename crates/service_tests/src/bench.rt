//! A service that is tried: on a disk in memory, behind its trait.
ghost use Rattle.std.specs.Prelude.{◌≡◌, IfOk, Ok, not};
ghost use Rattle.std.specs.List.{AllByRecursion};
ghost use Rattle.svc_values.specs.Calls.{IsMade};
ghost use Rattle.canon_bytes.specs.UpBytes.{IsMadeUp};
ghost use Rattle.commit_log.specs.meaning.Journals.{journal_of};
ghost use Rattle.server_model.specs.meaning.Outcomes.{telling_of};
ghost use Rattle.server_model.specs.ServiceCalls.{ends_session};

use crate::frames::{Says, frame, ltxid};
use crate::known::Known;
use crate::said::{of_down, of_ended, of_journal, of_kept, of_outside, of_verdict, words};
use crate::script::{Does, calls};
use commit_log::{Journal, Log, LogFault};
use disk_model::MemDisk;
use mutable_values::Grants;
use service_calls::{ServeFault, Service};
use service_core::OneService;
use std::alloc::Global;
use std::marker::Model;
use std::process::Abort;
use svc_values::{Call, Down, Up};

/// All kinds of draws are kept.
pub const ALL: Grants = Grants {
    seq: true,
    clock: true,
    id: true,
};

/// No kind of draws is kept.
pub const NONE: Grants = Grants {
    seq: false,
    clock: false,
    id: false,
};

/// The tick of each call.
const NOW: u64 = 7;

/// A service, with what is known of it: a call is made only where it may be.
#[derive(Drop)]
pub struct Bench<S: Service + Drop> {
    alloc: Global,
    service: S,
    known: Known,
}

impl<S: Service + Drop> Model for Bench<S> {
    ghost use Rattle.service_tests.specs.Facts.{Facts};
    ghost use Rattle.service_tests.specs.Knows.{Knows};

    ghost Value = { Facts };

    ghost view = { λ b. b.known };

    ghost invariant = { λ b. Knows b.known (S.state b.service) (S.sees b.service) };
}

/// What a store with these bytes holds; and the place of the damage, if they are no store.
pub fn read(rt: &impl Abort, alloc: Global, bytes: &[u8]) -> Result<Journal, u64>
    ensures { IfOk result (λ journal. journal_of bytes.now ≡ Ok journal) }
{
    let mut disk = MemDisk::of(alloc, bytes).expect(rt, "a disk");
    match Log::read(alloc, &mut disk) {
        Ok(journal) => Ok(journal),
        Err(LogFault::Damaged(place)) => Err(place),
        Err(fault) => panic!(rt; "{fault}"),
    }
}

/// A service on the store with these bytes, which is down; and the place of the damage, if they
/// are no store.
pub fn over(
    rt: &impl Abort,
    alloc: Global,
    bytes: &[u8],
    grants: Grants,
) -> Result<Bench<OneService<MemDisk>>, u64> {
    let journal = read(rt, alloc, bytes)?;
    assert!(rt; journal.incarnation < 1 << 62);
    let disk = MemDisk::of(alloc, bytes).expect(rt, "a disk");
    Ok(Bench::new(alloc, OneService::new(alloc, disk, grants)))
}

/// A service on the store with these bytes, opened with the horizon 0.
pub fn opened(
    rt: &impl Abort,
    alloc: Global,
    bytes: &[u8],
    grants: Grants,
) -> Bench<OneService<MemDisk>> {
    let mut bench = over(rt, alloc, bytes, grants).expect(rt, "a store");
    assert!(rt; bench.up(rt, 0));
    bench
}

/// Whether the session goes on behind what is told of a frame.
fn goes_on(frame: &Up, told: &Option<Down>) -> bool
    ensures { result ≡ not (ends_session frame.now (telling_of told.now)) }
{
    match told {
        None => !matches!(frame, Up::Close),
        Some(Down::Blocked | Down::Refused { .. }) => false,
        Some(_) => true,
    }
}

impl<S: Service + Drop> Bench<S> {
    ghost use Rattle.service_tests.specs.Facts.{none_called};
    ghost use Rattle.service_tests.specs.Knows.{Knows};

    /// A service on which no call was made.
    pub fn new(alloc: Global, service: S) -> Self
        requires { Knows none_called (S.state service) (S.sees service) }
    {
        Bench {
            alloc,
            service,
            known: Known::new(),
        }
    }

    pub fn is_up(&self) -> bool {
        self.service.is_up()
    }

    pub fn incarnation(&self) -> u64 {
        self.service.incarnation()
    }

    /// Whether a crash may take a store away.
    pub fn may_lose_a_store(&self) -> bool {
        self.known.is_opened()
    }

    /// Makes a connection, 1 or 2.
    pub fn connect(&mut self, rt: &impl Abort, connection: u64) -> bool {
        assert!(rt; self.known.may_call());
        assert!(rt; connection == 1 || connection == 2);
        assert!(rt; !self.known.lives(connection));
        let up = self
            .service
            .connect(self.alloc, connection)
            .expect(rt, "a connection");
        self.known.called();
        self.known.set(connection, up);
        up
    }

    /// What is told of a frame; none, where the service was stopped.
    fn serve(&mut self, rt: &impl Abort, connection: u64, frame: &Up) -> Option<Option<Down>>
        requires { IsMadeUp frame.now }
    {
        assert!(rt; self.known.may_call());
        assert!(rt; self.known.lives(connection));
        match self.service.serve(self.alloc, connection, frame, NOW) {
            Ok(told) => {
                self.known.worked();
                self.known.set(connection, goes_on(frame, &told));
                Some(told)
            }
            Err(ServeFault::Stopped) => {
                self.known.stopped();
                None
            }
            Err(ServeFault::NoMemory) => panic!(rt; "no memory"),
        }
    }

    /// What is told of a frame.
    pub fn says(&mut self, rt: &impl Abort, connection: u64, says: Says) -> String {
        let frame = frame(rt, self.alloc, says);
        match self.serve(rt, connection, &frame) {
            Some(told) => of_down(rt, self.alloc, &told),
            None => words(rt, self.alloc, "stopped"),
        }
    }

    pub fn reap(&mut self, rt: &impl Abort, connection: u64) {
        assert!(rt; self.known.may_call());
        self.service.reap(connection);
        self.known.called();
        self.known.set(connection, false);
    }

    /// Sets a stop, or takes it away.
    pub fn stop_after(&mut self, rt: &impl Abort, calls: Option<u64>) {
        assert!(rt; self.known.may_call());
        self.service.stop_after(calls);
        self.known.called();
    }

    pub fn crash(&mut self, rt: &impl Abort, pick: u8) {
        assert!(rt; self.known.may_call());
        assert!(rt; pick % 8 < 4 || self.known.is_opened());
        let may_change = !self.service.is_up() && !self.known.is_settled();
        self.service.crash(pick);
        self.known.crashed(may_change);
    }

    /// Whether it was opened, and not stopped.
    pub fn up(&mut self, rt: &impl Abort, horizon: u64) -> bool {
        assert!(rt; self.known.may_call());
        assert!(rt; self.known.is_settled() && !self.service.is_up());
        assert!(rt; horizon.saturating_sub(1) <= self.known.incarnation());
        match self.service.up(self.alloc, horizon) {
            Ok(()) => {
                self.known.opened(self.service.incarnation());
                true
            }
            Err(ServeFault::Stopped) => {
                self.known.worked();
                false
            }
            Err(ServeFault::NoMemory) => panic!(rt; "no memory"),
        }
    }

    /// What is told of an identifier from outside.
    pub fn ask(&mut self, rt: &impl Abort, parts: (u8, u8, u8)) -> String {
        let x = ltxid(parts.0, parts.1, parts.2);
        assert!(rt; self.known.may_call());
        assert!(rt; self.service.is_up());
        match self.service.ask(self.alloc, &x) {
            Ok(told) => {
                self.known.worked();
                of_verdict(rt, self.alloc, told)
            }
            Err(ServeFault::Stopped) => {
                self.known.stopped();
                words(rt, self.alloc, "stopped")
            }
            Err(ServeFault::NoMemory) => panic!(rt; "no memory"),
        }
    }

    /// What calls from outside are told: the first identifier of their session, and what each that
    /// ran was answered.
    pub fn runs(&mut self, rt: &impl Abort, script: &[Does]) -> String {
        let calls = calls(rt, self.alloc, script);
        self.outside(rt, calls.as_slice())
    }

    fn outside(&mut self, rt: &impl Abort, calls: &[Call]) -> String
        requires { AllByRecursion IsMade calls.now }
    {
        assert!(rt; self.known.may_call());
        assert!(rt; self.service.is_up());
        match self.service.outside(self.alloc, calls, NOW) {
            Ok(ran) => {
                self.known.worked();
                of_outside(rt, self.alloc, &ran)
            }
            Err(ServeFault::Stopped) => {
                self.known.stopped();
                words(rt, self.alloc, "stopped")
            }
            Err(ServeFault::NoMemory) => panic!(rt; "no memory"),
        }
    }

    pub fn image(&mut self, rt: &impl Abort) -> Vec<u8> {
        assert!(rt; self.known.may_call());
        let image = self.service.image(self.alloc).expect(rt, "an image");
        self.known.called();
        image
    }

    /// What is read of the store.
    fn stored(&mut self, rt: &impl Abort) -> Journal {
        assert!(rt; self.known.may_call());
        match self.service.journal(self.alloc) {
            Ok(journal) => {
                self.known.called();
                journal
            }
            Err(fault) => panic!(rt; "{fault}"),
        }
    }

    /// What the store holds: its opening, its horizon, the identifiers of its entries, those that
    /// are blocked, the ends of its reservations and its lines.
    pub fn holds(&mut self, rt: &impl Abort) -> String {
        let journal = self.stored(rt);
        of_journal(rt, self.alloc, &journal)
    }

    /// The same without its opening.
    pub fn keeps(&mut self, rt: &impl Abort) -> String {
        let journal = self.stored(rt);
        of_kept(rt, self.alloc, &journal)
    }

    /// What the service leaves at its end: its horizon, the identifiers of its entries, those that
    /// are blocked, its lines and the rows of its tables.
    pub fn ends_with(self, rt: &impl Abort) -> String {
        assert!(rt; self.known.may_call());
        match self.service.into_ended(self.alloc) {
            Ok(ended) => of_ended(rt, self.alloc, ended),
            Err(fault) => panic!(rt; "{fault}"),
        }
    }
}
