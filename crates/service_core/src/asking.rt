//! Outcomes that are asked for from outside.
ghost use Rattle.std.specs.Prelude.{◌≡◌, ◌<◌, ◌^◌, IfOk, IsErrOf, false, true};
ghost use Rattle.svc_values.specs.Identifiers.{IsLtxid};
ghost use Rattle.server_model.specs.Outcomes.{down_of};
ghost use Rattle.server_model.specs.ServiceCalls.{AskedOne, IsAnswer, StoppedAsk};
ghost use Rattle.service_calls.specs.Answers.{Ends, NotMemory};
ghost use Rattle.service_calls.specs.Kept.{Goes, HaveOneBase};
ghost use Rattle.service_core.specs.Seeing.{LeavesIn, SeesIn, bytes_in, state_in};
ghost use Rattle.service_core.specs.Shipping.{Broke, GrewBy};
ghost use Rattle.service_core.specs.Unanswered.{HaltedAsk, IsHaltedAs, MayHalt, StandsBetween};

use crate::one::OneService;
use crate::resting::Resting;
use disk_model::{Disk, StopDisk};
use ltxid_book::Verdict;
use server_model::ServeFault;
use server_session::tell_outcome;
use svc_values::Ltxid;

/// What is told of an identifier with this verdict: one that is to be blocked was so first.
fn answer_of(verdict: Verdict) -> Verdict
    ensures answer { IsAnswer result }
    ensures told { down_of result ≡ down_of verdict }
{
    match verdict {
        Verdict::BlockIt => Verdict::AlreadyBlocked,
        told => told,
    }
}

impl<D: StopDisk> OneService<D> {
    /// Tells the outcome of an identifier. One that may still commit is blocked first, and told as
    /// blocked. Logarithmic in the sessions of the book.
    pub fn tell(&mut self, x: &Ltxid) -> Result<Verdict, ServeFault>
        requires live { self.old.notes.is_spent ≡ false }
        requires few { self.old.notes.calls < 2 ^ 48 }
        requires up { (state_in self.old).is_up ≡ true }
        requires identifier { IsLtxid x.now }
        ensures asked { Ends result (λ told. Goes (SeesIn self.old) (SeesIn self.new)
            (λ old new. AskedOne old x.now told new))
            (Goes (SeesIn self.old) (SeesIn self.new)
            (λ old new. StoppedAsk old x.now (LeavesIn self.new) new)) }
        ensures base { NotMemory result (HaveOneBase (bytes_in self.old) (bytes_in self.new)) }
        ensures grew { IfOk result (λ _. GrewBy self.old self.new) }
        ensures broke { IsErrOf result ServeFault.Stopped → Broke self.old self.new }
        ensures halted { MayHalt result self.old self.new
            → Goes (SeesIn self.old) (IsHaltedAs self.old self.new)
            (λ old new. HaltedAsk old x.now (StandsBetween self.old self.new) new) }
        ensures uncounted { IsErrOf result ServeFault.NoMemory
            → self.new.disk.faults ≡ self.old.disk.faults }
    {
        self.notes.calls += 1;
        let mut core = match self.core.take() {
            Some(core) => core,
            None => unreachable!(),
        };
        match tell_outcome(&mut core, &mut self.disk, x) {
            Ok(verdict) => {
                self.core = Some(core);
                Ok(answer_of(verdict))
            }
            Err(ServeFault::Stopped) => {
                self.resting = Some(Resting::of(core));
                self.held.clear();
                self.notes.is_settled = false;
                Err(ServeFault::Stopped)
            }
            Err(ServeFault::NoMemory) => {
                self.notes.is_spent = true;
                Err(ServeFault::NoMemory)
            }
        }
    }
}
