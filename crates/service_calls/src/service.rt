//! The calls of a service.
ghost use Rattle.std.specs.Prelude.{◌≡◌, ◌≢◌, ◌<◌, ◌^◌, true, false, None, IfOk, IfSome, IsErrOf, Ok};
ghost use Rattle.std.specs.List.{AllByRecursion};
ghost use Rattle.svc_values.specs.Calls.{IsMade};
ghost use Rattle.svc_values.specs.Identifiers.{IsLtxid};
ghost use Rattle.canon_bytes.specs.UpBytes.{IsMadeUp};
ghost use Rattle.canon_bytes.specs.DownBytes.{IsMadeDown};
ghost use Rattle.server_model.specs.Seen.{Seen, Lives};
ghost use Rattle.server_model.specs.ServiceCalls.{Connected, Reaped, with_stop, ServedOne, MayCrash, Crashed, MayForget, Opened, StoppedOpening, RanOutside, StoppedOutside, AskedOne, StoppedAsk, Looked, StoppedLook};
ghost use Rattle.service_calls.specs.Answers.{IfTold, Ends, NotMemory, runs_of};
ghost use Rattle.commit_log.specs.meaning.Journals.{journal_of};
ghost use Rattle.service_calls.specs.Ended.{IsEndOf};
ghost use Rattle.service_calls.specs.Kept.{Goes, HaveOneBase};

use crate::ended::Ended;
use commit_log::Journal;
use ltxid_book::Verdict;
use outage_schedule::OutsideNote;
use server_model::ServeFault;
use std::alloc::Global;
use svc_values::{Call, Down, Ltxid, NoMemory, Up};

/// A service behind connections, which may be stopped, crashed and opened again.
///
/// Whatever is called, the history of what was served is one of the plain server, and it ends with
/// what the store holds. A service keeps no history: it is seen with each that it may have had, and
/// each call carries on any of them. A call that finds no memory leaves a service that may only be
/// dropped. Fewer than 2^48 calls may be made on one.
pub trait Service {
    ghost use Rattle.std.specs.Prelude.{ℕ, List};
    ghost use Rattle.server_model.specs.Seen.{Store, ServiceState, Seen};
    ghost use Rattle.service_calls.specs.Kept.{IsHonest};

    /// Its state: the store, the connections that live, and the stop.
    ghost state: { Self → ServiceState };

    /// What a read of its store gives.
    ghost bytes: { Self → List ℕ };

    /// What a crash may leave of its store.
    ghost leaves: { Self → Store → Type 0 };

    /// What may be seen of it: its state, with where it began and the frames that were served
    /// since.
    ghost sees: { Self → Seen → Type 0 };

    /// Whether it serves.
    fn is_up(&self) -> bool
        ensures { result ≡ (state self.now).is_up };

    /// The incarnation of this opening. Of a service that is down it says nothing.
    fn incarnation(&self) -> u64
        ensures { (state self.now).is_up ≡ true → result ≡ (state self.now).store.incarnation };

    /// Makes a connection, which has no session until its first frame is served. Gives false, and
    /// makes none, where the service is down.
    fn connect(&mut self, alloc: Global, connection: u64) -> Result<bool, NoMemory>
        requires live { (state self.old).is_spent ≡ false }
        requires few { (state self.old).calls < 2 ^ 48 }
        requires new { (state self.old).living connection ≡ None }
        ensures connected { IfOk result (λ up. Goes (sees self.old) (sees self.new)
            (λ old new. Connected old connection up new)) }
        ensures base { IfOk result (λ up. HaveOneBase (bytes self.old) (bytes self.new)) };

    /// Serves one frame of a living connection, by its session: the one that it has, or the next.
    fn serve(
        &mut self,
        alloc: Global,
        connection: u64,
        frame: &Up,
        now: u64,
    ) -> Result<Option<Down>, ServeFault>
        requires live { (state self.old).is_spent ≡ false }
        requires few { (state self.old).calls < 2 ^ 48 }
        requires lives { Lives (state self.old) connection }
        requires made { IsMadeUp frame.now }
        ensures made { IfOk result (λ reply. IfSome reply IsMadeDown) }
        ensures served { IfTold result (λ told. Goes (sees self.old) (sees self.new)
            (λ old new. ServedOne old connection now frame.now told (leaves self.new) new)) }
        ensures base { NotMemory result (HaveOneBase (bytes self.old) (bytes self.new)) };

    /// Ends a connection, with its session. It takes no memory.
    fn reap(&mut self, connection: u64)
        requires live { (state self.old).is_spent ≡ false }
        requires few { (state self.old).calls < 2 ^ 48 }
        ensures reaped { Goes (sees self.old) (sees self.new)
            (λ old new. Reaped old connection new) }
        ensures base { HaveOneBase (bytes self.old) (bytes self.new) };

    /// Makes every device call fail once so many have succeeded, or takes the stop away.
    fn stop_after(&mut self, calls: Option<u64>)
        requires live { (state self.old).is_spent ≡ false }
        requires few { (state self.old).calls < 2 ^ 48 }
        ensures stop { Goes (sees self.old) (sees self.new) (λ old new. new ≡ with_stop old calls) }
        ensures base { HaveOneBase (bytes self.old) (bytes self.new) };

    /// Ends it as a crash does: all connections end, and of what a stopped call stored the disk
    /// leaves what `pick` says. A pick whose remainder by 8 is 4 or more takes the first store of a
    /// pair away.
    fn crash(&mut self, pick: u8)
        requires live { (state self.old).is_spent ≡ false }
        requires few { (state self.old).calls < 2 ^ 48 }
        requires may { MayCrash (state self.old) pick }
        ensures left { leaves self.old (state self.new).store }
        ensures crashed { Goes (sees self.old) (sees self.new) (λ old new. Crashed old pick new) }
        ensures base { HaveOneBase (bytes self.old) (bytes self.new) };

    /// Opens the store for the next incarnation, and forgets the outcomes of all incarnations below
    /// `horizon`. The cost is at most linear in the store: a service that keeps what it knew reads
    /// only the records behind that.
    fn up(&mut self, alloc: Global, horizon: u64) -> Result<(), ServeFault>
        requires live { (state self.old).is_spent ≡ false }
        requires few { (state self.old).calls < 2 ^ 48 }
        requires down { ((state self.old).is_up ≡ false) × ((state self.old).is_settled ≡ true) }
        requires may { MayForget (state self.old) horizon }
        ensures opened { Ends result (λ done. Goes (sees self.old) (sees self.new)
            (λ old new. Opened old horizon new))
            (Goes (sees self.old) (sees self.new)
            (λ old new. StoppedOpening old horizon (leaves self.new) new)) }
        ensures base { NotMemory result (HaveOneBase (bytes self.old) (bytes self.new)) };

    /// Runs calls in a session of their own, up to the first that is answered Blocked.
    fn outside(
        &mut self,
        alloc: Global,
        calls: &[Call],
        now: u64,
    ) -> Result<OutsideNote, ServeFault>
        requires live { (state self.old).is_spent ≡ false }
        requires few { (state self.old).calls < 2 ^ 48 }
        requires up { (state self.old).is_up ≡ true }
        requires made { AllByRecursion IsMade calls.now }
        ensures ran { Ends result (λ ran. Goes (sees self.old) (sees self.new)
            (λ old new. RanOutside old calls.now now ran.ltxid (runs_of ran) new))
            (Goes (sees self.old) (sees self.new)
            (λ old new. StoppedOutside old (leaves self.new) new)) }
        ensures base { NotMemory result (HaveOneBase (bytes self.old) (bytes self.new)) };

    /// Tells the outcome of an identifier. One that may still commit is blocked first, and told as
    /// blocked.
    fn ask(&mut self, alloc: Global, x: &Ltxid) -> Result<Verdict, ServeFault>
        requires live { (state self.old).is_spent ≡ false }
        requires few { (state self.old).calls < 2 ^ 48 }
        requires up { (state self.old).is_up ≡ true }
        requires identifier { IsLtxid x.now }
        ensures asked { Ends result (λ told. Goes (sees self.old) (sees self.new)
            (λ old new. AskedOne old x.now told new))
            (Goes (sees self.old) (sees self.new)
            (λ old new. StoppedAsk old x.now (leaves self.new) new)) }
        ensures base { NotMemory result (HaveOneBase (bytes self.old) (bytes self.new)) };

    /// What the store holds. It writes nothing, and reads the whole store.
    fn journal(&mut self, alloc: Global) -> Result<Journal, ServeFault>
        requires live { (state self.old).is_spent ≡ false }
        requires few { (state self.old).calls < 2 ^ 48 }
        ensures told { IfOk result (λ journal. journal_of (bytes self.new) ≡ Ok journal) }
        ensures unwritten { NotMemory result (bytes self.new ≡ bytes self.old) }
        ensures looked { Ends result (λ journal. Goes (sees self.old) (sees self.new) Looked)
            (Goes (sees self.old) (sees self.new) StoppedLook) };

    /// What the store holds, at the end of the service. It writes nothing. Where the service has
    /// its tables, these are handed out, and only the records behind the base are read; else the
    /// whole store is.
    fn into_ended(self, alloc: Global) -> Result<Ended, ServeFault>
        requires live { (state self).is_spent ≡ false }
        ensures told { IfOk result (IsEndOf (bytes self)) }

        // In a quiet service only a stop that was set stops it.
        ensures cause { IsErrOf result ServeFault.Stopped → (state self).is_quiet ≡ true
            → (state self).stop ≢ None };

    /// The bytes of the store. It writes nothing.
    fn image(&mut self, alloc: Global) -> Result<Vec<u8>, ServeFault>
        requires live { (state self.old).is_spent ≡ false }
        requires few { (state self.old).calls < 2 ^ 48 }
        ensures told { IfOk result (λ image. image.items ≡ bytes self.new) }
        ensures unwritten { NotMemory result (bytes self.new ≡ bytes self.old) }
        ensures looked { Ends result (λ image. Goes (sees self.old) (sees self.new) Looked)
            (Goes (sees self.old) (sees self.new) StoppedLook) };

    /// What is seen of it is its state, its history is one of the plain server, which ends with the
    /// store, and its bytes say what the store holds.
    ghost honest: { (service : Self) → (seen : Seen) → sees service seen
        → IsHonest (state service) (bytes service) seen };
}
