//! A pair as it is made.
ghost use Rattle.std.specs.Prelude.{◌≡◌, IfOk, Ok};
ghost use Rattle.commit_log.specs.declared.journal.Journal.{Journal};
ghost use Rattle.commit_log.specs.meaning.Journals.{journal_of};
ghost use Rattle.redo_store.specs.meaning.Records.{records_of};
ghost use Rattle.server_model.specs.Base.{IsSound};
ghost use Rattle.server_model.specs.Seen.{IsNew};
ghost use Rattle.service_core.specs.Indexed.{FitBase};
ghost use Rattle.service_core.specs.Starting.{CanBegin, IsFoundOn, base_of};
ghost use Rattle.standby_ship.specs.Seeing.{SeesPair};
ghost use Rattle.standby_ship.specs.Sound.{IsSoundPair};
ghost use Rattle.standby_ship.specs.Starting.{made_of, seen_new, with_second};

use crate::pair::{Pair, SecondStore};
use commit_log::Found;
use disk_model::{Disk, StopDisk};
use mutable_values::Grants;
use service_core::OneService;
use std::alloc::Global;
use svc_values::NoMemory;
use table_store::IndexOf;

impl<D: StopDisk> Pair<D> {
    /// A pair on the stores of these disks, which have the same records. It is down, and no call
    /// was made on it. It takes no memory.
    pub fn new(alloc: Global, primary: D, second: D, grants: Grants) -> Self
        requires primary { CanBegin (D.state primary) }
        requires second { CanBegin (D.state second) }
        requires same { records_of (D.state second).now.seen
            ≡ records_of (D.state primary).now.seen }
        ensures made { result ≡ made_of (D.state primary) (D.state second) grants }
        ensures sound { (journal : Journal) → journal_of (D.state primary).now.seen ≡ Ok journal
            → IsSound (base_of journal grants) }
        ensures seen { (journal : Journal) → journal_of (D.state primary).now.seen ≡ Ok journal
            → SeesPair result (seen_new result (base_of journal grants))
            × IsNew (seen_new result (base_of journal grants)) }
    {
        Pair::indexed(alloc, primary, second, grants, Vec::new(alloc))
    }

    /// The same with tables that are indexed by these columns at each opening. It takes no memory,
    /// and no answer of the pair tells whether it has indexes.
    pub fn indexed(
        alloc: Global,
        primary: D,
        second: D,
        grants: Grants,
        indexes: Vec<IndexOf>,
    ) -> Self
        requires primary { CanBegin (D.state primary) }
        requires second { CanBegin (D.state second) }
        requires same { records_of (D.state second).now.seen
            ≡ records_of (D.state primary).now.seen }
        requires indexes { FitBase indexes.items (D.state primary).now.seen }
        ensures made { result ≡ made_of (D.state primary) (D.state second) grants }
        ensures sound { (journal : Journal) → journal_of (D.state primary).now.seen ≡ Ok journal
            → IsSound (base_of journal grants) }
        ensures seen { (journal : Journal) → journal_of (D.state primary).now.seen ≡ Ok journal
            → SeesPair result (seen_new result (base_of journal grants))
            × IsNew (seen_new result (base_of journal grants)) }
    {
        let primary = OneService::indexed(alloc, primary, grants, indexes);
        primary.keeps_to_it();
        Pair::beside(primary, second)
    }

    /// A pair of this service and a second store on this disk, as it is made.
    fn beside(primary: OneService<D>, second: D) -> Self
        requires { IsSoundPair (with_second primary (D.state second)) }
        ensures { result ≡ with_second primary (D.state second) }
    {
        Pair {
            primary,
            second: Some(SecondStore {
                disk: second,
                store: None,
            }),
            lost: None,
            is_opened: false,
            is_spent: false,
        }
    }
}

impl<D: StopDisk + Drop> Pair<D> {
    /// A pair like `indexed` where the first store was made or read just now, and this was found of
    /// it: the first opening does not read it. It takes the memory that the service of the first
    /// store takes.
    pub fn known(
        alloc: Global,
        primary: D,
        second: D,
        grants: Grants,
        indexes: Vec<IndexOf>,
        found: Found,
    ) -> Result<Self, NoMemory>
        requires primary { CanBegin (D.state primary) }
        requires second { CanBegin (D.state second) }
        requires same { records_of (D.state second).now.seen
            ≡ records_of (D.state primary).now.seen }
        requires indexes { FitBase indexes.items (D.state primary).now.seen }
        requires found { IsFoundOn (D.state primary) found }
        ensures made { IfOk result (λ pair. pair
            ≡ made_of (D.state primary) (D.state second) grants) }
        ensures sound { IfOk result (λ pair. (journal : Journal)
            → journal_of (D.state primary).now.seen ≡ Ok journal
            → IsSound (base_of journal grants)) }
        ensures seen { IfOk result (λ pair. (journal : Journal)
            → journal_of (D.state primary).now.seen ≡ Ok journal
            → SeesPair pair (seen_new pair (base_of journal grants))
            × IsNew (seen_new pair (base_of journal grants))) }
    {
        let primary = OneService::known(alloc, primary, grants, indexes, found)?;
        primary.keeps_to_it();
        Ok(Pair::beside(primary, second))
    }
}
