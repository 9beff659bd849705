//! A service as it is made.
ghost use Rattle.std.specs.Prelude.{◌≡◌, IfOk, IfSome, Ok};
ghost use Rattle.commit_log.specs.declared.journal.Journal.{Journal};
ghost use Rattle.commit_log.specs.meaning.Journals.{journal_of};
ghost use Rattle.server_model.specs.Base.{IsSound};
ghost use Rattle.server_model.specs.Seen.{IsNew};
ghost use Rattle.service_core.specs.Indexed.{FitBase};
ghost use Rattle.service_core.specs.Seeing.{SeesIn};
ghost use Rattle.service_core.specs.Keeping.{RestsBy};
ghost use Rattle.service_core.specs.Starting.{CanBegin, IsFoundOn, base_of, made_on, seen_new};

use crate::connections::Connections;
use crate::notes::Notes;
use crate::one::OneService;
use crate::opening::resting_of;
use crate::resting::Resting;
use commit_log::Found;
use commit_log::laws::keeps_journal;
use disk_model::{Disk, StopDisk};
use mutable_values::Grants;
use std::alloc::Global;
use svc_values::NoMemory;
use table_store::IndexOf;

impl<D: StopDisk> OneService<D> {
    /// A service on the store of this disk, which grants these kinds of draws. It is down, and no
    /// call was made on it. It takes no memory.
    pub fn new(alloc: Global, disk: D, grants: Grants) -> Self
        requires { CanBegin (D.state disk) }
        ensures made { result ≡ made_on (D.state disk) grants }
        ensures sound { (journal : Journal) → journal_of (D.state disk).now.seen ≡ Ok journal
            → IsSound (base_of journal grants) }
        ensures seen { (journal : Journal) → journal_of (D.state disk).now.seen ≡ Ok journal
            → SeesIn result (seen_new result (base_of journal grants))
            × IsNew (seen_new result (base_of journal grants)) }
    {
        OneService::indexed(alloc, disk, grants, Vec::new(alloc))
    }

    /// The same with tables that are indexed by these columns at each opening. It takes no memory,
    /// and no answer of the service tells whether it has indexes.
    pub fn indexed(alloc: Global, disk: D, grants: Grants, indexes: Vec<IndexOf>) -> Self
        requires begins { CanBegin (D.state disk) }
        requires indexes { FitBase indexes.items (D.state disk).now.seen }
        ensures made { result ≡ made_on (D.state disk) grants }
        ensures sound { (journal : Journal) → journal_of (D.state disk).now.seen ≡ Ok journal
            → IsSound (base_of journal grants) }
        ensures seen { (journal : Journal) → journal_of (D.state disk).now.seen ≡ Ok journal
            → SeesIn result (seen_new result (base_of journal grants))
            × IsNew (seen_new result (base_of journal grants)) }
    {
        OneService::resting_on(alloc, disk, grants, indexes, None)
    }

    /// A service as it is made, beside which this is kept.
    fn resting_on(
        alloc: Global,
        disk: D,
        grants: Grants,
        indexes: Vec<IndexOf>,
        resting: Option<Resting>,
    ) -> Self
        requires begins { CanBegin (D.state disk) }
        requires indexes { FitBase indexes.items (D.state disk).now.seen }
        requires resting { IfSome resting (RestsBy grants (D.state disk)) }
        ensures made { result ≡ made_on (D.state disk) grants }
        ensures sound { (journal : Journal) → journal_of (D.state disk).now.seen ≡ Ok journal
            → IsSound (base_of journal grants) }
        ensures seen { (journal : Journal) → journal_of (D.state disk).now.seen ≡ Ok journal
            → SeesIn result (seen_new result (base_of journal grants))
            × IsNew (seen_new result (base_of journal grants)) }
    {
        keeps_journal();
        OneService {
            disk,
            grants,
            core: None,
            resting,
            held: Connections::new(alloc),
            notes: Notes {
                is_settled: true,
                is_opened: false,
                sessions: 0,
                kept: None,
                crashes: 0,
                last_pick: None,
                last_stop: None,
                calls: 0,
                reads: 0,
                is_spent: false,
            },
            indexes,
        }
    }
}

impl<D: StopDisk + Drop> OneService<D> {
    /// A service like `indexed` on a store that was made or read just now, of which this was found.
    /// What its sessions share is made of it here, so that the first opening reads nothing. It
    /// takes the time and the memory of the tables, n log n for n rows and entries, and the rows
    /// are moved.
    pub fn known(
        alloc: Global,
        disk: D,
        grants: Grants,
        indexes: Vec<IndexOf>,
        found: Found,
    ) -> Result<Self, NoMemory>
        requires begins { CanBegin (D.state disk) }
        requires indexes { FitBase indexes.items (D.state disk).now.seen }
        requires found { IsFoundOn (D.state disk) found }
        ensures made { IfOk result (λ service. service ≡ made_on (D.state disk) grants) }
        ensures sound { IfOk result (λ service. (journal : Journal)
            → journal_of (D.state disk).now.seen ≡ Ok journal → IsSound (base_of journal grants)) }
        ensures seen { IfOk result (λ service. (journal : Journal)
            → journal_of (D.state disk).now.seen ≡ Ok journal
            → SeesIn service (seen_new service (base_of journal grants))
            × IsNew (seen_new service (base_of journal grants))) }
    {
        keeps_journal();
        let resting = resting_of(alloc, found, grants, &indexes)?;
        let service = OneService::resting_on(alloc, disk, grants, indexes, Some(resting));
        Ok(service)
    }
}
