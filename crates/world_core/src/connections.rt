//! The connections of a run.
ghost use Rattle.std.specs.Prelude.{◌≡◌, ◌+◌, ◌<◌, ℕ, suc, List, [], ◌∷◌, ◌++◌, length, map, fold, Some, OnOk, IfOk, IfSome, MatchOption, is_none, is_some, if◌then◌else◌};
ghost use Rattle.std.specs.Option.{option_copied};
ghost use Rattle.std.specs.BTreeSet.{IsOrdered};
ghost use Rattle.std.specs.List.{AllByRecursion, find};
ghost use Rattle.std.specs.Ordering.{nat_cmp};
ghost use Rattle.svc_values.specs.Identifiers.{IsLtxid};
ghost use Rattle.canon_bytes.specs.UpBytes.{IsMadeUp};
ghost use Rattle.canon_bytes.specs.DownBytes.{IsMadeDown};
ghost use Rattle.outage_schedule.specs.declared.item.Served.{Served};
ghost use Rattle.pool_core.specs.meaning.Slots.{after_gone};
ghost use Rattle.world_model.specs.meaning.Frames.{Sent};
ghost use Rattle.world_model.specs.meaning.Links.{Link, new_link, link_at, with_link, changed, ends, is_orphan as is_orphan_def, sends, open_from};
ghost use Rattle.world_model.specs.meaning.Serving.{Front, is_last as is_last_def, front_of, front_at, after_front};
ghost use Rattle.world_model.specs.meaning.Finishing.{first_behind};
ghost use Rattle.world_model.specs.meaning.Cutting.{open_at, has_orphan, reaped_link};
ghost use Rattle.world_model.specs.meaning.Crashing.{fallen_link};
ghost use Rattle.world_core.specs.CutBytes.{KeepsFirstAt};
ghost use Rattle.world_core.specs.Linked.{up_frames, lives_on, may_be_served, Stand, connection_at, holds_at, MaySend, IsOpenAt, IsFound, StandForSome, GivesFrontAt, GivesReplyAt, CutsAt};

use crate::connection::Connection;
use frame_wire::any_cut;
use outage_schedule::Reached;
use pool_core::Pool;
use std::alloc::Global;
use std::collections::BTreeSet;
use svc_values::{Down, Ltxid, NoMemory, SessionId, Up};

/// The connections of a run, numbered from 1 in order of opening. Each call finds one by its number
/// in constant time, and a call that begins or ends a session takes the logarithm of those that
/// live besides.
///
/// `fallen` is how many the last crash found: it ended these for good, so the next one passes over
/// them. `living` has the number of each whose session lives.
#[derive(Drop)]
pub struct Connections {
    alloc: Global,
    all: Vec<Connection>,
    fallen: usize,
    living: BTreeSet<u64>,
}

impl Connections {
    /// None at all. It takes no memory.
    pub fn new(alloc: Global) -> Connections
        ensures { Stand result [] }
    {
        Connections {
            alloc,
            all: Vec::new(alloc),
            fallen: 0,
            living: BTreeSet::new(alloc),
        }
    }

    /// Where the connection of this number stands, if there is one.
    fn place(&self, number: u64) -> Option<usize>
        ensures { MatchOption result (connection_at self.now.all.items number ≡ None)
            (λ at. (number ≡ suc at) × (at < length self.now.all.items)) }
    {
        let before = number.checked_sub(1)?;
        if before >= self.all.len() as u64 {
            return None;
        }
        Some(before as usize)
    }

    /// The connection of this number, if there is one.
    pub fn get(&self, number: u64) -> Option<&Connection>
        ensures exact { option_copied result ≡ connection_at self.now.all.items number }
        ensures found { (links : List Link) → Stand self.now links
            → IsFound (option_copied result) (link_at links number) }
    {
        let at = self.place(number)?;
        Some(&self.all[at])
    }

    /// The session of one, once it has its name.
    pub fn session(&self, number: u64) -> Option<SessionId>
        ensures { (links : List Link) (link : Link) → link_at links number ≡ Some link
            → Stand self.now links → result ≡ link.session }
    {
        let at = self.place(number)?;
        self.all[at].session
    }

    /// The identifier that is held on the one of this number.
    pub fn held(&self, number: u64) -> Option<Ltxid>
        ensures { (links : List Link) (link : Link) → link_at links number ≡ Some link
            → Stand self.now links → (result ≡ link.held) × IfSome result IsLtxid }
    {
        let at = self.place(number)?;
        self.all[at].held
    }

    /// The event that ended the one of this number, if one did.
    pub fn ended(&self, number: u64) -> Option<u64>
        ensures { (links : List Link) (link : Link) → link_at links number ≡ Some link
            → Stand self.now links → (result ≡ link.ended) × (link.is_open ≡ is_none result) }
    {
        let at = self.place(number)?;
        self.all[at].ended
    }

    /// Opens one, and gives its number.
    pub fn add(&mut self) -> Result<u64, NoMemory>
        ensures number { IfOk result (λ number. number ≡ length self.old.all.items + 1) }
        ensures is_open { IfOk result (λ number. IsOpenAt self.new.all.items number) }
        ensures added { IfOk result (λ number. (links : List Link) → Stand self.old links
            → (number ≡ length links + 1) × Stand self.new (links ++ new_link ∷ [])) }
    {
        self.all.push(Connection::new())?;
        let opened = self.all.len() as u64;
        self.living.insert(opened)?;
        Ok(opened)
    }

    /// Sends frames to the server on one that is open. A Close among them ends it. Linear in their
    /// bytes.
    pub fn send(&mut self, number: u64, event: u64, frames: &[Up]) -> Result<(), NoMemory>
        requires may { MaySend (connection_at self.old.all.items number) frames.now }
        requires made { AllByRecursion IsMadeUp frames.now }
        ensures others { (other : ℕ) → (other ≡ number → ⊥)
            → connection_at self.new.all.items other ≡ connection_at self.old.all.items other }
        ensures sent { OnOk result ((links : List Link) (sent : List Sent)
            → up_frames sent ≡ frames.now → Stand self.old links
            → Stand self.new (changed (sends event sent) links number)) }
    {
        let Some(at) = self.place(number) else {
            return Ok(());
        };
        self.all[at].send(self.alloc, event, frames)
    }

    /// Takes off the frame that is served next on one: the first whole one, while its session
    /// lives. Linear in the frame.
    pub(crate) fn first_up(&mut self, number: u64) -> Result<Option<Up>, NoMemory>
        requires { StandForSome self.old }
        ensures { IfOk result (λ frame. (links : List Link) → Stand self.old links
            → GivesFrontAt links number (front_at links number) frame self.new) }
    {
        let Some(at) = self.place(number) else {
            return Ok(None);
        };
        self.all[at].first_up()
    }

    /// Notes that the frame that was taken off was served by this session, which may end with it,
    /// and sends the reply, which goes nowhere once the connection has ended. Linear in the reply.
    pub fn serve(
        &mut self,
        number: u64,
        session: SessionId,
        is_last: bool,
        reply: &Option<Down>,
    ) -> Result<(), NoMemory>
        requires { IfSome reply.now IsMadeDown }
        ensures { OnOk result ((links : List Link) (front : Front) (served : Served)
            → served.session ≡ session → is_last_def served.item ≡ is_last
            → link_at links number ≡ Some (record front.link { up = front.later })
            → Stand self.old links
            → Stand self.new (with_link links number (after_front front served reply.now))) }
    {
        let Some(at) = self.place(number) else {
            return Ok(());
        };
        self.all[at].serve(self.alloc, session, is_last, reply)?;
        // No clause asks that its session lives and that no crash ended it, so both notes are kept
        // for any.
        self.fallen = self.fallen.min(at);
        if is_last {
            self.living.remove(&number);
        } else {
            self.living.insert(number)?;
        }
        Ok(())
    }

    /// Takes the reply that stands first on one, and the identifier that comes with it. Linear in
    /// the reply.
    pub(crate) fn take(&mut self, number: u64) -> Result<Option<Down>, NoMemory>
        requires { StandForSome self.old }
        ensures { IfOk result (λ reply. (links : List Link) (link : Link)
            → link_at links number ≡ Some link → Stand self.old links
            → GivesReplyAt links number link link.down reply self.new) }
    {
        let Some(at) = self.place(number) else {
            return Ok(None);
        };
        self.all[at].take()
    }

    /// The event ends one, if it is open.
    pub fn end(&mut self, number: u64, event: u64)
        ensures { (links : List Link) → Stand self.old links
            → Stand self.new (changed (ends event) links number) }
    {
        if let Some(at) = self.place(number) {
            self.all[at].end(event);
        }
    }

    /// Cuts one, if it is open: of the bytes on their way the first `up` still reach the server and
    /// the first `down` the client. Tells how many that are. It takes no memory.
    pub fn cut(&mut self, number: u64, event: u64, up: u64, down: u64) -> Option<Reached>
        ensures links { (links : List Link) → Stand self.old links
            → CutsAt links number event up down (open_at links number) result self.new }
        ensures bytes { KeepsFirstAt number up down self.old.all.items self.new.all.items }
    {
        let at = self.place(number)?;
        if self.all[at].ended.is_some() {
            return None;
        }
        Some(self.all[at].cut(event, up, down))
    }

    /// Ends the session of one that was cut, if it lives still, and tells whether it did. It takes
    /// no memory.
    pub fn reap(&mut self, number: u64) -> bool
        ensures { (links : List Link) → Stand self.old links
            → (result ≡ has_orphan links number)
            × Stand self.new (if result then changed reaped_link links number else links) }
    {
        let Some(at) = self.place(number) else {
            return false;
        };
        if !self.all[at].is_orphan() {
            return false;
        }
        self.all[at].reap();
        self.living.remove(&number);
        true
    }

    /// The server falls: all connections and sessions end, and of what is on its way the replies
    /// that a cut let arrive are left. Linear in the connections that were opened since the last
    /// crash, and takes no memory.
    pub fn fall(&mut self, event: u64)
        ensures { (links : List Link) → Stand self.old links
            → Stand self.new (map (fallen_link event) links) }
    {
        for at in self.fallen..self.all.len() {
            self.all[at].fall(event);
        }
        self.fallen = self.all.len();
        self.living.clear();
    }

    /// Those that are open leave the pool, if they are idle. It costs the number of those that were
    /// opened since the last crash times that of the idle ones, and takes no memory.
    pub fn leave(&self, pool: &mut Pool)
        ensures { (links : List Link) → Stand self.now links
            → pool.new ≡ fold after_gone pool.old (open_from 1 links) }
    {
        for at in self.fallen..self.all.len() {
            self.all[at].leave(at as u64 + 1, pool);
        }
    }

    /// Whether the one of this number was cut and its session lives on.
    fn is_orphan(&self, number: u64) -> bool
        ensures { result ≡ holds_at lives_on self.now.all.items number }
    {
        match self.get(number) {
            Some(connection) => connection.is_orphan(),
            None => false,
        }
    }

    /// Whether a frame may be served on the one of this number.
    fn has_front(&self, number: u64) -> bool
        ensures { result ≡ holds_at may_be_served self.now.all.items number }
    {
        match self.get(number) {
            Some(connection) => connection.has_front(),
            None => false,
        }
    }

    /// The first orphan among those whose session lives.
    fn find_orphan(&self) -> Option<u64>
        ensures found { result ≡ find (holds_at lives_on self.now.all.items) self.now.living.keys }
        ensures rising { IsOrdered nat_cmp self.now.living }
    {
        self.living
            .iter()
            .copied()
            .find(|number| self.is_orphan(*number))
    }

    /// The first one among those whose session lives on which a frame may be served.
    fn find_front(&self) -> Option<u64>
        ensures found { result ≡ find (holds_at may_be_served self.now.all.items)
            self.now.living.keys }
        ensures rising { IsOrdered nat_cmp self.now.living }
    {
        self.living
            .iter()
            .copied()
            .find(|number| self.has_front(*number))
    }

    /// The first one that was cut and whose session lives on. Linear in those whose session lives.
    pub fn first_orphan(&self) -> Option<u64>
        ensures { (links : List Link) → Stand self.now links
            → result ≡ first_behind is_orphan_def 0 links }
    {
        self.find_orphan()
    }

    /// The first one on which a frame may be served. Linear in those whose session lives.
    pub fn first_front(&self) -> Option<u64>
        ensures { (links : List Link) → Stand self.now links
            → result ≡ first_behind (λ link. is_some (front_of link)) 0 links }
    {
        any_cut::<Up>();
        self.find_front()
    }
}
