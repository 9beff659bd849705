//! The clock of a run, its connections and its pool.
ghost use Rattle.std.specs.Prelude.{◌≡◌, ◌+◌, ◌<◌, ◌≤◌, ◌^◌, List, [], ◌∷◌, ◌++◌, map, fold, length, false, Some, OnOk, IfOk, IfSome, is_none};
ghost use Rattle.std.specs.List.{AllByRecursion};
ghost use Rattle.svc_values.specs.Identifiers.{IsLtxid};
ghost use Rattle.canon_bytes.specs.UpBytes.{IsMadeUp};
ghost use Rattle.canon_bytes.specs.DownBytes.{IsMadeDown};
ghost use Rattle.pool_core.specs.meaning.Slots.{unused, take_answer, after_take, give_back_answer, after_gone, after_opened};
ghost use Rattle.client_model.specs.meaning.Released.{released};
ghost use Rattle.world_model.specs.meaning.Frames.{Sent};
ghost use Rattle.world_model.specs.meaning.Links.{Link, new_link, link_at, with_link, changed, ends, sends, open_from};
ghost use Rattle.world_model.specs.meaning.Machines.{Machine};
ghost use Rattle.world_model.specs.meaning.Serving.{Front, is_last as is_last_def, after_front};
ghost use Rattle.world_model.specs.meaning.Acting.{closing};
ghost use Rattle.world_model.specs.meaning.Cutting.{follow_cut, follow_reap};
ghost use Rattle.world_model.specs.meaning.Crashing.{fallen_link};
ghost use Rattle.world_model.specs.meaning.Outside.{ticked, follow_drain};
ghost use Rattle.world_core.specs.CutBytes.{KeepsFirstAt};
ghost use Rattle.world_core.specs.Linked.{up_frames, connection_at, MaySend, IsOpenAt};
ghost use Rattle.world_core.specs.Underway.{AreClosable, all_closed, IsUnderway, IsUnderwaySome, Leads, GivesFrontOf, GivesReplyOf, MayRelease, closes_with, IsWritten, IsStopped};

use crate::answering::{
    crashed_item, ends_session, is_blocked, is_last, served_item, session_served,
};
use crate::connections::Connections;
use client_model::Hold;
use outage_schedule::{Reached, Served};
use pool_core::{Back, Pool, Take};
use std::alloc::Global;
use svc_values::{Down, Ltxid, NoMemory, SessionId, Up};

/// The clock of a run, its connections and its pool: what each event changes beside clients and
/// service.
#[derive(Drop)]
pub struct Traffic {
    pub(crate) event: u64,
    pub(crate) tick: u64,
    pub(crate) connections: Connections,
    pub(crate) pool: Pool,
}

/// These frames, and a Close behind them where the connection is to be closed.
fn with_close(mut frames: Vec<Up>, closes: bool) -> Result<Vec<Up>, NoMemory>
    requires { AllByRecursion IsMadeUp frames.items }
    ensures all { IfOk result (λ all. all.items ≡ frames.items ++ closes_with closes) }
    ensures made { IfOk result (λ all. AllByRecursion IsMadeUp all.items) }
{
    if closes {
        frames.push(Up::Close)?;
    }
    Ok(frames)
}

impl Traffic {
    /// Before the first event, with a pool of so many slots. It takes no memory.
    pub fn new(alloc: Global, slots: u64) -> Traffic
        requires some { 1 ≤ slots }
        requires few { slots ≤ 64 }
        ensures { (m : Machine)
            → IsUnderway result
            (record m { event = 0; tick = 0; links = []; pool = unused slots }) }
    {
        Traffic {
            event: 0,
            tick: 0,
            connections: Connections::new(alloc),
            pool: Pool::new(alloc, slots),
        }
    }

    /// The next event begins.
    pub fn begin(&mut self)
        requires { self.old.event < 2 ^ 48 }
        ensures counted { self.new ≡ record self.old { event = self.old.event + 1 } }
        ensures begun { (m : Machine) → IsUnderway self.old m
            → IsUnderway self.new (record m { event = m.event + 1 }) }
    {
        self.event += 1;
    }

    /// One tick passes.
    pub fn pass(&mut self)
        requires { self.old.tick < 2 ^ 48 }
        ensures { (m : Machine) → IsUnderway self.old m → IsUnderway self.new (ticked m) }
    {
        self.tick += 1;
    }

    /// Cuts a connection, if it is open, and tells how many of the bytes on their way still arrive.
    /// One that is idle leaves the pool. Linear in the idle connections, and takes no memory.
    pub fn cut(&mut self, number: u64, up: u64, down: u64) -> Option<Reached>
        ensures machine { (m : Machine) → IsUnderway self.old m
            → Leads (follow_cut m number up down result) self.new }
        ensures bytes { KeepsFirstAt number up down self.old.connections.all.items
            self.new.connections.all.items }
    {
        let reached = self.connections.cut(number, self.event, up, down);
        if reached.is_some() {
            self.pool.gone(number);
        }
        reached
    }

    /// Ends the session of an orphan, and tells whether there was one. Takes no memory.
    pub fn reap(&mut self, number: u64) -> bool
        ensures { (m : Machine) → IsUnderway self.old m
            → Leads (follow_reap m number result) self.new }
    {
        self.connections.reap(number)
    }

    /// Opens a connection, and gives its number.
    pub fn open(&mut self) -> Result<u64, NoMemory>
        requires { self.old.pool.opened ≤ length self.old.connections.all.items }
        ensures is_open { IfOk result (λ number. IsOpenAt self.new.connections.all.items number) }
        ensures tick { OnOk result (self.new.tick ≡ self.old.tick) }
        ensures opened { IfOk result (λ number. (m : Machine) → IsUnderway self.old m
            → (number ≡ length m.links + 1)
            × IsUnderway self.new
            (record m { links = m.links ++ new_link ∷ []; pool = after_opened m.pool number })) }
    {
        let number = self.connections.add()?;
        self.pool.opened(number);
        Ok(number)
    }

    /// The identifier that is held on a connection.
    pub fn held(&self, number: u64) -> Option<Ltxid>
        ensures { (m : Machine) (link : Link) → link_at m.links number ≡ Some link
            → IsUnderway self.now m → (result ≡ link.held) × IfSome result IsLtxid }
    {
        self.connections.held(number)
    }

    /// The event that ended a connection, if one did.
    pub fn ended(&self, number: u64) -> Option<u64>
        ensures { (m : Machine) (link : Link) → link_at m.links number ≡ Some link
            → IsUnderway self.now m → (result ≡ link.ended) × (link.is_open ≡ is_none result) }
    {
        self.connections.ended(number)
    }

    /// Takes off the frame that is served next on a connection, if one may be served. Linear in the
    /// frame.
    pub(crate) fn first_up(&mut self, number: u64) -> Result<Option<Up>, NoMemory>
        requires { IsUnderwaySome self.old }
        ensures { IfOk result (λ frame. (m : Machine) → IsUnderway self.old m
            → GivesFrontOf m number frame self.new) }
    {
        self.connections.first_up(number)
    }

    /// Notes that the frame that was taken off was served by this session, which may end with it,
    /// and sends the reply, which goes nowhere once the connection has ended. Linear in the reply.
    pub fn serve(
        &mut self,
        number: u64,
        session: SessionId,
        is_last: bool,
        reply: &Option<Down>,
    ) -> Result<(), NoMemory>
        requires { IfSome reply.now IsMadeDown }
        ensures { OnOk result ((m : Machine) (front : Front) (served : Served)
            → served.session ≡ session → is_last_def served.item ≡ is_last
            → link_at m.links number ≡ Some (record front.link { up = front.later })
            → IsUnderway self.old m
            → IsUnderway self.new
            (record m { links = with_link m.links number (after_front front served reply.now) })) }
    {
        self.connections.serve(number, session, is_last, reply)
    }

    /// Writes down that the frame that was taken off was served, with this reply, which is sent,
    /// and whose answers are then moved to what is written. A commit that was blocked ends the
    /// connection. Linear in the reply, beside the idle connections where it was.
    pub fn answer(
        &mut self,
        number: u64,
        frame: Up,
        reply: Option<Down>,
    ) -> Result<Served, NoMemory>
        requires { IfSome reply IsMadeDown }
        ensures { IfOk result (λ served. (m : Machine) (front : Front)
            → link_at m.links number ≡ Some (record front.link { up = front.later })
            → IsUnderway self.old m
            → IsWritten self.old m number front frame reply served self.new) }
    {
        let session = session_served(self.connections.session(number), &reply);
        let ends = ends_session(&frame, &reply);
        self.serve(number, session, ends, &reply)?;
        let served = Served {
            event: self.event,
            session,
            item: served_item(frame, reply),
        };
        if !is_blocked(&served.item) {
            return Ok(served);
        }
        self.end(number);
        Ok(served)
    }

    /// Writes down that the frame that was taken off was stopped before its reply.
    pub fn stop(&mut self, number: u64, frame: Up) -> Result<Served, NoMemory>
        ensures { IfOk result (λ served. (m : Machine) (front : Front)
            → link_at m.links number ≡ Some (record front.link { up = front.later })
            → IsUnderway self.old m → IsStopped self.old m number front frame served self.new) }
    {
        let event = self.event;
        let session = session_served(self.connections.session(number), &None);
        let item = crashed_item(frame);
        self.serve(number, session, is_last(&item), &None)?;
        Ok(Served {
            event,
            session,
            item,
        })
    }

    /// The event ends a connection, if it is open. One that is idle leaves the pool. Linear in the
    /// idle connections, and takes no memory.
    pub fn end(&mut self, number: u64)
        ensures { (m : Machine) → IsUnderway self.old m
            → IsUnderway self.new
            (record m {
              links = changed (ends m.event) m.links number;
              pool = after_gone m.pool
                  number;
            }) }
    {
        self.connections.end(number, self.event);
        self.pool.gone(number);
    }

    /// Takes the reply that stands first on a connection. Linear in the reply.
    pub(crate) fn take(&mut self, number: u64) -> Result<Option<Down>, NoMemory>
        requires { IsUnderwaySome self.old }
        ensures { IfOk result (λ reply. (m : Machine) (link : Link)
            → link_at m.links number ≡ Some link → IsUnderway self.old m
            → GivesReplyOf m number link link.down reply self.new) }
    {
        self.connections.take(number)
    }

    /// Sends frames to the server on a connection that is open. Linear in their bytes.
    pub fn send(&mut self, number: u64, frames: &[Up]) -> Result<(), NoMemory>
        requires may { MaySend (connection_at self.old.connections.all.items number) frames.now }
        requires made { AllByRecursion IsMadeUp frames.now }
        ensures { OnOk result ((m : Machine) (sent : List Sent) → up_frames sent ≡ frames.now
            → IsUnderway self.old m
            → IsUnderway self.new
            (record m { links = changed (sends m.event sent) m.links number })) }
    {
        self.connections.send(number, self.event, frames)
    }

    /// A client asks the pool for a slot and a connection. Linear in the waiters.
    pub fn ask_pool(&mut self, client: u64) -> Result<Take, NoMemory>
        ensures { IfOk result (λ take. (m : Machine) → IsUnderway self.old m
            → (take ≡ take_answer m.pool client)
            × IsUnderway self.new (record m { pool = after_take m.pool client })) }
    {
        self.pool.take(client)
    }

    /// The pool gets back what the request of a client lets go. It tells whether the connection is
    /// to be closed. Linear in the waiters.
    pub fn release(
        &mut self,
        client: u64,
        number: u64,
        holds_slot: bool,
        hold: Hold,
    ) -> Result<bool, NoMemory>
        requires { MayRelease self.old.pool number holds_slot hold }
        ensures closing { IfOk result (λ closes.
            closes_with closes ≡ closing hold (give_back_answer self.old.pool number)) }
        ensures others { (self.new.event ≡ self.old.event)
            × (self.new.connections ≡ self.old.connections) }
        ensures released { OnOk result ((m : Machine) → IsUnderway self.old m
            → IsUnderway self.new
            (record m { pool = released m.pool client number holds_slot hold })) }
    {
        match hold {
            Hold::Keep => Ok(false),
            Hold::GiveBack => Ok(matches!(self.pool.give_back(number)?, Back::Closed)),
            Hold::Drop => {
                self.let_go(client, holds_slot);
                Ok(false)
            }
        }
    }

    /// What a client does at a step: its frames are sent, and the pool gets back what its request
    /// lets go. A connection that is given back and not kept is closed. Tells how many frames were
    /// sent.
    pub fn act(
        &mut self,
        client: u64,
        number: u64,
        holds_slot: bool,
        send: Vec<Up>,
        hold: Hold,
    ) -> Result<u64, NoMemory>
        requires release { MayRelease self.old.pool number holds_slot hold }
        requires may { MaySend (connection_at self.old.connections.all.items number)
            (send.items ++ closing hold (give_back_answer self.old.pool number)) }
        requires made { AllByRecursion IsMadeUp send.items }
        ensures count { IfOk result (λ sent.
            sent ≡ length (send.items ++ closing hold (give_back_answer self.old.pool number))) }
        ensures acted { OnOk result ((m : Machine) (sent : List Sent)
            → up_frames sent ≡ send.items ++ closing hold (give_back_answer self.old.pool number)
            → IsUnderway self.old m
            → IsUnderway self.new
            (record m {
              links = changed (sends m.event sent) m.links number;
              pool = released m.pool
                  client number holds_slot hold;
            })) }
    {
        let closes = self.release(client, number, holds_slot, hold)?;
        let frames = with_close(send, closes)?;
        self.send(number, &frames)?;
        Ok(frames.len() as u64)
    }

    /// A request ends whose connection is used no more: its slot is lost, or it leaves the queue.
    fn let_go(&mut self, client: u64, holds_slot: bool)
        requires { MayRelease self.old.pool 0 holds_slot Hold.Drop }
        ensures others { (self.new.event ≡ self.old.event)
            × (self.new.connections ≡ self.old.connections) }
        ensures released { (m : Machine) → IsUnderway self.old m
            → IsUnderway self.new
            (record m { pool = released m.pool client 0 holds_slot Hold.Drop }) }
    {
        if holds_slot {
            self.pool.lost();
        } else {
            self.pool.leave(client);
        }
    }

    /// Closes the idle connections, and lets the others go once they are given back. Tells how many
    /// were closed. Linear in the idle connections.
    pub fn drain(&mut self) -> Result<u64, NoMemory>
        requires { AreClosable self.old.connections.all.items self.old.pool.idle }
        ensures { IfOk result (λ closed. (m : Machine) → IsUnderway self.old m
            → Leads (follow_drain m closed) self.new) }
    {
        let idle = self.pool.drain()?;
        self.close(&idle)?;
        Ok(idle.len() as u64)
    }

    /// Closes these connections.
    fn close(&mut self, numbers: &[u64]) -> Result<(), NoMemory>
        requires { AreClosable self.old.connections.all.items numbers.now }
        ensures pool { self.new.pool ≡ self.old.pool }
        ensures closed { OnOk result ((m : Machine) → IsUnderway self.old m
            → IsUnderway self.new (record m { links = all_closed m.event m.links numbers.now })) }
    {
        for number in numbers {
            self.connections.send(*number, self.event, &[Up::Close])?;
        }
        Ok(())
    }

    /// All connections and sessions end, and those that were idle leave the pool. Of what is on its
    /// way the replies that a cut let arrive are left. It costs the connections that were opened
    /// since the last crash times those that are idle, and takes no memory.
    pub fn fall(&mut self)
        ensures { (m : Machine) → IsUnderway self.old m
            → IsUnderway self.new
            (record m {
              links = map (fallen_link m.event) m.links;
              pool = fold after_gone m.pool
                  (open_from 1 m.links);
            }) }
    {
        self.connections.leave(&mut self.pool);
        self.connections.fall(self.event);
    }
}
