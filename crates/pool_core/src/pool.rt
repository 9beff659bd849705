//! The pool.
ghost use Rattle.std.specs.Prelude.{length, ◌≡◌, ◌<◌, ◌≤◌, false, IfOk, OnOk, OnErr, IsTrue};
ghost use Rattle.pool_core.specs.meaning.Slots.{unused, is_among, without, ahead_of, has_to_wait, take_answer, after_take, drains, give_back_answer, after_give_back, after_opened, after_lost, after_gone, after_leave, after_drain};
ghost use Rattle.pool_core.specs.Laws.{TakesFairly, ClosesDraining, HoldsWhatIsTold};

use crate::answers::{Back, Take};
use std::alloc::Global;
use std::collections::VecDeque;
use std::marker::Model;
use svc_values::NoMemory;

/// A number of slots, a queue of clients that wait for one, and the idle connections. A request
/// holds one slot from the answer `Lent` or `Open` until its connection is given back or lost, also
/// where it goes from one connection to another.
///
/// The pool knows slots, not who holds them. `take` is for a client that holds none.
#[derive(Drop)]
pub struct Pool {
    alloc: Global,
    max: u64,
    lent: u64,
    queue: VecDeque<u64>,
    idle: VecDeque<u64>,
    opened: u64,
    drained: u64,
}

impl Model for Pool {
    ghost use Rattle.std.specs.Prelude.{length, ◌+◌, ◌≤◌};
    ghost use Rattle.pool_core.specs.meaning.Slots.{Slots};

    ghost Value = { Slots };

    ghost view = { λ p. record {
      max = p.max;
      lent = p.lent;
      queue = p.queue.items;
      idle =
          p.idle.items;
      opened = p.opened;
      drained = p.drained;
    } };

    ghost invariant = { λ p. p.lent + length p.idle.items ≤ p.max };
}

/// How many waiters stand before the client: all where it does not wait.
fn ahead_of(queue: &VecDeque<u64>, client: u64) -> usize
    ensures { result ≡ ahead_of queue.now.items client }
{
    queue.iter().take_while(|waiter| **waiter != client).count()
}

/// Takes the number out, if it is there. The others keep their order.
fn take_out(numbers: &mut VecDeque<u64>, number: u64)
    ensures others { numbers.new.items ≡ without numbers.old.items number }
    ensures no_more { length numbers.new.items ≤ length numbers.old.items }
{
    numbers.retain(|other| *other != number);
}

impl Pool {
    /// A pool of 1 to 64 slots, none of them held. It takes no memory.
    pub fn new(alloc: Global, max: u64) -> Pool
        requires some { 1 ≤ max }
        requires few { max ≤ 64 }
        ensures { result ≡ unused max }
    {
        Pool {
            alloc,
            max,
            lent: 0,
            queue: VecDeque::new(alloc),
            idle: VecDeque::new(alloc),
            opened: 0,
            drained: 0,
        }
    }

    /// Asks for a slot and a connection. The client waits exactly where no slot is left beside
    /// those that are held and those of the waiters before it. Else it leaves the queue, and gets
    /// the connection that has been idle longest, or leave to open one.
    ///
    /// Memory is taken only where the client joins the queue. Where it is refused the pool stays as
    /// it was. Linear in the waiters.
    pub fn take(&mut self, client: u64) -> Result<Take, NoMemory>
        ensures answer { IfOk result (λ take. take ≡ take_answer self.old client) }
        ensures after { OnOk result (self.new ≡ after_take self.old client) }
        ensures memory { OnErr result (IsTrue (has_to_wait self.old client)
            × (is_among client self.old.queue ≡ false)) }
        ensures err { OnErr result (self.new ≡ self.old) }
    {
        let ahead = ahead_of(&self.queue, client);
        if ahead as u64 >= self.max - self.lent {
            if !self.queue.contains(&client) {
                self.queue.push_back(client)?;
            }
            return Ok(Take::Waiting);
        }
        take_out(&mut self.queue, client);
        self.lent += 1;
        match self.idle.pop_front() {
            Some(connection) => Ok(Take::Lent(connection)),
            None => Ok(Take::Open),
        }
    }

    /// Notes that a request which holds a slot opened this connection: connections are numbered in
    /// order of opening. Constant, and takes no memory.
    pub fn opened(&mut self, connection: u64)
        requires { self.old.opened < connection }
        ensures { self.new ≡ after_opened self.old connection }
    {
        self.opened = connection;
    }

    /// Takes back a connection with its slot. `Closed` comes exactly where it was opened before the
    /// last drain. The connection has been opened, is not idle, and has not ended. Where memory is
    /// refused the pool stays as it was. Constant.
    pub fn give_back(&mut self, connection: u64) -> Result<Back, NoMemory>
        requires slot { 0 < self.old.lent }
        requires was_opened { connection ≤ self.old.opened }
        requires not_idle { is_among connection self.old.idle ≡ false }
        ensures answer { IfOk result (λ back. back ≡ give_back_answer self.old connection) }
        ensures after { OnOk result (self.new ≡ after_give_back self.old connection) }
        ensures memory { OnErr result (drains self.old connection ≡ false) }
        ensures err { OnErr result (self.new ≡ self.old) }
    {
        if connection <= self.drained {
            self.lent -= 1;
            return Ok(Back::Closed);
        }
        self.idle.push_back(connection)?;
        self.lent -= 1;
        Ok(Back::Idle)
    }

    /// Takes back the slot of a request whose connection has ended. Constant, and takes no memory.
    pub fn lost(&mut self)
        requires { 0 < self.old.lent }
        ensures { self.new ≡ after_lost self.old }
    {
        self.lent -= 1;
    }

    /// Lets go of an idle connection that has ended. Another one changes nothing. Linear in the
    /// idle connections; takes no memory.
    pub fn gone(&mut self, connection: u64)
        ensures { self.new ≡ after_gone self.old connection }
    {
        take_out(&mut self.idle, connection);
    }

    /// Lets a client leave the queue. One that does not wait changes nothing. Linear in the
    /// waiters; takes no memory.
    pub fn leave(&mut self, client: u64)
        ensures { self.new ≡ after_leave self.old client }
    {
        take_out(&mut self.queue, client);
    }

    /// Lets all connections that were opened so far go: the idle ones at once, which the caller
    /// closes, in the order in which they were given back, and each other one when it is given
    /// back. Where memory is refused the pool stays as it was. Linear in the idle connections.
    pub fn drain(&mut self) -> Result<Vec<u64>, NoMemory>
        ensures closed { IfOk result (λ closed. closed.items ≡ self.old.idle) }
        ensures after { OnOk result (self.new ≡ after_drain self.old) }
        ensures err { OnErr result (self.new ≡ self.old) }
    {
        let closed = self.idle.iter().copied().collect(self.alloc)?;
        self.idle.clear();
        self.drained = self.opened;
        Ok(closed)
    }
}

/// A law, with nothing to run, over every list of calls that a pool may be given, with their
/// answers: connections are opened with rising numbers, one that is given back was opened and is
/// not idle, and a slot is held at each `give_back` and `lost`. No connection is lent that is out
/// already, or that drains; the one that is lent has been idle longest; a client waits exactly
/// where no slot is left for it; the queue is in the order in which the waiters joined it.
pub fn lends_in_order()
    ensures takes { TakesFairly }
    ensures closes { ClosesDraining }
    ensures told { HoldsWhatIsTold }
{}
