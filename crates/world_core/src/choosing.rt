//! Which step a client takes at an event.
ghost use Rattle.std.specs.Prelude.{◌≡◌, false, IfOk};
ghost use Rattle.std.specs.List.{AllByRecursion};
ghost use Rattle.client_model.specs.declared.input.Wants.{Wants as Want};
ghost use Rattle.client_model.specs.declared.input.Wants.TheVariants as wants;
ghost use Rattle.world_model.specs.meaning.Clients.{Doing, Client as Standing};
ghost use Rattle.world_model.specs.meaning.Going.{tries_while, goes_by, follow_go};
ghost use Rattle.world_model.specs.Traced.{Traced};
ghost use Rattle.world_core.specs.Coursing.{IsFit};
ghost use Rattle.world_core.specs.Stepping.{SomeTrying, Follows, Goes, at_next, IsStanding, SomeStanding, IsTurn, SomeTurn};

use crate::client::Client;
use crate::traffic::Traffic;
use client_model::Wants;
use outage_schedule::{GoNote, Request};
use pool_core::Take;
use request_bounds::BoundRule;
use std::alloc::Global;
use svc_values::NoMemory;

impl<R: BoundRule + Copy> Client<R> {
    /// The request in course, which has a slot, tries to open a connection. It fails where the
    /// server is down.
    fn try_connection(
        &mut self,
        traffic: &mut Traffic,
        script: &[Request],
        number: u64,
        is_up: bool,
    ) -> Result<GoNote, NoMemory>
        requires { SomeTrying R (λ rule. R.rules rule) script.now number traffic.old self.old }
        ensures { IfOk result (λ note. (wanted : Want)
            → Follows R (λ rule. R.rules rule) script.now number wanted false traffic.old self.old
            (λ setting m doing. tries_while setting m number note doing is_up) traffic.new
            self.new) }
    {
        if is_up {
            return self.open_connection(traffic, script, number);
        }
        self.fail_try(traffic, script, number)
    }

    /// The request in course asks the pool for a slot and a connection.
    fn ask_pool(
        &mut self,
        traffic: &mut Traffic,
        script: &[Request],
        number: u64,
        is_up: bool,
    ) -> Result<GoNote, NoMemory>
        requires { SomeTurn R (λ rule. R.rules rule) script.now number wants.Slot traffic.old
            self.old }
        ensures { IfOk result (λ note. (t : Traced) (client : Standing) (doing : Doing)
            → IsTurn R (λ rule. R.rules rule) script.now number wants.Slot traffic.old self.old t
            client doing → t.machine.server.is_up ≡ is_up
            → Goes R (λ rule. R.rules rule) t.setting (at_next t) number
            (goes_by t.setting (at_next t) number note doing wants.Slot) traffic.new self.new) }
    {
        let take = traffic.ask_pool(number)?;
        match take {
            Take::Waiting => self.wait(traffic, script, number),
            Take::Lent(connection) => self.take_lent(traffic, script, number, connection),
            Take::Open => self.try_connection(traffic, script, number, is_up),
        }
    }

    /// The request in course looks for a frame on its connection.
    fn look(
        &mut self,
        traffic: &mut Traffic,
        script: &[Request],
        number: u64,
    ) -> Result<GoNote, NoMemory>
        requires { SomeTurn R (λ rule. R.rules rule) script.now number wants.Frame traffic.old
            self.old }
        ensures { IfOk result (λ note. (t : Traced) (client : Standing) (doing : Doing)
            → IsTurn R (λ rule. R.rules rule) script.now number wants.Frame traffic.old self.old t
            client doing
            → Goes R (λ rule. R.rules rule) t.setting (at_next t) number
            (goes_by t.setting (at_next t) number note doing wants.Frame) traffic.new self.new) }
    {
        let connection = self.connection();
        let ended = traffic.ended(connection);
        let got = traffic.take(connection)?;
        let Some(frame) = got else {
            return self.find_none(traffic, script, number, connection, ended);
        };
        match ended {
            None => self.hear_open(traffic, script, number, connection, frame),
            Some(event) => self.hear_ended(traffic, script, number, connection, frame, event),
        }
    }

    /// One step of the client: by what its request wants, which begins now if none is in course.
    /// Linear in what goes out and comes in, and in the waiters of the pool.
    pub fn go(
        &mut self,
        alloc: Global,
        traffic: &mut Traffic,
        script: &[Request],
        number: u64,
        is_up: bool,
    ) -> Result<GoNote, NoMemory>
        requires fit { AllByRecursion IsFit script.now }
        requires some { SomeStanding R (λ rule. R.rules rule) script.now number traffic.old
            self.old }
        ensures { IfOk result (λ note. (t : Traced) (client : Standing)
            → IsStanding R (λ rule. R.rules rule) script.now number traffic.old self.old t client
            → t.machine.server.is_up ≡ is_up
            → Goes R (λ rule. R.rules rule) t.setting (at_next t) number
            (follow_go t.setting (at_next t) number note) traffic.new self.new) }
    {
        let there = self.begin(alloc, script, traffic.tick)?;
        if !there {
            return Ok(GoNote::Idle);
        }
        let wanted = self.wants(traffic.tick);
        match wanted {
            Wants::Slot => self.ask_pool(traffic, script, number, is_up),
            Wants::Try => self.try_connection(traffic, script, number, is_up),
            Wants::Early => Ok(GoNote::Early),
            Wants::Frame => self.look(traffic, script, number),
            Wants::Idle => unreachable!(),
            Wants::Request => unreachable!(),
        }
    }
}
