//! The steps of a client, with what they do to the traffic.
ghost use Rattle.std.specs.Prelude.{◌≡◌, ◌++◌, Bool, true, false, Some, None, length, IsTrue, IfOk, OnOk};
ghost use Rattle.svc_values.specs.declared.entry.Ltxid.{Ltxid};
ghost use Rattle.client_model.specs.Conversation.{may_come};
ghost use Rattle.client_model.specs.meaning.Talk.{wants_of};
ghost use Rattle.client_model.specs.declared.input.Input.TheVariants.{Waiting, Took};
ghost use Rattle.client_model.specs.declared.input.Wants.{Wants as Want};
ghost use Rattle.client_model.specs.declared.input.Wants.TheVariants as wants;
ghost use Rattle.driver_core.specs.Driving.{ArePast, HasLtxids};
ghost use Rattle.outage_schedule.specs.declared.note.GoNote.TheVariants as go;
ghost use Rattle.pool_core.specs.meaning.Slots.{give_back_answer};
ghost use Rattle.world_model.specs.meaning.Acting.{closing, act_at, frames_of, steps, loses};
ghost use Rattle.world_model.specs.meaning.Clients.{Doing, Client as Standing, doing_at, script_at};
ghost use Rattle.world_model.specs.meaning.Going.{noted, tries_while, lends, lost_at_once, finds_none};
ghost use Rattle.world_model.specs.meaning.Links.{Link};
ghost use Rattle.world_model.specs.meaning.Machines.{Machine};
ghost use Rattle.world_model.specs.meaning.Settings.{Setting};
ghost use Rattle.world_core.specs.Linked.{connection_at, MaySend};
ghost use Rattle.world_core.specs.Underway.{IsUnderway, MayRelease};
ghost use Rattle.world_core.specs.Coursing.{terms_in, step_of, IsClient};
ghost use Rattle.world_core.specs.Stepping.{connection_in, Acts, IsPlaced, SomePlaced, SomeTrying, SomeLosing, IsOffered, SomeOffered, IsAwaiting, SomeAwaiting, Follows, Goes};

use crate::client::{Client, Said};
use crate::traffic::Traffic;
use client_model::Input;
use outage_schedule::{GoNote, Request};
use request_bounds::BoundRule;
use svc_values::{Down, NoMemory};

impl<R: BoundRule + Copy> Client<R> {
    /// The request in course hears an input: its frames are sent, and the pool gets back what it
    /// lets go. `holds_slot` tells whether it has a slot. Tells how many frames were sent. Linear
    /// in what goes out and comes in.
    pub fn act(
        &mut self,
        traffic: &mut Traffic,
        script: &[Request],
        number: u64,
        holds_slot: bool,
        input: Input,
    ) -> Result<u64, NoMemory>
        requires wanted { IsTrue
            (may_come self.old.driver.gone_next
            (wants_of (terms_in R (λ rule. R.rules rule) self.old) self.old.driver.talk
            traffic.old.tick) input) }
        requires past { ArePast self.old.driver.talk traffic.old.tick }
        requires ltxids { HasLtxids input }
        requires release { MayRelease traffic.old.pool (connection_in self.old.course) holds_slot
            (step_of R (λ rule. R.rules rule) self.old input traffic.old.tick).1.hold }
        requires may { MaySend
            (connection_at traffic.old.connections.all.items (connection_in self.old.course))
            ((step_of R (λ rule. R.rules rule) self.old input traffic.old.tick).1.send ++ closing
            (step_of R (λ rule. R.rules rule) self.old input traffic.old.tick).1.hold
            (give_back_answer traffic.old.pool (connection_in self.old.course))) }
        ensures { IfOk result (λ sent.
            (setting : Setting) (m : Machine) (is_lost : Bool) (client : Standing) (doing : Doing)
            → script.now ≡ script_at setting number → client.now ≡ Some doing
            → IsUnderway traffic.old m
            → IsClient R (λ rule. R.rules rule) setting number m.tick is_lost self.old client
            → Acts R (λ rule. R.rules rule) setting m number client doing holds_slot input sent
            traffic.new self.new) }
    {
        let connection = self.connection();
        let Said { send, hold } = self.hear(script, input, traffic.tick)?;
        traffic.act(number, connection, holds_slot, send, hold)
    }

    /// The request in course waits on for a slot.
    pub fn wait(
        &mut self,
        traffic: &mut Traffic,
        script: &[Request],
        number: u64,
    ) -> Result<GoNote, NoMemory>
        requires { SomePlaced R (λ rule. R.rules rule) script.now number wants.Slot false
            traffic.old self.old }
        ensures { IfOk result (λ note.
            Follows R (λ rule. R.rules rule) script.now number wants.Slot false traffic.old self.old
            (λ setting m doing. noted note go.Wait (steps setting m number doing false Waiting))
            traffic.new self.new) }
    {
        self.act(traffic, script, number, false, Input::Waiting)?;
        Ok(GoNote::Wait)
    }

    /// The request in course tried in vain to open a connection, since the server is down.
    pub fn fail_try(
        &mut self,
        traffic: &mut Traffic,
        script: &[Request],
        number: u64,
    ) -> Result<GoNote, NoMemory>
        requires { SomeTrying R (λ rule. R.rules rule) script.now number traffic.old self.old }
        ensures { IfOk result (λ note. (wanted : Want)
            → Follows R (λ rule. R.rules rule) script.now number wanted false traffic.old self.old
            (λ setting m doing. tries_while setting m number note doing false) traffic.new
            self.new) }
    {
        self.act(traffic, script, number, true, Input::TryFailed)?;
        Ok(GoNote::Down)
    }

    /// The request in course, which has a slot, opens the next connection.
    pub fn open_connection(
        &mut self,
        traffic: &mut Traffic,
        script: &[Request],
        number: u64,
    ) -> Result<GoNote, NoMemory>
        requires { SomeTrying R (λ rule. R.rules rule) script.now number traffic.old self.old }
        ensures { IfOk result (λ note. (wanted : Want)
            → Follows R (λ rule. R.rules rule) script.now number wanted false traffic.old self.old
            (λ setting m doing. tries_while setting m number note doing true) traffic.new
            self.new) }
    {
        let connection = traffic.open()?;
        self.connect(Some(connection));
        self.act(traffic, script, number, true, Input::Opened { connection })?;
        Ok(GoNote::Open { connection })
    }

    /// The pool lent the request in course this connection, which is idle no more.
    pub fn take_lent(
        &mut self,
        traffic: &mut Traffic,
        script: &[Request],
        number: u64,
        connection: u64,
    ) -> Result<GoNote, NoMemory>
        requires { SomeOffered R (λ rule. R.rules rule) script.now number connection traffic.old
            self.old }
        ensures { IfOk result (λ note.
            (setting : Setting) (m : Machine) (client : Standing) (doing : Doing) (link : Link)
            (ltxid : Ltxid)
            → IsPlaced R (λ rule. R.rules rule) script.now number wants.Slot false traffic.old
            self.old setting m client doing → IsOffered m connection link ltxid
            → Goes R (λ rule. R.rules rule) setting m number
            (lends setting m number note doing connection (Some ltxid)) traffic.new self.new) }
    {
        let Some(ltxid) = traffic.held(connection) else {
            unreachable!();
        };
        self.connect(Some(connection));
        let input = Input::Lent { connection, ltxid };
        self.act(traffic, script, number, true, input)?;
        Ok(GoNote::Lent { connection })
    }

    /// The connection of the request in course is gone, ended by this event.
    pub fn lose(
        &mut self,
        traffic: &mut Traffic,
        script: &[Request],
        number: u64,
        event: u64,
    ) -> Result<(), NoMemory>
        requires { SomeLosing R (λ rule. R.rules rule) script.now number traffic.old self.old }
        ensures { OnOk result ((is_lost : Bool)
            → Follows R (λ rule. R.rules rule) script.now number wants.Frame is_lost traffic.old
            self.old (λ setting m doing. Some (loses setting m number doing (Some event)))
            traffic.new self.new) }
    {
        self.connect(None);
        self.act(traffic, script, number, true, Input::Gone { event })?;
        Ok(())
    }

    /// The request in course takes a frame from its connection, which is open.
    pub fn hear_open(
        &mut self,
        traffic: &mut Traffic,
        script: &[Request],
        number: u64,
        connection: u64,
        frame: Down,
    ) -> Result<GoNote, NoMemory>
        requires awaits { SomeAwaiting R (λ rule. R.rules rule) script.now number connection None
            traffic.old self.old }
        requires ltxids { HasLtxids (Took frame true) }
        ensures { IfOk result (λ note.
            (setting : Setting) (m : Machine) (client : Standing) (doing : Doing) (link : Link)
            → IsPlaced R (λ rule. R.rules rule) script.now number wants.Frame false traffic.old
            self.old setting m client doing → IsAwaiting m doing connection None link
            → Goes R (λ rule. R.rules rule) setting m number
            (noted note
            (go.Took connection
            (length (frames_of m.pool connection (act_at setting m doing (Took frame true)))))
            (steps setting m number doing true (Took frame true))) traffic.new self.new) }
    {
        let input = Input::Took { frame, alive: true };
        let sent = self.act(traffic, script, number, true, input)?;
        Ok(GoNote::Took { connection, sent })
    }

    /// The request in course takes a frame from its connection, which this event ended. Where it
    /// goes on the connection is lost at once.
    pub fn hear_ended(
        &mut self,
        traffic: &mut Traffic,
        script: &[Request],
        number: u64,
        connection: u64,
        frame: Down,
        event: u64,
    ) -> Result<GoNote, NoMemory>
        requires awaits { SomeAwaiting R (λ rule. R.rules rule) script.now number connection
            (Some event) traffic.old self.old }
        requires ltxids { HasLtxids (Took frame false) }
        ensures { IfOk result (λ note.
            (setting : Setting) (m : Machine) (client : Standing) (doing : Doing) (link : Link)
            → IsPlaced R (λ rule. R.rules rule) script.now number wants.Frame false traffic.old
            self.old setting m client doing → IsAwaiting m doing connection (Some event) link
            → Goes R (λ rule. R.rules rule) setting m number
            (noted note
            (go.Took connection
            (length (frames_of m.pool connection (act_at setting m doing (Took frame false)))))
            (lost_at_once setting (steps setting m number doing true (Took frame false)) number
            (Some event)
            (doing_at (steps setting m number doing true (Took frame false)).clients number)))
            traffic.new self.new) }
    {
        let input = Input::Took {
            frame,
            alive: false,
        };
        let sent = self.act(traffic, script, number, true, input)?;
        if !self.is_busy() {
            return Ok(GoNote::Took { connection, sent });
        }
        self.lose(traffic, script, number, event)?;
        Ok(GoNote::Took { connection, sent })
    }

    /// No whole frame stands on the connection of the request in course: it waits on, or the
    /// connection is lost.
    pub fn find_none(
        &mut self,
        traffic: &mut Traffic,
        script: &[Request],
        number: u64,
        connection: u64,
        ended: Option<u64>,
    ) -> Result<GoNote, NoMemory>
        requires { SomeAwaiting R (λ rule. R.rules rule) script.now number connection ended
            traffic.old self.old }
        ensures { IfOk result (λ note.
            (setting : Setting) (m : Machine) (client : Standing) (doing : Doing) (link : Link)
            → IsPlaced R (λ rule. R.rules rule) script.now number wants.Frame false traffic.old
            self.old setting m client doing → client.now ≡ Some doing
            → IsAwaiting m doing connection ended link
            → Goes R (λ rule. R.rules rule) setting m number
            (finds_none setting m number note doing connection link) traffic.new self.new) }
    {
        let Some(event) = ended else {
            return Ok(GoNote::NoFrame);
        };
        self.lose(traffic, script, number, event)?;
        Ok(GoNote::Lost { connection })
    }
}
