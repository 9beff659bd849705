//! A client of a run.
ghost use Rattle.std.specs.Prelude.{◌≡◌, ℕ, Bool, [], ◌∷◌, ◌++◌, Some, None, false, IsSome, IfSome, IsTrue, IfOk, OnOk, is_some};
ghost use Rattle.std.specs.List.{AllByRecursion};
ghost use Rattle.canon_bytes.specs.UpBytes.{IsMadeUp};
ghost use Rattle.client_model.specs.Conversation.{may_come, is_gone_next};
ghost use Rattle.client_model.specs.meaning.Talk.{wants_of, talk_step};
ghost use Rattle.client_model.specs.meaning.Terms.{Terms, Idle, requested};
ghost use Rattle.driver_core.specs.Driving.{terms_of, ArePast, HasLtxids};
ghost use Rattle.transcript_core.specs.Drafts.{IsDraft};
ghost use Rattle.world_model.specs.meaning.Clients.{Doing, Client as Standing, is_unfinished as is_unfinished_def, doing_of, resting, past_of, script_at, after_hold};
ghost use Rattle.world_model.specs.meaning.Settings.{Setting};
ghost use Rattle.world_core.specs.Stepping.{connection_in};
ghost use Rattle.world_core.specs.Coursing.{terms_in, step_of, IsFit, done_of, Begins, with_connection, IsCourse, IsBeside, IsClient, IsSettled, Closes, Hears};

use client_model::{Act, Hold, Input, Wants};
use driver_core::Driver;
use outage_schedule::{Request, RequestReport};
use request_bounds::{BoundRule, Clocked};
use std::alloc::Global;
use std::marker::Model;
use svc_values::{NoMemory, TryCopy, Up};
use transcript_core::{Heard, NextRequest, ReportDraft};

/// A request in course: the draft of its report, and the connection that it has.
#[derive(Drop)]
pub(crate) struct Course {
    pub(crate) draft: ReportDraft,
    pub(crate) connection: Option<u64>,
}

/// What a client does at an input: the frames that it sends, and what becomes of its connection.
#[derive(Drop)]
pub struct Said {
    pub send: Vec<Up>,
    pub hold: Hold,
}

/// A client of a run: its driver, which request of its script comes next, the one in course, and
/// the reports of those that are over. Of a request in course no step is kept.
#[derive(Drop)]
pub struct Client<R: BoundRule + Copy> {
    driver: Driver<R>,
    next: NextRequest,
    course: Option<Course>,
    past: Vec<RequestReport>,
}

impl<R: BoundRule + Copy> Model for Client<R> {
    ghost use Rattle.world_core.specs.Coursing.{Held};

    ghost Value = { Held R };

    ghost view = { λ c.
        record { driver = c.driver; next = c.next; course = c.course; past = c.past.items } };
}

impl<R: BoundRule + Copy> Client<R> {
    /// A client that submitted nothing yet. It takes no memory.
    pub fn new(
        alloc: Global,
        rule: R,
        limits: Clocked,
        recorded: u64,
        script: &[Request],
    ) -> Client<R>
        ensures { (setting : Setting) (number tick : ℕ) → script.now ≡ script_at setting number
            → terms_of (R.rules rule) limits recorded ≡ setting.terms
            → IsClient R (λ rule. R.rules rule) setting number tick false result
            (resting (script_at setting number) []) }
    {
        Client {
            driver: Driver::new(alloc, rule, limits, recorded),
            next: NextRequest::first(script),
            course: None,
            past: Vec::new(alloc),
        }
    }

    /// One report more, and the request that follows it.
    fn close(&mut self, script: &[Request], report: RequestReport) -> Result<(), NoMemory>
        ensures { OnOk result (Closes R script.now report self.old self.new) }
    {
        self.next.follow(script, &report);
        self.past.push(report)?;
        Ok(())
    }

    /// The request in course is over.
    fn finish(&mut self, script: &[Request], draft: ReportDraft) -> Result<(), NoMemory>
        ensures { OnOk result
            ((setting : Setting) (number tick : ℕ) (client : Standing) (doing : Doing)
            → script.now ≡ script_at setting number → self.old.course ≡ None
            → self.old.driver.talk.phase ≡ Idle
            → IsDraft setting.terms doing.request (done_of doing) draft
            → IsBeside R (λ rule. R.rules rule) setting number tick false self.old client
            → IsClient R (λ rule. R.rules rule) setting number tick false self.new
            (resting (script_at setting number)
            (client.past ++ past_of setting.terms doing ∷ []))) }
    {
        let report = draft.into_report()?;
        self.close(script, report)
    }

    /// The request in course goes on, or it is over.
    fn settle(&mut self, script: &[Request], course: Course, hold: Hold) -> Result<(), NoMemory>
        ensures { OnOk result
            ((setting : Setting) (number tick : ℕ) (is_lost : Bool) (client : Standing)
            (doing : Doing) → script.now ≡ script_at setting number → self.old.course ≡ None
            → IsSettled self.old.driver.talk is_lost hold
            → IsCourse setting.terms self.old.driver.talk course doing
            → IsBeside R (λ rule. R.rules rule) setting number tick is_lost self.old client
            → IsClient R (λ rule. R.rules rule) setting number tick is_lost self.new
            (after_hold setting number client doing hold)) }
    {
        match hold {
            Hold::Keep => {
                self.keep(course);
                Ok(())
            }
            Hold::GiveBack => self.finish(script, course.draft),
            Hold::Drop => self.finish(script, course.draft),
        }
    }

    /// The connection of the request in course, and 0 where it has none.
    pub(crate) fn connection(&self) -> u64
        ensures { result ≡ connection_in self.now.course }
    {
        match &self.course {
            Some(course) => course.connection.unwrap_or(0),
            None => 0,
        }
    }

    /// The request in course, put back.
    fn keep(&mut self, course: Course)
        ensures { self.new ≡ record self.old { course = Some course } }
    {
        self.course = Some(course);
    }

    /// One step of the driver.
    fn drive(&mut self, input: Input, tick: u64) -> Result<Act, NoMemory>
        requires wanted { IsTrue
            (may_come self.old.driver.gone_next
            (wants_of (terms_in R (λ rule. R.rules rule) self.old) self.old.driver.talk tick)
            input) }
        requires past { ArePast self.old.driver.talk tick }
        requires ltxids { HasLtxids input }
        ensures act { IfOk result (λ act.
            act
            ≡ (talk_step (terms_in R (λ rule. R.rules rule) self.old) self.old.driver.talk input
            tick).1) }
        ensures after { IfOk result (λ act.
            self.new
            ≡ record self.old {
              driver = record self.old.driver {
                talk = (talk_step
                    (terms_in R (λ rule. R.rules rule) self.old) self.old.driver.talk input tick).0;
                gone_next = is_gone_next input act.hold;
              };
            }) }
        ensures past { OnOk result (ArePast self.new.driver.talk tick) }
        ensures made { IfOk result (λ act. AllByRecursion IsMadeUp act.send) }
    {
        self.driver.step(input, tick)
    }

    /// The request in course, taken out.
    fn take_course(&mut self) -> Option<Course>
        ensures taken { result ≡ self.old.course }
        ensures left { self.new ≡ record self.old { course = None } }
    {
        self.course.take()
    }

    /// The request in course has this connection from now on.
    pub(crate) fn connect(&mut self, connection: Option<u64>)
        ensures { self.new
            ≡ record self.old { course = with_connection self.old.course connection } }
    {
        let Some(course) = self.take_course() else {
            return;
        };
        self.keep(Course {
            draft: course.draft,
            connection,
        });
    }

    /// Whether a request is in course.
    pub(crate) fn is_busy(&self) -> bool
        ensures { result ≡ is_some self.now.course }
    {
        self.course.is_some()
    }

    /// Whether a request is in course, or one is left.
    pub fn is_unfinished(&self, script: &[Request]) -> bool
        ensures { (setting : Setting) (number tick : ℕ) (is_lost : Bool) (client : Standing)
            → script.now ≡ script_at setting number
            → IsClient R (λ rule. R.rules rule) setting number tick is_lost self.now client
            → result ≡ is_unfinished_def client }
    {
        self.course.is_some() || self.next.request(script).is_some()
    }

    /// The reports of its requests, in order.
    pub fn into_reports(self) -> Vec<RequestReport>
        ensures { result.items ≡ self.past }
    {
        self.past
    }

    /// What the request in course wants at this tick.
    pub(crate) fn wants(&self, tick: u64) -> Wants
        requires { ArePast self.now.driver.talk tick }
        ensures { result ≡ wants_of (terms_in R (λ rule. R.rules rule) self.now)
            self.now.driver.talk tick }
    {
        self.driver.wants(tick)
    }

    /// The request in course hears an input at this tick. What it gives is to be sent, and done
    /// with the connection. After want of memory the client may only be dropped. Linear in what
    /// goes out and comes in.
    pub fn hear(&mut self, script: &[Request], input: Input, tick: u64) -> Result<Said, NoMemory>
        requires wanted { IsTrue
            (may_come self.old.driver.gone_next
            (wants_of (terms_in R (λ rule. R.rules rule) self.old) self.old.driver.talk tick)
            input) }
        requires past { ArePast self.old.driver.talk tick }
        requires ltxids { HasLtxids input }
        ensures made { IfOk result (λ said. AllByRecursion IsMadeUp said.send.items) }
        ensures said { IfOk result (λ said.
            (said.send.items ≡ (step_of R (λ rule. R.rules rule) self.old input tick).1.send)
            × (said.hold ≡ (step_of R (λ rule. R.rules rule) self.old input tick).1.hold)) }
        ensures heard { IfOk result (λ said.
            (setting : Setting) (number event : ℕ) (is_lost : Bool) (client : Standing)
            (doing : Doing) → script.now ≡ script_at setting number → client.now ≡ Some doing
            → IsClient R (λ rule. R.rules rule) setting number tick is_lost self.old client
            → Hears R (λ rule. R.rules rule) setting number event tick client doing input
            said.send.items said.hold self.new) }
    {
        let heard = Heard::of(&input);
        let Act {
            send,
            shown,
            failed,
            hold,
        } = self.drive(input, tick)?;
        let send = send.into_vec();
        let Some(mut course) = self.take_course() else {
            return Ok(Said { send, hold });
        };
        course.draft.note(heard, &send, shown, failed)?;
        self.settle(script, course, hold)?;
        Ok(Said { send, hold })
    }

    /// Hands the request to the driver, with an empty draft. It has no connection yet.
    fn submit(&mut self, alloc: Global, request: &Request) -> Result<(), NoMemory>
        requires idle { self.old.driver.talk.phase ≡ Idle }
        requires fit { IsFit request.now }
        ensures driver { OnOk result
            (self.new.driver
            ≡ record self.old.driver {
              talk = requested request.now.settings request.now.calls;
              gone_next = false;
            }) }
        ensures next { OnOk result (self.new.next ≡ self.old.next) }
        ensures past { OnOk result (self.new.past ≡ self.old.past) }
        ensures course { OnOk result (IsSome self.new.course) }
        ensures draft { OnOk result ((terms : Terms)
            → IfSome self.new.course
            (λ course. (course.connection ≡ None) × IsDraft terms request.now [] course.draft)) }
    {
        let settings = request.settings.copy(alloc)?;
        let calls = request.calls.copy(alloc)?;
        self.driver.request(settings, calls.into_vec());
        self.course = Some(Course {
            draft: ReportDraft::new(alloc, request.calls.len()),
            connection: None,
        });
        Ok(())
    }

    /// The request that goes on now, if there is one: the one in course, or else the next one of
    /// the script, which begins at this tick. Tells whether there is one. Linear in the request
    /// that begins.
    pub fn begin(&mut self, alloc: Global, script: &[Request], tick: u64) -> Result<bool, NoMemory>
        requires rests { self.old.course ≡ None → self.old.driver.talk.phase ≡ Idle }
        requires fit { AllByRecursion IsFit script.now }
        ensures { IfOk result (λ there. (setting : Setting) (number event : ℕ) (client : Standing)
            → script.now ≡ script_at setting number
            → IsClient R (λ rule. R.rules rule) setting number tick false self.old client
            → Begins R (λ rule. R.rules rule) setting number tick client
            (doing_of setting.terms event tick client) there self.new) }
    {
        if self.course.is_some() {
            return Ok(true);
        }
        let Some(request) = self.next.request(script) else {
            return Ok(false);
        };
        self.submit(alloc, request)?;
        self.hear(script, Input::Start, tick)?;
        Ok(true)
    }
}
