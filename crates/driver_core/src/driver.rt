//! A driver.
ghost use Rattle.std.specs.Prelude.{◌≡◌, ◌≤◌, false, length, IsTrue, IfOk, OnOk};
ghost use Rattle.std.specs.List.{AllByRecursion};
ghost use Rattle.svc_values.specs.Calls.{IsMade};
ghost use Rattle.client_model.specs.meaning.Terms.{Idle, requested};
ghost use Rattle.canon_bytes.specs.UpBytes.{IsMadeUp};
ghost use Rattle.client_model.specs.meaning.Talk.{wants_of, talk_step};
ghost use Rattle.client_model.specs.Conversation.{may_come as may_come_def, is_gone as is_gone_def, is_gone_next as is_gone_next_def};
ghost use Rattle.driver_core.specs.Driving.{terms_of, ArePast, StaysPast, HasLtxids, unasked, tells_end as tells_end_def, loses_next as loses_next_def};

use crate::phase::Phase;
use crate::request::Request;
use crate::terms::Terms;
use crate::turn::Turn;
use client_model::{Act, Hold, Input, Wants};
use request_bounds::{BoundRule, Clocked};
use std::alloc::Global;
use std::collections::VecDeque;
use std::marker::Model;
use std::mem;
use svc_values::{Call, NoMemory, Settings};

/// The driver of one client, whose requests it carries out one after the other.
#[derive(Drop)]
pub struct Driver<R: BoundRule + Copy> {
    terms: Terms<R>,
    request: Request,
    phase: Phase,
    gone_next: bool,
}

impl<R: BoundRule + Copy> Model for Driver<R> {
    ghost use Rattle.driver_core.specs.Driving.{Driving};
    ghost use Rattle.driver_core.specs.Talking.{talk_of, phase_of};
    ghost use Rattle.driver_core.specs.InnerSound.{IsSound};

    ghost Value = { Driving R };

    ghost view = { λ d. record {
      rule = d.terms.rule;
      limits = d.terms.limits;
      recorded =
          d.terms.recorded;
      talk = talk_of d.request (phase_of d.phase);
      gone_next = d.gone_next;
    } };

    ghost invariant = { λ d. IsSound d.terms.limits.retries
        (talk_of d.request (phase_of d.phase)) };
}

impl<R: BoundRule + Copy> Driver<R> {
    /// A driver without a request, which records at most `limit` calls of one. It takes no memory.
    pub fn new(alloc: Global, rule: R, limits: Clocked, limit: u64) -> Driver<R>
        ensures { result ≡ record {
          rule = rule;
          limits = limits;
          recorded = limit;
          talk =
              unasked;
          gone_next = false;
        } }
    {
        Driver {
            terms: Terms {
                alloc,
                rule,
                limits,
                recorded: limit,
            },
            request: Request::none(alloc),
            phase: Phase::Idle,
            gone_next: false,
        }
    }

    /// Hands in a request: the settings that it begins with, and 1 to 1,024 calls. The driver has
    /// none, or the one before has ended. It takes no memory.
    pub fn request(&mut self, settings: Settings, calls: Vec<Call>)
        requires idle { self.old.talk.phase ≡ Idle }
        requires some { 1 ≤ length calls.items }
        requires few { length calls.items ≤ 1024 }
        requires made { AllByRecursion IsMade calls.items }
        ensures { self.new ≡ record self.old {
          talk = requested settings calls.items;
          gone_next =
              false;
        } }
    {
        let alloc = self.terms.alloc;
        self.request = Request {
            settings,
            sets: Vec::new(alloc),
            left: VecDeque::from(calls),
            tries: 0,
            last_try: None,
        };
        self.phase = Phase::Unbegun;
        self.gone_next = false;
    }

    /// What may be handed in next, at this tick. It takes no memory.
    pub fn wants(&self, now: u64) -> Wants
        requires { ArePast self.now.talk now }
        ensures { result ≡ wants_of (terms_of (R.rules self.now.rule) self.now.limits
            self.now.recorded) self.now.talk now }
    {
        match &self.phase {
            Phase::Idle => Wants::Idle,
            Phase::Unbegun => Wants::Request,
            Phase::Queued { .. } => Wants::Slot,
            Phase::Seeking { .. } => {
                if self.terms.limits.may_try(now, self.request.last_try) {
                    Wants::Try
                } else {
                    Wants::Early
                }
            }
            Phase::Greeting { .. } | Phase::Asked(_) | Phase::Running(_) | Phase::Replaying(_) =>
                Wants::Frame,
        }
    }

    /// Whether this input may be handed in next, at this tick. It takes no memory.
    pub fn may_come(&self, input: &Input, now: u64) -> bool
        requires { ArePast self.now.talk now }
        ensures { result ≡ may_come_def self.now.gone_next
            (wants_of (terms_of (R.rules self.now.rule) self.now.limits self.now.recorded)
            self.now.talk now) input.now }
    {
        let wanted = self.wants(now).is_served_by(input);
        wanted && (is_gone(input) || !self.gone_next)
    }

    /// Takes one step at this tick: what `wants` tells is handed in, and after a frame from a
    /// connection that has ended, where the request goes on, its `Gone`. Ticks don't fall. The act
    /// is what the caller has to do. After want of memory the driver may only be dropped.
    ///
    /// Frames that go out are copies of what is kept, as the wire takes them. Nothing else is
    /// copied but the draws of a call that is recorded and, under a rule that keeps settings, what
    /// a `set` sets: what is shown is moved out of the reply. Linear in what goes out and comes in.
    pub fn step(&mut self, input: Input, now: u64) -> Result<Act, NoMemory>
        requires wanted { IsTrue (may_come_def self.old.gone_next
            (wants_of (terms_of (R.rules self.old.rule) self.old.limits self.old.recorded)
            self.old.talk now) input) }
        requires past { ArePast self.old.talk now }
        requires ltxids { HasLtxids input }
        ensures act { IfOk result (λ act. act
            ≡ (talk_step (terms_of (R.rules self.old.rule) self.old.limits self.old.recorded)
            self.old.talk input now).1) }
        ensures after { IfOk result (λ act. self.new
            ≡ record self.old {
              talk = (talk_step
                  (terms_of (R.rules self.old.rule) self.old.limits self.old.recorded) self.old.talk input
                  now).0;
              gone_next = is_gone_next_def input act.hold;
            }) }
        ensures past { OnOk result (ArePast self.new.talk now) }
        ensures made { IfOk result (λ act. AllByRecursion IsMadeUp act.send) }
    {
        let terms = self.terms;
        let ends = tells_end(&input);
        let mut request = mem::replace(&mut self.request, Request::none(terms.alloc));
        let phase = mem::replace(&mut self.phase, Phase::Idle);
        let Turn { phase, act } = terms.step(&mut request, phase, input, now)?;
        self.request = request;
        self.phase = phase;
        self.gone_next = loses_next(ends, act.hold);
        Ok(act)
    }
}

/// Whether an input is a frame from a connection that has ended.
fn tells_end(input: &Input) -> bool
    ensures { result ≡ tells_end_def input.now }
{
    matches!(input, Input::Took { alive: false, .. })
}

/// Whether the loss of a connection comes next: it has ended, and the request goes on.
fn loses_next(ends: bool, hold: Hold) -> bool
    ensures { result ≡ loses_next_def ends hold }
{
    ends && matches!(hold, Hold::Keep)
}

/// Whether an input tells that the connection has ended.
fn is_gone(input: &Input) -> bool
    ensures { result ≡ is_gone_def input.now }
{
    matches!(input, Input::Gone { .. })
}

/// A law, with nothing to run: a tick that is not above one tick is not above a later one.
pub fn stays_past()
    ensures { StaysPast }
{}
