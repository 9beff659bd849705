//! A request that goes on with its next call.
ghost use Rattle.std.specs.Prelude.{◌≡◌, IfOk};
ghost use Rattle.std.specs.List.{AllByRecursion};
ghost use Rattle.svc_values.specs.Calls.{IsMade};
ghost use Rattle.client_model.specs.meaning.Talk.{with_submitted, sends_call, goes_on};
ghost use Rattle.driver_core.specs.Driving.{terms_of};
ghost use Rattle.driver_core.specs.Talking.{rest_of, step_in, frames_of};

use crate::phase::Phase;
use crate::request::Request;
use crate::terms::{Here, Terms};
use crate::turn::Turn;
use client_model::{Act, Frames, Hold, Shown, Track};
use replay_core::Live;
use request_bounds::BoundRule;
use svc_values::{Call, Draws, NoMemory, TryCopy, Up};

/// What goes out before a call.
#[derive(Clone, Copy)]
pub(crate) enum Before {
    Nothing,
    Begin,
}

impl<R: BoundRule + Copy> Terms<R> {
    /// The frames before a call, to which it is added.
    pub(crate) fn frames_before(
        &self,
        request: &Request,
        before: Before,
    ) -> Result<Vec<Up>, NoMemory>
        ensures { IfOk result (λ frames. frames.items ≡ frames_of before (rest_of request.now)) }
    {
        let mut frames = Vec::new(self.alloc);
        if matches!(before, Before::Begin) {
            frames.push(Up::Begin {
                settings: request.settings.copy(self.alloc)?,
            })?;
        }
        Ok(frames)
    }

    /// The track of a call that goes out. The first reason and the first tick stand.
    fn submit(&self, mut track: Track, call: &Call, now: u64) -> Track
        requires { IsMade call.now }
        ensures { result ≡ with_submitted
            (terms_of (R.rules self.now.rule) self.now.limits self.now.recorded) track call.now
            now }
    {
        if track.why.is_none() {
            track.why = self.rule.on_submit(call, track.call);
        }
        if track.first.is_none() {
            track.first = Some(now);
        }
        track
    }

    /// The call goes out unmarked. On a dead connection it neither goes out nor counts as
    /// submitted.
    pub(crate) fn send_call(
        &self,
        request: &Request,
        live: Live,
        here: Here,
        before: Before,
        shown: Option<Shown>,
        call: &Call,
    ) -> Result<Turn, NoMemory>
        requires { IsMade call.now }
        ensures { IfOk result (λ turn. step_in (rest_of request.now) turn
            ≡ sends_call (terms_of (R.rules self.now.rule) self.now.limits self.now.recorded)
            (rest_of request.now) live here.alive (frames_of before (rest_of request.now)) shown
            here.now call.now) }
    {
        if !here.alive {
            return Ok(Turn {
                phase: Phase::Running(live),
                act: Act {
                    send: Frames::new(self.alloc),
                    shown,
                    failed: None,
                    hold: Hold::Keep,
                },
            });
        }
        let (track, held) = live.part();
        let live = held.join(self.submit(track, call, here.now));
        let mut send = self.frames_before(request, before)?;
        send.push(Up::Call {
            replay: false,
            kept: Draws::new(self.alloc),
            call: call.copy(self.alloc)?,
        })?;
        Ok(Turn {
            phase: Phase::Running(live),
            act: Act {
                send: Frames::from_vec(send),
                shown,
                failed: None,
                hold: Hold::Keep,
            },
        })
    }

    /// The next call goes out, or the request ends where there is none.
    pub(crate) fn go_on(
        &self,
        request: &Request,
        live: Live,
        here: Here,
        before: Before,
        shown: Option<Shown>,
    ) -> Result<Turn, NoMemory>
        requires { AllByRecursion IsMade request.now.left.items }
        ensures { IfOk result (λ turn. step_in (rest_of request.now) turn
            ≡ goes_on (terms_of (R.rules self.now.rule) self.now.limits self.now.recorded)
            (rest_of request.now) live here.alive (frames_of before (rest_of request.now)) shown
            here.now) }
    {
        match request.next() {
            None => Turn::end(self.alloc, here.alive, shown),
            Some(call) => self.send_call(request, live, here, before, shown, call),
        }
    }
}
