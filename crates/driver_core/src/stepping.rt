//! A step of a conversation.
ghost use Rattle.std.specs.Prelude.{◌≡◌, ◌+◌, ◌<◌, ◌≤◌, ◌^◌, IfOk, IfSome, length};
ghost use Rattle.std.specs.Option.{option_and_then};
ghost use Rattle.std.specs.List.{AllByRecursion};
ghost use Rattle.svc_values.specs.Calls.{IsMade};
ghost use Rattle.request_bounds.specs.Limits.{IsPast};
ghost use Rattle.client_model.specs.Laws.{track_of};
ghost use Rattle.client_model.specs.meaning.Talk.{waits_from, talk_step};
ghost use Rattle.driver_core.specs.Driving.{terms_of};
ghost use Rattle.driver_core.specs.Talking.{phase_of, talk_of, rest_of, step_in};

use crate::phase::Phase;
use crate::request::Request;
use crate::terms::{Here, Terms};
use crate::turn::Turn;
use client_model::Input;
use request_bounds::BoundRule;
use svc_values::{NoMemory, Up};

impl<R: BoundRule + Copy> Terms<R> {
    /// What is done at an input, and where it leads.
    pub(crate) fn step(
        &self,
        request: &mut Request,
        phase: Phase,
        input: Input,
        now: u64,
    ) -> Result<Turn, NoMemory>
        requires made { AllByRecursion IsMade request.old.left.items }
        requires room { IfSome (track_of (phase_of phase)) (λ track. track.call + 1 < 2 ^ 64) }
        requires before { IfSome (track_of (phase_of phase)) (λ track. length track.recorder.calls
            ≤ track.call) }
        requires past { IsPast (option_and_then (λ track. track.first) (track_of (phase_of phase)))
            now }
        requires waits { waits_from (phase_of phase) now ≤ now }
        requires tries { request.old.tries + 1 < 2 ^ 64 }
        ensures { IfOk result (λ turn. step_in (rest_of request.new) turn
            ≡ talk_step (terms_of (R.rules self.now.rule) self.now.limits self.now.recorded)
            (talk_of request.old (phase_of phase)) input now) }
    {
        match input {
            Input::Start => Ok(Turn::quiet(self.alloc, Phase::Queued { from: None })),
            Input::Waiting => self.on_waiting(request, phase, now),
            Input::Lent { ltxid, .. } => self.on_hello(
                request,
                None,
                ltxid,
                Here { alive: true, now },
            ),
            Input::Opened { .. } => {
                request.tries = 0;
                Turn::sending(
                    self.alloc,
                    Phase::Greeting { lost: phase.lost() },
                    Up::Connect,
                )
            }
            Input::TryFailed => self.on_try_failed(request, phase, now),
            Input::Took { frame, alive } => self.take(request, phase, frame, Here { alive, now }),
            Input::Gone { event } => Ok(Turn::quiet(self.alloc, phase.lose(event))),
        }
    }
}
