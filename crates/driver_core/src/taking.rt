//! Frames that are taken.
ghost use Rattle.std.specs.Prelude.{◌≡◌, ◌+◌, ◌<◌, ◌≤◌, ◌^◌, IfOk, IfSome, length, ℕ};
ghost use Rattle.std.specs.Option.{option_and_then};
ghost use Rattle.std.specs.List.{AllByRecursion};
ghost use Rattle.svc_values.specs.Calls.{IsMade};
ghost use Rattle.request_bounds.specs.Limits.{IsPast};
ghost use Rattle.client_model.specs.Laws.{track_of};
ghost use Rattle.svc_values.specs.declared.frame.Down.{Down as Frame};
ghost use Rattle.svc_values.specs.declared.frame.Down.TheVariants.{OutcomeRefused};
ghost use Rattle.client_model.specs.meaning.Terms.{Terms as WhatIsKept, Talk, Asked as AsksFor, unsubmitted as unsubmitted_def};
ghost use Rattle.client_model.specs.meaning.Talk.{on_hello as on_hello_def, tag_of as tag_of_def, bad_peer as bad_peer_def, takes};
ghost use Rattle.driver_core.specs.Driving.{terms_of};
ghost use Rattle.driver_core.specs.Talking.{losing_of, phase_of, talk_of, rest_of, step_in};

use crate::frames::tag_of;
use crate::going::Before;
use crate::phase::Phase;
use crate::request::Request;
use crate::terms::{Here, Terms};
use crate::turn::Turn;
use call_recorder::Recorder;
use client_model::{Failed, Track};
use replay_core::{Asked, Live, Lost};
use request_bounds::BoundRule;
use svc_values::{Ahead, Down, Ltxid, NoMemory, Up};

impl<R: BoundRule + Copy> Terms<R> {
    /// A request's track at its first Begin.
    fn unsubmitted(&self) -> Track
        ensures { result ≡ unsubmitted_def
            (terms_of (R.rules self.now.rule) self.now.limits self.now.recorded) }
    {
        Track {
            recorder: Recorder::new(self.alloc, self.recorded),
            why: None,
            replays: 0,
            first: None,
            set_shown: false,
            call: 0,
        }
    }

    /// At Hello a fresh request begins and sends its first call. One that lost a session asks for
    /// the outcome.
    pub(crate) fn on_hello(
        &self,
        request: &Request,
        lost: Option<Lost>,
        ltxid: Ltxid,
        here: Here,
    ) -> Result<Turn, NoMemory>
        requires { AllByRecursion IsMade request.now.left.items }
        ensures { IfOk result (λ turn. step_in (rest_of request.now) turn
            ≡ on_hello_def (terms_of (R.rules self.now.rule) self.now.limits self.now.recorded)
            (rest_of request.now) (losing_of lost) ltxid here.alive here.now) }
    {
        if !here.alive {
            return Ok(Turn::quiet(self.alloc, Phase::Greeting { lost }));
        }
        match lost {
            None => {
                let live = Live::start(self.unsubmitted(), ltxid);
                self.go_on(request, live, here, Before::Begin, None)
            }
            Some(lost) => {
                let asked = Up::Outcome {
                    ltxid: *lost.ltxid(),
                };
                Turn::sending(self.alloc, Phase::Asked(lost.ask(ltxid)), asked)
            }
        }
    }

    /// A frame with this tag, which no server sends here.
    fn bad_peer(&self, tag: u8, here: Here) -> Result<Turn, NoMemory>
        ensures { (talk : Talk) (frame : Frame) → tag ≡ tag_of_def frame
            → IfOk result (λ turn. step_in talk turn ≡ bad_peer_def talk here.alive frame) }
    {
        Turn::fail(self.alloc, here.alive, None, Failed::BadPeer { tag })
    }

    /// The outcome is refused with a frame of this tag: it is forgotten, or the server is not at
    /// one with the client on what was committed.
    fn on_refused(&self, asked: Asked, tag: u8, ahead: Ahead, here: Here) -> Result<Turn, NoMemory>
        ensures { (terms : WhatIsKept) (talk : Talk) (frame : Frame) (next : ℕ)
            → tag ≡ tag_of_def frame → frame ≡ OutcomeRefused ahead next
            → IfOk result (λ turn. step_in talk turn
            ≡ takes terms talk (AsksFor asked) frame here.alive here.now) }
    {
        match ahead {
            Ahead::Forgotten => {
                let ltxid = *asked.ltxid();
                Turn::fail(self.alloc, here.alive, None, Failed::Unknown { ltxid })
            }
            Ahead::Server => self.bad_peer(tag, here),
            Ahead::Client => self.bad_peer(tag, here),
        }
    }

    /// A frame, in each phase. Blocked and Refused do nothing by themselves: they end the
    /// connection, and the next input says so. Every frame that is not named here fails the
    /// request.
    pub(crate) fn take(
        &self,
        request: &mut Request,
        phase: Phase,
        frame: Down,
        here: Here,
    ) -> Result<Turn, NoMemory>
        requires made { AllByRecursion IsMade request.old.left.items }
        requires room { IfSome (track_of (phase_of phase)) (λ track. track.call + 1 < 2 ^ 64) }
        requires before { IfSome (track_of (phase_of phase)) (λ track. length track.recorder.calls
            ≤ track.call) }
        requires past { IsPast (option_and_then (λ track. track.first) (track_of (phase_of phase)))
            here.now }
        ensures { IfOk result (λ turn. step_in (rest_of request.new) turn
            ≡ takes (terms_of (R.rules self.now.rule) self.now.limits self.now.recorded)
            (talk_of request.old (phase_of phase)) (phase_of phase) frame here.alive here.now) }
    {
        let tag = tag_of(&frame);
        match frame {
            Down::Blocked => Ok(Turn::quiet(self.alloc, phase)),
            Down::Refused { .. } => Ok(Turn::quiet(self.alloc, phase)),
            Down::Hello { ltxid } => match phase {
                Phase::Greeting { lost } => self.on_hello(request, lost, ltxid, here),
                _ => self.bad_peer(tag, here),
            },
            Down::OutcomeIs {
                committed,
                completed,
            } => match phase {
                Phase::Asked(asked) => {
                    self.on_outcome(request, asked, committed, completed, here)
                }
                _ => self.bad_peer(tag, here),
            },
            Down::OutcomeRefused { ahead, .. } => match phase {
                Phase::Asked(asked) => self.on_refused(asked, tag, ahead, here),
                _ => self.bad_peer(tag, here),
            },
            Down::Reply {
                answers,
                draws,
                ltxid,
            } => match phase {
                Phase::Running(live) => self.on_reply(request, live, answers, draws, ltxid, here),
                Phase::Replaying(replaying) => self.on_repeated(request, replaying, &answers, here),
                _ => self.bad_peer(tag, here),
            },
        }
    }
}
