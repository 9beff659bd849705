//! Replies: to the call that runs, and to those that are repeated.
ghost use Rattle.std.specs.Prelude.{◌≡◌, ◌+◌, ◌<◌, ◌^◌, IfOk, IsTrue, List};
ghost use Rattle.svc_values.specs.declared.draw.Draw.{Draw as ADraw};
ghost use Rattle.svc_values.specs.declared.entry.Ltxid.{Ltxid as Identifier};
ghost use Rattle.std.specs.List.{AllByRecursion};
ghost use Rattle.svc_values.specs.Calls.{IsMade};
ghost use Rattle.client_model.specs.meaning.States.{next_of};
ghost use Rattle.client_model.specs.meaning.Verifying.{submitted};
ghost use Rattle.client_model.specs.meaning.Talk.{next_call, on_reply as on_reply_def, on_repeated as on_repeated_def, repeats, goes_on};
ghost use Rattle.replay_core.specs.Verifying.{is_done};
ghost use Rattle.driver_core.specs.Driving.{terms_of};
ghost use Rattle.driver_core.specs.Talking.{rest_of, step_in, frames_of};

use crate::frames::REPLY;
use crate::going::Before;
use crate::phase::Phase;
use crate::request::Request;
use crate::terms::{Here, Terms};
use crate::turn::Turn;
use client_model::{Act, Failed, Frames, Hold, Shown};
use replay_core::{Live, Mismatch, Replaying};
use request_bounds::BoundRule;
use result_digest::digest_of;
use svc_values::{Answers, Draws, Ltxid, NoMemory, TryCopy, Up};

impl<R: BoundRule + Copy> Terms<R> {
    /// The reply is shown, as it came, and what comes next goes out.
    pub(crate) fn on_reply(
        &self,
        request: &mut Request,
        live: Live,
        answers: Answers,
        draws: Draws,
        ltxid: Ltxid,
        here: Here,
    ) -> Result<Turn, NoMemory>
        requires made { AllByRecursion IsMade request.old.left.items }
        requires room { live.track.call + 1 < 2 ^ 64 }
        ensures { IfOk result (λ turn. step_in (rest_of request.new) turn
            ≡ on_reply_def (terms_of (R.rules self.now.rule) self.now.limits self.now.recorded)
            (rest_of request.old) live answers draws ltxid here.alive here.now
            (next_call (rest_of request.old))) }
    {
        let Some(call) = request.take() else {
            return Turn::fail(self.alloc, here.alive, None, Failed::BadPeer { tag: REPLY });
        };
        let after = self.rule.on_reply(answers.as_slice());
        request.settle(self.alloc, self.rule.keeps_settings(), &call, after)?;
        let (track, held) = live.part();
        let track = self.show(track, call, after, &answers, &draws)?;
        let mut live = held.join(track);
        live.moved(ltxid);
        let shown = Shown {
            answers,
            draws,
            ltxid,
        };
        self.go_on(request, live, here, Before::Nothing, Some(shown))
    }

    /// A repeated call that was answered as before is followed by the next one. Other answers end
    /// the request.
    pub(crate) fn on_repeated(
        &self,
        request: &Request,
        replaying: Replaying,
        answers: &Answers,
        here: Here,
    ) -> Result<Turn, NoMemory>
        requires { AllByRecursion IsMade request.now.left.items }
        ensures { (draws : List ADraw) (ltxid : Identifier)
            → IfOk result (λ turn. step_in (rest_of request.now) turn
            ≡ on_repeated_def (terms_of (R.rules self.now.rule) self.now.limits self.now.recorded)
            (rest_of request.now) replaying answers.now draws ltxid here.alive here.now
            (next_of replaying)) }
    {
        if replaying.next().is_none() {
            return Turn::fail(self.alloc, here.alive, None, Failed::BadPeer { tag: REPLY });
        }
        let digest = digest_of(self.alloc, answers.as_slice())?;
        match replaying.verify(&digest) {
            Ok(replaying) => self.repeat(request, replaying, here, Before::Nothing),
            Err((_, mismatch)) => {
                let Mismatch { call, seen, now } = mismatch;
                Turn::fail(
                    self.alloc,
                    here.alive,
                    None,
                    Failed::Mismatch { call, seen, now },
                )
            }
        }
    }

    /// The next recorded call goes out marked, with its draws, made from the recorder's own. Behind
    /// the last one the lost call goes out.
    pub(crate) fn repeat(
        &self,
        request: &Request,
        replaying: Replaying,
        here: Here,
        before: Before,
    ) -> Result<Turn, NoMemory>
        requires { AllByRecursion IsMade request.now.left.items }
        ensures { IfOk result (λ turn. step_in (rest_of request.now) turn
            ≡ repeats (terms_of (R.rules self.now.rule) self.now.limits self.now.recorded)
            (rest_of request.now) replaying here.alive (frames_of before (rest_of request.now))
            here.now) }
    {
        let Some(recorded) = replaying.next() else {
            return self.submit_lost(request, replaying, here, before);
        };
        let mut send = Vec::new(self.alloc);
        if here.alive {
            send = self.frames_before(request, before)?;
            send.push(Up::Call {
                replay: true,
                kept: recorded.draws.copy(self.alloc)?,
                call: recorded.call.copy(self.alloc)?,
            })?;
        }
        Ok(Turn {
            phase: Phase::Replaying(replaying),
            act: Act {
                send: Frames::from_vec(send),
                shown: None,
                failed: None,
                hold: Hold::Keep,
            },
        })
    }

    /// All recorded calls were verified, so the lost call goes out, without the mark.
    fn submit_lost(
        &self,
        request: &Request,
        replaying: Replaying,
        here: Here,
        before: Before,
    ) -> Result<Turn, NoMemory>
        requires made { AllByRecursion IsMade request.now.left.items }
        requires verified { IsTrue (is_done replaying) }
        ensures { IfOk result (λ turn. step_in (rest_of request.now) turn
            ≡ goes_on (terms_of (R.rules self.now.rule) self.now.limits self.now.recorded)
            (rest_of request.now) (submitted replaying) here.alive
            (frames_of before (rest_of request.now)) None here.now) }
    {
        match replaying.ready() {
            Ok(ready) => self.go_on(request, ready.submit(), here, before, None),
            Err(_) => unreachable!(),
        }
    }
}
