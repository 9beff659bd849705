//! The outcome of a lost identifier.
ghost use Rattle.std.specs.Prelude.{◌≡◌, ◌+◌, ◌<◌, ◌≤◌, ◌^◌, ◌&&◌, not, IfOk, length};
ghost use Rattle.std.specs.List.{AllByRecursion};
ghost use Rattle.svc_values.specs.Calls.{IsMade};
ghost use Rattle.request_bounds.specs.Limits.{IsPast};
ghost use Rattle.client_model.specs.meaning.States.{resumed};
ghost use Rattle.client_model.specs.meaning.Told.{told_of};
ghost use Rattle.client_model.specs.meaning.Talk.{next_call, on_told as on_told_def, on_completed as on_completed_def, after_completed};
ghost use Rattle.driver_core.specs.Driving.{terms_of};
ghost use Rattle.driver_core.specs.Talking.{rest_of, step_in};

use crate::frames::OUTCOME_IS;
use crate::going::Before;
use crate::request::Request;
use crate::terms::{Here, Terms};
use crate::turn::Turn;
use client_model::{Failed, Shown, Track};
use replay_core::{Asked, Fresh, Live, Told};
use request_bounds::{BoundRule, Why};
use svc_values::{Answer, Answers, Draws, NoMemory};

impl<R: BoundRule + Copy> Terms<R> {
    /// The step for each thing that an outcome leads to.
    pub(crate) fn on_outcome(
        &self,
        request: &mut Request,
        asked: Asked,
        committed: bool,
        completed: bool,
        here: Here,
    ) -> Result<Turn, NoMemory>
        requires made { AllByRecursion IsMade request.old.left.items }
        requires room { asked.track.call + 1 < 2 ^ 64 }
        requires past { IsPast asked.track.first here.now }
        requires before { length asked.track.recorder.calls ≤ asked.track.call }
        ensures { let terms = terms_of (R.rules self.now.rule) self.now.limits self.now.recorded in
            IfOk result (λ turn. step_in (rest_of request.new) turn
            ≡ on_told_def terms (rest_of request.old) asked here.alive here.now
            (told_of asked committed completed self.now.limits here.now)) }
    {
        let ltxid = *asked.ltxid();
        let failed = match asked.answer(committed, completed, &self.limits, here.now) {
            Told::Committed(fresh) => return self.on_completed(request, fresh, here),
            Told::Replay(replaying) => return self.repeat(request, replaying, here, Before::Begin),
            Told::Incomplete(_over) => Failed::Incomplete { ltxid },
            Told::Disabled(over, why) => Failed::Disabled {
                why,
                event: over.event,
            },
            Told::Replays(over) => Failed::Replays {
                limit: self.limits.replays,
                event: over.event,
            },
            Told::Late(over) => Failed::ReplayTimeout {
                first: over.track.first.unwrap_or(0),
                ready: here.now,
            },
        };
        Turn::fail(self.alloc, here.alive, None, failed)
    }

    /// The lost call is committed and completed. It is shown with that one answer, as if it were a
    /// reply.
    fn on_completed(
        &self,
        request: &mut Request,
        fresh: Fresh,
        here: Here,
    ) -> Result<Turn, NoMemory>
        requires made { AllByRecursion IsMade request.old.left.items }
        requires room { fresh.track.call + 1 < 2 ^ 64 }
        ensures { IfOk result (λ turn. step_in (rest_of request.new) turn
            ≡ on_completed_def (terms_of (R.rules self.now.rule) self.now.limits self.now.recorded)
            (rest_of request.old) (resumed fresh) fresh.event here.alive here.now
            (next_call (rest_of request.old))) }
    {
        let event = fresh.event();
        let Some(call) = request.take() else {
            return Turn::fail(
                self.alloc,
                here.alive,
                None,
                Failed::BadPeer { tag: OUTCOME_IS },
            );
        };
        let mut answers = Vec::new(self.alloc);
        answers.push(Answer::Committed)?;
        let answers = Answers::from_vec(answers);
        let draws = Draws::new(self.alloc);
        let after = self.rule.on_reply(answers.as_slice());
        request.settle(self.alloc, self.rule.keeps_settings(), &call, after)?;
        let (track, held) = fresh.resume().part();
        let live = held.join(self.show(track, call, after, &answers, &draws)?);
        let ltxid = *live.ltxid();
        let shown = Shown {
            answers,
            draws,
            ltxid,
        };
        self.go_on_behind(request, live, event, here, shown)
    }

    /// Whether a session that is lost takes settings with it that were shown.
    fn loses_settings(&self, track: &Track) -> bool
        ensures { result ≡ (track.now.set_shown && not (R.rules self.now.rule).keeps) }
    {
        track.set_shown && !self.rule.keeps_settings()
    }

    /// Behind a call that an outcome showed: where another call follows and a `set` was shown, the
    /// settings are gone with the lost session, unless the rule keeps them.
    fn go_on_behind(
        &self,
        request: &Request,
        live: Live,
        event: u64,
        here: Here,
        shown: Shown,
    ) -> Result<Turn, NoMemory>
        requires { AllByRecursion IsMade request.now.left.items }
        ensures { IfOk result (λ turn. step_in (rest_of request.now) turn
            ≡ after_completed (terms_of (R.rules self.now.rule) self.now.limits self.now.recorded)
            (rest_of request.now) live event here.alive shown here.now
            (next_call (rest_of request.now))) }
    {
        let Some(call) = request.next() else {
            return Turn::end(self.alloc, here.alive, Some(shown));
        };
        let (track, held) = live.part();
        if self.loses_settings(&track) {
            let why = Why::StateLost(track.call);
            return Turn::fail(
                self.alloc,
                here.alive,
                Some(shown),
                Failed::Disabled { why, event },
            );
        }
        self.send_call(
            request,
            held.join(track),
            here,
            Before::Begin,
            Some(shown),
            call,
        )
    }
}
