//! A call that is shown: what the rule makes of its reply.
ghost use Rattle.std.specs.Prelude.{◌≡◌, ◌+◌, ◌<◌, ◌^◌, IfOk};
ghost use Rattle.svc_values.specs.Calls.{IsMade};
ghost use Rattle.client_model.specs.meaning.Talk.{is_set, recorded_as, with_recorded, with_reply, with_counted};
ghost use Rattle.driver_core.specs.Driving.{terms_of};

use crate::terms::Terms;
use call_recorder::Seen;
use client_model::Track;
use request_bounds::{After, BoundRule, Why};
use result_digest::digest_of;
use svc_values::{Answers, Call, Draws, NoMemory, TryCopy};

impl<R: BoundRule + Copy> Terms<R> {
    /// The track behind a call that was shown with these answers and draws, where this is what the
    /// rule makes of the answers.
    pub(crate) fn show(
        &self,
        mut track: Track,
        call: Call,
        after: After,
        answers: &Answers,
        draws: &Draws,
    ) -> Result<Track, NoMemory>
        requires made { IsMade call }
        requires room { track.call + 1 < 2 ^ 64 }
        ensures { let terms = terms_of (R.rules self.now.rule) self.now.limits self.now.recorded in
            IfOk result (λ shown. shown ≡ with_counted
            (with_reply terms track (recorded_as terms call answers.now draws.now) after) call) }
    {
        let is_set = matches!(call, Call::Set { .. });
        match after {
            After::Record => track = self.record(track, call, answers, draws)?,
            After::Purge => track.recorder.purge(),
            After::Stop(why) => track.why = track.why.or(Some(why)),
        }
        track.set_shown = track.set_shown || is_set;
        track.call += 1;
        Ok(track)
    }

    /// Records a call where no reason stands. A recorder that is full is a reason.
    fn record(
        &self,
        mut track: Track,
        call: Call,
        answers: &Answers,
        draws: &Draws,
    ) -> Result<Track, NoMemory>
        requires { IsMade call }
        ensures call { IfOk result (λ recorded. recorded.call ≡ track.call) }
        ensures recorded { let terms = terms_of (R.rules self.now.rule) self.now.limits
            self.now.recorded in IfOk result (λ recorded. recorded
            ≡ with_recorded terms track (recorded_as terms call answers.now draws.now) track.why) }
    {
        if track.why.is_some() {
            return Ok(track);
        }
        if track.recorder.len() as u64 >= self.recorded {
            track.why = Some(Why::Full(self.recorded));
            return Ok(track);
        }
        let digest = digest_of(self.alloc, answers.as_slice())?;
        let draws = draws.copy(self.alloc)?;
        // It is not full, so memory was refused.
        match track.recorder.note(call, Seen { digest }, draws) {
            Ok(()) => Ok(track),
            Err(_) => Err(NoMemory),
        }
    }
}
