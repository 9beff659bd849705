//! Slots, and tries to open a connection.
ghost use Rattle.std.specs.Prelude.{◌≡◌, ◌+◌, ◌<◌, ◌≤◌, ◌^◌, IfOk};
ghost use Rattle.client_model.specs.meaning.Talk.{waits_from as waits_from_def, on_waiting as on_waiting_def, on_try_failed as on_try_failed_def};
ghost use Rattle.driver_core.specs.Driving.{terms_of};
ghost use Rattle.driver_core.specs.Talking.{phase_of, talk_of, rest_of, step_in};

use crate::phase::Phase;
use crate::request::Request;
use crate::terms::Terms;
use crate::turn::Turn;
use client_model::Failed;
use request_bounds::BoundRule;
use svc_values::NoMemory;

/// Since when a request waits.
fn waits_from(phase: &Phase, now: u64) -> u64
    ensures { result ≡ waits_from_def (phase_of phase.now) now }
{
    match phase {
        Phase::Queued { from: Some(from) } => *from,
        _ => now,
    }
}

impl<R: BoundRule + Copy> Terms<R> {
    /// Still no slot: the request waits on, or has waited too long.
    pub(crate) fn on_waiting(
        &self,
        request: &Request,
        phase: Phase,
        now: u64,
    ) -> Result<Turn, NoMemory>
        requires { waits_from_def (phase_of phase) now ≤ now }
        ensures { IfOk result (λ turn. step_in (rest_of request.now) turn
            ≡ on_waiting_def (terms_of (R.rules self.now.rule) self.now.limits self.now.recorded)
            (rest_of request.now) (waits_from_def (phase_of phase) now) now) }
    {
        let first = waits_from(&phase, now);
        if self.limits.waited(first, now) {
            return Turn::fail(self.alloc, false, None, Failed::PoolWait { first, now });
        }
        Ok(Turn::quiet(self.alloc, Phase::Queued { from: Some(first) }))
    }

    /// The server is down: the request tries again, or has tried too often.
    pub(crate) fn on_try_failed(
        &self,
        request: &mut Request,
        phase: Phase,
        now: u64,
    ) -> Result<Turn, NoMemory>
        requires { request.old.tries + 1 < 2 ^ 64 }
        ensures { IfOk result (λ turn. step_in (rest_of request.new) turn
            ≡ on_try_failed_def (terms_of (R.rules self.now.rule) self.now.limits self.now.recorded)
            (talk_of request.old (phase_of phase)) now) }
    {
        request.tries += 1;
        request.last_try = Some(now);
        if self.limits.spent(request.tries) {
            let tries = request.tries;
            return Turn::fail(self.alloc, false, None, Failed::Retries { tries });
        }
        Ok(Turn::quiet(self.alloc, Phase::Seeking { lost: phase.lost() }))
    }
}
