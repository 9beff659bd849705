//! Where a step leads.
ghost use Rattle.std.specs.Prelude.{◌≡◌, [], ◌∷◌, IfOk};
ghost use Rattle.client_model.specs.meaning.Talk.{quiet as quiet_def, sending as sending_def, closing, ending};
ghost use Rattle.driver_core.specs.declared.phase.Phase.TheVariants.{Idle};

use crate::frames::{if_alive, only};
use crate::phase::Phase;
use client_model::{Act, Failed, Frames, Hold, Shown};
use std::alloc::Global;
use svc_values::{NoMemory, Up};

/// Where a step leads, and what is done.
#[derive(Drop)]
pub(crate) struct Turn {
    pub(crate) phase: Phase,
    pub(crate) act: Act,
}

impl Turn {
    /// Nothing is done.
    pub(crate) fn quiet(alloc: Global, phase: Phase) -> Turn
        ensures { result ≡ record { phase = phase; act = quiet_def } }
    {
        Turn {
            phase,
            act: Act {
                send: Frames::new(alloc),
                shown: None,
                failed: None,
                hold: Hold::Keep,
            },
        }
    }

    /// A frame goes out, and nothing else is done.
    pub(crate) fn sending(alloc: Global, phase: Phase, frame: Up) -> Result<Turn, NoMemory>
        ensures { IfOk result (λ turn. turn ≡ record {
          phase = phase;
          act =
              sending_def (frame ∷ []);
        }) }
    {
        Ok(Turn {
            phase,
            act: Act {
                send: only(alloc, frame)?,
                shown: None,
                failed: None,
                hold: Hold::Keep,
            },
        })
    }

    /// The request fails: it closes its connection, if there is one, and gives up its slot.
    pub(crate) fn fail(
        alloc: Global,
        alive: bool,
        shown: Option<Shown>,
        failed: Failed,
    ) -> Result<Turn, NoMemory>
        ensures { IfOk result (λ turn. turn ≡ record {
          phase = Idle;
          act =
              closing alive shown failed;
        }) }
    {
        Ok(Turn {
            phase: Phase::Idle,
            act: Act {
                send: if_alive(alloc, alive, Up::Close)?,
                shown,
                failed: Some(failed),
                hold: Hold::Drop,
            },
        })
    }

    /// The request is through: it ends on its connection and gives it back, if there is one to
    /// give.
    pub(crate) fn end(alloc: Global, alive: bool, shown: Option<Shown>) -> Result<Turn, NoMemory>
        ensures { IfOk result (λ turn. turn ≡ record { phase = Idle; act = ending alive shown }) }
    {
        Ok(Turn {
            phase: Phase::Idle,
            act: Act {
                send: if_alive(alloc, alive, Up::End)?,
                shown,
                failed: None,
                hold: if alive { Hold::GiveBack } else { Hold::Drop },
            },
        })
    }
}
