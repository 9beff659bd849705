//! What `==` of answers, draws and calls tells. The function does nothing, and its contract is the
//! law.
#![tactic(auto)]

ghost use Rattle.std.specs.Prelude.{◌≡◌};
ghost use Rattle.svc_values.specs.meaning.Same.{same_answer, same_call, same_draw};

use svc_values::{Answer, Call, Draw};

/// `==` of answers, of draws and of calls is their test of equality.
pub fn tests_equality()
    ensures answers { ⟦<Answer as PartialEq>⟧.eq ≡ same_answer }
    ensures draws { ⟦<Draw as PartialEq>⟧.eq ≡ same_draw }
    ensures calls { ⟦<Call as PartialEq>⟧.eq ≡ same_call }
{}
