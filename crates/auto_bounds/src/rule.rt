//! The rule.
ghost use Rattle.request_bounds.specs.meaning.Rules.{auto_rules};
ghost use Rattle.auto_bounds.specs.InnerLawful.{auto_lawful};

use request_bounds::{After, BoundRule, DynamicRule, StaticRule, Why};
use svc_values::{Answer, Call};

/// Settings are kept through a replay, so a `set` ends nothing, and recording begins anew after
/// each transaction. Of calls only an `alter` and a `disable` end the protection, and so does a
/// full recorder.
#[derive(Clone, Copy)]
pub struct AutoRule;

impl BoundRule for AutoRule {
    ghost rules = { λ _. auto_rules };

    ghost lawful = { λ _. auto_lawful };

    fn on_submit(&self, call: &Call, index: u64) -> Option<Why> {
        DynamicRule.on_submit(call, index)
    }

    fn on_reply(&self, answers: &[Answer]) -> After {
        StaticRule.on_reply(answers)
    }

    fn keeps_settings(&self) -> bool {
        true
    }
}
