//! What each rule promises.
ghost use Rattle.std.specs.Prelude.{◌≡◌};
ghost use Rattle.svc_values.specs.Calls.{IsMade};
ghost use Rattle.request_bounds.specs.meaning.Rules.{Rules};
ghost use Rattle.request_bounds.specs.Law.{IsLawful};

use crate::rule::{After, Why};
use svc_values::{Answer, Call};

/// Tells how far a request stays protected. Its answers follow from the call or the answers alone,
/// and none of its methods takes memory.
pub trait BoundRule {
    ghost rules: { Self → Rules };

    /// Whether the submission of this call, which has this index in its request, ends the
    /// protection.
    fn on_submit(&self, call: &Call, index: u64) -> Option<Why>
        requires { IsMade call.now }
        ensures { result ≡ (rules self.now).submit call.now index };

    /// What a reply with these answers does.
    fn on_reply(&self, answers: &[Answer]) -> After
        ensures { result ≡ (rules self.now).reply answers.now };

    /// Whether the settings that were shown last are given to the next session.
    fn keeps_settings(&self) -> bool
        ensures { result ≡ (rules self.now).keeps };

    ghost lawful: { (rule : Self) → IsLawful (rules rule) };
}
