//! The rules of a service without replay, with static and with dynamic session state.
ghost use Rattle.std.specs.Prelude.{◌≡◌};
ghost use Rattle.request_bounds.specs.meaning.Rules.{stopped_at as stopped_at_def, off_rules, static_rules, dynamic_rules};
ghost use Rattle.request_bounds.specs.meaning.Replies.{ends_decided as ends_decided_def};
ghost use Rattle.request_bounds.specs.InnerLawful.{off_lawful, static_lawful, dynamic_lawful};

use crate::bound::BoundRule;
use crate::rule::{After, Why};
use svc_values::{Answer, Call, ends_committed, ends_conflict};

/// No replay at all.
#[derive(Clone, Copy)]
pub struct OffRule;

/// Static session state: recording begins anew after each transaction, and a call that changes a
/// setting ends the protection.
#[derive(Clone, Copy)]
pub struct StaticRule;

/// Dynamic session state: the first transaction of a request that is decided ends its protection.
#[derive(Clone, Copy)]
pub struct DynamicRule;

/// Whether a commit was reached and decided: the last answer is `Committed` or `Conflict`.
fn ends_decided(answers: &[Answer]) -> bool
    ensures { result ≡ ends_decided_def answers.now }
{
    ends_committed(answers) || ends_conflict(answers)
}

/// The reason that a command gives under each rule that replays: what alters the service is not
/// repeated, and whoever asks not to be replayed is not.
fn stopped_at(call: &Call, index: u64) -> Option<Why>
    ensures { result ≡ stopped_at_def call.now index }
{
    match call {
        Call::Alter { .. } => Some(Why::Restricted(index)),
        Call::Disable => Some(Why::Asked(index)),
        Call::Work { .. } | Call::Set { .. } | Call::Rollback => None,
    }
}

impl BoundRule for OffRule {
    ghost rules = { λ _. off_rules };

    ghost lawful = { λ _. off_lawful };

    fn on_submit(&self, _call: &Call, _index: u64) -> Option<Why> {
        Some(Why::Off)
    }

    fn on_reply(&self, _answers: &[Answer]) -> After {
        After::Record
    }

    fn keeps_settings(&self) -> bool {
        false
    }
}

impl BoundRule for StaticRule {
    ghost rules = { λ _. static_rules };

    ghost lawful = { λ _. static_lawful };

    fn on_submit(&self, call: &Call, index: u64) -> Option<Why> {
        match call {
            Call::Set { .. } => Some(Why::Settings(index)),
            _ => stopped_at(call, index),
        }
    }

    fn on_reply(&self, answers: &[Answer]) -> After {
        if ends_decided(answers) {
            After::Purge
        } else {
            After::Record
        }
    }

    fn keeps_settings(&self) -> bool {
        false
    }
}

impl BoundRule for DynamicRule {
    ghost rules = { λ _. dynamic_rules };

    ghost lawful = { λ _. dynamic_lawful };

    fn on_submit(&self, call: &Call, index: u64) -> Option<Why> {
        stopped_at(call, index)
    }

    fn on_reply(&self, answers: &[Answer]) -> After {
        if ends_decided(answers) {
            After::Stop(Why::AfterCommit)
        } else {
            After::Record
        }
    }

    fn keeps_settings(&self) -> bool {
        false
    }
}
