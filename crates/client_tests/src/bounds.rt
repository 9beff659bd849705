ghost use Rattle.svc_values.specs.Calls.{IsMade};

use auto_bounds::AutoRule;
use request_bounds::{After, BoundRule, Clocked, DynamicRule, OffRule, StaticRule, Why};
use std::alloc::Global;
use std::process::Abort;
use svc_values::{Answer, Call, Name, Statements, Value};

const LIMITS: Clocked = Clocked {
    retries: 30,
    delay: 10,
    timeout: 5,
    replays: 4,
    wait: 5,
};

fn set(rt: &impl Abort, alloc: Global) -> Call
    ensures { IsMade result }
{
    Call::Set {
        name: Name::new(alloc, "lang").expect(rt, "a name"),
        value: Value::Int(1),
    }
}

#[test]
fn each_rule_tells_what_ends_a_replay(rt: HostRuntime) {
    assert!(rt; DynamicRule.on_reply(&[Answer::Committed]) == After::Stop(Why::AfterCommit));
    assert!(rt; StaticRule.on_reply(&[Answer::Done(1), Answer::Conflict]) == After::Purge);
    assert!(rt; StaticRule.on_reply(&[Answer::RolledBack]) == After::Record);
    let set = set(&rt, rt.alloc());
    assert!(rt; StaticRule.on_submit(&set, 3) == Some(Why::Settings(3)));
    assert!(rt; DynamicRule.on_submit(&set, 3) == None);
    let none = Statements::of(rt.alloc(), Vec::new(rt.alloc())).expect(&rt, "memory");
    let commit = Call::work(none, true).expect(&rt, "a commit");
    assert!(rt; OffRule.on_submit(&commit, 0) == Some(Why::Off));
}

#[test]
fn kept_settings_end_nothing(rt: HostRuntime) {
    assert!(rt; AutoRule.keeps_settings());
    assert!(rt; AutoRule.on_reply(&[Answer::Committed]) == After::Purge);
    assert!(rt; AutoRule.on_reply(&[Answer::Done(1), Answer::Conflict]) == After::Purge);
    assert!(rt; AutoRule.on_reply(&[Answer::RolledBack]) == After::Record);
    assert!(rt; AutoRule.on_submit(&set(&rt, rt.alloc()), 3) == None);
    assert!(rt; AutoRule.on_submit(&Call::Disable, 3) == Some(Why::Asked(3)));
}

#[test]
fn limits_end_at_their_last_tick(rt: HostRuntime) {
    assert!(rt; LIMITS.may_try(0, None));
    assert!(rt; !LIMITS.may_try(9, Some(0)) && LIMITS.may_try(10, Some(0)));
    assert!(rt; !LIMITS.spent(29) && LIMITS.spent(30));
    assert!(rt; !LIMITS.late(0, 5) && LIMITS.late(0, 6));
    assert!(rt; !LIMITS.waited(0, 4) && LIMITS.waited(0, 5));
}

/// What a rule does to a call and its reply, for any rule.
fn stops<R: BoundRule>(rule: &R, call: &Call, answers: &[Answer]) -> bool
    requires { IsMade call.now }
{
    rule.on_submit(call, 0).is_some() || matches!(rule.on_reply(answers), After::Stop(_))
}

#[test]
fn rules_serve_through_their_bound(rt: HostRuntime) {
    assert!(rt; stops(&OffRule, &Call::Rollback, &[Answer::RolledBack]));
    assert!(rt; !stops(&StaticRule, &Call::Rollback, &[Answer::Committed]));
    assert!(rt; !stops(&AutoRule, &Call::Rollback, &[Answer::Committed]));
    assert!(rt; stops(&DynamicRule, &Call::Rollback, &[Answer::Committed]));
}
