//! Conversations as tables: a driver is given what comes, line by line, and does what the line
//! says.
ghost use Rattle.std.specs.Prelude.{◌≡◌, ◌≤◌, length};
ghost use Rattle.std.specs.List.{AllByRecursion};
ghost use Rattle.svc_values.specs.Calls.{IsMade};
ghost use Rattle.driver_core.specs.Driving.{ArePast, HasLtxids};

use crate::acts::are_done;
use crate::lines::{Line, Parts, input};
use crate::script::{Does, call};
use auto_bounds::AutoRule;
use driver_core::{Act, Driver, Input, stays_past};
use request_bounds::{BoundRule, Clocked, DynamicRule, OffRule, StaticRule};
use std::alloc::Global;
use std::process::Abort;
use svc_values::{Call, Settings};

/// No delay, and little of everything else.
pub const LIMITS: Clocked = Clocked {
    retries: 3,
    delay: 0,
    timeout: 5,
    replays: 4,
    wait: 5,
};

/// A step, where the driver takes this input.
fn step<R: BoundRule + Copy>(rt: &impl Abort, driver: &mut Driver<R>, input: Input, now: u64) -> Act
    requires past { ArePast driver.old.talk now }
    requires ltxids { HasLtxids input }
    ensures { ArePast driver.new.talk now }
{
    assert!(rt; driver.may_come(&input, now));
    driver.step(input, now).expect(rt, "a step")
}

/// The calls of a script.
#[tactic(auto, using(crate::proofs::Made::made_last))]
fn calls(rt: &impl Abort, alloc: Global, script: &[Does]) -> Vec<Call>
    ensures made { AllByRecursion IsMade result.items }
    ensures many { length result.items ≡ length script.now }
{
    let mut calls = Vec::new(alloc);
    for does in script {
        calls.push(call(rt, alloc, *does)).expect(rt, "a call");
    }
    calls
}

/// Whether a driver does all that the lines say, from a tick on, and the tick that it came to.
fn goes_on<R: BoundRule + Copy>(
    rt: &impl Abort,
    alloc: Global,
    driver: &mut Driver<R>,
    calls: &[Call],
    lines: &[Line],
    from: u64,
) -> (bool, u64)
    requires { ArePast driver.old.talk from }
    ensures { ArePast driver.new.talk result.1 }
{
    let mut now = from;
    for (tick, comes, expected) in lines {
        assert!(rt; now <= *tick);
        stays_past();
        now = *tick;
        let input = input(rt, alloc, *comes);
        let act = step(rt, driver, input, now);
        if !are_done(rt, alloc, &act, expected, calls) {
            return (false, now);
        }
    }
    (true, now)
}

/// Whether a driver under this rule and these limits, which records so many calls at most, does all
/// that the lines say.
pub fn goes_within<R: BoundRule + Copy>(
    rt: &impl Abort,
    alloc: Global,
    rule: R,
    limits: Clocked,
    recorded: u64,
    script: &[Does],
    parts: Parts,
) -> bool
    requires some { 1 ≤ length script.now }
    requires few { length script.now ≤ 1024 }
{
    let mut driver = Driver::new(alloc, rule, limits, recorded);
    driver.request(Settings::new(alloc), calls(rt, alloc, script));
    let calls = calls(rt, alloc, script);
    let mut now = 0;
    for lines in parts {
        let (goes, tick) = goes_on(rt, alloc, &mut driver, calls.as_slice(), lines, now);
        if !goes {
            return false;
        }
        now = tick;
    }
    true
}

/// The same within `LIMITS`, where two calls are recorded.
fn goes<R: BoundRule + Copy>(
    rt: &impl Abort,
    alloc: Global,
    rule: R,
    script: &[Does],
    parts: Parts,
) -> bool
    requires some { 1 ≤ length script.now }
    requires few { length script.now ≤ 1024 }
{
    goes_within(rt, alloc, rule, LIMITS, 2, script, parts)
}

/// A rule that says where a replay begins and what ends it.
#[derive(Clone, Copy)]
pub enum Rule {
    Off,
    Static,
    Dynamic,
    Auto,
}

/// The conversation of a request: its rule, its calls, and the lines.
pub type Conversation<'a> = (Rule, &'a [Does], Parts<'a>);

/// Whether a driver does all that the lines say, where there are calls, and not too many.
fn goes_by(rt: &impl Abort, alloc: Global, rule: Rule, script: &[Does], parts: Parts) -> bool {
    if script.is_empty() || script.len() > 1024 {
        return false;
    }
    match rule {
        Rule::Off => goes(rt, alloc, OffRule, script, parts),
        Rule::Static => goes(rt, alloc, StaticRule, script, parts),
        Rule::Dynamic => goes(rt, alloc, DynamicRule, script, parts),
        Rule::Auto => goes(rt, alloc, AutoRule, script, parts),
    }
}

/// Sees that a driver does all that the lines of each conversation say.
pub fn all_go(rt: &impl Abort, alloc: Global, conversations: &[Conversation]) {
    for (at, (rule, script, parts)) in conversations.iter().enumerate() {
        assert!(rt;
            goes_by(rt, alloc, *rule, script, parts),
            "conversation {at}"
        );
    }
}
