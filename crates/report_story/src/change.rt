//! Changes of all connections that are named in one way.
ghost use Rattle.std.specs.Prelude.{◌≡◌, map, OnOk};
ghost use Rattle.shown_clauses.specs.meaning.Links.{turn_begun, call_served, acquire, take_reply};
ghost use Rattle.report_story.specs.Changes.{changed, reply_added};
ghost use Rattle.report_story.specs.Placing.{identity_of, is_which};

use crate::line::Line;
use crate::which::Which;
use outage_schedule::Served;
use std::alloc::Global;
use svc_values::{Call, NoMemory};

/// What becomes of a connection. Its number and its session stay.
pub(crate) trait Change<'a> {
    ghost use Rattle.shown_clauses.specs.meaning.Links.{Link};

    ghost change: { Self → Link → Link };

    fn apply(&self, line: &mut Line<'a>) -> Result<(), NoMemory>
        ensures is { OnOk result (line.new ≡ change self.now line.old) }
        ensures identity { identity_of line.new ≡ identity_of line.old };
}

/// Changes the connection, if it is named so.
fn change_if<'a, C: Change<'a>>(
    line: &mut Line<'a>,
    which: Which,
    change: &C,
) -> Result<(), NoMemory>
    ensures is { OnOk result (line.new
        ≡ changed (is_which which) (C.change change.now) line.old) }
    ensures identity { identity_of line.new ≡ identity_of line.old }
{
    if line.is_which(which) {
        return change.apply(line);
    }
    Ok(())
}

/// Changes each connection that is named so. Linear in the number of all.
pub(crate) fn change_all<'a, C: Change<'a>>(
    lines: &mut [Line<'a>],
    which: Which,
    change: &C,
) -> Result<(), NoMemory>
    ensures is { OnOk result (lines.new
        ≡ map (changed (is_which which) (C.change change.now)) lines.old) }
    ensures identities { map identity_of lines.new ≡ map identity_of lines.old }
{
    for line in lines.iter_mut() {
        change_if(line, which, change)?;
    }
    Ok(())
}

/// A reply was served.
#[derive(Clone, Copy)]
pub(crate) struct Replied<'a> {
    pub(crate) one: &'a Served,
}

impl<'a> Change<'a> for Replied<'a> {
    ghost change = { λ s. reply_added s.one.now };

    fn apply(&self, line: &mut Line<'a>) -> Result<(), NoMemory> {
        line.add_reply(self.one)
    }
}

/// A session served a `begin`.
#[derive(Clone, Copy)]
pub(crate) struct Begun {
    pub(crate) alloc: Global,
    pub(crate) event: u64,
}

impl<'a> Change<'a> for Begun {
    ghost change = { λ s. turn_begun };

    fn apply(&self, line: &mut Line<'a>) -> Result<(), NoMemory> {
        line.begin(self.alloc, self.event);
        Ok(())
    }
}

/// A session served a call.
#[derive(Clone, Copy)]
pub(crate) struct Called<'a> {
    pub(crate) event: u64,
    pub(crate) replay: bool,
    pub(crate) call: &'a Call,
}

impl<'a> Change<'a> for Called<'a> {
    ghost change = { λ s. call_served s.replay s.call.now };

    fn apply(&self, line: &mut Line<'a>) -> Result<(), NoMemory> {
        line.add_call(self.event, self.replay, self.call)
    }
}

/// A client was lent a connection.
#[derive(Clone, Copy)]
pub(crate) struct Lent {
    pub(crate) client: u64,
    pub(crate) event: u64,
}

impl<'a> Change<'a> for Lent {
    ghost change = { λ s. acquire s.client s.event };

    fn apply(&self, line: &mut Line<'a>) -> Result<(), NoMemory> {
        line.acquire(self.client, self.event);
        Ok(())
    }
}

/// A client took a reply.
#[derive(Clone, Copy)]
pub(crate) struct Taken {
    pub(crate) client: u64,
    pub(crate) event: u64,
}

impl<'a> Change<'a> for Taken {
    ghost change = { λ s. take_reply s.client s.event };

    fn apply(&self, line: &mut Line<'a>) -> Result<(), NoMemory> {
        line.take_reply(self.client, self.event);
        Ok(())
    }
}
