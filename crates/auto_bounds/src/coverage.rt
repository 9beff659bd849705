//! How many calls of a request are protected.
ghost use Rattle.std.specs.Prelude.{◌≡◌, ◌+◌, ◌<◌, ◌^◌, IsTrue};
ghost use Rattle.svc_values.specs.Calls.{IsMade};
ghost use Rattle.auto_bounds.specs.Covered.{nothing_covered, submitted, showed, replied};

use request_bounds::{After, BoundRule};
use std::marker::Model;
use svc_values::{Answer, Call};

/// What of a request is protected, call by call, under a rule and a limit of recorded calls. A
/// call is
/// protected where nothing had ended the protection when it was submitted, its own submission
/// included.
#[derive(Clone, Copy)]
pub struct Coverage<R> {
    rule: R,
    limit: u64,
    shown: u64,
    guarded: u64,
    recorded: u64,
    stopped: bool,
    waits: bool,
}

impl<R> Model for Coverage<R> {
    ghost use Rattle.std.specs.Prelude.{◌≤◌};
    ghost use Rattle.auto_bounds.specs.Covered.{Covered};

    ghost Value = { Covered R };

    ghost view = { λ c. record {
      rule = c.rule;
      limit = c.limit;
      shown = c.shown;
      guarded =
          c.guarded;
      recorded = c.recorded;
      stopped = c.stopped;
      waits = c.waits;
    } };

    ghost inverse = { λ c. record {
      rule = c.rule;
      limit = c.limit;
      shown = c.shown;
      guarded =
          c.guarded;
      recorded = c.recorded;
      stopped = c.stopped;
      waits = c.waits;
    } };

    ghost invariant = { λ c. c.guarded ≤ c.shown };
}

impl<R: BoundRule> Coverage<R> {
    /// A request of which nothing was submitted, under this rule and with at most so many recorded
    /// calls.
    /// It takes no memory.
    pub fn new(rule: R, limit: u64) -> Coverage<R>
        ensures { result ≡ nothing_covered rule limit }
    {
        Coverage {
            rule,
            limit,
            shown: 0,
            guarded: 0,
            recorded: 0,
            stopped: false,
            waits: false,
        }
    }

    /// The call behind those that were shown goes out. It takes no memory.
    pub fn submit(&mut self, call: &Call)
        requires made { IsMade call.now }
        ensures { self.new ≡ submitted (R.rules self.old.rule) self.old call.now }
    {
        if self.rule.on_submit(call, self.shown).is_some() {
            self.stopped = true;
        }
        self.waits = true;
    }

    /// The call that was submitted last is shown with these answers. It takes no memory.
    pub fn show(&mut self, answers: &[Answer])
        requires waits { IsTrue self.old.waits }
        requires room { self.old.shown + 1 < 2 ^ 64 }
        ensures { self.new ≡ showed (R.rules self.old.rule) self.old answers.now }
    {
        if !self.stopped {
            self.guarded += 1;
        }
        self.shown += 1;
        self.waits = false;
        self.reply(answers);
    }

    /// What the reply with these answers does.
    fn reply(&mut self, answers: &[Answer])
        ensures { self.new ≡ replied self.old ((R.rules self.old.rule).reply answers.now) }
    {
        match self.rule.on_reply(answers) {
            After::Record if self.recorded < self.limit => self.recorded += 1,
            After::Record | After::Stop(_) => self.stopped = true,
            After::Purge => self.recorded = 0,
        }
    }

    /// How many calls were shown, and how many of them were protected. It takes no memory.
    pub fn counts(&self) -> (u64, u64)
        ensures { result ≡ (self.now.shown, self.now.guarded) }
    {
        (self.shown, self.guarded)
    }
}
