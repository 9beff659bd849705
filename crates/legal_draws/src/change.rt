//! What happens to all sequences of an opening at once.
ghost use Rattle.std.specs.Prelude.{◌≡◌, IfOk, if◌then◌else◌, map};
ghost use Rattle.std.specs.Str.{bytes_eq};
ghost use Rattle.server_model.specs.meaning.NewValues.{gave, reopened};
ghost use Rattle.legal_draws.specs.Asking.{stopped_by, unseen_by};

use crate::asked::asks_for;
use crate::count::Count;
use std::alloc::Global;
use svc_values::{DrawKind, Name, NoMemory};

/// What happens to a sequence.
pub(crate) trait Change {
    ghost use Rattle.server_model.specs.meaning.NewValues.{Count};

    ghost change: { Self → Count → Count };

    /// The sequence after it.
    fn of(&self, count: &Count) -> Result<Count, NoMemory>
        ensures { IfOk result (λ after. after ≡ change self.now count.now) };
}

/// The sequences after the change, in order.
pub(crate) fn all_changed<C: Change>(
    alloc: Global,
    change: &C,
    counts: &[Count],
) -> Result<Vec<Count>, NoMemory>
    ensures { IfOk result (λ after. after.items ≡ map (C.change change.now) counts.now) }
{
    let mut after = Vec::new(alloc);
    for count in counts {
        after.push(change.of(count)?)?;
    }
    Ok(after)
}

/// Nothing happens.
#[derive(Drop)]
pub(crate) struct Nothing;

impl Change for Nothing {
    ghost change = { λ s count. count };

    fn of(&self, count: &Count) -> Result<Count, NoMemory> {
        Ok(count.copied())
    }
}

/// A later opening begins.
#[derive(Drop)]
pub(crate) struct Reopened;

impl Change for Reopened {
    ghost change = { λ s count. reopened count };

    fn of(&self, count: &Count) -> Result<Count, NoMemory> {
        count.reopened()
    }
}

/// A call was stopped that asks for these.
#[derive(Drop)]
pub(crate) struct Stopped<'a> {
    pub(crate) asked: &'a [DrawKind],
}

impl Change for Stopped<'_> {
    ghost change = { λ s count. stopped_by s.asked.now count };

    fn of(&self, count: &Count) -> Result<Count, NoMemory> {
        count.stopped(asks_for(self.asked, count.name()))
    }
}

/// All of these were drawn, and told to nobody.
#[derive(Drop)]
pub(crate) struct Unseen<'a> {
    pub(crate) asked: &'a [DrawKind],
}

impl Change for Unseen<'_> {
    ghost change = { λ s count. unseen_by s.asked.now count };

    fn of(&self, count: &Count) -> Result<Count, NoMemory> {
        count.gave_often(asks_for(self.asked, count.name()))
    }
}

/// The sequence of this name gave its next value, in this way.
#[derive(Drop)]
pub(crate) struct Gave<'a> {
    pub(crate) name: &'a Name,
    pub(crate) way: &'a Count,
}

impl Change for Gave<'_> {
    ghost change = { λ s count. if bytes_eq count.name s.name.now then gave s.way.now else count };

    fn of(&self, count: &Count) -> Result<Count, NoMemory> {
        if count.has_name(self.name) {
            return self.way.gave();
        }
        Ok(count.copied())
    }
}
