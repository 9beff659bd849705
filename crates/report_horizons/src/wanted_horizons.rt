//! The horizon at each event, below which outcomes are forgotten.
ghost use Rattle.std.specs.Prelude.{◌≡◌, ◌≤◌, ◌++◌, [], Some, true, false, length, max, nat_lt, OnOk};
ghost use Rattle.std.specs.List.Sorted.{IsPartitionPoint};
ghost use Rattle.run_clauses.specs.meaning.Horizons.{raised as raised_def};
ghost use Rattle.report_horizons.specs.Horizons.{wanted_with, part_before, most_by, last_event, AreOrdered};

use std::alloc::Global;
use std::marker::Model;
use svc_values::NoMemory;

/// The opening of this event: the horizon that it wants, and the greatest that it or one before it
/// wants. A horizon has more bits than a report's numbers, since it is one more than an
/// incarnation.
#[derive(Clone, Copy)]
struct Opening {
    event: u64,
    horizon: u128,
    most: u128,
}

/// The horizons that openings want, each at its event, in the order of the events.
#[derive(Drop)]
pub struct WantedHorizons {
    openings: Vec<Opening>,
    most: u128,
}

impl Model for WantedHorizons {
    ghost use Rattle.std.specs.Prelude.{List, map};
    ghost use Rattle.run_clauses.specs.meaning.Horizons.{Wanted};
    ghost use Rattle.report_horizons.specs.Horizons.{opening_as, AreOrdered};

    ghost Value = { List Wanted };

    ghost view = { λ w. map opening_as w.openings.items };

    ghost invariant = { λ w. AreOrdered 0 0 w.openings.items w.most };
}

pub(crate) fn greater(one: u128, other: u128) -> u128
    ensures { result ≡ max one other }
{
    if one < other { other } else { one }
}

/// Whether an opening is of an event before this one.
fn is_before(one: &Opening, event: u64) -> bool
    ensures { result ≡ nat_lt one.now.event event }
{
    one.event < event
}

/// How many openings are before an event.
fn count_before(openings: &[Opening], greatest: u128, event: u64) -> usize
    requires { AreOrdered 0 0 openings.now greatest }
    ensures point { IsPartitionPoint (λ one. nat_lt one.event event ≡ true)
        (λ one. nat_lt one.event event ≡ false) openings.now result }
    ensures within { result ≤ length openings.now }
{
    openings.partition_point(|one| is_before(one, event))
}

impl WantedHorizons {
    /// None yet. It takes no memory.
    pub(crate) fn new(alloc: Global) -> WantedHorizons
        ensures { result ≡ [] }
    {
        WantedHorizons {
            openings: Vec::new(alloc),
            most: 0,
        }
    }

    /// The opening of an event that is not before the others wants this horizon.
    fn push(&mut self, event: u64, horizon: u128) -> Result<(), NoMemory>
        requires { last_event 0 self.old ≤ event }
        ensures { OnOk result (self.new ≡ self.old ++ wanted_with event (Some horizon)) }
    {
        let most = greater(self.most, horizon);
        self.openings.push(Opening {
            event,
            horizon,
            most,
        })?;
        self.most = most;
        Ok(())
    }

    /// The same, if there is an opening at the event.
    pub(crate) fn put(&mut self, event: u64, horizon: Option<u128>) -> Result<(), NoMemory>
        requires { last_event 0 self.old ≤ event }
        ensures { OnOk result (self.new ≡ self.old ++ wanted_with event horizon) }
    {
        match horizon {
            Some(horizon) => self.push(event, horizon),
            None => Ok(()),
        }
    }

    /// The greatest horizon that an opening before an event wants, and 0 where none is before it.
    /// It takes the logarithm of their number.
    fn most_before(&self, event: u64) -> u128
        ensures { result ≡ most_by (part_before event) self.now }
    {
        let before = count_before(self.openings.as_slice(), self.most, event);
        if before == 0 {
            return 0;
        }
        self.openings[before - 1].most
    }
}

/// The horizon at an event: the image's, raised by each opening before it. It takes the logarithm
/// of the number of openings.
pub fn raised(image: u64, wanted: &WantedHorizons, event: u64) -> u128
    ensures { result ≡ raised_def image wanted.now event }
{
    greater(image as u128, wanted.most_before(event))
}
