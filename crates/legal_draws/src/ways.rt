//! What a draw may give.
ghost use Rattle.std.specs.Prelude.{◌≡◌, ◌<◌, ℕ, IfOk, Some, length, slice_get};
ghost use Rattle.server_model.specs.meaning.NewValues.{counted, given_ways, may_give, next_identifier};
ghost use Rattle.svc_values.specs.declared.draw.Draw.TheVariants as draw;

use crate::count::sum;
use crate::numbers::Numbers;
use std::alloc::Global;
use svc_values::{Draw, DrawKind, Name, NoMemory};

/// A value that may be drawn, and the numbers after it.
#[derive(Drop)]
pub(crate) struct Given {
    pub(crate) draw: Draw,
    pub(crate) after: Numbers,
}

impl Numbers {
    /// In how many ways a draw may go.
    pub(crate) fn ways(&self, kind: &DrawKind) -> Result<u64, NoMemory>
        ensures { IfOk result (λ ways. (now : ℕ) → length (may_give self.now now kind.now) ≡ ways) }
    {
        match kind {
            DrawKind::Seq(name) => self.ways_of(name),
            DrawKind::Clock | DrawKind::Id => Ok(1),
        }
    }

    /// In how many ways a value of the sequence of this name may be drawn.
    fn ways_of(&self, name: &Name) -> Result<u64, NoMemory>
        ensures { IfOk result (λ ways.
            length (given_ways self.now name.now self.now.counts) ≡ ways) }
    {
        match self.count(name) {
            Some(count) => {
                let ways = sum(count.maybe(), 1)?;
                Ok(ways)
            }
            None => Ok(0),
        }
    }

    /// What a draw gives in the way of this number, from 0.
    pub(crate) fn given(
        &self,
        alloc: Global,
        now: u64,
        kind: &DrawKind,
        way: u64,
    ) -> Result<Given, NoMemory>
        requires { way < length (may_give self.now now kind.now) }
        ensures { IfOk result (λ given.
            slice_get (may_give self.now now kind.now) way ≡ Some (given.draw, given.after)) }
    {
        match kind {
            DrawKind::Seq(name) => self.given_value(alloc, name, way),
            DrawKind::Clock => Ok(self.given_tick(alloc, now)?),
            DrawKind::Id => Ok(self.given_identifier(alloc)?),
        }
    }

    /// What the sequence of this name gives with so many of the blocks that may stand.
    fn given_value(&self, alloc: Global, name: &Name, blocks: u64) -> Result<Given, NoMemory>
        requires { blocks < length (given_ways self.now name.now self.now.counts) }
        ensures { IfOk result (λ given. slice_get (given_ways self.now name.now self.now.counts)
            blocks ≡ Some (given.draw, given.after)) }
    {
        let way = self.count(name).unwrap().way(blocks)?;
        let after = self.with_way(alloc, name, &way)?;
        let draw = Draw::Seq {
            name: name.copied(),
            value: way.next(),
        };
        Ok(Given { draw, after })
    }

    /// What the clock gives.
    fn given_tick(&self, alloc: Global, now: u64) -> Result<Given, NoMemory>
        ensures { IfOk result (λ given.
            (given.draw ≡ draw.Clock now) × (given.after ≡ self.now)) }
    {
        Ok(Given {
            draw: Draw::Clock { tick: now },
            after: self.copied(alloc)?,
        })
    }

    /// The identifier that is given.
    fn given_identifier(&self, alloc: Global) -> Result<Given, NoMemory>
        ensures { IfOk result (λ given. (given.draw ≡ draw.Id (next_identifier self.now))
            × (given.after ≡ counted self.now)) }
    {
        Ok(Given {
            draw: Draw::Id {
                id: self.next_identifier()?,
            },
            after: self.counted(alloc)?,
        })
    }
}
