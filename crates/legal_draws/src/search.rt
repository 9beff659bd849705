//! Values that are drawn and not told.
ghost use Rattle.std.specs.Prelude.{◌≡◌, ◌++◌, IfOk, IsTrue, OnOk};
ghost use Rattle.server_model.specs.meaning.NewValues.{meets_with as meets_with_def};
ghost use Rattle.legal_draws.specs.Trials.{FailsBehind};

use crate::numbers::Numbers;
use crate::ways::Given;
use std::alloc::Global;
use svc_values::{Draw, DrawKind, NoMemory};

/// A test of draws.
pub trait Trial {
    ghost use Rattle.std.specs.Prelude.{Bool, List};
    ghost use Rattle.svc_values.specs.declared.draw.Draw.{Draw as One};
    ghost use Rattle.legal_draws.specs.Trials.{FailsBehind as Fails};

    ghost test: { Self → List One → Bool };

    /// Whether these draws meet it.
    fn meets(&self, draws: &[Draw]) -> Result<bool, NoMemory>
        ensures { IfOk result (λ met. met ≡ test self.now draws.now) };

    /// Whether it is known of these first draws that none meet it which begin with them.
    fn fails_behind(&self, draws: &[Draw]) -> Result<bool, NoMemory>
        ensures { IfOk result (λ fails. IsTrue fails → Fails (test self.now) draws.now) };
}

/// A search for draws that meet a test, at this tick.
#[derive(Drop)]
struct Search<'a, T> {
    alloc: Global,
    trial: &'a T,
    tick: u64,
}

impl<T: Trial> Search<'_, T> {
    /// Whether it is known, when the first way was in vain and before the second one is tried, that
    /// none behind these draws meets the test.
    fn is_in_vain(&self, draws: &[Draw], way: u64) -> Result<bool, NoMemory>
        ensures { IfOk result (λ fails. IsTrue fails
            → FailsBehind (T.test self.now.trial.now) draws.now) }
    {
        if way != 1 {
            return Ok(false);
        }
        let fails = self.trial.fails_behind(draws)?;
        Ok(fails)
    }

    /// Whether some values for what is asked meet the test behind these draws.
    fn meets_behind(
        &self,
        draws: &mut Vec<Draw>,
        asked: &[DrawKind],
        numbers: &Numbers,
    ) -> Result<bool, NoMemory>
        ensures met { IfOk result (λ met. met ≡ meets_with_def
            (λ more. T.test self.now.trial.now (draws.old.items ++ more))
            self.now.tick asked.now numbers.now) }
        ensures same { OnOk result (draws.new.items ≡ draws.old.items) }
    {
        let [kind, more @ ..] = asked else {
            return self.trial.meets(draws.as_slice());
        };
        for way in 0..numbers.ways(kind)? {
            if self.is_in_vain(draws.as_slice(), way)? {
                return Ok(false);
            }
            let Given { draw, after } = numbers.given(self.alloc, self.tick, kind, way)?;
            draws.push(draw)?;
            let met = self.meets_behind(draws, more, &after)?;
            draws.pop();
            if met {
                return Ok(true);
            }
        }
        Ok(false)
    }
}

/// Whether with some new values for what is asked the test is met, at this tick.
///
/// It tries them depth first, in the order in which they may be given, and ends at the first that
/// meet the test. Only the first value of each sequence is in doubt, among one more than the blocks
/// that may stand. Where the first of several was in vain, the test is asked whether it is known to
/// fail behind the values before it; where it is, no other one is tried.
///
/// So a call that meets the test with the first values costs one trial. One that meets it with no
/// values costs at most the product of these numbers over its sequences, and twice that in trials.
/// No limit is set to it, since a call with a limit could not tell what is so. Each trial takes a
/// copy of the sequences for each value besides.
pub fn meets_with<T: Trial>(
    alloc: Global,
    trial: &T,
    tick: u64,
    asked: &[DrawKind],
    numbers: &Numbers,
) -> Result<bool, NoMemory>
    ensures { IfOk result (λ met.
        met ≡ meets_with_def (T.test trial.now) tick asked.now numbers.now) }
{
    let search = Search { alloc, trial, tick };
    let mut draws = Vec::new(alloc);
    search.meets_behind(&mut draws, asked, numbers)
}
