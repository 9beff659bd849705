//! What is left of a request.
ghost use Rattle.std.specs.Prelude.{◌≡◌, ◌++◌, OnOk, IfSome, drop};
ghost use Rattle.std.specs.List.{AllByRecursion};
ghost use Rattle.svc_values.specs.Calls.{IsMade};
ghost use Rattle.std.specs.Option.{option_copied};
ghost use Rattle.client_model.specs.meaning.Talk.{next_call, set_by, sets_by, settled, settled_by, waits_after};
ghost use Rattle.driver_core.specs.Driving.{unasked};
ghost use Rattle.driver_core.specs.Talking.{rest_of};

use request_bounds::After;
use std::alloc::Global;
use std::collections::VecDeque;
use std::mem;
use svc_values::{Call, Name, NoMemory, Settings, TryCopy, Value};

/// A request but for its phase: the settings that a Begin carries, and the ones that were set since
/// they were settled; the calls that are not shown yet; how many tries in a row failed, and at
/// which tick the last failed one was made.
#[derive(Drop)]
pub(crate) struct Request {
    pub(crate) settings: Settings,
    pub(crate) sets: Vec<(Name, Value)>,
    pub(crate) left: VecDeque<Call>,
    pub(crate) tries: u64,
    pub(crate) last_try: Option<u64>,
}

/// Puts these settings, one after the other.
fn put_all(settings: &mut Settings, sets: Vec<(Name, Value)>) -> Result<(), NoMemory>
    ensures { OnOk result (settings.new ≡ settled settings.old sets.items) }
{
    for (name, value) in sets {
        settings.put(name, value)?;
    }
    Ok(())
}

impl Request {
    /// None at all. It takes no memory.
    pub(crate) fn none(alloc: Global) -> Request
        ensures { rest_of result ≡ unasked }
    {
        Request {
            settings: Settings::new(alloc),
            sets: Vec::new(alloc),
            left: VecDeque::new(alloc),
            tries: 0,
            last_try: None,
        }
    }

    /// The call that is sent next, or whose reply is awaited.
    pub(crate) fn next(&self) -> Option<&Call>
        ensures call { option_copied result ≡ next_call (rest_of self.now) }
        ensures made { AllByRecursion IsMade self.now.left.items
            → IfSome result (λ call. IsMade call.now) }
    {
        self.left.front()
    }

    /// Takes that call out, to be shown.
    pub(crate) fn take(&mut self) -> Option<Call>
        ensures call { result ≡ next_call (rest_of self.old) }
        ensures rest { rest_of self.new ≡ record (rest_of self.old) {
          left =
              drop 1 self.old.left.items;
        } }
        ensures made { AllByRecursion IsMade self.old.left.items
            → AllByRecursion IsMade self.new.left.items × IfSome result IsMade }
    {
        self.left.pop_front()
    }

    /// Notes what a call sets that is shown, under a rule that keeps settings, and settles all that
    /// was noted where the rule purges.
    pub(crate) fn settle(
        &mut self,
        alloc: Global,
        keeps: bool,
        call: &Call,
        after: After,
    ) -> Result<(), NoMemory>
        ensures { let sets = sets_by keeps self.old.sets.items call.now in
            OnOk result (rest_of self.new ≡ record (rest_of self.old) {
              settings =
                  settled_by after self.old.settings sets;
              sets = waits_after after sets;
            }) }
    {
        if keeps {
            self.note_set(alloc, call)?;
        }
        if matches!(after, After::Purge) {
            let sets = mem::replace(&mut self.sets, Vec::new(alloc));
            put_all(&mut self.settings, sets)?;
        }
        Ok(())
    }

    /// Notes what a call sets, if it is a `set`.
    fn note_set(&mut self, alloc: Global, call: &Call) -> Result<(), NoMemory>
        ensures { OnOk result (rest_of self.new ≡ record (rest_of self.old) {
          sets =
              self.old.sets.items ++ set_by call.now;
        }) }
    {
        if let Call::Set { name, value } = call {
            self.sets.push((name.copy(alloc)?, value.copy(alloc)?))?;
        }
        Ok(())
    }
}
