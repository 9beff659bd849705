//! Arrays of a fixed form.
ghost use Rattle.std.specs.Prelude.{◌≡◌, ◌==◌, IfOk, IfSome};
ghost use Rattle.serde_json.specs.View.{view};
ghost use Rattle.json_form.specs.Faults.{Gives, GivesBy};
ghost use Rattle.json_form.specs.meaning.Values.{items_of};
ghost use Rattle.json_form.specs.meaning.Arrays.{fixed as fixed_def};
ghost use Rattle.json_form.specs.Arrays.{items_at, parts_at, count_at};

use crate::array::{exact_from, items_from};
use crate::fault::{DocCode, DocFault};
use crate::reader::Reader;
use crate::step::within_item;
use serde_json::Value;
use std::alloc::Global;
use std::mem;

/// The items of an array of a fixed form, each of which is taken out once. Clauses see what stands
/// at each position from 0.
#[derive(Drop)]
pub struct Parts {
    pub items: Vec<Value>,
}

/// The items of an array of exactly `count`.
pub fn fixed(alloc: Global, value: Value, count: usize) -> Result<Parts, DocFault>
    ensures { GivesBy parts_at result (fixed_def count (view value)) }
{
    let items = exact_from(alloc, value, count)?;
    Ok(Parts { items })
}

/// The items of an array of any count, which `has_count` asks for.
pub fn parts_from(alloc: Global, value: Value) -> Result<Parts, DocFault>
    ensures { GivesBy items_at result (items_of (view value)) }
{
    let items = items_from(alloc, value)?;
    Ok(Parts { items })
}

impl Parts {
    ghost use Rattle.std.specs.Prelude.{option_map};
    ghost use Rattle.json_form.specs.meaning.Arrays.{part as part_def};
    ghost use Rattle.json_form.specs.Arrays.{taken_at};

    /// Whether there are so many items, those that were taken out among them.
    pub fn has_count(&self, count: usize) -> bool
        ensures { result ≡ (count_at self.now == count) }
    {
        self.items.len() == count
    }

    /// The item at a position, in whose place null stands from then on.
    fn take(&mut self, at: usize) -> Option<Value>
        ensures taken { option_map view result ≡ parts_at self.old at }
        ensures left { IfSome result (λ _. parts_at self.new ≡ taken_at at (parts_at self.old)) }
        ensures count { count_at self.new ≡ count_at self.old }
    {
        match self.items.get_mut(at) {
            Some(item) => Some(mem::replace(item, Value::Null)),
            None => None,
        }
    }

    /// The item at a position, taken out and read. A fault is placed there.
    #[tactic(auto, unfolding(crate::specs::meaning::Arrays::part))]
    pub fn read<T, R: Reader<T>>(
        &mut self,
        alloc: Global,
        at: usize,
        reader: &R,
    ) -> Result<T, DocFault>
        ensures read { Gives result (part_def at (R.Reader.reads reader.now) (parts_at self.old)) }
        ensures left { IfOk result (λ _. parts_at self.new ≡ taken_at at (parts_at self.old)) }
        ensures count { count_at self.new ≡ count_at self.old }
    {
        match self.take(at) {
            Some(value) => within_item(alloc, at, reader.read(alloc, value)),
            None => Err(DocFault::here(alloc, DocCode::WrongKind)),
        }
    }
}
