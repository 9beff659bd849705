//! Reader of calls: items, and the rule on which items make a call.
ghost use Rattle.std.specs.Prelude.{◌≤◌, length, [], ◌∷◌};
ghost use Rattle.json_form.specs.Faults.{Gives};
ghost use Rattle.call_forms.specs.meaning.Calls.{call_of, call_of_items as call_of_items_def, work_of};

use crate::item::Item;
use crate::lists::counted_ahead;
use crate::statement::ItemReader;
use crate::value::shared;
use document_limits::Count;
use json_form::{Digits, DocCode, DocFault, Reader, array_from};
use serde_json::Value as Json;
use std::alloc::Global;
use svc_values::Call;

/// A work call of these items: statements, and a commit at most last.
fn work_of_items(alloc: Global, items: Vec<Item>) -> Result<Call, DocFault>
    requires { length items.items ≤ 8 }
    ensures { Gives result (work_of [] items.items) }
{
    let mut statements = Vec::new(alloc);
    let mut commit = false;
    for item in items {
        if commit {
            return Err(DocFault::here(alloc, DocCode::Rule));
        }
        match item {
            Item::Statement(statement) => statements.push(statement)?,
            Item::Commit => commit = true,
            _ => return Err(DocFault::here(alloc, DocCode::Rule)),
        }
    }
    Ok(Call::Work {
        statements: shared(alloc, statements)?,
        commit,
    })
}

/// The call that one item makes by itself.
fn lone_call(alloc: Global, item: Item) -> Result<Call, DocFault>
    ensures { Gives result (call_of_items_def (item ∷ [])) }
{
    match item {
        Item::Statement(statement) => {
            let statements = Vec::from_array(alloc, [statement])?;
            Ok(Call::Work {
                statements: shared(alloc, statements)?,
                commit: false,
            })
        }
        Item::Commit => Ok(Call::Work {
            statements: shared(alloc, Vec::new(alloc))?,
            commit: true,
        }),
        Item::Set { name, value } => Ok(Call::Set { name, value }),
        Item::Alter { line } => Ok(Call::Alter { line }),
        Item::Disable => Ok(Call::Disable),
        Item::Rollback => Ok(Call::Rollback),
    }
}

/// The call that these items make: one command alone, or statements with a commit at most last.
fn call_of_items(alloc: Global, mut items: Vec<Item>) -> Result<Call, DocFault>
    requires { length items.items ≤ 8 }
    ensures { Gives result (call_of_items_def items.items) }
{
    if items.len() != 1 {
        return work_of_items(alloc, items);
    }
    match items.pop() {
        Some(item) => lone_call(alloc, item),
        None => work_of_items(alloc, items),
    }
}

/// Reads a call: its items each by itself, and then the rule on them. Bytes stand in these digits.
/// The cost is linear.
#[derive(Clone, Copy, Debug, PartialEq, Eq)]
pub struct CallReader {
    pub digits: Digits,
}

impl Reader<Call> for CallReader {
    ghost reads = { λ s. call_of s.digits };

    #[tactic(auto, unfolding(crate::specs::meaning::Calls::call_of))]
    fn read(&self, alloc: Global, value: Json) -> Result<Call, DocFault> {
        let limit = Count::Items.limit();
        let reader = ItemReader {
            digits: self.digits,
        };
        let items = array_from(alloc, value, limit.least, limit.most, &reader)?;
        call_of_items(alloc, items)
    }

    fn ahead(&self, alloc: Global, tokens: &mut json::Reader<'_>, depth: usize) -> Option<Call> {
        let limit = Count::Items.limit();
        let reader = ItemReader {
            digits: self.digits,
        };
        let items = counted_ahead(alloc, tokens, depth, limit.least, limit.most, &reader)?;
        let call = call_of_items(alloc, items).ok()?;
        Some(call)
    }
}
