//! Lists that do not change, shared by their copies.
ghost use Rattle.std.specs.Prelude.{◌≡◌, ◌≤◌, length, IfOk, slice_get, ◌==◌};
ghost use Rattle.std.specs.Option.{option_copied};
ghost use Rattle.std.specs.Cmp.Lexicographic.{pointwise};
ghost use Rattle.std.specs.Cmp.Rules.{comparing};
ghost use Rattle.std.proofs.Common.{rules};

use crate::memory::{NoMemory, TryCopy};
use std::alloc::Global;
use std::marker::Model;
use std::rc::Rc;

/// A list of at most `LIMIT` items, which stays as it was made. A copy is the same items once more,
/// and takes neither time nor memory for them.
#[derive(Drop)]
pub struct Shared<T, const LIMIT: usize> {
    items: Rc<Vec<T>>,
}

impl<T, const LIMIT: usize> Model for Shared<T, LIMIT> {
    ghost use Rattle.std.specs.Prelude.{List, length, ◌≤◌};

    ghost Value = { List T };

    ghost view = { λ a. a.items.value.items };

    ghost invariant = { λ a. length a.items.value.items ≤ LIMIT };
}

impl<T: Drop, const LIMIT: usize> Shared<T, LIMIT> {
    /// The list of these items, which are moved. It takes the memory of one count.
    pub fn of(alloc: Global, items: Vec<T>) -> Result<Self, NoMemory>
        requires { length items.items ≤ LIMIT }
        ensures { IfOk result (λ list. list ≡ items.items) }
    {
        let items = Rc::new(alloc, items)?;
        Ok(Shared { items })
    }

    /// How many items.
    pub fn len(&self) -> usize
        ensures is_length { result ≡ length self.now }
        ensures within { result ≤ LIMIT }
    {
        self.items.len()
    }

    /// Whether there is no item.
    pub fn is_empty(&self) -> bool
        ensures { result ≡ (length self.now == 0) }
    {
        self.items.is_empty()
    }

    /// The item at this place, and `None` exactly past the end.
    pub fn get(&self, at: usize) -> Option<&T>
        ensures { option_copied result ≡ slice_get self.now at }
    {
        self.as_slice().get(at)
    }

    /// The items in order.
    pub fn as_slice(&self) -> &[T]
        ensures items { result.now ≡ self.now }
        ensures within { length result.now ≤ LIMIT }
    {
        self.items.as_slice()
    }
}

impl<T: Drop, const LIMIT: usize> TryCopy for Shared<T, LIMIT> {
    fn copy(&self, _alloc: Global) -> Result<Self, NoMemory> {
        let items = self.items.clone()?;
        Ok(Shared { items })
    }
}

impl<T: PartialEq + Drop, const LIMIT: usize> PartialEq for Shared<T, LIMIT> {
    ghost eq = { pointwise T.eq };

    ghost laws = { Prim.search (comparing, rules) };

    fn eq(&self, other: &Self) -> bool {
        self.items.as_slice() == other.items.as_slice()
    }
}

impl<T: Eq + Drop, const LIMIT: usize> Eq for Shared<T, LIMIT> {
    ghost laws = { Prim.search (comparing, rules) };
}
