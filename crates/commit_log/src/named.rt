//! Names that stand once.
ghost use Rattle.std.specs.Prelude.{◌≡◌, ℕ, List, map};
ghost use Rattle.svc_values.specs.meaning.Names.{is_name_of, names_differ};

use crate::base::{BaseSequence, BaseTable};
use svc_values::{Column, Name};

// What has a name.
pub trait Named {
    ghost name_of: { Self → List ℕ };

    fn name(&self) -> &Name
        ensures { result.now ≡ name_of self.now };
}

impl Named for BaseTable {
    ghost use Rattle.commit_log.specs.meaning.Bases.{table_name};

    ghost name_of = { table_name };

    fn name(&self) -> &Name {
        &self.schema.name
    }
}

impl Named for BaseSequence {
    ghost use Rattle.commit_log.specs.meaning.Bases.{sequence_name};

    ghost name_of = { sequence_name };

    fn name(&self) -> &Name {
        &self.name
    }
}

impl Named for Column {
    ghost use Rattle.commit_log.specs.Bases.{column_name};

    ghost name_of = { column_name };

    fn name(&self) -> &Name {
        &self.name
    }
}

// Whether one of the items has this name.
fn has_name<T: Named>(items: &[T], name: &Name) -> bool
    ensures { result ≡ is_name_of (map T.name_of items.now) name.now }
{
    match items {
        [] => false,
        [first, rest @ ..] => *first.name() == *name || has_name(rest, name),
    }
}

// Whether no two items have one name. Quadratic in the items, of which there are at most 32.
pub fn are_distinct<T: Named>(items: &[T]) -> bool
    ensures { result ≡ names_differ (map T.name_of items.now) }
{
    match items {
        [] => true,
        [first, rest @ ..] => !has_name(rest, first.name()) && are_distinct(rest),
    }
}
