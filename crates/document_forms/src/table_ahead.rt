//! Reader of a table whose rows are read one after the other.
ghost use Rattle.std.specs.Prelude.{◌≡◌, ◌<◌, ◌≤◌, length, List, ℕ, Bool, true, Some, None, IfSome, Ok, codes};
ghost use Rattle.std.specs.Str.{bytes_eq};
ghost use Rattle.serde_json.specs.Data.{Members as MemberData};
ghost use Rattle.json_form.specs.meaning.Arrays.{is_key};
ghost use Rattle.json_form.specs.meaning.Objects.{named, known, is_among};
ghost use Rattle.json_form.specs.Streams.{Begins, members_ahead as members_ahead_def};
ghost use Rattle.document_forms.specs.meaning.Tables.{table_members, table_of};
ghost use Rattle.document_forms.specs.TablesAhead.{IsTableRead, PassesMember};

use crate::table::{columns_from, index_from, rows_ahead};
use call_forms::NewNameReader;
use json_form::{Reader, Taken, object_begins, value_from};
use outage_schedule::{DocRows, DocTable, IndexColumns};
use std::alloc::Global;
use svc_values::{Columns, Listed, Name};

/// What was read of a table's members so far.
#[derive(Drop)]
pub struct TableAhead {
    pub name: Option<Name>,
    pub columns: Option<Columns>,
    pub rows: Option<DocRows>,
    pub index: Option<IndexColumns>,
}

impl TableAhead {
    fn new() -> TableAhead
        ensures { (taken : List ℕ → Bool) → IsTableRead taken result (λ name. None) }
    {
        TableAhead {
            name: None,
            columns: None,
            rows: None,
            index: None,
        }
    }

    fn take_name(
        &mut self,
        alloc: Global,
        taken: &Taken<Name>,
        tokens: &mut json::Reader<'_>,
        depth: usize,
    ) -> Option<()>
        ensures read { IfSome result (λ _. PassesMember (is_key bytes_eq taken.now) depth
            (codes "name") self.old tokens.old self.new tokens.new) }
        ensures shorter { IfSome result (λ _. length tokens.new < length tokens.old) }
    {
        let value = value_from(alloc, tokens, depth)?;
        let name = NewNameReader { taken }.read(alloc, value).ok()?;
        self.name = Some(name);
        Some(())
    }

    /// The columns, behind which no rows and no index were read, since these go by the columns.
    fn take_columns(
        &mut self,
        alloc: Global,
        tokens: &mut json::Reader<'_>,
        depth: usize,
    ) -> Option<()>
        ensures read { IfSome result (λ _. (taken : List ℕ → Bool)
            → PassesMember taken depth (codes "columns") self.old tokens.old self.new tokens.new) }
        ensures shorter { IfSome result (λ _. length tokens.new < length tokens.old) }
    {
        if self.rows.is_some() {
            return None;
        }
        if self.index.is_some() {
            return None;
        }
        let value = value_from(alloc, tokens, depth)?;
        let columns = columns_from(alloc, value).ok()?;
        self.columns = Some(columns);
        Some(())
    }

    fn take_rows(
        &mut self,
        alloc: Global,
        tokens: &mut json::Reader<'_>,
        depth: usize,
    ) -> Option<()>
        ensures read { IfSome result (λ _. (taken : List ℕ → Bool)
            → PassesMember taken depth (codes "rows") self.old tokens.old self.new tokens.new) }
        ensures shorter { IfSome result (λ _. length tokens.new < length tokens.old) }
    {
        let columns = self.columns.as_ref()?;
        let rows = rows_ahead(alloc, tokens, depth, columns)?;
        self.rows = Some(rows);
        Some(())
    }

    fn take_index(
        &mut self,
        alloc: Global,
        tokens: &mut json::Reader<'_>,
        depth: usize,
    ) -> Option<()>
        ensures read { IfSome result (λ _. (taken : List ℕ → Bool)
            → PassesMember taken depth (codes "index") self.old tokens.old self.new tokens.new) }
        ensures shorter { IfSome result (λ _. length tokens.new < length tokens.old) }
    {
        let columns = self.columns.as_ref()?;
        let value = value_from(alloc, tokens, depth)?;
        let index = index_from(alloc, value, columns).ok()?;
        self.index = Some(index);
        Some(())
    }

    /// The member with this name, whose value the tokens begin with.
    fn take(
        &mut self,
        alloc: Global,
        taken: &Taken<Name>,
        tokens: &mut json::Reader<'_>,
        depth: usize,
        name: &str,
    ) -> Option<()>
        ensures read { IfSome result (λ _. PassesMember (is_key bytes_eq taken.now) depth name.now
            self.old tokens.old self.new tokens.new) }
        ensures known { IfSome result (λ _. is_among table_members name.now ≡ true) }
        ensures shorter { IfSome result (λ _. length tokens.new < length tokens.old) }
    {
        if name == "name" {
            return self.take_name(alloc, taken, tokens, depth);
        }
        if name == "columns" {
            return self.take_columns(alloc, tokens, depth);
        }
        if name == "rows" {
            return self.take_rows(alloc, tokens, depth);
        }
        if name == "index" {
            return self.take_index(alloc, tokens, depth);
        }
        None
    }
}

/// What is read of a table's members, behind the bracket that begins it.
fn members_ahead(
    alloc: Global,
    taken: &Taken<Name>,
    tokens: &mut json::Reader<'_>,
    depth: usize,
) -> Option<TableAhead>
    ensures read { IfSome result (λ ahead. (ms : MemberData)
        × (members_ahead_def depth tokens.old ≡ Some (ms, tokens.new))
        × (known table_members ms ≡ Ok tt)
        × IsTableRead (is_key bytes_eq taken.now) ahead (named ms)) }
    ensures shorter { IfSome result (λ _. length tokens.new ≤ length tokens.old) }
{
    let mut ahead = TableAhead::new();
    'members: while let Some(name) = tokens.next_key().ok()? {
        ahead.take(alloc, taken, tokens, depth, name)?;
    }
    Some(ahead)
}

/// The table that the tokens begin with, whose name is none of those taken. There is none where
/// there is a fault, and where the rows or the index stand before the columns.
pub(crate) fn table_ahead(
    alloc: Global,
    taken: &Taken<Name>,
    tokens: &mut json::Reader<'_>,
    depth: usize,
) -> Option<DocTable>
    ensures begins { IfSome result (λ table. Begins (table_of (is_key bytes_eq taken.now)) depth
        tokens.old table tokens.new) }
    ensures shorter { IfSome result (λ _. length tokens.new < length tokens.old) }
{
    let inside = object_begins(tokens, depth)?;
    let TableAhead {
        name,
        columns,
        rows,
        index,
    } = members_ahead(alloc, taken, tokens, inside)?;
    Some(DocTable {
        name: name?,
        columns: columns?,
        rows: rows.unwrap_or(Listed::new(alloc)),
        index: index.unwrap_or(Listed::new(alloc)),
    })
}
