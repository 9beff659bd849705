//! The order of table and key.
ghost use Rattle.std.specs.Prelude.{◌≡◌, IfOk};
ghost use Rattle.svc_values.specs.meaning.Tables.{in_order as in_order_def};
ghost use Rattle.svc_values.specs.Tables.{row_cmp};

use std::cmp::Ordering;
use svc_values::{NoMemory, PlainRow, PlainTables};

/// By table, and in a table by key.
fn compared(a: &PlainRow, b: &PlainRow) -> Ordering
    ensures { result ≡ row_cmp a.now b.now }
{
    a.table.cmp(&b.table).then(a.key.cmp(&b.key))
}

/// The rows in the order of table and key. Of rows with one table and key the later comes first. No
/// row is copied: it takes n log n comparisons for n rows.
pub fn in_order(mut rows: Vec<PlainRow>) -> Result<PlainTables, NoMemory>
    ensures { IfOk result (λ tables. tables ≡ in_order_def rows.items) }
{
    rows.reverse();
    rows.sort_by(compared)?;
    Ok(PlainTables::from_vec(rows))
}
