//! What a plan answers and writes, as the transaction sees the tables.
ghost use Rattle.std.specs.Prelude.{◌≡◌, IfOk, IsTrue};
ghost use Rattle.std.specs.Option.{option_copied};
ghost use Rattle.stmt_meaning.specs.meaning.Effects.{effect as effect_def};
ghost use Rattle.stmt_meaning.specs.meaning.Meaning.{seen_at};
ghost use Rattle.stmt_meaning.specs.meaning.Plans.{place_of};
ghost use Rattle.svc_values.specs.meaning.Tables.{with_writes};
ghost use Rattle.svc_values.specs.Fitting.{tables_fit};
ghost use Rattle.svc_values.specs.Tables.{AreTables};
ghost use Rattle.table_txn.specs.Found.{row_in, IsFoundIfAny};
ghost use Rattle.table_txn.specs.Own.{last_write, row_over};

use crate::found::Committed;
use crate::own::OwnWrites;
use crate::scanning::scan_table;
use std::alloc::Global;
use stmt_meaning::{Effect, Plan, row_effect, shown};
use svc_values::{Name, NoMemory, Row, Value};
use table_store::Tables;

/// The row that is committed at the place of a row.
fn committed_row(committed: Option<Committed<'_>>) -> Option<&Row>
    ensures { option_copied result ≡ row_in committed.entry }
{
    match committed {
        Some(Committed::Row(row)) => row,
        _ => None,
    }
}

/// The row of a key, as the transaction sees it where this one is committed: the logarithm of its
/// own writes.
fn row_at<'a>(
    committed: Option<&'a Row>,
    own: &'a OwnWrites,
    table: &Name,
    key: &Value,
) -> Option<&'a Row>
    ensures { option_copied result
        ≡ row_over (last_write own.now table.now key.now) (option_copied committed.entry) }
{
    match own.last(table, key) {
        None => committed,
        Some(write) => write.row.as_ref(),
    }
}

/// What a plan answers and writes at whose place this is committed.
pub(crate) fn effect_on(
    alloc: Global,
    tables: &Tables,
    committed: Option<Committed>,
    own: &OwnWrites,
    plan: Plan,
) -> Result<Effect, NoMemory>
    requires found { IsFoundIfAny tables.now.rows (place_of plan) committed }
    requires ordered { AreTables tables.now.rows }
    requires fits { IsTrue (tables_fit tables.now.schemas (with_writes tables.now.rows own.now)) }
    ensures { IfOk result (λ effect. effect
        ≡ effect_def plan (seen_at (with_writes tables.now.rows own.now) (place_of plan))) }
{
    match plan {
        Plan::AtRow { table, key, work } => {
            let row = row_at(committed_row(committed), own, &table, &key);
            row_effect(alloc, table, key, work, row)
        }
        Plan::InTable { table, work } => Ok(Effect {
            answer: scan_table(alloc, tables, own, &table, work)?,
            write: None,
        }),
        Plan::Show { value } => Ok(Effect {
            answer: shown(alloc, value)?,
            write: None,
        }),
    }
}
