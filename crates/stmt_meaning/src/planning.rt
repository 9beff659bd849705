//! The plan of a statement, from the values of its operands: the checks of their kinds.
ghost use Rattle.std.specs.Prelude.{◌≡◌, option_copied, slice_get};
ghost use Rattle.stmt_meaning.specs.InnerAnswers.{IsPlanned};
ghost use Rattle.svc_values.specs.meaning.Schemas.{is_column_kind as is_column_kind_def, key_of};
ghost use Rattle.stmt_meaning.specs.meaning.Plans.{key_plan as key_plan_def, set_plan as set_plan_def, add_plan as add_plan_def, change_plan as change_plan_def, select_plan as select_plan_def, show_plan as show_plan_def, plan_for as plan_for_def, if_kinds_fit};
ghost use Rattle.stmt_meaning.specs.InnerSeen.{aim};
ghost use Rattle.svc_values.specs.meaning.Kinds.{row_fits};
ghost use Rattle.stmt_meaning.specs.declared.planning.PlanFault.TheVariants as plan_fault;

use crate::plan::{Plan, RowWork, TableWork};
use crate::target::Target;
use std::alloc::Global;
use svc_values::{
    Change, Column, Kind, Name, NoMemory, Row, Statement, StatementFault, Test, TryCopy, Value,
    values_fit,
};
use thiserror::Error;

/// Why there is no plan.
#[derive(Clone, Copy, Debug, PartialEq, Eq, Error)]
pub enum PlanFault {
    #[error("out of memory")]
    NoMemory,
    #[error("the statement is refused")]
    Refused(StatementFault),
}

impl From<NoMemory> for PlanFault {
    ghost from_gives = { λ _ e. e ≡ plan_fault.NoMemory };

    fn from(_e: NoMemory) -> PlanFault {
        PlanFault::NoMemory
    }
}

/// Whether the column at this place is of this kind.
pub fn is_column_kind(columns: &[Column], at: usize, kind: Kind) -> bool
    ensures { result ≡ is_column_kind_def columns.now at kind }
{
    match columns.get(at) {
        None => false,
        Some(column) => column.kind == kind,
    }
}

fn key_plan(
    alloc: Global,
    target: &Target,
    table: &Name,
    work: RowWork,
    key: Option<&Value>,
) -> Result<Plan, PlanFault>
    ensures { IsPlanned result (key_plan_def (aim target.now) table.now work
        (option_copied key.entry)) }
{
    match key {
        Some(key) if is_column_kind(target.columns, 0, key.kind()) => Ok(Plan::AtRow {
            table: table.copied(),
            key: key.copy(alloc)?,
            work,
        }),
        _ => Err(PlanFault::Refused(StatementFault::KindDiffers)),
    }
}

fn set_plan(
    alloc: Global,
    target: &Target,
    table: &Name,
    key: Option<&Value>,
    to: Option<&Value>,
) -> Result<Plan, PlanFault>
    ensures { IsPlanned result (set_plan_def (aim target.now) table.now (option_copied key.entry)
        (option_copied to.entry)) }
{
    let column = target.at;
    match to {
        Some(to) if is_column_kind(target.columns, column, to.kind()) => {
            let value = to.copy(alloc)?;
            key_plan(alloc, target, table, RowWork::Set { column, value }, key)
        }
        _ => Err(PlanFault::Refused(StatementFault::KindDiffers)),
    }
}

fn add_plan(
    alloc: Global,
    target: &Target,
    table: &Name,
    key: Option<&Value>,
    by: Option<&Value>,
) -> Result<Plan, PlanFault>
    ensures { IsPlanned result (add_plan_def (aim target.now) table.now (option_copied key.entry)
        (option_copied by.entry)) }
{
    let column = target.at;
    match by {
        Some(Value::Int(number)) if is_column_kind(target.columns, column, Kind::Int) => {
            let number = *number;
            key_plan(alloc, target, table, RowWork::Add { column, number }, key)
        }
        _ => Err(PlanFault::Refused(StatementFault::KindDiffers)),
    }
}

fn change_plan(
    alloc: Global,
    target: &Target,
    table: &Name,
    change: &Change,
    values: &Row,
) -> Result<Plan, PlanFault>
    ensures { IsPlanned result (change_plan_def (aim target.now) table.now change.now
        (slice_get values.now 0) (slice_get values.now 1)) }
{
    match change {
        Change::To(_) => set_plan(alloc, target, table, values.get(0), values.get(1)),
        Change::Plus(_) => add_plan(alloc, target, table, values.get(0), values.get(1)),
    }
}

fn select_plan(
    alloc: Global,
    target: &Target,
    table: &Name,
    test: Test,
    than: Option<&Value>,
) -> Result<Plan, PlanFault>
    ensures { IsPlanned result (select_plan_def (aim target.now) table.now test
        (option_copied than.entry)) }
{
    let column = target.at;
    match than {
        Some(than) if is_column_kind(target.columns, column, than.kind()) => {
            let value = than.copy(alloc)?;
            Ok(Plan::InTable {
                table: table.copied(),
                work: TableWork::Select {
                    column,
                    test,
                    value,
                },
            })
        }
        _ => Err(PlanFault::Refused(StatementFault::KindDiffers)),
    }
}

fn insert_plan(alloc: Global, target: &Target, table: &Name, values: Row) -> Result<Plan, PlanFault>
    ensures { IsPlanned result (if_kinds_fit (row_fits (aim target.now).columns values)
        (Plan.AtRow table.now (key_of values) (RowWork.Insert values))) }
{
    if !values_fit(target.columns, values.as_slice()) {
        return Err(PlanFault::Refused(StatementFault::KindDiffers));
    }
    let key = match values.get(0) {
        None => Value::Int(0),
        Some(key) => key.copy(alloc)?,
    };
    Ok(Plan::AtRow {
        table: table.copied(),
        key,
        work: RowWork::Insert { row: values },
    })
}

fn show_plan(alloc: Global, shown: Option<&Value>) -> Result<Plan, PlanFault>
    ensures { IsPlanned result (show_plan_def (option_copied shown.entry)) }
{
    match shown {
        None => Err(PlanFault::Refused(StatementFault::KindDiffers)),
        Some(value) => Ok(Plan::Show {
            value: value.copy(alloc)?,
        }),
    }
}

fn sum_plan(target: &Target, table: &Name) -> Result<Plan, PlanFault>
    ensures { IsPlanned result (if_kinds_fit
        (is_column_kind_def (aim target.now).columns target.now.at Kind.Int)
        (Plan.InTable table.now (TableWork.Sum target.now.at))) }
{
    let column = target.at;
    if !is_column_kind(target.columns, column, Kind::Int) {
        return Err(PlanFault::Refused(StatementFault::KindDiffers));
    }
    Ok(Plan::InTable {
        table: table.copied(),
        work: TableWork::Sum { column },
    })
}

fn count_plan(table: &Name) -> Plan
    ensures { result ≡ Plan.InTable table.now TableWork.Count }
{
    Plan::InTable {
        table: table.copied(),
        work: TableWork::Count,
    }
}

/// The plan of a statement, from where it works and the values of its operands in their order, or
/// the fault of their number or kinds.
pub fn plan_for(
    alloc: Global,
    target: &Target,
    statement: &Statement,
    values: Row,
) -> Result<Plan, PlanFault>
    ensures { IsPlanned result (plan_for_def (aim target.now) statement.now values) }
{
    match statement {
        Statement::Insert { table, .. } => insert_plan(alloc, target, table, values),
        Statement::Update { table, change, .. } => {
            change_plan(alloc, target, table, change, &values)
        }
        Statement::Delete { table, .. } => {
            key_plan(alloc, target, table, RowWork::Delete, values.get(0))
        }
        Statement::Get { table, .. } => {
            key_plan(alloc, target, table, RowWork::Get, values.get(0))
        }
        Statement::Select { table, test, .. } => {
            select_plan(alloc, target, table, *test, values.get(0))
        }
        Statement::Count { table } => Ok(count_plan(table)),
        Statement::Sum { table, .. } => sum_plan(target, table),
        Statement::Show { .. } => show_plan(alloc, values.get(0)),
    }
}
