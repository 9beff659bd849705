//! Statements on plain rows.
ghost use Rattle.std.specs.Prelude.{◌≡◌, IfErr, IfOk, OnOk, Some, length, option_copied};
ghost use Rattle.stmt_meaning.specs.Drawing.{Ends};
ghost use Rattle.stmt_meaning.specs.meaning.Effects.{effect as effect_def, first_of, table_answer};
ghost use Rattle.stmt_meaning.specs.InnerAnswers.{DidAll};
ghost use Rattle.stmt_meaning.specs.InnerRunning.{HadEffect, RanNext, all_left, one_left};
ghost use Rattle.stmt_meaning.specs.Listed.{TakesFirst};
ghost use Rattle.stmt_meaning.specs.meaning.Meaning.{seen_at, statements_done};
ghost use Rattle.stmt_meaning.specs.meaning.Plans.{place_of};

use crate::effect::{Effect, is_refusal, row_effect, shown};
use crate::fault::TxnFault;
use crate::list_draws::ListDraws;
use crate::plan::{Plan, TableWork};
use crate::reading::plan_of;
use crate::scan::Scan;
use crate::stop::Stop;
use crate::written::{put_write_if_any, stands_at, stands_in};
use std::alloc::Global;
use svc_values::{
    Answer, Draw, Name, NoMemory, Place, PlainRow, PlainTables, Row, Schema, Settings, Statement,
    Value, copies,
};

/// The row of a table and key. Linear in the rows.
fn row_at<'a>(rows: &'a [PlainRow], table: &Name, key: &Value) -> Option<&'a Row>
    ensures { option_copied result ≡ first_of
        (seen_at rows.now (Some (Place.Row table.now key.now))) }
{
    for row in rows {
        if stands_at(row, table, key) {
            return Some(&row.row);
        }
    }
    None
}

/// The answer from all rows of a table. Linear in the rows.
fn scan_table(
    alloc: Global,
    rows: &[PlainRow],
    table: &Name,
    work: TableWork,
) -> Result<Answer, NoMemory>
    ensures { IfOk result (λ answer. answer
        ≡ table_answer work (seen_at rows.now (Some (Place.Table table.now)))) }
{
    let mut scan = Scan::new(alloc, work);
    for row in rows {
        if stands_in(row, table) {
            scan = scan.after(alloc, &row.row)?;
            if scan.is_settled() {
                return scan.answer(alloc);
            }
        }
    }
    scan.answer(alloc)
}

/// What a plan answers and writes on these rows.
fn effect_on(alloc: Global, rows: &[PlainRow], plan: Plan) -> Result<Effect, NoMemory>
    ensures { IfOk result (λ effect. effect ≡ effect_def plan (seen_at rows.now (place_of plan))) }
{
    match plan {
        Plan::AtRow { table, key, work } => {
            let row = row_at(rows, &table, &key);
            row_effect(alloc, table, key, work, row)
        }
        Plan::InTable { table, work } => Ok(Effect {
            answer: scan_table(alloc, rows, &table, work)?,
            write: None,
        }),
        Plan::Show { value } => Ok(Effect {
            answer: shown(alloc, value)?,
            write: None,
        }),
    }
}

/// One statement on these rows. The draws that it took are put behind those before.
fn run_statement(
    alloc: Global,
    schemas: &[Schema],
    settings: &Settings,
    statement: &Statement,
    rows: &[PlainRow],
    source: &mut ListDraws,
    drawn: &mut Vec<Draw>,
) -> Result<Effect, TxnFault>
    ensures done { IfOk result (λ effect.
        HadEffect (record { schemas = schemas.now; sequences = source.old.names }) rows.now
        settings.now statement.now source.old drawn.old.items effect source.new drawn.new.items) }
    ensures ended { IfErr result (λ ended.
        Ends TakesFirst (one_left (record { schemas = schemas.now; sequences = source.old.names })
        rows.now settings.now statement.now) source.old ended source.new) }
    ensures names { source.new.names ≡ source.old.names }
{
    match plan_of(alloc, schemas, settings, statement, source, drawn) {
        Ok(plan) => Ok(effect_on(alloc, rows, plan)?),
        Err(Stop::Refused(fault)) => Ok(Effect {
            answer: Answer::Refused(fault),
            write: None,
        }),
        Err(Stop::Ended(fault)) => Err(fault),
    }
}

/// What the statements of a call did: their answers, the rows after them, the draws that they took,
/// and whether the last of them was refused.
#[derive(Drop)]
pub(crate) struct Worked {
    pub(crate) answers: Vec<Answer>,
    pub(crate) rows: Vec<PlainRow>,
    pub(crate) drawn: Vec<Draw>,
    pub(crate) is_refused: bool,
}

/// One statement more.
fn run_next(
    alloc: Global,
    schemas: &[Schema],
    settings: &Settings,
    statement: &Statement,
    source: &mut ListDraws,
    worked: &mut Worked,
) -> Result<(), TxnFault>
    ensures done { OnOk result (RanNext (record {
      schemas = schemas.now;
      sequences =
          source.old.names;
    }) settings.now statement.now source.old worked.old source.new
        worked.new) }
    ensures ended { IfErr result (λ ended.
        Ends TakesFirst (one_left (record { schemas = schemas.now; sequences = source.old.names })
        worked.old.rows.items settings.now statement.now) source.old ended source.new) }
    ensures names { source.new.names ≡ source.old.names }
{
    let rows = worked.rows.as_slice();
    let drawn = &mut worked.drawn;
    let effect = run_statement(alloc, schemas, settings, statement, rows, source, drawn)?;
    let Effect { answer, write } = effect;
    worked.is_refused = is_refusal(&answer);
    worked.answers.push(answer)?;
    put_write_if_any(&mut worked.rows, write)?;
    Ok(())
}

/// Statements, each on the rows after those before it, up to the first that is refused.
pub(crate) fn run_statements(
    alloc: Global,
    schemas: &[Schema],
    tables: &PlainTables,
    settings: &Settings,
    statements: &[Statement],
    source: &mut ListDraws,
) -> Result<Worked, TxnFault>
    ensures done { IfOk result (λ worked.
        DidAll (statements_done (record { schemas = schemas.now; sequences = source.old.names })
        tables.now settings.now statements.now source.old.draws) tables.now source.old.draws
        worked.answers.items worked.rows.items (length worked.drawn.items) worked.is_refused) }
    ensures ended { IfErr result (λ ended.
        Ends TakesFirst (all_left (record { schemas = schemas.now; sequences = source.old.names })
        tables.now settings.now statements.now) source.old ended source.new) }
{
    let rows = copies(alloc, tables.as_slice())?;
    let mut worked = Worked {
        answers: Vec::new(alloc),
        rows,
        drawn: Vec::new(alloc),
        is_refused: false,
    };
    for statement in statements {
        run_next(alloc, schemas, settings, statement, source, &mut worked)?;
        if worked.is_refused {
            return Ok(worked);
        }
    }
    Ok(worked)
}
