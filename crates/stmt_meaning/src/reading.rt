//! Operands read, with draws from a source.
ghost use Rattle.std.specs.Prelude.{◌≡◌};
ghost use Rattle.svc_values.specs.meaning.Calls.{operands_of};
ghost use Rattle.stmt_meaning.specs.InnerReading.{HasRead};
ghost use Rattle.stmt_meaning.specs.meaning.Operands.{taken, value_of as value_of_def, values_of as values_of_def, wanted_draw};
ghost use Rattle.stmt_meaning.specs.meaning.Plans.{plan_of as plan_of_def};

use crate::draw_from::DrawFrom;
use crate::operand::{drawn_value, operand_at};
use crate::plan::Plan;
use crate::planning::plan_for;
use crate::stop::Stop;
use crate::target::target_of;
use std::alloc::Global;
use svc_values::{
    Draw, DrawKind, Operand, Row, Schema, Settings, Statement, StatementFault, TryCopy, Value,
};

/// The value of a new draw, which is put behind those before.
fn draw_value<F: DrawFrom>(
    alloc: Global,
    kind: &DrawKind,
    source: &mut F,
    drawn: &mut Vec<Draw>,
) -> Result<Value, Stop>
    requires { F.is_ready source.old }
    ensures read { HasRead F.drew (λ given. taken (wanted_draw (F.names source.old) kind.now) given)
        source.old drawn.old.items result source.new drawn.new.items }
    ensures names { F.names source.new ≡ F.names source.old }
    ensures ready { F.is_ready source.new }
{
    let draw = source.draw(alloc, kind)?;
    let value = drawn_value(alloc, &draw)?;
    drawn.push(draw)?;
    Ok(value)
}

/// The value of an operand. A setting or a sequence that is not there is the statement's fault.
fn value_of<F: DrawFrom>(
    alloc: Global,
    settings: &Settings,
    operand: &Operand,
    source: &mut F,
    drawn: &mut Vec<Draw>,
) -> Result<Value, Stop>
    requires { F.is_ready source.old }
    ensures read { HasRead F.drew (λ given. value_of_def (F.names source.old) settings.now
        operand.now given) source.old drawn.old.items result source.new drawn.new.items }
    ensures names { F.names source.new ≡ F.names source.old }
    ensures ready { F.is_ready source.new }
{
    match operand {
        Operand::Lit(value) => Ok(value.copy(alloc)?),
        Operand::Var(name) => match settings.get(name) {
            None => Err(Stop::Refused(StatementFault::NoVar)),
            Some(value) => Ok(value.copy(alloc)?),
        },
        Operand::Draw(kind) => draw_value(alloc, kind, source, drawn),
    }
}

/// The values of a statement's operands, read from left to right.
fn values_of<F: DrawFrom>(
    alloc: Global,
    settings: &Settings,
    statement: &Statement,
    source: &mut F,
    drawn: &mut Vec<Draw>,
) -> Result<Row, Stop>
    requires { F.is_ready source.old }
    ensures read { HasRead F.drew (λ given. values_of_def (F.names source.old) settings.now
        (operands_of statement.now) given) source.old drawn.old.items result source.new
        drawn.new.items }
    ensures names { F.names source.new ≡ F.names source.old }
    ensures ready { F.is_ready source.new }
{
    let mut values = Vec::new(alloc);
    while let Some(operand) = operand_at(statement, values.len()) {
        values.push(value_of(alloc, settings, operand, source, drawn)?)?;
    }
    Ok(Row::from_vec(values))
}

/// The plan of a statement over tables that are declared so, its operands read: the checks of its
/// names come before, and those of the operands' kinds after that. No row is looked at. The draws
/// that it took are put behind those before.
pub fn plan_of<F: DrawFrom>(
    alloc: Global,
    schemas: &[Schema],
    settings: &Settings,
    statement: &Statement,
    source: &mut F,
    drawn: &mut Vec<Draw>,
) -> Result<Plan, Stop>
    requires { F.is_ready source.old }
    ensures read { HasRead F.drew (λ given.
        plan_of_def (record { schemas = schemas.now; sequences = F.names source.old }) settings.now
        statement.now given) source.old drawn.old.items result source.new drawn.new.items }
    ensures names { F.names source.new ≡ F.names source.old }
    ensures ready { F.is_ready source.new }
{
    let target = target_of(schemas, statement)?;
    let values = values_of(alloc, settings, statement, source, drawn)?;
    Ok(plan_for(alloc, &target, statement, values)?)
}
