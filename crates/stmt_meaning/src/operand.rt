//! Operands: the order in which they are read, and what they stand for.
ghost use Rattle.std.specs.Prelude.{◌≡◌, ◌<◌, IfOk, IsSome, option_copied, slice_get};
ghost use Rattle.stmt_meaning.specs.meaning.Operands.{drawn_value as drawn_value_def};
ghost use Rattle.svc_values.specs.meaning.Calls.{operands_of, operand_of};

use std::alloc::Global;
use svc_values::{Change, Draw, NoMemory, Octets, Operand, Statement, Value};

fn changed_by(change: &Change) -> &Operand
    ensures { result.now ≡ operand_of change.now }
{
    match change {
        Change::To(operand) | Change::Plus(operand) => operand,
    }
}

/// The operand of a statement at this place of the order in which they are read: those of an insert
/// in their order, and the key of an update before its change. `None` exactly past the last. There
/// are at most eight.
pub fn operand_at(statement: &Statement, at: usize) -> Option<&Operand>
    ensures operand { option_copied result ≡ slice_get (operands_of statement.now) at }
    ensures within { IsSome result → at < 8 }
{
    match statement {
        Statement::Insert { values, .. } => values.as_slice().get(at),
        Statement::Update { key, change, .. } => match at {
            0 => Some(key),
            1 => Some(changed_by(change)),
            _ => None,
        },
        Statement::Delete { key, .. } | Statement::Get { key, .. } => match at {
            0 => Some(key),
            _ => None,
        },
        Statement::Select { operand, .. } | Statement::Show { operand } => match at {
            0 => Some(operand),
            _ => None,
        },
        Statement::Count { .. } | Statement::Sum { .. } => None,
    }
}

/// The greatest integer, as a tick.
const LAST_TICK: u64 = 0x7fff_ffff_ffff_ffff;

/// The value that a draw stands for. A tick above the greatest integer stands for that one, and an
/// identifier for its bytes.
pub fn drawn_value(alloc: Global, draw: &Draw) -> Result<Value, NoMemory>
    ensures { IfOk result (λ value. value ≡ drawn_value_def draw.now) }
{
    match draw {
        Draw::Seq { value, .. } => Ok(Value::Int(*value)),
        Draw::Clock { tick } => {
            let tick = (*tick).min(LAST_TICK);
            Ok(Value::Int(tick as i64))
        }
        Draw::Id { id } => match Octets::new(alloc, id) {
            Ok(octets) => Ok(Value::Bytes(octets)),
            Err(_) => Err(NoMemory),
        },
    }
}
