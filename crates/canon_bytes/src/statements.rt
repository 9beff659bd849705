//! Statements.
ghost use Rattle.std.specs.Prelude.{◌≡◌, ◌∷◌, ◌++◌, IfOk};
ghost use Rattle.canon_bytes.specs.meaning.StatementBytes.{spell_statement, insert_at, update_at, delete_at, get_at, select_at, sum_at, statement_at};
ghost use Rattle.canon_bytes.specs.StatementBytes.{FitsStatement};
ghost use Rattle.canon_bytes.specs.Reading.{IsReading};
ghost use Rattle.canon_bytes.specs.StatementsAgain.{statement_again};

use crate::canon::{Put, Take};
use crate::fault::{Fault, ReadFault};
use std::alloc::Global;
use svc_values::{Change, Name, NoMemory, Operand, Operands, Statement, Test};

#[tactic(auto, unfolding(crate::specs::meaning::StatementBytes::statement_at, crate::specs::meaning::StatementBytes::insert_at, crate::specs::meaning::StatementBytes::update_at, crate::specs::meaning::StatementBytes::delete_at, crate::specs::meaning::StatementBytes::get_at, crate::specs::meaning::StatementBytes::select_at, crate::specs::meaning::StatementBytes::sum_at))]
impl Take for Statement {
    ghost spelling = { spell_statement };

    ghost fits = { FitsStatement };

    ghost reading = { statement_at };

    ghost again = { statement_again };

    fn take(alloc: Global, bytes: &[u8]) -> Result<(Statement, &[u8]), ReadFault> {
        match bytes {
            [] => Err(ReadFault::Fault(Fault::Short)),
            [1, rest @ ..] => take_insert(alloc, rest),
            [2, rest @ ..] => take_update(alloc, rest),
            [3, rest @ ..] => take_delete(alloc, rest),
            [4, rest @ ..] => take_get(alloc, rest),
            [5, rest @ ..] => take_select(alloc, rest),
            [6, rest @ ..] => {
                let (table, rest) = Name::take(alloc, rest)?;
                Ok((Statement::Count { table }, rest))
            }
            [7, rest @ ..] => take_sum(alloc, rest),
            [8, rest @ ..] => {
                let (operand, rest) = Operand::take(alloc, rest)?;
                Ok((Statement::Show { operand }, rest))
            }
            _ => Err(ReadFault::Fault(Fault::BadTag(bytes.len()))),
        }
    }
}

impl Put for Statement {
    fn put(&self, out: &mut Vec<u8>) -> Result<(), NoMemory> {
        match self {
            Statement::Insert { table, values } => {
                out.push(1)?;
                table.put(out)?;
                values.put(out)
            }
            Statement::Update {
                table,
                key,
                column,
                change,
            } => {
                out.push(2)?;
                table.put(out)?;
                key.put(out)?;
                column.put(out)?;
                change.put(out)
            }
            Statement::Delete { table, key } => {
                out.push(3)?;
                table.put(out)?;
                key.put(out)
            }
            Statement::Get { table, key } => {
                out.push(4)?;
                table.put(out)?;
                key.put(out)
            }
            Statement::Select {
                table,
                column,
                test,
                operand,
            } => {
                out.push(5)?;
                table.put(out)?;
                column.put(out)?;
                test.put(out)?;
                operand.put(out)
            }
            Statement::Count { table } => {
                out.push(6)?;
                table.put(out)
            }
            Statement::Sum { table, column } => {
                out.push(7)?;
                table.put(out)?;
                column.put(out)
            }
            Statement::Show { operand } => {
                out.push(8)?;
                operand.put(out)
            }
        }
    }
}

#[tactic(auto, unfolding(crate::specs::meaning::StatementBytes::insert_at))]
fn take_insert(alloc: Global, bytes: &[u8]) -> Result<(Statement, &[u8]), ReadFault>
    ensures exact { IsReading (λ x. (x.0, x.1.now)) result (insert_at bytes.now) }
    ensures found { IfOk result (λ x. 1 ∷ bytes.now ≡ spell_statement x.0 ++ x.1.now) }
    ensures fitting { IfOk result (λ x. FitsStatement x.0) }
{
    let (table, rest) = Name::take(alloc, bytes)?;
    let (values, rest) = Operands::take(alloc, rest)?;
    Ok((Statement::Insert { table, values }, rest))
}

#[tactic(auto, unfolding(crate::specs::meaning::StatementBytes::update_at))]
fn take_update(alloc: Global, bytes: &[u8]) -> Result<(Statement, &[u8]), ReadFault>
    ensures exact { IsReading (λ x. (x.0, x.1.now)) result (update_at bytes.now) }
    ensures found { IfOk result (λ x. 2 ∷ bytes.now ≡ spell_statement x.0 ++ x.1.now) }
    ensures fitting { IfOk result (λ x. FitsStatement x.0) }
{
    let (table, rest) = Name::take(alloc, bytes)?;
    let (key, rest) = Operand::take(alloc, rest)?;
    let (column, rest) = Name::take(alloc, rest)?;
    let (change, rest) = Change::take(alloc, rest)?;
    let statement = Statement::Update {
        table,
        key,
        column,
        change,
    };
    Ok((statement, rest))
}

#[tactic(auto, unfolding(crate::specs::meaning::StatementBytes::delete_at))]
fn take_delete(alloc: Global, bytes: &[u8]) -> Result<(Statement, &[u8]), ReadFault>
    ensures exact { IsReading (λ x. (x.0, x.1.now)) result (delete_at bytes.now) }
    ensures found { IfOk result (λ x. 3 ∷ bytes.now ≡ spell_statement x.0 ++ x.1.now) }
    ensures fitting { IfOk result (λ x. FitsStatement x.0) }
{
    let (table, rest) = Name::take(alloc, bytes)?;
    let (key, rest) = Operand::take(alloc, rest)?;
    Ok((Statement::Delete { table, key }, rest))
}

#[tactic(auto, unfolding(crate::specs::meaning::StatementBytes::get_at))]
fn take_get(alloc: Global, bytes: &[u8]) -> Result<(Statement, &[u8]), ReadFault>
    ensures exact { IsReading (λ x. (x.0, x.1.now)) result (get_at bytes.now) }
    ensures found { IfOk result (λ x. 4 ∷ bytes.now ≡ spell_statement x.0 ++ x.1.now) }
    ensures fitting { IfOk result (λ x. FitsStatement x.0) }
{
    let (table, rest) = Name::take(alloc, bytes)?;
    let (key, rest) = Operand::take(alloc, rest)?;
    Ok((Statement::Get { table, key }, rest))
}

#[tactic(auto, unfolding(crate::specs::meaning::StatementBytes::select_at))]
fn take_select(alloc: Global, bytes: &[u8]) -> Result<(Statement, &[u8]), ReadFault>
    ensures exact { IsReading (λ x. (x.0, x.1.now)) result (select_at bytes.now) }
    ensures found { IfOk result (λ x. 5 ∷ bytes.now ≡ spell_statement x.0 ++ x.1.now) }
    ensures fitting { IfOk result (λ x. FitsStatement x.0) }
{
    let (table, rest) = Name::take(alloc, bytes)?;
    let (column, rest) = Name::take(alloc, rest)?;
    let (test, rest) = Test::take(alloc, rest)?;
    let (operand, rest) = Operand::take(alloc, rest)?;
    let statement = Statement::Select {
        table,
        column,
        test,
        operand,
    };
    Ok((statement, rest))
}

#[tactic(auto, unfolding(crate::specs::meaning::StatementBytes::sum_at))]
fn take_sum(alloc: Global, bytes: &[u8]) -> Result<(Statement, &[u8]), ReadFault>
    ensures exact { IsReading (λ x. (x.0, x.1.now)) result (sum_at bytes.now) }
    ensures found { IfOk result (λ x. 7 ∷ bytes.now ≡ spell_statement x.0 ++ x.1.now) }
    ensures fitting { IfOk result (λ x. FitsStatement x.0) }
{
    let (table, rest) = Name::take(alloc, bytes)?;
    let (column, rest) = Name::take(alloc, rest)?;
    Ok((Statement::Sum { table, column }, rest))
}
