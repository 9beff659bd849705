//! Which values a call asks for.
ghost use Rattle.std.specs.Prelude.{◌≡◌, ◌≤◌, ◌++◌, flat_map, IfOk, OnOk, length, filter};
ghost use Rattle.stmt_meaning.specs.meaning.Asked.{asked_by_call as asked_by_call_def, asked_by_operand, asked_by_statement};
ghost use Rattle.svc_values.specs.meaning.Calls.{operand_of as operand_of_def};
ghost use Rattle.server_model.specs.meaning.NewValues.{is_of_sequence as is_of_sequence_def, is_identifier as is_identifier_def};
ghost use Rattle.legal_draws.specs.Asking.{asks_in, whole_from, whole_in};

use std::alloc::Global;
use svc_values::{Call, Change, DrawKind, Name, NoMemory, Operand, Statement, TryCopy};

/// Puts what the operand asks for last.
fn put_operand(asked: &mut Vec<DrawKind>, alloc: Global, operand: &Operand) -> Result<(), NoMemory>
    ensures { OnOk result (asked.new.items ≡ asked.old.items ++ asked_by_operand operand.now) }
{
    if let Operand::Draw(kind) = operand {
        asked.push(kind.copy(alloc)?)?;
    }
    Ok(())
}

/// Puts what the operands ask for last.
fn put_operands(
    asked: &mut Vec<DrawKind>,
    alloc: Global,
    operands: &[Operand],
) -> Result<(), NoMemory>
    ensures { OnOk result
        (asked.new.items ≡ asked.old.items ++ flat_map asked_by_operand operands.now) }
{
    for operand in operands {
        put_operand(asked, alloc, operand)?;
    }
    Ok(())
}

/// The operand of a change.
fn operand_of(change: &Change) -> &Operand
    ensures { result.now ≡ operand_of_def change.now }
{
    match change {
        Change::To(operand) | Change::Plus(operand) => operand,
    }
}

/// Puts what a statement asks for last.
fn put_statement(
    asked: &mut Vec<DrawKind>,
    alloc: Global,
    statement: &Statement,
) -> Result<(), NoMemory>
    ensures { OnOk result (asked.new.items ≡ asked.old.items ++ asked_by_statement statement.now) }
{
    match statement {
        Statement::Insert { values, .. } => put_operands(asked, alloc, values.as_slice()),
        Statement::Update { key, change, .. } => {
            put_operand(asked, alloc, key)?;
            put_operand(asked, alloc, operand_of(change))
        }
        Statement::Delete { key, .. } => put_operand(asked, alloc, key),
        Statement::Get { key, .. } => put_operand(asked, alloc, key),
        Statement::Select { operand, .. } => put_operand(asked, alloc, operand),
        Statement::Show { operand } => put_operand(asked, alloc, operand),
        Statement::Count { .. } => Ok(()),
        Statement::Sum { .. } => Ok(()),
    }
}

/// Puts what the statements ask for last.
fn put_statements(
    asked: &mut Vec<DrawKind>,
    alloc: Global,
    statements: &[Statement],
) -> Result<(), NoMemory>
    ensures { OnOk result
        (asked.new.items ≡ asked.old.items ++ flat_map asked_by_statement statements.now) }
{
    for statement in statements {
        put_statement(asked, alloc, statement)?;
    }
    Ok(())
}

/// What a call asks for of which no statement is refused: of its operands in the order in which
/// they are read. Linear; there are at most 64.
pub fn asked_by_call(alloc: Global, call: &Call) -> Result<Vec<DrawKind>, NoMemory>
    ensures { IfOk result (λ asked. asked.items ≡ asked_by_call_def call.now) }
{
    let mut asked = Vec::new(alloc);
    if let Call::Work { statements, .. } = call {
        put_statements(&mut asked, alloc, statements.as_slice())?;
    }
    Ok(asked)
}

/// How many of so many first draws belong to statements whose draws are all among them. Linear.
fn whole_statements(
    alloc: Global,
    statements: &[Statement],
    drawn: usize,
) -> Result<usize, NoMemory>
    ensures whole { IfOk result (λ whole. whole ≡ whole_from 0 statements.now drawn) }
    ensures within { IfOk result (λ whole. whole ≤ drawn) }
{
    let mut asked = Vec::new(alloc);
    let mut whole = 0;
    for statement in statements {
        put_statement(&mut asked, alloc, statement)?;
        if drawn < asked.len() {
            return Ok(whole);
        }
        whole = asked.len();
    }
    Ok(whole)
}

/// How many of so many first draws of a call belong to statements whose draws are all among them.
/// Linear; there are at most 64.
pub fn drawn_whole(alloc: Global, call: &Call, drawn: usize) -> Result<usize, NoMemory>
    ensures whole { IfOk result (λ whole. whole ≡ whole_in call.now drawn) }
    ensures within { IfOk result (λ whole. whole ≤ drawn) }
{
    match call {
        Call::Work { statements, .. } => whole_statements(alloc, statements.as_slice(), drawn),
        Call::Set { .. } | Call::Alter { .. } => Ok(0),
        Call::Disable | Call::Rollback => Ok(0),
    }
}

/// Whether it is a value of the sequence of this name.
fn is_of_sequence(kind: &DrawKind, name: &Name) -> bool
    ensures { result ≡ is_of_sequence_def name.now kind.now }
{
    match kind {
        DrawKind::Seq(other) => *other == *name,
        DrawKind::Clock | DrawKind::Id => false,
    }
}

/// How many of these are values of the sequence of this name.
pub(crate) fn asks_for(asked: &[DrawKind], name: &Name) -> usize
    ensures { result ≡ asks_in asked.now name.now }
{
    asked
        .iter()
        .filter(|kind| is_of_sequence(kind, name))
        .count()
}

/// Whether it is a new identifier.
fn is_identifier(kind: &DrawKind) -> bool
    ensures { result ≡ is_identifier_def kind.now }
{
    matches!(kind, DrawKind::Id)
}

/// How many of these are new identifiers.
pub(crate) fn identifiers_in(asked: &[DrawKind]) -> usize
    ensures { result ≡ length (filter is_identifier_def asked.now) }
{
    asked.iter().filter(|kind| is_identifier(kind)).count()
}
