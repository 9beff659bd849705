//! The parts of the document: the table of accounts, and the request that moves money between two.
ghost use Rattle.std.specs.Prelude.{◌≡◌, ◌<◌, IfOk, IsTrue};
ghost use Rattle.svc_values.specs.meaning.Texts.{is_name};
ghost use Rattle.load_document.specs.meaning.Loads.{account as account_def, accounts_from, accounts as accounts_def, number as number_def, paid as paid_def, look as look_def, pay as pay_def, commit as commit_def, transfer as transfer_def};

use outage_schedule::{Calls, DocRows, DocTable, IndexColumns, Request};
use std::alloc::Global;
use svc_values::{
    Call, Change, Column, Columns, Kind, Name, NoMemory, Operand, Row, Settings, Statement,
    Statements, Value,
};

/// The name that this text spells.
fn name(alloc: Global, text: &str) -> Name
    requires { IsTrue (is_name text.now) }
    ensures { result ≡ text.now }
{
    match Name::new(alloc, text) {
        Ok(name) => name,
        Err(_) => unreachable!(),
    }
}

/// An operand that is this number.
fn number(number: i64) -> Operand
    ensures { result ≡ number_def number }
{
    Operand::Lit(Value::Int(number))
}

/// The row of an account.
fn account(alloc: Global, account: u64) -> Result<Row, NoMemory>
    requires { account < 16 }
    ensures { IfOk result (λ row. row ≡ account_def account) }
{
    let values = Vec::from_array(alloc, [Value::Int(account as i64), Value::Int(1_000)])?;
    Ok(Row::from_vec(values))
}

/// The rows of all accounts.
fn account_rows(alloc: Global) -> Result<DocRows, NoMemory>
    ensures { IfOk result (λ rows. rows ≡ accounts_from 16 0) }
{
    let mut rows = Vec::new(alloc);
    for number in 0..16 {
        rows.push(account(alloc, number)?)?;
    }
    Ok(DocRows::from_vec(rows))
}

/// A column of integers.
fn column(alloc: Global, text: &str) -> Column
    requires { IsTrue (is_name text.now) }
    ensures { result ≡ record { name = text.now; kind = Kind.Int } }
{
    Column {
        name: name(alloc, text),
        kind: Kind::Int,
    }
}

/// The table of the accounts.
#[tactic(auto, unfolding(crate::specs::meaning::Loads::accounts))]
pub(crate) fn accounts(alloc: Global) -> Result<DocTable, NoMemory>
    ensures { IfOk result (λ table. table ≡ accounts_def) }
{
    let columns = Vec::from_array(alloc, [column(alloc, "id"), column(alloc, "bal")])?;
    let rows = account_rows(alloc)?;
    Ok(DocTable {
        name: name(alloc, "acc"),
        columns: Columns::from_vec(columns),
        rows,
        index: IndexColumns::new(alloc),
    })
}

/// Adds so much to what stands on an account.
fn paid(alloc: Global, account: u64, by: i64) -> Statement
    requires { account < 16 }
    ensures { result ≡ paid_def account by }
{
    Statement::Update {
        table: name(alloc, "acc"),
        key: number(account as i64),
        column: name(alloc, "bal"),
        change: Change::Plus(number(by)),
    }
}

/// Reads an account.
fn look(alloc: Global, account: u64) -> Result<Call, NoMemory>
    requires { account < 16 }
    ensures { IfOk result (λ call. call ≡ look_def account) }
{
    let statement = Statement::Get {
        table: name(alloc, "acc"),
        key: number(account as i64),
    };
    Ok(Call::Work {
        statements: Statements::of(alloc, Vec::from_array(alloc, [statement])?)?,
        commit: false,
    })
}

/// Takes 1 from an account and adds it to another one, or to the same.
fn pay(alloc: Global, from: u64, to: u64) -> Result<Call, NoMemory>
    requires from { from < 16 }
    requires to { to < 16 }
    ensures { IfOk result (λ call. call ≡ pay_def from to) }
{
    let statements = Vec::from_array(alloc, [paid(alloc, from, -1), paid(alloc, to, 1)])?;
    Ok(Call::Work {
        statements: Statements::of(alloc, statements)?,
        commit: false,
    })
}

/// A call that commits, and does nothing else.
fn commit(alloc: Global) -> Result<Call, NoMemory>
    ensures { IfOk result (λ call. call ≡ commit_def) }
{
    Ok(Call::Work {
        statements: Statements::of(alloc, Vec::new(alloc))?,
        commit: true,
    })
}

/// A request that moves 1 from an account to another one, or to the same.
#[tactic(auto, unfolding(crate::specs::meaning::Loads::transfer))]
pub(crate) fn transfer(alloc: Global, from: u64, to: u64) -> Result<Request, NoMemory>
    requires from { from < 16 }
    requires to { to < 16 }
    ensures { IfOk result (λ request. request ≡ transfer_def from to) }
{
    let mut calls = Vec::new(alloc);
    calls.push(look(alloc, from)?)?;
    calls.push(pay(alloc, from, to)?)?;
    calls.push(commit(alloc)?)?;
    Ok(Request {
        settings: Settings::new(alloc),
        calls: Calls::from_vec(calls),
        again: 0,
    })
}
