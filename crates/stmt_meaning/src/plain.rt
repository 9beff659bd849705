//! Calls on plain tables.
ghost use Rattle.std.specs.Prelude.{◌≡◌, ◌++◌, ◌∷◌, [], IfOk, IsErrOf, List, None, Option, length};
ghost use Rattle.svc_values.specs.Fitting.{IsBase};
ghost use Rattle.svc_values.specs.meaning.SettingsList.{put_setting};
ghost use Rattle.stmt_meaning.specs.InnerAnswers.{DidAll};
ghost use Rattle.stmt_meaning.specs.meaning.Meaning.{AllDone, commit_answer, mean, statements_done, worked as worked_def};
ghost use Rattle.stmt_meaning.specs.PlainRuns.{IsMeaning};
ghost use Rattle.stmt_meaning.specs.declared.plain.PlainFault.TheVariants as plain_fault;

use crate::fault::TxnFault;
use crate::list_draws::ListDraws;
use crate::rows::{Worked, run_statements};
use std::alloc::{AllocFailed, Global};
use svc_values::{
    Answer, Answers, Call, Draw, Draws, Name, Names, NoMemory, PlainTables, Settings, Shape,
    Statement, TryCopy, Value, copies,
};
use thiserror::Error;

/// What a call did on plain tables: its answers, the tables and settings after it, and how many of
/// the given draws it took, from the first on.
#[derive(Drop)]
pub struct PlainRun {
    pub answers: Answers,
    pub tables: PlainTables,
    pub settings: Settings,
    pub used: u64,
}

/// Why a call was not run.
#[derive(Clone, Copy, Debug, PartialEq, Eq, Error)]
pub enum PlainFault {
    #[error("out of memory")]
    NoMemory,
    #[error("the draws do not begin with those that the call asks for")]
    DrawsDiffer,
}

impl From<NoMemory> for PlainFault {
    ghost from_gives = { λ _ e. e ≡ plain_fault.NoMemory };

    fn from(_e: NoMemory) -> PlainFault {
        PlainFault::NoMemory
    }
}

impl<T: Drop> From<AllocFailed<T>> for PlainFault {
    ghost from_gives = { λ _ e. e ≡ plain_fault.NoMemory };

    fn from(_e: AllocFailed<T>) -> PlainFault {
        PlainFault::NoMemory
    }
}

/// The answers of a call, ended by a commit or not.
fn with_commit(mut answers: Vec<Answer>, commit: bool) -> Result<Answers, NoMemory>
    ensures { IfOk result (λ all. all ≡ answers.items ++ commit_answer commit) }
{
    if commit {
        answers.push(Answer::Committed)?;
    }
    Ok(Answers::from_vec(answers))
}

/// What a work call did, from what its statements did.
fn finished(
    alloc: Global,
    tables: &PlainTables,
    settings: &Settings,
    commit: bool,
    worked: Worked,
) -> Result<PlainRun, NoMemory>
    ensures { IfOk result (λ run. (all : Option AllDone) (draws : List Draw)
        → DidAll all tables.now draws worked.answers.items worked.rows.items
        (length worked.drawn.items) worked.is_refused
        → IsMeaning (worked_def tables.now settings.now commit all) draws run) }
{
    let Worked {
        answers,
        rows,
        drawn,
        is_refused,
    } = worked;
    let settings = settings.copy(alloc)?;
    let used = drawn.len() as u64;
    if is_refused {
        return Ok(PlainRun {
            answers: Answers::from_vec(answers),
            tables: tables.copy(alloc)?,
            settings,
            used,
        });
    }
    Ok(PlainRun {
        answers: with_commit(answers, commit)?,
        tables: PlainTables::from_vec(rows),
        settings,
        used,
    })
}

/// These draws as a source of the sequences of these names.
fn source_of(alloc: Global, names: &Names, draws: &[Draw]) -> Result<ListDraws, NoMemory>
    ensures { IfOk result (λ source. source ≡ record { names = names.now; draws = draws.now }) }
{
    let names = names.copy(alloc)?;
    let draws = Draws::from_vec(copies(alloc, draws)?);
    Ok(ListDraws::new(names, draws))
}

/// A work call.
fn run_work(
    alloc: Global,
    shape: &Shape,
    tables: &PlainTables,
    settings: &Settings,
    statements: &[Statement],
    commit: bool,
    draws: &[Draw],
) -> Result<PlainRun, PlainFault>
    ensures ok { IfOk result (IsMeaning (worked_def tables.now settings.now commit
        (statements_done shape.now tables.now settings.now statements.now draws.now)) draws.now) }
    ensures differ { IsErrOf result PlainFault.DrawsDiffer
        → worked_def tables.now settings.now commit
        (statements_done shape.now tables.now settings.now statements.now draws.now) ≡ None }
{
    let mut source = source_of(alloc, &shape.sequences, draws)?;
    let schemas = shape.schemas.as_slice();
    match run_statements(alloc, schemas, tables, settings, statements, &mut source) {
        Ok(worked) => Ok(finished(alloc, tables, settings, commit, worked)?),
        Err(TxnFault::NoMemory) => Err(PlainFault::NoMemory),
        Err(TxnFault::Stopped) => Err(PlainFault::DrawsDiffer),
    }
}

/// A call without statements: it draws nothing and leaves the tables.
fn run_alone(
    alloc: Global,
    tables: &PlainTables,
    settings: Settings,
    answer: Answer,
) -> Result<PlainRun, NoMemory>
    ensures { IfOk result (λ run. run ≡ record {
      answers = answer ∷ [];
      tables =
          tables.now;
      settings = settings;
      used = 0;
    }) }
{
    let answers = Vec::from_array(alloc, [answer])?;
    Ok(PlainRun {
        answers: Answers::from_vec(answers),
        tables: tables.copy(alloc)?,
        settings,
        used: 0,
    })
}

/// The settings with this one.
fn with_setting(
    alloc: Global,
    settings: &Settings,
    name: &Name,
    value: &Value,
) -> Result<Settings, NoMemory>
    ensures { IfOk result (λ after. after ≡ put_setting settings.now name.now value.now) }
{
    let mut after = settings.copy(alloc)?;
    after.put(name.copied(), value.copy(alloc)?)?;
    Ok(after)
}

/// Runs a call on tables, with draws that are given. Tables stand in order, and their rows fit the
/// shape: each stands in one of its tables, has a value of its kind for each column, and its key
/// first. So they do again after the call. A refused call leaves the tables as they are.
/// `DrawsDiffer` tells that the draws do not begin with those that the call asks for. Linear in the
/// rows for each of at most eight statements.
pub fn plain_call(
    alloc: Global,
    shape: &Shape,
    tables: &PlainTables,
    settings: &Settings,
    call: &Call,
    draws: &[Draw],
) -> Result<PlainRun, PlainFault>
    ensures ok { IfOk result (IsMeaning (mean shape.now tables.now settings.now call.now draws.now)
        draws.now) }
    ensures differ { IsErrOf result PlainFault.DrawsDiffer
        → mean shape.now tables.now settings.now call.now draws.now ≡ None }
    ensures base { IfOk result (λ run. IsBase shape.now tables.now → IsBase shape.now run.tables) }
{
    match call {
        Call::Work { statements, commit } => {
            let statements = statements.as_slice();
            run_work(alloc, shape, tables, settings, statements, *commit, draws)
        }
        Call::Set { name, value } => {
            let after = with_setting(alloc, settings, name, value)?;
            Ok(run_alone(alloc, tables, after, Answer::Done(1))?)
        }
        Call::Alter { .. } => {
            let settings = settings.copy(alloc)?;
            Ok(run_alone(alloc, tables, settings, Answer::Done(1))?)
        }
        Call::Disable => {
            let settings = settings.copy(alloc)?;
            Ok(run_alone(alloc, tables, settings, Answer::Done(0))?)
        }
        Call::Rollback => {
            let settings = settings.copy(alloc)?;
            Ok(run_alone(alloc, tables, settings, Answer::RolledBack)?)
        }
    }
}
