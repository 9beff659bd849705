//! Calls that are run again.
ghost use Rattle.std.specs.Prelude.{◌≡◌, Option, Some, IfOk, OnOk, IsTrue};
ghost use Rattle.svc_values.specs.declared.call.Call.TheVariants as call_variant;
ghost use Rattle.svc_values.specs.meaning.Fitting.{writes_fit};
ghost use Rattle.svc_values.specs.meaning.SettingsList.{NamedValues, put_setting};
ghost use Rattle.stmt_meaning.specs.Laws.{closed_by};
ghost use Rattle.table_txn.specs.Knowing.{is_known};
ghost use Rattle.table_txn.specs.Readings.{StandWhere};
ghost use Rattle.calls_again.specs.OnWay.{on_way, started_with, if_none_left, answered_alone, taken_with, GoesBy};

use crate::going::Going;
use std::alloc::Global;
use stmt_meaning::{ListDraws, ends_refused};
use svc_values::{
    Answer, Answers, Call, Draw, Draws, Name, Names, NoMemory, Settings, Statements, TryCopy,
    Value, copies,
};
use table_store::Tables;
use table_txn::{Known, Ran, Txn, TxnFault};

/// The answers of a call's statements, and that of a commit behind them where one is asked for and
/// none of them was refused.
fn closed(mut answers: Answers, commit: bool) -> Result<Answers, NoMemory>
    ensures { IfOk result (λ all. all ≡ closed_by commit answers) }
{
    if commit && !ends_refused(answers.as_slice()) {
        match answers.push(Answer::Committed) {
            Ok(()) => {}
            Err(_) => return Err(NoMemory),
        }
    }
    Ok(answers)
}

/// The answers of statements that ran, with that of a commit, where no draw is left.
fn told_of(ran: Ran, commit: bool, left: usize) -> Result<Option<Answers>, NoMemory>
    ensures { IfOk result (λ told. told ≡ if_none_left left (closed_by commit ran.answers)) }
{
    if left > 0 {
        return Ok(None);
    }
    let answers = closed(ran.answers, commit)?;
    Ok(Some(answers))
}

/// This answer alone, where there is no draw.
fn alone(alloc: Global, draws: &[Draw], answer: Answer) -> Result<Option<Answers>, NoMemory>
    ensures { IfOk result (λ told. told ≡ answered_alone draws.now answer) }
{
    if !draws.is_empty() {
        return Ok(None);
    }
    Ok(Some(Answers::from_vec(Vec::from_array(alloc, [answer])?)))
}

/// Draws as a source of the sequences of these names.
fn source_of(alloc: Global, names: &Names, draws: &[Draw]) -> Result<ListDraws, NoMemory>
    ensures { IfOk result (λ source. source ≡ record { names = names.now; draws = draws.now }) }
{
    let names = names.copy(alloc)?;
    Ok(ListDraws::new(names, Draws::from_vec(copies(alloc, draws)?)))
}

/// Runs statements with all draws of a source.
fn work(
    txn: &mut Txn,
    tables: &Tables,
    known: Known,
    settings: &Settings,
    statements: &Statements,
    commit: bool,
    source: &mut ListDraws,
) -> Result<Option<Answers>, NoMemory>
    requires fits { IsTrue (writes_fit tables.now.schemas txn.old.writes) }
    requires stands { StandWhere (is_known known) tables.now.rows txn.old.readings }
    ensures { IfOk result (λ told. (earlier : Option NamedValues)
        → GoesBy tables.now (on_way settings.now earlier txn.old)
        (taken_with tables.now source.old.names (on_way settings.now earlier txn.old)
        (call_variant.Work statements.now commit) source.old.draws) told
        (on_way settings.now earlier txn.new)) }
{
    match txn.run(tables, known, settings, statements, source) {
        Ok(ran) => told_of(ran, commit, source.len()),
        Err(TxnFault::NoMemory) => Err(NoMemory),
        Err(TxnFault::Stopped) => Ok(None),
    }
}

/// Keeps the settings of now as those before the transaction's first call, where none has changed
/// them yet.
fn keep_earlier(
    alloc: Global,
    earlier: &mut Option<Settings>,
    now: &Settings,
) -> Result<(), NoMemory>
    ensures { OnOk result (earlier.new ≡ Some (started_with earlier.old now.now)) }
{
    if earlier.is_none() {
        *earlier = Some(now.copy(alloc)?);
    }
    Ok(())
}

impl Going {
    /// Runs a call with these draws: what it answers, a commit that it reaches as `Committed`, and
    /// `None` exactly where it does not ask for these draws and no other. Behind `None` the
    /// transaction is of no more use. What was read before is compared where it is not known to
    /// have what it had. A call with statements takes their time, the first one that sets a name
    /// that of the settings, each further one the logarithm of these, and each other call constant
    /// time.
    pub fn run(
        &mut self,
        alloc: Global,
        tables: &Tables,
        known: Known,
        names: &Names,
        call: &Call,
        draws: &[Draw],
    ) -> Result<Option<Answers>, NoMemory>
        requires fits { IsTrue (writes_fit tables.now.schemas self.old.writes) }
        requires stands { StandWhere (is_known known) tables.now.rows self.old.readings }
        ensures { IfOk result (λ told. GoesBy tables.now self.old
            (taken_with tables.now names.now self.old call.now draws.now) told self.new) }
    {
        match call {
            Call::Work { statements, commit } => {
                let mut source = source_of(alloc, names, draws)?;
                let Going { settings, txn, .. } = self;
                work(
                    txn,
                    tables,
                    known,
                    settings,
                    statements,
                    *commit,
                    &mut source,
                )
            }
            Call::Set { name, value } => {
                self.set(alloc, name, value)?;
                alone(alloc, draws, Answer::Done(1))
            }
            Call::Alter { .. } => alone(alloc, draws, Answer::Done(1)),
            Call::Disable => alone(alloc, draws, Answer::Done(0)),
            Call::Rollback => alone(alloc, draws, Answer::RolledBack),
        }
    }

    /// Sets a name.
    fn set(&mut self, alloc: Global, name: &Name, value: &Value) -> Result<(), NoMemory>
        ensures { OnOk result (self.new
            ≡ record self.old { settings = put_setting self.old.settings name.now value.now }) }
    {
        keep_earlier(alloc, &mut self.earlier, &self.settings)?;
        self.settings.put(name.copied(), value.copy(alloc)?)
    }
}
