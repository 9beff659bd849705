//! Transactions.
ghost use Rattle.std.specs.Prelude.{◌≡◌, ◌≤◌, ◌++◌, ◌∷◌, [], List, IsTrue, OnOk, OnErr, IfOk, IfErr, length, take};
ghost use Rattle.std.specs.Option.{option_copied};
ghost use Rattle.svc_values.specs.meaning.Fitting.{writes_fit};
ghost use Rattle.svc_values.specs.meaning.Tables.{with_writes};
ghost use Rattle.svc_values.specs.Fitting.{tables_fit};
ghost use Rattle.svc_values.specs.Tables.{AreTables};
ghost use Rattle.stmt_meaning.specs.meaning.Meaning.{OneDone};
ghost use Rattle.stmt_meaning.specs.meaning.Plans.{place_of};
ghost use Rattle.stmt_meaning.specs.Drawing.{DrewAll, Ends};
ghost use Rattle.stmt_meaning.specs.InnerRunning.{one_left};
ghost use Rattle.stmt_meaning.specs.meaning.Reads.{Read};
ghost use Rattle.stmt_meaning.specs.Reads.{IsConflict};
ghost use Rattle.table_txn.specs.Knowing.{is_known};
ghost use Rattle.table_txn.specs.Readings.{AreReadings, StandWhere, StayUnchanged, HasReadIfAny};
ghost use Rattle.table_txn.specs.Found.{IsFoundIfAny};
ghost use Rattle.table_txn.specs.Transactions.{empty, shape_of, HasRun, HasEnded};
ghost use Rattle.table_txn.specs.InnerSteps.{HasDone, HasNext, HasWorked, HasWritten};

use crate::effects::effect_on;
use crate::found::Committed;
use crate::known::Known;
use crate::own::OwnWrites;
use crate::readings::Readings;
use std::alloc::Global;
use std::marker::Model;
use stmt_meaning::{DrawFrom, Effect, Plan, Stop, TxnFault, is_refusal, plan_of};
use svc_values::{
    Answer, Answers, Draw, Draws, NoMemory, Piece, Pieces, Place, Settings, Statement, Statements,
    Writes,
};
use table_store::Tables;

/// What statements did: their answers, and the draws that they took.
#[derive(Drop)]
pub struct Ran {
    pub answers: Answers,
    pub draws: Draws,
}

/// A transaction on its way: its calls so far, its own writes, and what it read. It is seen as
/// these three lists.
#[derive(Drop)]
pub struct Txn {
    pieces: Pieces,
    own: OwnWrites,
    readings: Readings,
    alloc: Global,
}

impl Model for Txn {
    ghost use Rattle.table_txn.specs.Transactions.{Transaction};

    ghost Value = { Transaction };

    ghost view = { λ a. record { pieces = a.pieces; writes = a.own; readings = a.readings } };
}

impl Txn {
    /// A transaction that has done nothing. It takes no memory.
    pub fn new(alloc: Global) -> Txn
        ensures empty { result ≡ empty }
        ensures no_reads { AreReadings empty.readings [] }
    {
        Txn {
            pieces: Pieces::new(alloc),
            own: OwnWrites::new(alloc),
            readings: Readings::new(alloc),
            alloc,
        }
    }

    /// A transaction with the same writes in which nothing was called or read, so that a call can
    /// be tried in it. The writes are copied: n log n for n writes.
    pub fn probe(&self, alloc: Global) -> Result<Txn, NoMemory>
        ensures probe { IfOk result (λ made. made ≡ record {
          pieces = [];
          writes =
              self.now.writes;
          readings = [];
        }) }
        ensures no_reads { AreReadings [] [] }
    {
        Ok(Txn {
            pieces: Pieces::new(alloc),
            own: self.own.copy(alloc)?,
            readings: Readings::new(alloc),
            alloc,
        })
    }

    /// Keeps a call with its answers and draws. Where memory is refused nothing changes.
    pub fn note(&mut self, piece: Piece) -> Result<(), NoMemory>
        ensures ok { OnOk result (self.new
            ≡ record self.old { pieces = self.old.pieces ++ piece ∷ [] }) }
        ensures err { OnErr result (self.new ≡ self.old) }
    {
        match self.pieces.push(piece) {
            Ok(()) => Ok(()),
            Err(_) => Err(NoMemory),
        }
    }

    /// The calls so far.
    pub fn pieces(&self) -> &Pieces
        ensures { result.now ≡ self.now.pieces }
    {
        &self.pieces
    }

    /// The writes so far, in their order.
    pub fn writes(&self) -> &Writes
        ensures { result.now ≡ self.now.writes }
    {
        self.own.writes()
    }

    /// The calls and the writes, moved out.
    pub fn into_parts(self) -> (Pieces, Writes)
        ensures pieces { result.0 ≡ self.pieces }
        ensures writes { result.1 ≡ self.writes }
    {
        let Txn { pieces, own, .. } = self;
        (pieces, own.into_writes())
    }

    /// Gives up all that was done and read. It takes no memory.
    pub fn roll_back(&mut self)
        ensures empty { self.new ≡ empty }
        ensures no_reads { AreReadings empty.readings [] }
    {
        *self = Txn::new(self.alloc);
    }

    /// A place that was read and has something else committed now than at the read, or two reads of
    /// which found different things; `None` exactly where there is no such place. Linear in the
    /// places that were read, and in the rows of the tables that were read whole and are not known
    /// to have what they had. No memory is taken.
    pub fn conflicts(&self, tables: &Tables, known: Known) -> Option<&Place>
        requires { StandWhere (is_known known) tables.now.rows self.now.readings }
        ensures { (reads : List Read) → AreReadings self.now.readings reads
            → IsConflict reads tables.now.rows (option_copied result) }
    {
        self.readings.first_changed(tables, known)
    }

    /// Runs the statements of a call, each on the committed tables with the transaction's own
    /// writes over them, up to the first that is refused. What was read before is compared where it
    /// is not known to have what it had. A refusal takes the call's writes back; what was read and
    /// drawn stays so. A statement on one row takes the logarithm of the rows and of the
    /// transaction's writes; one on a whole table is at most linear in its rows, and in the
    /// transaction's own of that table by the logarithm of its rows. After a fault some of the
    /// statements may have run: what is left is to roll back.
    pub fn run<F: DrawFrom>(
        &mut self,
        tables: &Tables,
        known: Known,
        settings: &Settings,
        statements: &Statements,
        draws: &mut F,
    ) -> Result<Ran, TxnFault>
        requires fits { IsTrue (writes_fit tables.now.schemas self.old.writes) }
        requires stands { StandWhere (is_known known) tables.now.rows self.old.readings }
        requires ready { F.is_ready draws.old }
        ensures ran { IfOk result (λ ran. HasRun tables.now (F.names draws.old) settings.now
            self.old statements.now ran.answers ran.draws self.new
            × DrewAll F.drew draws.old ran.draws draws.new) }
        ensures ended { IfErr result (λ ended. HasEnded tables.now (F.names draws.old) settings.now
            self.old statements.now F.drew draws.old ended draws.new) }
        ensures fits { OnOk result (IsTrue (writes_fit tables.now.schemas self.new.writes)) }
        ensures unchanged { OnOk result (StayUnchanged tables.now.rows self.old.readings
            self.new.readings) }
        ensures names { F.names draws.new ≡ F.names draws.old }
        ensures ready { F.is_ready draws.new }
    {
        let _ = tables.schemas();
        let count = self.count();
        let mut answers = Vec::new(self.alloc);
        let mut drawn = Vec::new(self.alloc);
        for statement in statements.as_slice() {
            let is_refused = self.run_next(
                tables,
                known,
                settings,
                statement,
                draws,
                &mut answers,
                &mut drawn,
            )?;
            if is_refused {
                self.take_back(count);
                return Ok(what_ran(answers, drawn));
            }
        }
        Ok(what_ran(answers, drawn))
    }

    /// How many writes.
    fn count(&self) -> usize
        ensures { result ≡ length self.now.writes }
    {
        self.own.len()
    }

    /// Takes the writes behind the first `count` back.
    fn take_back(&mut self, count: usize)
        requires { count ≤ length self.old.writes }
        ensures { self.new ≡ record self.old { writes = take count self.old.writes } }
    {
        self.own.keep_first(count);
    }

    /// Runs one statement and puts its answer behind those before. Whether it was refused.
    fn run_next<F: DrawFrom>(
        &mut self,
        tables: &Tables,
        known: Known,
        settings: &Settings,
        statement: &Statement,
        source: &mut F,
        answers: &mut Vec<Answer>,
        drawn: &mut Vec<Draw>,
    ) -> Result<bool, TxnFault>
        requires ordered { AreTables tables.now.rows }
        requires fits { IsTrue (tables_fit tables.now.schemas
            (with_writes tables.now.rows self.old.writes)) }
        requires stands { StandWhere (is_known known) tables.now.rows self.old.readings }
        requires ready { F.is_ready source.old }
        ensures done { IfOk result (λ is_refused. HasNext F.drew tables.now (F.names source.old)
            settings.now self.old statement.now source.old answers.old.items drawn.old.items
            is_refused self.new source.new answers.new.items drawn.new.items) }
        ensures unchanged { OnOk result (StayUnchanged tables.now.rows self.old.readings
            self.new.readings) }
        ensures ended { IfErr result (λ ended.
            Ends F.drew (one_left (shape_of tables.now (F.names source.old))
            (with_writes tables.now.rows self.old.writes) settings.now statement.now) source.old
            ended source.new) }
        ensures names { F.names source.new ≡ F.names source.old }
        ensures ready { F.is_ready source.new }
    {
        let answer = self.run_statement(tables, known, settings, statement, source, drawn)?;
        let is_refused = is_refusal(&answer);
        answers.push(answer)?;
        Ok(is_refused)
    }

    /// Runs one statement.
    fn run_statement<F: DrawFrom>(
        &mut self,
        tables: &Tables,
        known: Known,
        settings: &Settings,
        statement: &Statement,
        source: &mut F,
        drawn: &mut Vec<Draw>,
    ) -> Result<Answer, TxnFault>
        requires ordered { AreTables tables.now.rows }
        requires fits { IsTrue (tables_fit tables.now.schemas
            (with_writes tables.now.rows self.old.writes)) }
        requires stands { StandWhere (is_known known) tables.now.rows self.old.readings }
        requires ready { F.is_ready source.old }
        ensures done { IfOk result (λ answer. (one : OneDone)
            × ((answer ≡ one.answer) × HasDone F.drew tables.now (F.names source.old) settings.now
            self.old statement.now source.old drawn.old.items one self.new source.new
            drawn.new.items)) }
        ensures unchanged { OnOk result (StayUnchanged tables.now.rows self.old.readings
            self.new.readings) }
        ensures ended { IfErr result (λ ended.
            Ends F.drew (one_left (shape_of tables.now (F.names source.old))
            (with_writes tables.now.rows self.old.writes) settings.now statement.now) source.old
            ended source.new) }
        ensures names { F.names source.new ≡ F.names source.old }
        ensures ready { F.is_ready source.new }
    {
        let schemas = tables.schemas().as_slice();
        match plan_of(self.alloc, schemas, settings, statement, source, drawn) {
            Ok(plan) => Ok(self.work(tables, known, plan)?),
            Err(Stop::Refused(fault)) => Ok(Answer::Refused(fault)),
            Err(Stop::Ended(fault)) => Err(fault),
        }
    }

    /// Reads the place of a plan, and does it.
    fn work(&mut self, tables: &Tables, known: Known, plan: Plan) -> Result<Answer, NoMemory>
        requires ordered { AreTables tables.now.rows }
        requires fits { IsTrue (tables_fit tables.now.schemas
            (with_writes tables.now.rows self.old.writes)) }
        requires stands { StandWhere (is_known known) tables.now.rows self.old.readings }
        ensures worked { IfOk result (λ answer. HasWorked tables.now self.old plan answer
            self.new) }
        ensures unchanged { OnOk result (StayUnchanged tables.now.rows self.old.readings
            self.new.readings) }
    {
        let committed = self.read_place(tables, known, &plan)?;
        self.do_plan(tables, committed, plan)
    }

    /// Reads the place of a plan, and gives what is committed there.
    fn read_place<'t>(
        &mut self,
        tables: &'t Tables,
        known: Known,
        plan: &Plan,
    ) -> Result<Option<Committed<'t>>, NoMemory>
        requires { StandWhere (is_known known) tables.now.rows self.old.readings }
        ensures read { OnOk result (HasReadIfAny tables.now.rows self.old.readings
            (place_of plan.now) self.new.readings) }
        ensures found { IfOk result (IsFoundIfAny tables.now.rows (place_of plan.now)) }
        ensures writes { self.new.writes ≡ self.old.writes }
        ensures pieces { self.new.pieces ≡ self.old.pieces }
    {
        let place = plan.place(self.alloc)?;
        self.readings.add_if_any(tables, known, place)
    }

    /// Does a plan at whose place this is committed, on the committed tables with the transaction's
    /// own writes over them.
    fn do_plan(
        &mut self,
        tables: &Tables,
        committed: Option<Committed>,
        plan: Plan,
    ) -> Result<Answer, NoMemory>
        requires found { IsFoundIfAny tables.now.rows (place_of plan) committed }
        requires ordered { AreTables tables.now.rows }
        requires fits { IsTrue (tables_fit tables.now.schemas
            (with_writes tables.now.rows self.old.writes)) }
        ensures { IfOk result (λ answer. HasWritten tables.now self.old plan answer self.new) }
    {
        let effect = effect_on(self.alloc, tables, committed, &self.own, plan)?;
        let Effect { answer, write } = effect;
        self.own.put_if_any(write)?;
        Ok(answer)
    }
}

fn what_ran(answers: Vec<Answer>, drawn: Vec<Draw>) -> Ran
    ensures { result ≡ record { answers = answers.items; draws = drawn.items } }
{
    Ran {
        answers: Answers::from_vec(answers),
        draws: Draws::from_vec(drawn),
    }
}
