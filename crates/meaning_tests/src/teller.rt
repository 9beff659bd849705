//! A teller: a transaction on committed tables, beside which other sessions commit; and scripts of
//! it.
ghost use Rattle.std.specs.Prelude.{◌≡◌, ℕ, List, false};
ghost use Rattle.table_txn.specs.Knowing.{is_known};

use crate::makers::{draws_of_s, no_rows, sequences, write};
use crate::script::{Does, Says, answer, statements};
use std::alloc::Global;
use std::process::Abort;
use svc_values::{Answers, Settings, Statements, Value};
use table_store::Tables;
use table_txn::{Changes, Known, ListDraws, Place, Txn, TxnFault};

/// A transaction beside the tables that it runs on. It knows of no table that it has what it had.
#[derive(Drop)]
pub struct Teller {
    tables: Tables,
    changes: Changes,
    txn: Txn,
    alloc: Global,
}

/// A teller with accounts of these balances, the ids from 1.
pub fn teller_of(rt: &impl Abort, alloc: Global, balances: &[i64]) -> Teller {
    let mut teller = Teller {
        tables: no_rows(rt, alloc),
        changes: Changes::new(alloc),
        txn: Txn::new(alloc),
        alloc,
    };
    let mut id = 0i64;
    for balance in balances {
        id = id.wrapping_add(1);
        teller.commit(rt, id, Some(*balance));
    }
    teller
}

/// Of no table is anything known.
fn nothing_known(changes: &Changes) -> Known<'_>
    ensures { (table : List ℕ) → is_known result table ≡ false }
{
    changes.since(Some(u64::MAX))
}

impl Teller {
    /// Another session commits an account, or its deletion.
    fn commit(&mut self, rt: &impl Abort, id: i64, balance: Option<i64>) {
        write(rt, self.alloc, &mut self.tables, &[(id, balance)]);
    }

    /// Runs the statements of a call with the values 17 and 18 of the sequence s.
    pub fn run(&mut self, rt: &impl Abort, statements: &Statements) -> Answers {
        let draws = draws_of_s(rt, self.alloc, [17, 18]);
        let mut source = ListDraws::new(sequences(rt, self.alloc), draws);
        self.run_from(statements, &mut source).expect(rt, "answers")
    }

    /// Runs the statements of a call with draws from this source.
    pub fn run_from(
        &mut self,
        statements: &Statements,
        source: &mut ListDraws,
    ) -> Result<Answers, TxnFault> {
        let settings = Settings::new(self.alloc);
        if !self.tables.all_fit(self.txn.writes()) {
            return Err(TxnFault::NoMemory);
        }
        let ran = self.txn.run(
            &self.tables,
            nothing_known(&self.changes),
            &settings,
            statements,
            source,
        )?;
        Ok(ran.answers)
    }

    /// Whether a call of one statement is answered so.
    fn says(&mut self, rt: &impl Abort, does: Does, wanted: Says) -> bool {
        let statements = statements(rt, self.alloc, &[does]);
        let answers = self.run(rt, &statements);
        answers.get(0) == Some(&answer(rt, self.alloc, wanted))
    }

    /// Whether the conflict is that of this account.
    fn conflicts_at(&self, id: i64) -> bool {
        match self
            .txn
            .conflicts(&self.tables, nothing_known(&self.changes))
        {
            Some(Place::Row { key, .. }) => *key == Value::Int(id),
            _ => false,
        }
    }

    /// Whether it is that of a whole table.
    fn conflicts_on_a_table(&self) -> bool {
        matches!(
            self.txn
                .conflicts(&self.tables, nothing_known(&self.changes)),
            Some(Place::Table { .. })
        )
    }

    /// Whether the transaction would write no row.
    pub fn writes_nothing(&self) -> bool {
        self.txn.writes().is_empty()
    }

    fn is_clear(&self) -> bool {
        self.txn
            .conflicts(&self.tables, nothing_known(&self.changes))
            .is_none()
    }
}

/// A step of a script: what is done, or what is so then.
#[derive(Clone, Copy)]
pub enum Step {
    /// A call of this statement is answered so.
    Tells(Does, Says),
    /// It is answered otherwise.
    TellsNot(Does, Says),
    /// Another session commits an account.
    Commits(i64, i64),
    /// It commits its deletion.
    Deletes(i64),
    /// The conflict is that of this account.
    ConflictsAt(i64),
    /// The conflict is that of a whole table.
    ConflictsOnATable,
    /// There is no conflict.
    IsClear,
    RollsBack,
}

/// Takes a step, and tells whether what is said of it is so.
fn is_so(rt: &impl Abort, teller: &mut Teller, step: &Step) -> bool {
    match step {
        Step::Tells(does, says) => teller.says(rt, *does, *says),
        Step::TellsNot(does, says) => !teller.says(rt, *does, *says),
        Step::Commits(id, balance) => {
            teller.commit(rt, *id, Some(*balance));
            true
        }
        Step::Deletes(id) => {
            teller.commit(rt, *id, None);
            true
        }
        Step::ConflictsAt(id) => teller.conflicts_at(*id),
        Step::ConflictsOnATable => teller.conflicts_on_a_table(),
        Step::IsClear => teller.is_clear(),
        Step::RollsBack => {
            teller.txn.roll_back();
            true
        }
    }
}

/// Takes these steps, and sees that what is said of each is so.
pub fn go(rt: &impl Abort, teller: &mut Teller, steps: &[Step]) {
    for (place, step) in steps.iter().enumerate() {
        assert!(rt; is_so(rt, teller, step), "step {place}");
    }
}

/// Has a teller with accounts of these balances go through a script.
pub fn play(rt: &impl Abort, alloc: Global, balances: &[i64], steps: &[Step]) {
    let mut teller = teller_of(rt, alloc, balances);
    go(rt, &mut teller, steps);
}
