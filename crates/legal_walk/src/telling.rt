//! How a call that means a commit is answered.
ghost use Rattle.std.specs.Prelude.{◌≡◌, List, IfOk};
ghost use Rattle.svc_values.specs.meaning.Same.{same_answers};
ghost use Rattle.stmt_meaning.specs.meaning.Reads.{Read};
ghost use Rattle.table_txn.specs.Knowing.{is_known};
ghost use Rattle.table_txn.specs.Readings.{AreReadings, StandWhere};
ghost use Rattle.server_model.specs.meaning.Legal.{differs, verdict as verdict_def, ending_with as ending_with_def};
ghost use Rattle.legal_walk.specs.Judging.{answered_by};

use calls_again::Going;
use equality_laws::tests_equality;
use svc_values::{Answer, Answers, NoMemory, ends_committed};
use table_store::Tables;
use table_txn::Known;

/// Whether a place that a transaction read has other committed rows now. One that is known to have
/// what it had is not compared.
fn conflicts(tables: &Tables, going: &Going, known: Known) -> bool
    requires { StandWhere (is_known known) tables.now.rows going.now.readings }
    ensures { (reads : List Read) → AreReadings going.now.readings reads
        → result ≡ differs tables.now.rows reads }
{
    going.conflicts(tables, known).is_some()
}

/// How a commit that is reached is told: by the mark, by a place that differs, or as committed.
fn verdict(tables: &Tables, going: &Going, known: Known, replay: bool) -> Answer
    requires { StandWhere (is_known known) tables.now.rows going.now.readings }
    ensures { (reads : List Read) → AreReadings going.now.readings reads
        → result ≡ verdict_def replay (differs tables.now.rows reads) }
{
    if replay {
        return Answer::CommitInReplay;
    }
    if conflicts(tables, going, known) {
        return Answer::Conflict;
    }
    Answer::Committed
}

/// The answers with another last one.
fn ending_with(answers: Answers, last: Answer) -> Result<Answers, NoMemory>
    ensures { IfOk result (λ all. all ≡ ending_with_def answers last) }
{
    let mut all = answers.into_vec();
    if all.pop().is_none() {
        return Ok(Answers::from_vec(all));
    }
    all.push(last)?;
    Ok(Answers::from_vec(all))
}

/// The answers of a call as they are told: where they mean a commit the last one is the verdict.
fn answered(
    tables: &Tables,
    going: &Going,
    known: Known,
    replay: bool,
    answers: Answers,
) -> Result<Answers, NoMemory>
    requires { StandWhere (is_known known) tables.now.rows going.now.readings }
    ensures { IfOk result (λ told. (reads : List Read) → AreReadings going.now.readings reads
        → told ≡ answered_by answers replay (differs tables.now.rows reads)) }
{
    if !ends_committed(answers.as_slice()) {
        return Ok(answers);
    }
    let last = verdict(tables, going, known, replay);
    ending_with(answers, last)
}

/// Whether the two are the same answers.
fn are_same(told: &[Answer], answers: &[Answer]) -> bool
    ensures { result ≡ same_answers told.now answers.now }
{
    tests_equality();
    *told == *answers
}

/// Whether a call that means these answers was told so. Where they end with a commit it is linear
/// in the places that the transaction read, and in the rows of tables that were read whole and are
/// not known to have what they had.
pub(crate) fn is_told_so(
    tables: &Tables,
    going: &Going,
    known: Known,
    replay: bool,
    answers: Answers,
    told: &[Answer],
) -> Result<bool, NoMemory>
    requires { StandWhere (is_known known) tables.now.rows going.now.readings }
    ensures { IfOk result (λ so. (reads : List Read) → AreReadings going.now.readings reads
        → so ≡ same_answers told.now (answered_by answers replay (differs tables.now.rows reads))) }
{
    let answers = answered(tables, going, known, replay, answers)?;
    Ok(are_same(told, answers.as_slice()))
}
