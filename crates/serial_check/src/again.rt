//! The calls of a transaction, run again.
ghost use Rattle.std.specs.Prelude.{◌≡◌, IfOk, IsTrue};
ghost use Rattle.svc_values.specs.meaning.Fitting.{writes_fit};
ghost use Rattle.svc_values.specs.meaning.Same.{same_answers};
ghost use Rattle.svc_values.specs.meaning.Tables.{with_writes};
ghost use Rattle.stmt_meaning.specs.meaning.SerialTest.{replayed};
ghost use Rattle.table_txn.specs.Readings.{AreUnchanged};
ghost use Rattle.table_txn.specs.Transactions.{shape_of};
ghost use Rattle.serial_check.specs.Replaying.{HasReplayed, next_piece};

use calls_again::Going;
use equality_laws::tests_equality;
use std::alloc::Global;
use svc_values::{Answers, Names, NoMemory, Piece, ends_committed};
use table_store::Tables;
use table_txn::Known;

/// Whether these are a piece's answers.
fn is_answered(piece: &Piece, answers: &Answers) -> bool
    ensures { result ≡ same_answers answers.now piece.now.answers }
{
    tests_equality();
    *answers == piece.answers
}

/// Runs the call of the next piece. Whether it takes exactly the piece's draws and gives exactly
/// its answers. None commits within a transaction, so no table that it read is compared. A call
/// with statements takes their time, and each other one that of the settings.
fn replays(
    going: &mut Going,
    alloc: Global,
    tables: &Tables,
    names: &Names,
    piece: &Piece,
) -> Result<bool, NoMemory>
    requires fits { IsTrue (writes_fit tables.now.schemas going.old.writes) }
    requires unchanged { AreUnchanged tables.now.rows going.old.readings }
    ensures replayed { IfOk result (λ replays.
        HasReplayed tables.now.rows going.new.writes going.new.settings
        (replayed (shape_of tables.now names.now)
        (with_writes tables.now.rows going.old.writes) going.old.settings piece.now) replays) }
    ensures fits { IfOk result (λ replays. IsTrue replays
        → IsTrue (writes_fit tables.now.schemas going.new.writes)) }
    ensures unchanged { IfOk result (λ replays. IsTrue replays
        → AreUnchanged tables.now.rows going.new.readings) }
{
    let draws = piece.draws.as_slice();
    match going.run(alloc, tables, Known::All, names, &piece.call, draws)? {
        Some(answers) => Ok(is_answered(piece, &answers)),
        None => Ok(false),
    }
}

/// The same, and whether the piece commits exactly where it is the last one.
pub(crate) fn goes_on(
    going: &mut Going,
    alloc: Global,
    tables: &Tables,
    names: &Names,
    piece: &Piece,
    is_last: bool,
) -> Result<bool, NoMemory>
    requires fits { IsTrue (writes_fit tables.now.schemas going.old.writes) }
    requires unchanged { AreUnchanged tables.now.rows going.old.readings }
    ensures replayed { IfOk result (λ goes_on.
        HasReplayed tables.now.rows going.new.writes going.new.settings
        (next_piece (shape_of tables.now names.now)
        (with_writes tables.now.rows going.old.writes) going.old.settings piece.now is_last)
        goes_on) }
    ensures fits { IfOk result (λ goes_on. IsTrue goes_on
        → IsTrue (writes_fit tables.now.schemas going.new.writes)) }
    ensures unchanged { IfOk result (λ goes_on. IsTrue goes_on
        → AreUnchanged tables.now.rows going.new.readings) }
{
    if ends_committed(piece.answers.as_slice()) != is_last {
        return Ok(false);
    }
    replays(going, alloc, tables, names, piece)
}
