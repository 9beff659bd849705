//! Laws of the definitions. Each function does nothing, and its contract is the law.
ghost use Rattle.std.specs.Prelude.{◌≡◌, ◌≤◌, length};
ghost use Rattle.svc_values.specs.Laws.{AreExact};
ghost use Rattle.svc_values.specs.meaning.Order.{value_cmp};
ghost use Rattle.svc_values.specs.meaning.Same.{same_value};
ghost use Rattle.svc_values.specs.TableLaws.{WritesAreLocal, WritesKeepOrder, WritesStand, WritesTouchNoOther, WritesGoOn};

use crate::answer::Rows;
use crate::schema::{Columns, Names, Schemas};
use crate::statement::{Operands, Statements};
use crate::value::{Row, Value};

/// The tests of equality are exact. `==` of values is their test, and `cmp` their order: by kind,
/// integers by number, texts and bytes by bytes.
pub fn compares_exactly()
    ensures exact { AreExact }
    ensures equal { (a b : _) → ⟦<Value as PartialEq>⟧.eq a b ≡ same_value a b }
    ensures order { (a b : _) → ⟦<Value as Ord>⟧.cmp a b ≡ value_cmp a b }
{}

/// The limits of what a document declares and asks for: eight values, columns, operands and
/// statements, 32 rows in an answer, tables and names.
pub fn are_limited(
    row: &Row,
    columns: &Columns,
    operands: &Operands,
    statements: &Statements,
    rows: &Rows,
    schemas: &Schemas,
    names: &Names,
)
    ensures row { length row.now ≤ 8 }
    ensures columns { length columns.now ≤ 8 }
    ensures operands { length operands.now ≤ 8 }
    ensures statements { length statements.now ≤ 8 }
    ensures rows { length rows.now ≤ 32 }
    ensures schemas { length schemas.now ≤ 32 }
    ensures names { length names.now ≤ 32 }
{
    let _ = (row.len(), columns.len(), operands.len(), statements.len());
    let _ = (rows.len(), schemas.len(), names.len());
}

/// What stands at a place after writes depends on what stood there alone.
pub fn writes_are_local()
    ensures { WritesAreLocal }
{}

/// Writes keep the order of tables. A row that is written stands at its table and key, one that is
/// taken away does not, and every other place is as it was.
pub fn writes_are_kept()
    ensures order { WritesKeepOrder }
    ensures stand { WritesStand }
    ensures other { WritesTouchNoOther }
    ensures parts { WritesGoOn }
{}
