//! The public readers.
ghost use Rattle.std.specs.Prelude.{◌≡◌, ◌++◌, List, ℕ, ℤ, Ok, length, IfOk, Bool};
ghost use Rattle.svc_values.specs.meaning.SettingsList.{NamedValues};
ghost use Rattle.svc_values.specs.declared.answer.Answer.{Answer};
ghost use Rattle.svc_values.specs.declared.call.Call.{Call};
ghost use Rattle.svc_values.specs.declared.statement.Change.{Change};
ghost use Rattle.svc_values.specs.declared.draw.Draw.{Draw};
ghost use Rattle.svc_values.specs.declared.draw.DrawKind.{DrawKind};
ghost use Rattle.svc_values.specs.declared.entry.Entry.{Entry};
ghost use Rattle.svc_values.specs.declared.value.Kind.{Kind};
ghost use Rattle.svc_values.specs.declared.entry.Ltxid.{Ltxid};
ghost use Rattle.svc_values.specs.declared.statement.Operand.{Operand};
ghost use Rattle.svc_values.specs.declared.entry.Piece.{Piece};
ghost use Rattle.svc_values.specs.declared.statement.Statement.{Statement};
ghost use Rattle.svc_values.specs.declared.statement.Test.{Test};
ghost use Rattle.svc_values.specs.declared.value.Value.{Value};
ghost use Rattle.svc_values.specs.declared.entry.Write.{Write};
ghost use Rattle.canon_bytes.specs.meaning.AnswerBytes.{spell_rows, rows_at, spell_answer, answer_at, spell_answers, answers_at};
ghost use Rattle.canon_bytes.specs.AnswerBytes.{FitsRows, FitsAnswer, FitsAnswers};
ghost use Rattle.canon_bytes.specs.meaning.CallBytes.{spell_call, call_at};
ghost use Rattle.canon_bytes.specs.CallBytes.{FitsCall};
ghost use Rattle.canon_bytes.specs.meaning.Draws.{spell_draw_kind, draw_kind_at, spell_draw, draw_at, spell_draws, draws_at};
ghost use Rattle.canon_bytes.specs.Draws.{FitsDrawKind, FitsDraw, FitsDraws};
ghost use Rattle.canon_bytes.specs.meaning.Entries.{spell_ltxid, ltxid_at, piece_at, write_at, entry_at};
ghost use Rattle.canon_bytes.specs.Entries.{FitsLtxid, spell_piece, FitsPiece, spell_write, FitsWrite, spell_entry, FitsEntry};
ghost use Rattle.canon_bytes.specs.meaning.Numbers.{spell_u64, u64_at, spell_i64, i64_at, spell_bool, bool_at};
ghost use Rattle.canon_bytes.specs.Numbers.{FitsU64, FitsI64, FitsBool};
ghost use Rattle.canon_bytes.specs.meaning.Operands.{spell_operand, operand_at, spell_operands, operands_at, spell_change, change_at, spell_test, test_at};
ghost use Rattle.canon_bytes.specs.Operands.{FitsOperand, FitsOperands, FitsChange, FitsTest};
ghost use Rattle.canon_bytes.specs.meaning.SettingsBytes.{spell_settings, settings_at};
ghost use Rattle.canon_bytes.specs.SettingsBytes.{FitsSettings};
ghost use Rattle.canon_bytes.specs.meaning.StatementBytes.{spell_statement, statement_at, spell_statements, statements_at};
ghost use Rattle.canon_bytes.specs.StatementBytes.{FitsStatement, FitsStatements};
ghost use Rattle.canon_bytes.specs.meaning.TextBytes.{spell_bytes, name_at, text_at, octets_at};
ghost use Rattle.canon_bytes.specs.TextBytes.{FitsName, FitsText, FitsOctets};
ghost use Rattle.canon_bytes.specs.meaning.Values.{kind_at, spell_value, value_at, spell_row, row_at};
ghost use Rattle.canon_bytes.specs.Values.{spell_kind, FitsKind, FitsValue, FitsRow};
ghost use Rattle.canon_bytes.specs.FirstValue.{GivesFirst, Spells, IsUnlessMemory};

use crate::canon::take_first;
use crate::fault::CanonFault;
use std::alloc::Global;
use svc_values::{
    Answer, Answers, Call, Change, Draw, DrawKind, Draws, Entry, Kind, Ltxid, Name, Octets,
    Operand, Operands, Piece, Row, Rows, Settings, Statement, Statements, Test, Text, Value, Write,
};

/// Reads the unsigned number in front and gives its length in bytes beside it, or the first fault
/// in reading order. Linear in the bytes read.
pub fn take_u64(alloc: Global, bytes: &[u8]) -> Result<(u64, usize), CanonFault>
    ensures exact { GivesFirst u64_at bytes.now result }
    ensures found { IfOk result (λ x. Spells spell_u64 FitsU64 bytes.now x.0 x.1) }
    ensures only { (x : ℕ) (rest : List ℕ) → FitsU64 x → bytes.now ≡ spell_u64 x ++ rest
        → IsUnlessMemory result (Ok (x, length (spell_u64 x))) }
{
    take_first(alloc, bytes)
}

/// Reads the signed number in front and gives its length in bytes beside it, or the first fault in
/// reading order. Linear in the bytes read.
pub fn take_i64(alloc: Global, bytes: &[u8]) -> Result<(i64, usize), CanonFault>
    ensures exact { GivesFirst i64_at bytes.now result }
    ensures found { IfOk result (λ x. Spells spell_i64 FitsI64 bytes.now x.0 x.1) }
    ensures only { (x : ℤ) (rest : List ℕ) → FitsI64 x → bytes.now ≡ spell_i64 x ++ rest
        → IsUnlessMemory result (Ok (x, length (spell_i64 x))) }
{
    take_first(alloc, bytes)
}

/// Reads the flag in front and gives its length in bytes beside it, or the first fault in reading
/// order. Linear in the bytes read.
pub fn take_bool(alloc: Global, bytes: &[u8]) -> Result<(bool, usize), CanonFault>
    ensures exact { GivesFirst bool_at bytes.now result }
    ensures found { IfOk result (λ x. Spells spell_bool FitsBool bytes.now x.0 x.1) }
    ensures only { (x : Bool) (rest : List ℕ) → FitsBool x → bytes.now ≡ spell_bool x ++ rest
        → IsUnlessMemory result (Ok (x, length (spell_bool x))) }
{
    take_first(alloc, bytes)
}

/// Reads the name in front and gives its length in bytes beside it, or the first fault in reading
/// order. Linear in the bytes read.
pub fn take_name(alloc: Global, bytes: &[u8]) -> Result<(Name, usize), CanonFault>
    ensures exact { GivesFirst name_at bytes.now result }
    ensures found { IfOk result (λ x. Spells spell_bytes FitsName bytes.now x.0 x.1) }
    ensures only { (x : List ℕ) (rest : List ℕ) → FitsName x → bytes.now ≡ spell_bytes x ++ rest
        → IsUnlessMemory result (Ok (x, length (spell_bytes x))) }
{
    take_first(alloc, bytes)
}

/// Reads the text in front and gives its length in bytes beside it, or the first fault in reading
/// order. Linear in the bytes read.
pub fn take_text(alloc: Global, bytes: &[u8]) -> Result<(Text, usize), CanonFault>
    ensures exact { GivesFirst text_at bytes.now result }
    ensures found { IfOk result (λ x. Spells spell_bytes FitsText bytes.now x.0 x.1) }
    ensures only { (x : List ℕ) (rest : List ℕ) → FitsText x → bytes.now ≡ spell_bytes x ++ rest
        → IsUnlessMemory result (Ok (x, length (spell_bytes x))) }
{
    take_first(alloc, bytes)
}

/// Reads the string of octets in front and gives its length in bytes beside it, or the first fault
/// in reading order. Linear in the bytes read.
pub fn take_octets(alloc: Global, bytes: &[u8]) -> Result<(Octets, usize), CanonFault>
    ensures exact { GivesFirst octets_at bytes.now result }
    ensures found { IfOk result (λ x. Spells spell_bytes FitsOctets bytes.now x.0 x.1) }
    ensures only { (x : List ℕ) (rest : List ℕ) → FitsOctets x → bytes.now ≡ spell_bytes x ++ rest
        → IsUnlessMemory result (Ok (x, length (spell_bytes x))) }
{
    take_first(alloc, bytes)
}

/// Reads the kind in front and gives its length in bytes beside it, or the first fault in reading
/// order. Linear in the bytes read.
pub fn take_kind(alloc: Global, bytes: &[u8]) -> Result<(Kind, usize), CanonFault>
    ensures exact { GivesFirst kind_at bytes.now result }
    ensures found { IfOk result (λ x. Spells spell_kind FitsKind bytes.now x.0 x.1) }
    ensures only { (x : Kind) (rest : List ℕ) → FitsKind x → bytes.now ≡ spell_kind x ++ rest
        → IsUnlessMemory result (Ok (x, length (spell_kind x))) }
{
    take_first(alloc, bytes)
}

/// Reads the value in front and gives its length in bytes beside it, or the first fault in reading
/// order. Linear in the bytes read.
pub fn take_value(alloc: Global, bytes: &[u8]) -> Result<(Value, usize), CanonFault>
    ensures exact { GivesFirst value_at bytes.now result }
    ensures found { IfOk result (λ x. Spells spell_value FitsValue bytes.now x.0 x.1) }
    ensures only { (x : Value) (rest : List ℕ) → FitsValue x → bytes.now ≡ spell_value x ++ rest
        → IsUnlessMemory result (Ok (x, length (spell_value x))) }
{
    take_first(alloc, bytes)
}

/// Reads the row in front and gives its length in bytes beside it, or the first fault in reading
/// order. Linear in the bytes read.
pub fn take_row(alloc: Global, bytes: &[u8]) -> Result<(Row, usize), CanonFault>
    ensures exact { GivesFirst row_at bytes.now result }
    ensures found { IfOk result (λ x. Spells spell_row FitsRow bytes.now x.0 x.1) }
    ensures only { (x : List Value) (rest : List ℕ) → FitsRow x → bytes.now ≡ spell_row x ++ rest
        → IsUnlessMemory result (Ok (x, length (spell_row x))) }
{
    take_first(alloc, bytes)
}

/// Reads the list of rows in front and gives its length in bytes beside it, or the first fault in
/// reading order. Linear in the bytes read.
pub fn take_rows(alloc: Global, bytes: &[u8]) -> Result<(Rows, usize), CanonFault>
    ensures exact { GivesFirst rows_at bytes.now result }
    ensures found { IfOk result (λ x. Spells spell_rows FitsRows bytes.now x.0 x.1) }
    ensures only { (x : List (List Value)) (rest : List ℕ) → FitsRows x
        → bytes.now ≡ spell_rows x ++ rest → IsUnlessMemory result (Ok (x, length (spell_rows x))) }
{
    take_first(alloc, bytes)
}

/// Reads the answer in front and gives its length in bytes beside it, or the first fault in reading
/// order. Linear in the bytes read.
pub fn take_answer(alloc: Global, bytes: &[u8]) -> Result<(Answer, usize), CanonFault>
    ensures exact { GivesFirst answer_at bytes.now result }
    ensures found { IfOk result (λ x. Spells spell_answer FitsAnswer bytes.now x.0 x.1) }
    ensures only { (x : Answer) (rest : List ℕ) → FitsAnswer x → bytes.now ≡ spell_answer x ++ rest
        → IsUnlessMemory result (Ok (x, length (spell_answer x))) }
{
    take_first(alloc, bytes)
}

/// Reads the list of answers in front and gives its length in bytes beside it, or the first fault
/// in reading order. Linear in the bytes read.
pub fn take_answers(alloc: Global, bytes: &[u8]) -> Result<(Answers, usize), CanonFault>
    ensures exact { GivesFirst answers_at bytes.now result }
    ensures found { IfOk result (λ x. Spells spell_answers FitsAnswers bytes.now x.0 x.1) }
    ensures only { (x : List Answer) (rest : List ℕ) → FitsAnswers x
        → bytes.now ≡ spell_answers x ++ rest
        → IsUnlessMemory result (Ok (x, length (spell_answers x))) }
{
    take_first(alloc, bytes)
}

/// Reads the kind of draw in front and gives its length in bytes beside it, or the first fault in
/// reading order. Linear in the bytes read.
pub fn take_draw_kind(alloc: Global, bytes: &[u8]) -> Result<(DrawKind, usize), CanonFault>
    ensures exact { GivesFirst draw_kind_at bytes.now result }
    ensures found { IfOk result (λ x. Spells spell_draw_kind FitsDrawKind bytes.now x.0 x.1) }
    ensures only { (x : DrawKind) (rest : List ℕ) → FitsDrawKind x
        → bytes.now ≡ spell_draw_kind x ++ rest
        → IsUnlessMemory result (Ok (x, length (spell_draw_kind x))) }
{
    take_first(alloc, bytes)
}

/// Reads the draw in front and gives its length in bytes beside it, or the first fault in reading
/// order. Linear in the bytes read.
pub fn take_draw(alloc: Global, bytes: &[u8]) -> Result<(Draw, usize), CanonFault>
    ensures exact { GivesFirst draw_at bytes.now result }
    ensures found { IfOk result (λ x. Spells spell_draw FitsDraw bytes.now x.0 x.1) }
    ensures only { (x : Draw) (rest : List ℕ) → FitsDraw x → bytes.now ≡ spell_draw x ++ rest
        → IsUnlessMemory result (Ok (x, length (spell_draw x))) }
{
    take_first(alloc, bytes)
}

/// Reads the list of draws in front and gives its length in bytes beside it, or the first fault in
/// reading order. Linear in the bytes read.
pub fn take_draws(alloc: Global, bytes: &[u8]) -> Result<(Draws, usize), CanonFault>
    ensures exact { GivesFirst draws_at bytes.now result }
    ensures found { IfOk result (λ x. Spells spell_draws FitsDraws bytes.now x.0 x.1) }
    ensures only { (x : List Draw) (rest : List ℕ) → FitsDraws x → bytes.now ≡ spell_draws x ++ rest
        → IsUnlessMemory result (Ok (x, length (spell_draws x))) }
{
    take_first(alloc, bytes)
}

/// Reads the operand in front and gives its length in bytes beside it, or the first fault in
/// reading order. Linear in the bytes read.
pub fn take_operand(alloc: Global, bytes: &[u8]) -> Result<(Operand, usize), CanonFault>
    ensures exact { GivesFirst operand_at bytes.now result }
    ensures found { IfOk result (λ x. Spells spell_operand FitsOperand bytes.now x.0 x.1) }
    ensures only { (x : Operand) (rest : List ℕ) → FitsOperand x
        → bytes.now ≡ spell_operand x ++ rest
        → IsUnlessMemory result (Ok (x, length (spell_operand x))) }
{
    take_first(alloc, bytes)
}

/// Reads the list of operands in front and gives its length in bytes beside it, or the first fault
/// in reading order. Linear in the bytes read.
pub fn take_operands(alloc: Global, bytes: &[u8]) -> Result<(Operands, usize), CanonFault>
    ensures exact { GivesFirst operands_at bytes.now result }
    ensures found { IfOk result (λ x. Spells spell_operands FitsOperands bytes.now x.0 x.1) }
    ensures only { (x : List Operand) (rest : List ℕ) → FitsOperands x
        → bytes.now ≡ spell_operands x ++ rest
        → IsUnlessMemory result (Ok (x, length (spell_operands x))) }
{
    take_first(alloc, bytes)
}

/// Reads the change in front and gives its length in bytes beside it, or the first fault in reading
/// order. Linear in the bytes read.
pub fn take_change(alloc: Global, bytes: &[u8]) -> Result<(Change, usize), CanonFault>
    ensures exact { GivesFirst change_at bytes.now result }
    ensures found { IfOk result (λ x. Spells spell_change FitsChange bytes.now x.0 x.1) }
    ensures only { (x : Change) (rest : List ℕ) → FitsChange x → bytes.now ≡ spell_change x ++ rest
        → IsUnlessMemory result (Ok (x, length (spell_change x))) }
{
    take_first(alloc, bytes)
}

/// Reads the test in front and gives its length in bytes beside it, or the first fault in reading
/// order. Linear in the bytes read.
pub fn take_test(alloc: Global, bytes: &[u8]) -> Result<(Test, usize), CanonFault>
    ensures exact { GivesFirst test_at bytes.now result }
    ensures found { IfOk result (λ x. Spells spell_test FitsTest bytes.now x.0 x.1) }
    ensures only { (x : Test) (rest : List ℕ) → FitsTest x → bytes.now ≡ spell_test x ++ rest
        → IsUnlessMemory result (Ok (x, length (spell_test x))) }
{
    take_first(alloc, bytes)
}

/// Reads the statement in front and gives its length in bytes beside it, or the first fault in
/// reading order. Linear in the bytes read.
pub fn take_statement(alloc: Global, bytes: &[u8]) -> Result<(Statement, usize), CanonFault>
    ensures exact { GivesFirst statement_at bytes.now result }
    ensures found { IfOk result (λ x. Spells spell_statement FitsStatement bytes.now x.0 x.1) }
    ensures only { (x : Statement) (rest : List ℕ) → FitsStatement x
        → bytes.now ≡ spell_statement x ++ rest
        → IsUnlessMemory result (Ok (x, length (spell_statement x))) }
{
    take_first(alloc, bytes)
}

/// Reads the list of statements in front and gives its length in bytes beside it, or the first
/// fault in reading order. Linear in the bytes read.
pub fn take_statements(alloc: Global, bytes: &[u8]) -> Result<(Statements, usize), CanonFault>
    ensures exact { GivesFirst statements_at bytes.now result }
    ensures found { IfOk result (λ x. Spells spell_statements FitsStatements bytes.now x.0 x.1) }
    ensures only { (x : List Statement) (rest : List ℕ) → FitsStatements x
        → bytes.now ≡ spell_statements x ++ rest
        → IsUnlessMemory result (Ok (x, length (spell_statements x))) }
{
    take_first(alloc, bytes)
}

/// Reads the call in front and gives its length in bytes beside it, or the first fault in reading
/// order. Linear in the bytes read.
pub fn take_call(alloc: Global, bytes: &[u8]) -> Result<(Call, usize), CanonFault>
    ensures exact { GivesFirst call_at bytes.now result }
    ensures found { IfOk result (λ x. Spells spell_call FitsCall bytes.now x.0 x.1) }
    ensures only { (x : Call) (rest : List ℕ) → FitsCall x → bytes.now ≡ spell_call x ++ rest
        → IsUnlessMemory result (Ok (x, length (spell_call x))) }
{
    take_first(alloc, bytes)
}

/// Reads the map of settings in front and gives its length in bytes beside it, or the first fault
/// in reading order. Linear in the bytes read.
pub fn take_settings(alloc: Global, bytes: &[u8]) -> Result<(Settings, usize), CanonFault>
    ensures exact { GivesFirst settings_at bytes.now result }
    ensures found { IfOk result (λ x. Spells spell_settings FitsSettings bytes.now x.0 x.1) }
    ensures only { (x : NamedValues) (rest : List ℕ) → FitsSettings x
        → bytes.now ≡ spell_settings x ++ rest
        → IsUnlessMemory result (Ok (x, length (spell_settings x))) }
{
    take_first(alloc, bytes)
}

/// Reads the identifier in front and gives its length in bytes beside it, or the first fault in
/// reading order. Linear in the bytes read.
pub fn take_ltxid(alloc: Global, bytes: &[u8]) -> Result<(Ltxid, usize), CanonFault>
    ensures exact { GivesFirst ltxid_at bytes.now result }
    ensures found { IfOk result (λ x. Spells spell_ltxid FitsLtxid bytes.now x.0 x.1) }
    ensures only { (x : Ltxid) (rest : List ℕ) → FitsLtxid x → bytes.now ≡ spell_ltxid x ++ rest
        → IsUnlessMemory result (Ok (x, length (spell_ltxid x))) }
{
    take_first(alloc, bytes)
}

/// Reads the piece in front and gives its length in bytes beside it, or the first fault in reading
/// order. Linear in the bytes read.
pub fn take_piece(alloc: Global, bytes: &[u8]) -> Result<(Piece, usize), CanonFault>
    ensures exact { GivesFirst piece_at bytes.now result }
    ensures found { IfOk result (λ x. Spells spell_piece FitsPiece bytes.now x.0 x.1) }
    ensures only { (x : Piece) (rest : List ℕ) → FitsPiece x → bytes.now ≡ spell_piece x ++ rest
        → IsUnlessMemory result (Ok (x, length (spell_piece x))) }
{
    take_first(alloc, bytes)
}

/// Reads the write in front and gives its length in bytes beside it, or the first fault in reading
/// order. Linear in the bytes read.
pub fn take_write(alloc: Global, bytes: &[u8]) -> Result<(Write, usize), CanonFault>
    ensures exact { GivesFirst write_at bytes.now result }
    ensures found { IfOk result (λ x. Spells spell_write FitsWrite bytes.now x.0 x.1) }
    ensures only { (x : Write) (rest : List ℕ) → FitsWrite x → bytes.now ≡ spell_write x ++ rest
        → IsUnlessMemory result (Ok (x, length (spell_write x))) }
{
    take_first(alloc, bytes)
}

/// Reads the entry in front and gives its length in bytes beside it, or the first fault in reading
/// order. Linear in the bytes read.
pub fn take_entry(alloc: Global, bytes: &[u8]) -> Result<(Entry, usize), CanonFault>
    ensures exact { GivesFirst entry_at bytes.now result }
    ensures found { IfOk result (λ x. Spells spell_entry FitsEntry bytes.now x.0 x.1) }
    ensures only { (x : Entry) (rest : List ℕ) → FitsEntry x → bytes.now ≡ spell_entry x ++ rest
        → IsUnlessMemory result (Ok (x, length (spell_entry x))) }
{
    take_first(alloc, bytes)
}
