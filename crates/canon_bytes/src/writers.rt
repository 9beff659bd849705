//! The public writers.
ghost use Rattle.std.specs.Prelude.{◌≡◌, ◌++◌, OnOk, OnErr};
ghost use Rattle.canon_bytes.specs.meaning.AnswerBytes.{spell_rows, spell_answer, spell_answers};
ghost use Rattle.canon_bytes.specs.AnswerBytes.{FitsRows, FitsAnswer, FitsAnswers};
ghost use Rattle.canon_bytes.specs.meaning.CallBytes.{spell_call};
ghost use Rattle.canon_bytes.specs.CallBytes.{FitsCall};
ghost use Rattle.canon_bytes.specs.meaning.Draws.{spell_draw_kind, spell_draw, spell_draws};
ghost use Rattle.canon_bytes.specs.Draws.{FitsDrawKind, FitsDraw, FitsDraws};
ghost use Rattle.canon_bytes.specs.meaning.Entries.{spell_ltxid};
ghost use Rattle.canon_bytes.specs.Entries.{FitsLtxid, spell_piece, FitsPiece, IsMadePiece, spell_write, FitsWrite, spell_entry, FitsEntry, IsMadeEntry};
ghost use Rattle.canon_bytes.specs.meaning.Numbers.{spell_u64, spell_i64, spell_bool};
ghost use Rattle.canon_bytes.specs.Numbers.{FitsU64, FitsI64, FitsBool};
ghost use Rattle.canon_bytes.specs.meaning.Operands.{spell_operand, spell_operands, spell_change, spell_test};
ghost use Rattle.canon_bytes.specs.Operands.{FitsOperand, FitsOperands, FitsChange, FitsTest};
ghost use Rattle.canon_bytes.specs.meaning.SettingsBytes.{spell_settings};
ghost use Rattle.canon_bytes.specs.SettingsBytes.{FitsSettings};
ghost use Rattle.canon_bytes.specs.meaning.StatementBytes.{spell_statement, spell_statements};
ghost use Rattle.canon_bytes.specs.StatementBytes.{FitsStatement, FitsStatements};
ghost use Rattle.canon_bytes.specs.meaning.TextBytes.{spell_bytes};
ghost use Rattle.canon_bytes.specs.TextBytes.{FitsName, FitsText, FitsOctets};
ghost use Rattle.canon_bytes.specs.meaning.Values.{spell_value, spell_row};
ghost use Rattle.canon_bytes.specs.Values.{spell_kind, FitsKind, FitsValue, FitsRow};
ghost use Rattle.svc_values.specs.Calls.{IsMade};
ghost use Rattle.svc_values.specs.Identifiers.{IsLtxid};

use crate::canon::{put_last, put_made_last};
use std::alloc::Global;
use svc_values::{
    Answer, Answers, Call, Change, Draw, DrawKind, Draws, Entry, Kind, Ltxid, Name, NoMemory,
    Octets, Operand, Operands, Piece, Row, Rows, Settings, Statement, Statements, Test, Text,
    Value, Write,
};

/// Appends the one spelling of an unsigned number, or leaves `out` as it was where memory is
/// refused. Linear in the spelling.
pub fn put_u64(alloc: Global, value: &u64, out: &mut Vec<u8>) -> Result<(), NoMemory>
    ensures written { OnOk result (out.new.items ≡ out.old.items ++ spell_u64 value.now) }
    ensures fitting { OnOk result (FitsU64 value.now) }
    ensures err { OnErr result (out.new.items ≡ out.old.items) }
{
    put_last(alloc, value, out)
}

/// Appends the one spelling of a signed number, or leaves `out` as it was where memory is refused.
/// Linear in the spelling.
pub fn put_i64(alloc: Global, value: &i64, out: &mut Vec<u8>) -> Result<(), NoMemory>
    ensures written { OnOk result (out.new.items ≡ out.old.items ++ spell_i64 value.now) }
    ensures fitting { OnOk result (FitsI64 value.now) }
    ensures err { OnErr result (out.new.items ≡ out.old.items) }
{
    put_last(alloc, value, out)
}

/// Appends the one spelling of a flag, or leaves `out` as it was where memory is refused. Linear in
/// the spelling.
pub fn put_bool(alloc: Global, value: &bool, out: &mut Vec<u8>) -> Result<(), NoMemory>
    ensures written { OnOk result (out.new.items ≡ out.old.items ++ spell_bool value.now) }
    ensures fitting { OnOk result (FitsBool value.now) }
    ensures err { OnErr result (out.new.items ≡ out.old.items) }
{
    put_last(alloc, value, out)
}

/// Appends the one spelling of a name, or leaves `out` as it was where memory is refused. Linear in
/// the spelling.
pub fn put_name(alloc: Global, value: &Name, out: &mut Vec<u8>) -> Result<(), NoMemory>
    ensures written { OnOk result (out.new.items ≡ out.old.items ++ spell_bytes value.now) }
    ensures fitting { OnOk result (FitsName value.now) }
    ensures err { OnErr result (out.new.items ≡ out.old.items) }
{
    put_last(alloc, value, out)
}

/// Appends the one spelling of a text, or leaves `out` as it was where memory is refused. Linear in
/// the spelling.
pub fn put_text(alloc: Global, value: &Text, out: &mut Vec<u8>) -> Result<(), NoMemory>
    ensures written { OnOk result (out.new.items ≡ out.old.items ++ spell_bytes value.now) }
    ensures fitting { OnOk result (FitsText value.now) }
    ensures err { OnErr result (out.new.items ≡ out.old.items) }
{
    put_last(alloc, value, out)
}

/// Appends the one spelling of a string of octets, or leaves `out` as it was where memory is
/// refused. Linear in the spelling.
pub fn put_octets(alloc: Global, value: &Octets, out: &mut Vec<u8>) -> Result<(), NoMemory>
    ensures written { OnOk result (out.new.items ≡ out.old.items ++ spell_bytes value.now) }
    ensures fitting { OnOk result (FitsOctets value.now) }
    ensures err { OnErr result (out.new.items ≡ out.old.items) }
{
    put_last(alloc, value, out)
}

/// Appends the one spelling of a kind, or leaves `out` as it was where memory is refused. Linear in
/// the spelling.
pub fn put_kind(alloc: Global, value: &Kind, out: &mut Vec<u8>) -> Result<(), NoMemory>
    ensures written { OnOk result (out.new.items ≡ out.old.items ++ spell_kind value.now) }
    ensures fitting { OnOk result (FitsKind value.now) }
    ensures err { OnErr result (out.new.items ≡ out.old.items) }
{
    put_last(alloc, value, out)
}

/// Appends the one spelling of a value, or leaves `out` as it was where memory is refused. Linear
/// in the spelling.
pub fn put_value(alloc: Global, value: &Value, out: &mut Vec<u8>) -> Result<(), NoMemory>
    ensures written { OnOk result (out.new.items ≡ out.old.items ++ spell_value value.now) }
    ensures fitting { OnOk result (FitsValue value.now) }
    ensures err { OnErr result (out.new.items ≡ out.old.items) }
{
    put_last(alloc, value, out)
}

/// Appends the one spelling of a row, or leaves `out` as it was where memory is refused. Linear in
/// the spelling.
pub fn put_row(alloc: Global, value: &Row, out: &mut Vec<u8>) -> Result<(), NoMemory>
    ensures written { OnOk result (out.new.items ≡ out.old.items ++ spell_row value.now) }
    ensures fitting { OnOk result (FitsRow value.now) }
    ensures err { OnErr result (out.new.items ≡ out.old.items) }
{
    put_last(alloc, value, out)
}

/// Appends the one spelling of a list of rows, or leaves `out` as it was where memory is refused.
/// Linear in the spelling.
pub fn put_rows(alloc: Global, value: &Rows, out: &mut Vec<u8>) -> Result<(), NoMemory>
    ensures written { OnOk result (out.new.items ≡ out.old.items ++ spell_rows value.now) }
    ensures fitting { OnOk result (FitsRows value.now) }
    ensures err { OnErr result (out.new.items ≡ out.old.items) }
{
    put_last(alloc, value, out)
}

/// Appends the one spelling of an answer, or leaves `out` as it was where memory is refused. Linear
/// in the spelling.
pub fn put_answer(alloc: Global, value: &Answer, out: &mut Vec<u8>) -> Result<(), NoMemory>
    ensures written { OnOk result (out.new.items ≡ out.old.items ++ spell_answer value.now) }
    ensures fitting { OnOk result (FitsAnswer value.now) }
    ensures err { OnErr result (out.new.items ≡ out.old.items) }
{
    put_last(alloc, value, out)
}

/// Appends the one spelling of a list of answers, or leaves `out` as it was where memory is
/// refused. Linear in the spelling.
pub fn put_answers(alloc: Global, value: &Answers, out: &mut Vec<u8>) -> Result<(), NoMemory>
    ensures written { OnOk result (out.new.items ≡ out.old.items ++ spell_answers value.now) }
    ensures fitting { OnOk result (FitsAnswers value.now) }
    ensures err { OnErr result (out.new.items ≡ out.old.items) }
{
    put_last(alloc, value, out)
}

/// Appends the one spelling of a kind of draw, or leaves `out` as it was where memory is refused.
/// Linear in the spelling.
pub fn put_draw_kind(alloc: Global, value: &DrawKind, out: &mut Vec<u8>) -> Result<(), NoMemory>
    ensures written { OnOk result (out.new.items ≡ out.old.items ++ spell_draw_kind value.now) }
    ensures fitting { OnOk result (FitsDrawKind value.now) }
    ensures err { OnErr result (out.new.items ≡ out.old.items) }
{
    put_last(alloc, value, out)
}

/// Appends the one spelling of a draw, or leaves `out` as it was where memory is refused. Linear in
/// the spelling.
pub fn put_draw(alloc: Global, value: &Draw, out: &mut Vec<u8>) -> Result<(), NoMemory>
    ensures written { OnOk result (out.new.items ≡ out.old.items ++ spell_draw value.now) }
    ensures fitting { OnOk result (FitsDraw value.now) }
    ensures err { OnErr result (out.new.items ≡ out.old.items) }
{
    put_last(alloc, value, out)
}

/// Appends the one spelling of a list of draws, or leaves `out` as it was where memory is refused.
/// Linear in the spelling.
pub fn put_draws(alloc: Global, value: &Draws, out: &mut Vec<u8>) -> Result<(), NoMemory>
    ensures written { OnOk result (out.new.items ≡ out.old.items ++ spell_draws value.now) }
    ensures fitting { OnOk result (FitsDraws value.now) }
    ensures err { OnErr result (out.new.items ≡ out.old.items) }
{
    put_last(alloc, value, out)
}

/// Appends the one spelling of an operand, or leaves `out` as it was where memory is refused.
/// Linear in the spelling.
pub fn put_operand(alloc: Global, value: &Operand, out: &mut Vec<u8>) -> Result<(), NoMemory>
    ensures written { OnOk result (out.new.items ≡ out.old.items ++ spell_operand value.now) }
    ensures fitting { OnOk result (FitsOperand value.now) }
    ensures err { OnErr result (out.new.items ≡ out.old.items) }
{
    put_last(alloc, value, out)
}

/// Appends the one spelling of a list of operands, or leaves `out` as it was where memory is
/// refused. Linear in the spelling.
pub fn put_operands(alloc: Global, value: &Operands, out: &mut Vec<u8>) -> Result<(), NoMemory>
    ensures written { OnOk result (out.new.items ≡ out.old.items ++ spell_operands value.now) }
    ensures fitting { OnOk result (FitsOperands value.now) }
    ensures err { OnErr result (out.new.items ≡ out.old.items) }
{
    put_last(alloc, value, out)
}

/// Appends the one spelling of a change, or leaves `out` as it was where memory is refused. Linear
/// in the spelling.
pub fn put_change(alloc: Global, value: &Change, out: &mut Vec<u8>) -> Result<(), NoMemory>
    ensures written { OnOk result (out.new.items ≡ out.old.items ++ spell_change value.now) }
    ensures fitting { OnOk result (FitsChange value.now) }
    ensures err { OnErr result (out.new.items ≡ out.old.items) }
{
    put_last(alloc, value, out)
}

/// Appends the one spelling of a test, or leaves `out` as it was where memory is refused. Linear in
/// the spelling.
pub fn put_test(alloc: Global, value: &Test, out: &mut Vec<u8>) -> Result<(), NoMemory>
    ensures written { OnOk result (out.new.items ≡ out.old.items ++ spell_test value.now) }
    ensures fitting { OnOk result (FitsTest value.now) }
    ensures err { OnErr result (out.new.items ≡ out.old.items) }
{
    put_last(alloc, value, out)
}

/// Appends the one spelling of a statement, or leaves `out` as it was where memory is refused.
/// Linear in the spelling.
pub fn put_statement(alloc: Global, value: &Statement, out: &mut Vec<u8>) -> Result<(), NoMemory>
    ensures written { OnOk result (out.new.items ≡ out.old.items ++ spell_statement value.now) }
    ensures fitting { OnOk result (FitsStatement value.now) }
    ensures err { OnErr result (out.new.items ≡ out.old.items) }
{
    put_last(alloc, value, out)
}

/// Appends the one spelling of a list of statements, or leaves `out` as it was where memory is
/// refused. Linear in the spelling.
pub fn put_statements(alloc: Global, value: &Statements, out: &mut Vec<u8>) -> Result<(), NoMemory>
    ensures written { OnOk result (out.new.items ≡ out.old.items ++ spell_statements value.now) }
    ensures fitting { OnOk result (FitsStatements value.now) }
    ensures err { OnErr result (out.new.items ≡ out.old.items) }
{
    put_last(alloc, value, out)
}

/// Appends the one spelling of a call, or leaves `out` as it was where memory is refused. Linear in
/// the spelling. A work call must be one that `Call::work` makes.
pub fn put_call(alloc: Global, value: &Call, out: &mut Vec<u8>) -> Result<(), NoMemory>
    requires { IsMade value.now }
    ensures written { OnOk result (out.new.items ≡ out.old.items ++ spell_call value.now) }
    ensures fitting { OnOk result (FitsCall value.now) }
    ensures err { OnErr result (out.new.items ≡ out.old.items) }
{
    put_made_last(alloc, value, out)
}

/// Appends the one spelling of a map of settings, or leaves `out` as it was where memory is
/// refused. Linear in the spelling.
pub fn put_settings(alloc: Global, value: &Settings, out: &mut Vec<u8>) -> Result<(), NoMemory>
    ensures written { OnOk result (out.new.items ≡ out.old.items ++ spell_settings value.now) }
    ensures fitting { OnOk result (FitsSettings value.now) }
    ensures err { OnErr result (out.new.items ≡ out.old.items) }
{
    put_last(alloc, value, out)
}

/// Appends the one spelling of an identifier, or leaves `out` as it was where memory is refused.
/// Linear in the spelling. The parts must be at most 2^63.
pub fn put_ltxid(alloc: Global, value: &Ltxid, out: &mut Vec<u8>) -> Result<(), NoMemory>
    requires { IsLtxid value.now }
    ensures written { OnOk result (out.new.items ≡ out.old.items ++ spell_ltxid value.now) }
    ensures fitting { OnOk result (FitsLtxid value.now) }
    ensures err { OnErr result (out.new.items ≡ out.old.items) }
{
    put_made_last(alloc, value, out)
}

/// Appends the one spelling of a piece, or leaves `out` as it was where memory is refused. Linear
/// in the spelling. A work call must be one that `Call::work` makes.
pub fn put_piece(alloc: Global, value: &Piece, out: &mut Vec<u8>) -> Result<(), NoMemory>
    requires { IsMadePiece value.now }
    ensures written { OnOk result (out.new.items ≡ out.old.items ++ spell_piece value.now) }
    ensures fitting { OnOk result (FitsPiece value.now) }
    ensures err { OnErr result (out.new.items ≡ out.old.items) }
{
    put_made_last(alloc, value, out)
}

/// Appends the one spelling of a write, or leaves `out` as it was where memory is refused. Linear
/// in the spelling.
pub fn put_write(alloc: Global, value: &Write, out: &mut Vec<u8>) -> Result<(), NoMemory>
    ensures written { OnOk result (out.new.items ≡ out.old.items ++ spell_write value.now) }
    ensures fitting { OnOk result (FitsWrite value.now) }
    ensures err { OnErr result (out.new.items ≡ out.old.items) }
{
    put_last(alloc, value, out)
}

/// Appends the one spelling of an entry, or leaves `out` as it was where memory is refused. Linear
/// in the spelling. The parts of the identifier must be at most 2^63, and the work calls such as
/// `Call::work` makes.
pub fn put_entry(alloc: Global, value: &Entry, out: &mut Vec<u8>) -> Result<(), NoMemory>
    requires { IsMadeEntry value.now }
    ensures written { OnOk result (out.new.items ≡ out.old.items ++ spell_entry value.now) }
    ensures fitting { OnOk result (FitsEntry value.now) }
    ensures err { OnErr result (out.new.items ≡ out.old.items) }
{
    put_made_last(alloc, value, out)
}
