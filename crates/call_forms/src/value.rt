//! Readers of names, values and operands.
ghost use Rattle.std.specs.Prelude.{◌≡◌, ◌≤◌, length, string_bytes, IfOk, IfErr, IfSome};
ghost use Rattle.std.specs.Str.{bytes_eq};
ghost use Rattle.json.specs.Reads.{token_of};
ghost use Rattle.serde_json.specs.View.{view, members_view};
ghost use Rattle.json_form.specs.Faults.{Gives, GivesBy};
ghost use Rattle.json_form.specs.meaning.Arrays.{is_key};
ghost use Rattle.json_form.specs.declared.fault.DocFault.TheVariants.{NoMemory};
ghost use Rattle.call_forms.specs.meaning.Values.{name_of, new_name, value_of, bytes_value, bytes_object, line_of, only_member as only_member_def, operand_named as operand_named_def, operand_of, draw_words};
ghost use Rattle.call_forms.specs.ValuesAhead.{IsPlain};

use json::Token;
use json_form::{
    Digits, DocCode, DocFault, Integer, Reader, Taken, integer_in, object_from, object_with,
    octets_from, text_from, within,
};
use serde_json::{Map, Value as Json};
use std::alloc::Global;
use svc_values::{DrawKind, Name, Octets, Operand, Shared, Text, TryCopy, Value};

/// Reads a name.
pub struct NameReader;

impl Reader<Name> for NameReader {
    ghost reads = { λ s. name_of };

    #[tactic(auto, unfolding(crate::specs::meaning::Values::name_of))]
    fn read(&self, alloc: Global, value: Json) -> Result<Name, DocFault> {
        let text = text_from(alloc, value)?;
        match Name::from_string(text) {
            Ok(name) => Ok(name),
            Err(_) => Err(DocFault::here(alloc, DocCode::Limit)),
        }
    }

    /// The name that the tokens begin with, of whose text no copy is made.
    fn ahead(&self, alloc: Global, tokens: &mut json::Reader<'_>, _depth: usize) -> Option<Name> {
        match tokens.next()? {
            Token::String(text) => Name::new(alloc, text).ok(),
            _ => None,
        }
    }
}

/// A copy of a key, where there is memory.
pub fn copied<T: TryCopy>(alloc: Global, item: &T) -> Result<T, DocFault>
    ensures made { IfOk result (λ copy. copy ≡ item.now) }
    ensures refused { IfErr result (λ e. e ≡ NoMemory) }
{
    match item.copy(alloc) {
        Ok(copy) => Ok(copy),
        Err(_) => Err(DocFault::NoMemory),
    }
}

/// The list of these items, to be shared by its copies, where there is memory.
pub fn shared<T: Drop, const LIMIT: usize>(
    alloc: Global,
    items: Vec<T>,
) -> Result<Shared<T, LIMIT>, DocFault>
    requires { length items.items ≤ LIMIT }
    ensures made { IfOk result (λ list. list ≡ items.items) }
    ensures refused { IfErr result (λ e. e ≡ NoMemory) }
{
    match Shared::of(alloc, items) {
        Ok(list) => Ok(list),
        Err(_) => Err(DocFault::NoMemory),
    }
}

/// Reads a name that does not stand before.
#[derive(Drop)]
pub struct NewNameReader<'a> {
    pub taken: &'a Taken<Name>,
}

impl Reader<Name> for NewNameReader<'_> {
    ghost reads = { λ s. new_name (is_key bytes_eq s.taken.now) };

    fn read(&self, alloc: Global, value: Json) -> Result<Name, DocFault> {
        let name = NameReader.read(alloc, value)?;
        self.taken.fresh(alloc, &name)?;
        Ok(name)
    }
}

/// Reads a text of at most 64 bytes.
pub struct LineReader;

impl Reader<Text> for LineReader {
    ghost reads = { λ s. line_of };

    fn read(&self, alloc: Global, value: Json) -> Result<Text, DocFault> {
        let text = text_from(alloc, value)?;
        match Text::from_string(text) {
            Ok(text) => Ok(text),
            Err(_) => Err(DocFault::here(alloc, DocCode::Limit)),
        }
    }

    /// The text that the tokens begin with, which is copied once.
    fn ahead(&self, alloc: Global, tokens: &mut json::Reader<'_>, _depth: usize) -> Option<Text> {
        match tokens.next()? {
            Token::String(text) => Text::new(alloc, text).ok(),
            _ => None,
        }
    }
}

/// At most 64 bytes, as hexadecimal digits.
fn bytes_from(alloc: Global, value: Json, digits: Digits) -> Result<Value, DocFault>
    ensures { Gives result (bytes_value digits (view value)) }
{
    let bytes = octets_from(alloc, value, digits)?;
    match Octets::from_vec(bytes) {
        Ok(bytes) => Ok(Value::Bytes(bytes)),
        Err(_) => Err(DocFault::here(alloc, DocCode::Limit)),
    }
}

#[tactic(auto, unfolding(crate::specs::meaning::Values::bytes_object))]
fn bytes_member(alloc: Global, value: Json, digits: Digits) -> Result<Value, DocFault>
    ensures { Gives result (bytes_object digits (view value)) }
{
    let mut members = object_with(alloc, value, &["hex"])?;
    let hex = members.required(alloc, "hex")?;
    within(alloc, "hex", bytes_from(alloc, hex, digits))
}

/// The value that a token is by itself: a text or a number. There is none of a text past its limit,
/// of a number that is not an integer of 64 bits or is `-0`, and of each other token.
pub fn plain_value(alloc: Global, token: Token<'_>) -> Option<Value>
    ensures { IfSome result (λ x. IsPlain (token_of token.entry) x) }
{
    match token {
        Token::String(text) => {
            let text = Text::new(alloc, text).ok()?;
            Some(Value::Text(text))
        }
        Token::Number(text) => {
            let number = integer_in(text)?;
            Some(Value::Int(number))
        }
        _ => None,
    }
}

/// Reads a value: a number, a text, or an object of bytes in these digits.
#[derive(Clone, Copy, Debug, PartialEq, Eq)]
pub struct ValueReader {
    pub digits: Digits,
}

impl Reader<Value> for ValueReader {
    ghost reads = { λ s. value_of s.digits };

    #[tactic(auto, unfolding(crate::specs::meaning::Values::value_of))]
    fn read(&self, alloc: Global, value: Json) -> Result<Value, DocFault> {
        if value.is_string() {
            return Ok(Value::Text(LineReader.read(alloc, value)?));
        }
        if value.is_number() {
            return Ok(Value::Int(Integer.read(alloc, value)?));
        }
        bytes_member(alloc, value, self.digits)
    }

    /// The value that the tokens begin with, with no JSON value between where it is a text or a
    /// number.
    fn ahead(&self, alloc: Global, tokens: &mut json::Reader<'_>, depth: usize) -> Option<Value> {
        match tokens.next()? {
            Token::BeginObject => {
                let bytes = object_from(alloc, tokens, depth)?;
                let value = self.read(alloc, bytes).ok()?;
                Some(value)
            }
            token => plain_value(alloc, token),
        }
    }
}

/// The name and the value of an object's only member.
pub fn only_member(alloc: Global, members: Map<String, Json>) -> Result<(String, Json), DocFault>
    ensures { GivesBy (λ only. (string_bytes only.0, view only.1)) result
        (only_member_def (members_view members.entries)) }
{
    let mut members = members.into_iter();
    let Some(only) = members.next() else {
        return Err(DocFault::here(alloc, DocCode::Unknown));
    };
    if members.next().is_some() {
        return Err(DocFault::here(alloc, DocCode::Unknown));
    }
    Ok(only)
}

/// The operand that the member of this name says.
fn operand_named(
    alloc: Global,
    name: &str,
    inner: Json,
    digits: Digits,
) -> Result<Operand, DocFault>
    ensures { Gives result (operand_named_def digits name.now (view inner)) }
{
    if name == "hex" {
        let bytes = within(alloc, name, bytes_from(alloc, inner, digits))?;
        return Ok(Operand::Lit(bytes));
    }
    if name == "var" {
        let variable = within(alloc, name, NameReader.read(alloc, inner))?;
        return Ok(Operand::Var(variable));
    }
    if name == "seq" {
        let sequence = within(alloc, name, NameReader.read(alloc, inner))?;
        return Ok(Operand::Draw(DrawKind::Seq(sequence)));
    }
    if name == "draw" {
        let kind = within(alloc, name, DrawReader.read(alloc, inner))?;
        return Ok(Operand::Draw(kind));
    }
    Err(DocFault::here(alloc, DocCode::Unknown))
}

/// Reads the word for a draw of the clock or of an identifier.
struct DrawReader;

impl Reader<DrawKind> for DrawReader {
    ghost use Rattle.json_form.specs.meaning.Texts.{word_of};

    ghost reads = { λ s. word_of draw_words };

    fn read(&self, alloc: Global, value: Json) -> Result<DrawKind, DocFault> {
        let text = text_from(alloc, value)?;
        let word = text.as_str();
        if word == "clock" {
            return Ok(DrawKind::Clock);
        }
        if word == "id" {
            return Ok(DrawKind::Id);
        }
        Err(DocFault::here(alloc, DocCode::Unknown))
    }
}

/// Reads an operand: a value, or an object with one member that says where the value comes from.
/// Bytes stand in these digits.
#[derive(Clone, Copy, Debug, PartialEq, Eq)]
pub struct OperandReader {
    pub digits: Digits,
}

impl Reader<Operand> for OperandReader {
    ghost reads = { λ s. operand_of s.digits };

    #[tactic(auto, unfolding(crate::specs::meaning::Values::operand_of))]
    fn read(&self, alloc: Global, value: Json) -> Result<Operand, DocFault> {
        let digits = self.digits;
        match value {
            Json::Object(members) => {
                let (name, inner) = only_member(alloc, members)?;
                operand_named(alloc, name.as_str(), inner, digits)
            }
            literal => Ok(Operand::Lit(ValueReader { digits }.read(alloc, literal)?)),
        }
    }

    /// The operand that the tokens begin with, with no JSON value between where it is a text or a
    /// number.
    fn ahead(&self, alloc: Global, tokens: &mut json::Reader<'_>, depth: usize) -> Option<Operand> {
        match tokens.next()? {
            Token::BeginObject => {
                let named = object_from(alloc, tokens, depth)?;
                let operand = self.read(alloc, named).ok()?;
                Some(operand)
            }
            token => {
                let literal = plain_value(alloc, token)?;
                Some(Operand::Lit(literal))
            }
        }
    }
}
