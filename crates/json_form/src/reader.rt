//! Readers of values, and those of numbers and bools.
ghost use Rattle.std.specs.Prelude.{◌≡◌, ◌≤◌, ◌<◌, length, Result, IfOk, IfSome};
ghost use Rattle.serde_json.specs.Data.{Data};
ghost use Rattle.serde_json.specs.View.{view};
ghost use Rattle.json_form.specs.meaning.Faults.{Fault};
ghost use Rattle.json_form.specs.Faults.{Gives};
ghost use Rattle.json_form.specs.meaning.Values.{whole_of, integer_of, bool_of};
ghost use Rattle.json_form.specs.Streams.{Begins};

use crate::fault::{DocCode, DocFault};
use crate::number::{integer_in, whole_in};
use crate::stream::value_from;
use json::Token;
use serde_json::{Number, Value};
use std::alloc::Global;

/// Reads a `T` from a JSON value, whose texts are moved into it. The reader is a unit struct, or
/// holds a setting.
pub trait Reader<T> {
    ghost reads: { Self → Data → Result T Fault };

    /// What the value is read as, or the first fault.
    fn read(&self, alloc: Global, value: Value) -> Result<T, DocFault>
        ensures { Gives result (reads self.now (view value)) };

    /// What the value that the tokens begin with is read as, once they are passed. There is none
    /// where there is a fault, and in the forms that are read otherwise: `read` says which.
    fn ahead(&self, alloc: Global, tokens: &mut json::Reader<'_>, depth: usize) -> Option<T>
        ensures begins { IfSome result (λ x. Begins (reads self.now) depth tokens.old x
            tokens.new) }
        ensures shorter { IfSome result (λ _. length tokens.new < length tokens.old) }
    {
        let value = value_from(alloc, tokens, depth)?;
        self.read(alloc, value).ok()
    }
}

/// Reads a whole number from `low` to `high`.
#[derive(Clone, Copy, Debug, PartialEq, Eq)]
pub struct Whole {
    pub low: u64,
    pub high: u64,
}

impl Whole {
    pub fn new(low: u64, high: u64) -> Whole
        ensures { result ≡ record { low = low; high = high } }
    {
        Whole { low, high }
    }
}

impl Reader<u64> for Whole {
    ghost reads = { λ s. whole_of s.low s.high };

    #[tactic(auto, unfolding(crate::specs::meaning::Values::whole_of))]
    fn read(&self, alloc: Global, value: Value) -> Result<u64, DocFault>
        ensures read { Gives result (whole_of self.now.low self.now.high (view value)) }
        ensures most { IfOk result (λ number. number ≤ self.now.high) }
    {
        let Whole { low, high } = *self;
        let Some(number) = value.as_number().and_then(Number::as_i128) else {
            return Err(DocFault::here(alloc, DocCode::WrongKind));
        };
        if number < 0 {
            return Err(DocFault::here(alloc, DocCode::Limit));
        }
        let Ok(number) = u64::try_from(number) else {
            return Err(DocFault::here(alloc, DocCode::Limit));
        };
        if number < low || high < number {
            return Err(DocFault::here(alloc, DocCode::Limit));
        }
        Ok(number)
    }

    /// The number that the tokens begin with, with no JSON value of it between.
    fn ahead(&self, _alloc: Global, tokens: &mut json::Reader<'_>, _depth: usize) -> Option<u64> {
        let Token::Number(text) = tokens.next()? else {
            return None;
        };
        let number = whole_in(text)?;
        if number < self.low || self.high < number {
            return None;
        }
        Some(number)
    }
}

/// Reads a whole number of 64 bits with a sign.
#[derive(Clone, Copy, Debug, PartialEq, Eq)]
pub struct Integer;

impl Reader<i64> for Integer {
    ghost reads = { λ s. integer_of };

    #[tactic(auto, unfolding(crate::specs::meaning::Values::integer_of))]
    fn read(&self, alloc: Global, value: Value) -> Result<i64, DocFault> {
        let Some(number) = value.as_number().and_then(Number::as_i128) else {
            return Err(DocFault::here(alloc, DocCode::WrongKind));
        };
        match i64::try_from(number) {
            Ok(small) => Ok(small),
            Err(_) => Err(DocFault::here(alloc, DocCode::Limit)),
        }
    }

    /// The number that the tokens begin with, with no JSON value of it between.
    fn ahead(&self, _alloc: Global, tokens: &mut json::Reader<'_>, _depth: usize) -> Option<i64> {
        let Token::Number(text) = tokens.next()? else {
            return None;
        };
        let number = integer_in(text)?;
        Some(number)
    }
}

/// Reads a bool.
#[derive(Clone, Copy, Debug, PartialEq, Eq)]
pub struct Flag;

impl Reader<bool> for Flag {
    ghost reads = { λ s. bool_of };

    fn read(&self, alloc: Global, value: Value) -> Result<bool, DocFault> {
        match value.as_bool() {
            Some(flag) => Ok(flag),
            None => Err(DocFault::here(alloc, DocCode::WrongKind)),
        }
    }
}
