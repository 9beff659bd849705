//! Octets, as texts of hexadecimal digits.
ghost use Rattle.std.specs.Prelude.{◌≡◌};
ghost use Rattle.std.specs.List.{list_any};
ghost use Rattle.serde_json.specs.View.{view};
ghost use Rattle.json_form.specs.Faults.{GivesBy};
ghost use Rattle.json_form.specs.meaning.Texts.{is_capital, octets_of, octets_in as octets_in_def, octets_by as octets_by_def};

use crate::fault::{DocCode, DocFault};
use crate::word::text_from;
use hex::FromHexError;
use serde_json::Value;
use std::alloc::Global;

/// Which hexadecimal digits a text may have.
#[derive(Clone, Copy, Debug, PartialEq, Eq)]
pub enum Digits {
    /// Those of either case.
    Any,
    /// None from `A` to `F`.
    Lower,
}

/// The octets that pairs of hexadecimal digits spell, in either case.
pub fn octets_in(alloc: Global, text: &str) -> Result<Vec<u8>, DocFault>
    ensures { GivesBy (λ v. v.items) result (octets_in_def text.now) }
{
    match hex::decode(alloc, text) {
        Ok(octets) => Ok(octets),
        Err(FromHexError::OutOfMemory) => Err(DocFault::NoMemory),
        Err(_) => Err(DocFault::here(alloc, DocCode::BadImage)),
    }
}

fn has_capitals(text: &str) -> bool
    ensures { result ≡ list_any is_capital text.now }
{
    text.as_bytes()
        .iter()
        .any(|digit| 65 <= *digit && *digit <= 70)
}

/// The octets that pairs of these hexadecimal digits spell.
pub fn octets_by(alloc: Global, text: &str, digits: Digits) -> Result<Vec<u8>, DocFault>
    ensures { GivesBy (λ v. v.items) result (octets_by_def digits text.now) }
{
    match digits {
        Digits::Any => octets_in(alloc, text),
        Digits::Lower => {
            if has_capitals(text) {
                return Err(DocFault::here(alloc, DocCode::BadImage));
            }
            octets_in(alloc, text)
        }
    }
}

/// The octets that a text of pairs of these hexadecimal digits spells.
pub fn octets_from(alloc: Global, value: Value, digits: Digits) -> Result<Vec<u8>, DocFault>
    ensures { GivesBy (λ v. v.items) result (octets_of digits (view value)) }
{
    let text = text_from(alloc, value)?;
    octets_by(alloc, text.as_str(), digits)
}
