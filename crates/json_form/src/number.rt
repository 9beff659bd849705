//! Numbers of a text.
ghost use Rattle.std.specs.Prelude.{◌≡◌, Some, IfSome, true, false, ◌==◌, slice_index, length, ◌<◌, IsTrue};
ghost use Rattle.serde_json.specs.Data.{unsigned as whole_num};
ghost use Rattle.serde_json.specs.Find.{of_integer};
ghost use Rattle.serde_json.specs.Read.{number_of, number_from};
ghost use Rattle.serde_json.specs.View.{number_view};

use fast_float::Numeral;
use serde_json::Number;

fn has_minus(bytes: &[u8]) -> bool
    ensures value { result ≡ (slice_index bytes.now 0 == 45) }
    ensures some { IsTrue result → 0 < length bytes.now }
{
    !bytes.is_empty() && bytes[0] == b'-'
}

fn unsigned(numeral: &Numeral<'_>) -> Option<u64>
    ensures { IfSome result (λ n. number_from false numeral.now ≡ Some (whole_num n)) }
{
    numeral.to_u64()
}

fn negative(numeral: &Numeral<'_>) -> Option<i64>
    ensures { IfSome result (λ z. number_from true numeral.now ≡ Some (of_integer z)) }
{
    let number = numeral.to_i64(true)?;
    if number < 0 { Some(number) } else { None }
}

/// The number that a token of JSON writes, where it is an integer of 64 bits without a sign.
pub(crate) fn whole_in(text: &str) -> Option<u64>
    ensures { IfSome result (λ n. number_of text.now ≡ Some (whole_num n)) }
{
    let bytes = text.as_bytes();
    if has_minus(bytes) {
        return None;
    }
    unsigned(&Numeral::scan(bytes))
}

/// The number that a token of JSON writes, where it is an integer of 64 bits with a sign and not
/// `-0`.
pub fn integer_in(text: &str) -> Option<i64>
    ensures { IfSome result (λ z. number_of text.now ≡ Some (of_integer z)) }
{
    let bytes = text.as_bytes();
    if has_minus(bytes) {
        negative(&Numeral::scan(&bytes[1..]))
    } else {
        let whole = unsigned(&Numeral::scan(bytes))?;
        i64::try_from(whole).ok()
    }
}

/// The number that a token of JSON writes, where it is an integer of 64 bits and not `-0`.
pub(crate) fn number_in(text: &str) -> Option<Number>
    ensures { IfSome result (λ n. number_of text.now ≡ Some (number_view n)) }
{
    match integer_in(text) {
        Some(integer) => Number::from_i128(integer as i128),
        None => Number::from_u128(whole_in(text)? as u128),
    }
}
