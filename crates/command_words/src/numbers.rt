//! The three numbers of `load`.
ghost use Rattle.std.specs.Prelude.{◌≡◌, IfSome};
ghost use Rattle.std.specs.Char.{is_ascii_digit};
ghost use Rattle.std.specs.List.{list_all};
ghost use Rattle.document_forms.specs.Numbers.{is_between as is_between_def};
ghost use Rattle.command_words.specs.LoadWords.{begins_as_numeral as begins_def, is_numeral as is_numeral_def, number_of as number_def, load_within as load_within_def, load_of as load_def, HasItsNumbers};

use crate::command::Command;

/// Whether there is a byte, and no zero that others follow.
fn begins_as_numeral(bytes: &[u8]) -> bool
    ensures { result ≡ begins_def bytes.now }
{
    match bytes {
        [] => false,
        [_] => true,
        [first, ..] => *first != b'0',
    }
}

fn are_digits(bytes: &[u8]) -> bool
    ensures { result ≡ list_all is_ascii_digit bytes.now }
{
    bytes.iter().all(|byte| byte.is_ascii_digit())
}

#[tactic(auto, unfolding(crate::specs::LoadWords::is_numeral))]
fn is_numeral(bytes: &[u8]) -> bool
    ensures { result ≡ is_numeral_def bytes.now }
{
    if !begins_as_numeral(bytes) {
        return false;
    }
    are_digits(bytes)
}

/// The number that the word is: decimal digits, with no sign, and no zero in front but `0` alone.
#[tactic(auto, using(crate::proofs::LoadWords::number_read, crate::proofs::LoadWords::no_number))]
fn number_of(word: &str) -> Option<u64>
    ensures { result ≡ number_def word.now }
{
    if !is_numeral(word.as_bytes()) {
        return None;
    }
    word.parse::<u64>().ok()
}

fn is_between(low: u64, high: u64, number: u64) -> bool
    ensures { result ≡ is_between_def low high number }
{
    low <= number && number <= high
}

/// The command of these numbers, if they are within their limits.
fn load_within(seed: u64, clients: u64, requests: u64) -> Option<Command>
    ensures made { result ≡ load_within_def seed clients requests }
    ensures within { IfSome result HasItsNumbers }
{
    if !is_between(1, 64, clients) {
        return None;
    }
    if !is_between(1, 10, requests) {
        return None;
    }
    Some(Command::Load {
        seed,
        clients,
        requests,
    })
}

/// The command of these three words behind `load`, if they are numbers within their limits.
pub(crate) fn load_of(seed: &str, clients: &str, requests: &str) -> Option<Command>
    ensures made { result ≡ load_def (number_def seed.now) (number_def clients.now)
        (number_def requests.now) }
    ensures within { IfSome result HasItsNumbers }
{
    let Some(seed) = number_of(seed) else {
        return None;
    };
    let Some(clients) = number_of(clients) else {
        return None;
    };
    let Some(requests) = number_of(requests) else {
        return None;
    };
    load_within(seed, clients, requests)
}
