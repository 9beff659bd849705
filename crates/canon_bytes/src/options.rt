//! What may be absent.
ghost use Rattle.canon_bytes.specs.meaning.Options.{option_at};
ghost use Rattle.canon_bytes.specs.Options.{spell_option, FitsOption};
ghost use Rattle.canon_bytes.specs.EntriesAgain.{option_again};

use crate::canon::{Put, Take};
use crate::fault::{Fault, ReadFault};
use std::alloc::Global;
use svc_values::NoMemory;

#[tactic(auto, unfolding(crate::specs::meaning::Options::option_at))]
impl<T: Take + Drop> Take for Option<T> {
    ghost spelling = { spell_option T.spelling };

    ghost fits = { FitsOption T.fits };

    ghost reading = { option_at T.reading };

    ghost again = { option_again T.spelling T.fits T.reading T.again };

    fn take(alloc: Global, bytes: &[u8]) -> Result<(Option<T>, &[u8]), ReadFault> {
        match bytes {
            [] => Err(ReadFault::Fault(Fault::Short)),
            [0, rest @ ..] => Ok((None, rest)),
            [1, rest @ ..] => {
                let (value, rest) = T::take(alloc, rest)?;
                Ok((Some(value), rest))
            }
            _ => Err(ReadFault::Fault(Fault::BadTag(bytes.len()))),
        }
    }
}

impl<T: Put + Drop> Put for Option<T> {
    fn put(&self, out: &mut Vec<u8>) -> Result<(), NoMemory> {
        match self {
            None => Ok(out.push(0)?),
            Some(value) => {
                out.push(1)?;
                value.put(out)
            }
        }
    }
}
