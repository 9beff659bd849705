//! The payloads of frames to the client.
ghost use Rattle.std.specs.Prelude.{◌≡◌, ◌∷◌, ◌++◌, IfOk};
ghost use Rattle.canon_bytes.specs.meaning.DownBytes.{spell_ahead, spell_down};
ghost use Rattle.canon_bytes.specs.DownBytes.{FitsDown, IsCause, ahead_at, cause_at, reply_at, outcome_is_at, outcome_refused_at, down_at, IsMadeDown};
ghost use Rattle.canon_bytes.specs.Reading.{IsReading};
ghost use Rattle.canon_bytes.specs.FramesAgain.{down_again};

use crate::canon::{Put, PutMade, Take};
use crate::fault::{Fault, ReadFault};
use std::alloc::Global;
use svc_values::{Ahead, Answers, Down, Draws, Ltxid, NoMemory};

/// Why an outcome is refused.
#[tactic(auto, unfolding(crate::specs::DownBytes::ahead_at))]
fn take_ahead(bytes: &[u8]) -> Result<(Ahead, &[u8]), ReadFault>
    ensures exact { IsReading (λ x. (x.0, x.1.now)) result (ahead_at bytes.now) }
    ensures found { IfOk result (λ x. bytes.now ≡ spell_ahead x.0 ++ x.1.now) }
{
    match bytes {
        [] => Err(ReadFault::Fault(Fault::Short)),
        [1, rest @ ..] => Ok((Ahead::Server, rest)),
        [2, rest @ ..] => Ok((Ahead::Client, rest)),
        [3, rest @ ..] => Ok((Ahead::Forgotten, rest)),
        _ => Err(ReadFault::Fault(Fault::BadTag(bytes.len()))),
    }
}

/// The cause of a refusal.
#[tactic(auto, unfolding(crate::specs::DownBytes::cause_at))]
fn take_cause(bytes: &[u8]) -> Result<(u8, &[u8]), ReadFault>
    ensures exact { IsReading (λ x. (x.0, x.1.now)) result (cause_at bytes.now) }
    ensures found { IfOk result (λ x. bytes.now ≡ x.0 ∷ x.1.now) }
    ensures fitting { IfOk result (λ x. IsCause x.0) }
{
    match bytes {
        [] => Err(ReadFault::Fault(Fault::Short)),
        [cause, rest @ ..] if *cause == 1 || *cause == 2 => Ok((*cause, rest)),
        _ => Err(ReadFault::Fault(Fault::BadTag(bytes.len()))),
    }
}

/// A reply, behind its tag.
#[tactic(auto, unfolding(crate::specs::DownBytes::reply_at))]
fn take_reply(alloc: Global, bytes: &[u8]) -> Result<(Down, &[u8]), ReadFault>
    ensures exact { IsReading (λ x. (x.0, x.1.now)) result (reply_at bytes.now) }
    ensures found { IfOk result (λ x. 18 ∷ bytes.now ≡ spell_down x.0 ++ x.1.now) }
    ensures fitting { IfOk result (λ x. FitsDown x.0) }
{
    let (answers, rest) = Answers::take(alloc, bytes)?;
    let (draws, rest) = Draws::take(alloc, rest)?;
    let (ltxid, rest) = Ltxid::take(alloc, rest)?;
    let reply = Down::Reply {
        answers,
        draws,
        ltxid,
    };
    Ok((reply, rest))
}

/// What became of a transaction, behind its tag.
#[tactic(auto, unfolding(crate::specs::DownBytes::outcome_is_at))]
fn take_outcome_is(alloc: Global, bytes: &[u8]) -> Result<(Down, &[u8]), ReadFault>
    ensures exact { IsReading (λ x. (x.0, x.1.now)) result (outcome_is_at bytes.now) }
    ensures found { IfOk result (λ x. 19 ∷ bytes.now ≡ spell_down x.0 ++ x.1.now) }
    ensures fitting { IfOk result (λ x. FitsDown x.0) }
{
    let (committed, rest) = bool::take(alloc, bytes)?;
    let (completed, rest) = bool::take(alloc, rest)?;
    let outcome = Down::OutcomeIs {
        committed,
        completed,
    };
    Ok((outcome, rest))
}

/// Why an outcome can't be told, behind its tag.
#[tactic(auto, unfolding(crate::specs::DownBytes::outcome_refused_at))]
fn take_outcome_refused(alloc: Global, bytes: &[u8]) -> Result<(Down, &[u8]), ReadFault>
    ensures exact { IsReading (λ x. (x.0, x.1.now)) result (outcome_refused_at bytes.now) }
    ensures found { IfOk result (λ x. 20 ∷ bytes.now ≡ spell_down x.0 ++ x.1.now) }
    ensures fitting { IfOk result (λ x. FitsDown x.0) }
{
    let (ahead, rest) = take_ahead(bytes)?;
    let (next, rest) = u64::take(alloc, rest)?;
    Ok((Down::OutcomeRefused { ahead, next }, rest))
}

#[tactic(auto, unfolding(crate::specs::DownBytes::down_at))]
impl Take for Down {
    ghost spelling = { spell_down };

    ghost fits = { FitsDown };

    ghost reading = { down_at };

    ghost again = { down_again };

    fn take(alloc: Global, bytes: &[u8]) -> Result<(Down, &[u8]), ReadFault> {
        match bytes {
            [] => Err(ReadFault::Fault(Fault::Short)),
            [17, rest @ ..] => {
                let (ltxid, rest) = Ltxid::take(alloc, rest)?;
                Ok((Down::Hello { ltxid }, rest))
            }
            [18, rest @ ..] => take_reply(alloc, rest),
            [19, rest @ ..] => take_outcome_is(alloc, rest),
            [20, rest @ ..] => take_outcome_refused(alloc, rest),
            [21, rest @ ..] => Ok((Down::Blocked, rest)),
            [22, rest @ ..] => {
                let (cause, rest) = take_cause(rest)?;
                Ok((Down::Refused { cause }, rest))
            }
            _ => Err(ReadFault::Fault(Fault::BadTag(bytes.len()))),
        }
    }
}

impl PutMade for Down {
    ghost made = { IsMadeDown };

    fn put_made(&self, out: &mut Vec<u8>) -> Result<(), NoMemory> {
        match self {
            Down::Hello { ltxid } => {
                out.push(17)?;
                ltxid.put_made(out)
            }
            Down::Reply {
                answers,
                draws,
                ltxid,
            } => {
                out.push(18)?;
                answers.put(out)?;
                draws.put(out)?;
                ltxid.put_made(out)
            }
            Down::OutcomeIs {
                committed,
                completed,
            } => {
                out.push(19)?;
                committed.put(out)?;
                completed.put(out)
            }
            Down::OutcomeRefused { ahead, next } => {
                out.push(20)?;
                out.push(match ahead {
                    Ahead::Server => 1,
                    Ahead::Client => 2,
                    Ahead::Forgotten => 3,
                })?;
                next.put(out)
            }
            Down::Blocked => Ok(out.push(21)?),
            Down::Refused { cause } => {
                out.push(22)?;
                Ok(out.push(*cause)?)
            }
        }
    }
}
