//! A digest of answers that is made answer by answer.
ghost use Rattle.std.specs.Prelude.{◌≡◌, ℕ, List, [], ◌∷◌, ◌++◌, IfOk, OnOk, OnErr};
ghost use Rattle.sha2.specs.Sha256.{sha256};
ghost use Rattle.svc_values.specs.declared.answer.Answer.{Answer as AnAnswer};
ghost use Rattle.canon_bytes.specs.meaning.AnswerBytes.{spell_answers};

use canon_bytes::put_answer;
use sha2::{Digest, Sha256};
use std::alloc::Global;
use svc_values::{Answer, NoMemory};

/// A SHA-256 digest (FIPS 180-4) of the canonical bytes of a list of answers, in the making: first
/// the count, and then the answers one by one. The bytes of the whole list are never held.
#[derive(Drop)]
pub struct Digesting {
    alloc: Global,
    hasher: Sha256,
    count: u64,
    added: u64,
}

impl Digesting {
    ghost use Rattle.result_digest.specs.Digests.{HasTaken, HasRoom, IsFull};

    /// Begins the digest of a list of so many answers. It takes no memory.
    pub fn new(alloc: Global, count: u64) -> Digesting
        ensures { HasTaken result count [] }
    {
        let mut hasher = Sha256::new();
        hasher.update(&count.to_be_bytes());
        Digesting {
            alloc,
            hasher,
            count,
            added: 0,
        }
    }

    /// Takes in the next answer. The cost is linear in its bytes.
    pub fn add(&mut self, answer: &Answer) -> Result<(), NoMemory>
        requires { HasRoom self.old }
        ensures ok { OnOk result ((count : ℕ) (answers : List AnAnswer)
            → HasTaken self.old count answers
            → HasTaken self.new count (answers ++ answer.now ∷ [])) }
        ensures err { OnErr result (self.new ≡ self.old) }
    {
        let mut room = Vec::new(self.alloc);
        self.add_through(answer, &mut room)
    }

    /// Takes in the next answer. Its bytes are made in the room, and what stood there is gone.
    fn add_through(&mut self, answer: &Answer, room: &mut Vec<u8>) -> Result<(), NoMemory>
        requires { HasRoom self.old }
        ensures ok { OnOk result ((count : ℕ) (answers : List AnAnswer)
            → HasTaken self.old count answers
            → HasTaken self.new count (answers ++ answer.now ∷ [])) }
        ensures err { OnErr result (self.new ≡ self.old) }
    {
        room.clear();
        put_answer(self.alloc, answer, room)?;
        self.hasher.update(room.as_slice());
        self.added += 1;
        Ok(())
    }

    /// The digest of the list. It takes no memory.
    pub fn finish(self) -> [u8; 32]
        requires { IsFull self }
        ensures { (count : ℕ) (answers : List AnAnswer) → HasTaken self count answers
            → result ≡ sha256 (spell_answers answers) }
    {
        let Digesting {
            alloc: _alloc,
            hasher,
            count: _count,
            added: _added,
        } = self;
        hasher.finalize()
    }
}

/// The SHA-256 digest (FIPS 180-4) of the canonical bytes of the list of these answers. The cost is
/// linear in those bytes, of which one answer's are held at a time, all in the same room.
pub fn digest_of(alloc: Global, answers: &[Answer]) -> Result<[u8; 32], NoMemory>
    ensures { IfOk result (λ digest. digest ≡ sha256 (spell_answers answers.now)) }
{
    let mut digesting = Digesting::new(alloc, answers.len() as u64);
    let mut room = Vec::new(alloc);
    for answer in answers {
        digesting.add_through(answer, &mut room)?;
    }
    Ok(digesting.finish())
}
