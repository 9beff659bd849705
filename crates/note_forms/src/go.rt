//! Reader of the note of a client's step.
ghost use Rattle.std.specs.Prelude.{◌≡◌};
ghost use Rattle.serde_json.specs.View.{view};
ghost use Rattle.json_form.specs.Faults.{Gives};
ghost use Rattle.json_form.specs.meaning.Texts.{word_of};
ghost use Rattle.json_form.specs.Arrays.{parts_at};
ghost use Rattle.note_forms.specs.meaning.Notes.{go_words, go_count, sent_by, go_by as go_by_def, go_in};

use answer_forms::{NUMBER, if_count};
use json_form::{DocFault, Parts, Reader, Whole, parts_from, word_ahead, word_from};
use outage_schedule::{GoNote, Note};
use serde_json::Value as Json;
use std::alloc::Global;

/// The word for what a client's step did.
#[derive(Clone, Copy, Debug, PartialEq, Eq)]
pub enum GoWord {
    Idle,
    Wait,
    NoFrame,
    Early,
    Down,
    Open,
    Lent,
    Took,
    Lost,
}

impl GoWord {
    /// How many items the note has.
    fn count(self) -> usize
        ensures { result ≡ go_count self }
    {
        match self {
            GoWord::Open | GoWord::Lent | GoWord::Took => 5,
            GoWord::Lost => 4,
            GoWord::Idle | GoWord::Wait | GoWord::NoFrame | GoWord::Early | GoWord::Down => 3,
        }
    }
}

const WORDS: [(&str, GoWord); 9] = [
    ("idle", GoWord::Idle),
    ("wait", GoWord::Wait),
    ("none", GoWord::NoFrame),
    ("early", GoWord::Early),
    ("down", GoWord::Down),
    ("open", GoWord::Open),
    ("lent", GoWord::Lent),
    ("took", GoWord::Took),
    ("lost", GoWord::Lost),
];

/// Reads the word for what a client's step did.
pub(crate) struct GoReader;

impl Reader<GoWord> for GoReader {
    ghost reads = { λ s. word_of go_words };

    fn read(&self, alloc: Global, value: Json) -> Result<GoWord, DocFault> {
        word_from(alloc, value, &WORDS)
    }

    fn ahead(&self, alloc: Global, tokens: &mut json::Reader<'_>, depth: usize) -> Option<GoWord> {
        let word = word_ahead(alloc, tokens, &WORDS)?;
        Some(word)
    }
}

/// A connection, and behind it the number of frames that are sent where one is opened or lent.
#[tactic(auto, using(json_form::proofs::Offered::others_stay))]
fn sent_on(alloc: Global, parts: &mut Parts, sent: u64) -> Result<u64, DocFault>
    ensures { Gives result (sent_by sent (parts_at parts.old)) }
{
    let connection = parts.read(alloc, 3, &NUMBER)?;
    parts.read(alloc, 4, &Whole::new(sent, sent))?;
    Ok(connection)
}

/// A frame that a client took, and how many it sent then.
#[tactic(auto, using(json_form::proofs::Offered::others_stay))]
fn took_from(alloc: Global, parts: &mut Parts) -> Result<GoNote, DocFault>
    ensures { Gives result (go_by_def GoWord.Took (parts_at parts.old)) }
{
    let connection = parts.read(alloc, 3, &NUMBER)?;
    let sent = parts.read(alloc, 4, &NUMBER)?;
    Ok(GoNote::Took { connection, sent })
}

/// What the word and the items from the fourth one say.
fn go_by(alloc: Global, word: GoWord, parts: &mut Parts) -> Result<GoNote, DocFault>
    ensures { Gives result (go_by_def word (parts_at parts.old)) }
{
    match word {
        GoWord::Idle => Ok(GoNote::Idle),
        GoWord::Wait => Ok(GoNote::Wait),
        GoWord::NoFrame => Ok(GoNote::NoFrame),
        GoWord::Early => Ok(GoNote::Early),
        GoWord::Down => Ok(GoNote::Down),
        GoWord::Open => {
            let connection = sent_on(alloc, parts, 1)?;
            Ok(GoNote::Open { connection })
        }
        GoWord::Lent => {
            let connection = sent_on(alloc, parts, 2)?;
            Ok(GoNote::Lent { connection })
        }
        GoWord::Took => took_from(alloc, parts),
        GoWord::Lost => {
            let connection = parts.read(alloc, 3, &NUMBER)?;
            Ok(GoNote::Lost { connection })
        }
    }
}

/// The note of a client's step.
#[tactic(auto, unfolding(crate::specs::meaning::Notes::go_in), using(json_form::proofs::Offered::others_stay, crate::proofs::Stays::go_stays))]
pub(crate) fn go_from(alloc: Global, value: Json) -> Result<Note, DocFault>
    ensures { Gives result (go_in (view value)) }
{
    let mut parts = parts_from(alloc, value)?;
    let client = parts.read(alloc, 1, &NUMBER)?;
    let word = parts.read(alloc, 2, &GoReader)?;
    if_count(alloc, &parts, word.count())?;
    let did = go_by(alloc, word, &mut parts)?;
    Ok(Note::Go { client, did })
}
