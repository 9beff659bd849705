//! Readers of what the outcome of an identifier is told to be.
ghost use Rattle.std.specs.Prelude.{◌≡◌};
ghost use Rattle.json_form.specs.Faults.{Gives};
ghost use Rattle.json_form.specs.meaning.Texts.{word_of};
ghost use Rattle.json_form.specs.Arrays.{parts_at};
ghost use Rattle.note_forms.specs.meaning.Told.{told_words, behind_of, told_by as told_by_def, asked_words, asked_behind as asked_behind_def, asked_by as asked_by_def};

use answer_forms::NUMBER;
use json_form::{DocFault, Flag, Parts, Reader, word_from};
use outage_schedule::AskResult;
use serde_json::Value as Json;
use std::alloc::Global;

/// The word for what is told of an identifier.
#[derive(Clone, Copy, Debug, PartialEq, Eq)]
pub enum ToldWord {
    Committed,
    Uncommitted,
    ServerAhead,
    ClientAhead,
    Forgotten,
}

impl ToldWord {
    /// How many items stand behind the word.
    pub(crate) fn behind(self) -> usize
        ensures { result ≡ behind_of self }
    {
        match self {
            ToldWord::Uncommitted => 0,
            ToldWord::Committed
            | ToldWord::ServerAhead
            | ToldWord::ClientAhead
            | ToldWord::Forgotten => 1,
        }
    }
}

/// Reads the word for what is told of an identifier.
pub(crate) struct ToldReader;

impl Reader<ToldWord> for ToldReader {
    ghost reads = { λ s. word_of told_words };

    fn read(&self, alloc: Global, value: Json) -> Result<ToldWord, DocFault> {
        word_from(
            alloc,
            value,
            &[
                ("committed", ToldWord::Committed),
                ("uncommitted", ToldWord::Uncommitted),
                ("serverahead", ToldWord::ServerAhead),
                ("clientahead", ToldWord::ClientAhead),
                ("forgotten", ToldWord::Forgotten),
            ],
        )
    }
}

/// What the word and the item at this position say.
pub(crate) fn told_by(
    alloc: Global,
    word: ToldWord,
    at: usize,
    parts: &mut Parts,
) -> Result<AskResult, DocFault>
    ensures { Gives result (told_by_def word at (parts_at parts.old)) }
{
    match word {
        ToldWord::Committed => {
            let completed = parts.read(alloc, at, &Flag)?;
            Ok(AskResult::Committed { completed })
        }
        ToldWord::Uncommitted => Ok(AskResult::Uncommitted),
        ToldWord::ServerAhead => {
            let next = parts.read(alloc, at, &NUMBER)?;
            Ok(AskResult::ServerAhead { next })
        }
        ToldWord::ClientAhead => {
            let next = parts.read(alloc, at, &NUMBER)?;
            Ok(AskResult::ClientAhead { next })
        }
        ToldWord::Forgotten => {
            let horizon = parts.read(alloc, at, &NUMBER)?;
            Ok(AskResult::Forgotten { horizon })
        }
    }
}

/// Reads the word of an `ask`: none where the server is down.
pub(crate) struct AskedReader;

impl Reader<Option<ToldWord>> for AskedReader {
    ghost reads = { λ s. word_of asked_words };

    fn read(&self, alloc: Global, value: Json) -> Result<Option<ToldWord>, DocFault> {
        word_from(
            alloc,
            value,
            &[
                ("down", None),
                ("committed", Some(ToldWord::Committed)),
                ("uncommitted", Some(ToldWord::Uncommitted)),
                ("serverahead", Some(ToldWord::ServerAhead)),
                ("clientahead", Some(ToldWord::ClientAhead)),
                ("forgotten", Some(ToldWord::Forgotten)),
            ],
        )
    }
}

/// How many items stand behind the word of an `ask`.
pub(crate) fn asked_behind(word: Option<ToldWord>) -> usize
    ensures { result ≡ asked_behind_def word }
{
    match word {
        None => 0,
        Some(word) => word.behind(),
    }
}

/// What the word of an `ask` and the item at this position say.
pub(crate) fn asked_by(
    alloc: Global,
    word: Option<ToldWord>,
    at: usize,
    parts: &mut Parts,
) -> Result<Option<AskResult>, DocFault>
    ensures { Gives result (asked_by_def word at (parts_at parts.old)) }
{
    match word {
        None => Ok(None),
        Some(word) => Ok(Some(told_by(alloc, word, at, parts)?)),
    }
}
