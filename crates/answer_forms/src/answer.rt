//! Readers of answers.
ghost use Rattle.std.specs.Prelude.{◌≡◌};
ghost use Rattle.serde_json.specs.View.{view};
ghost use Rattle.json_form.specs.Faults.{Gives};
ghost use Rattle.answer_forms.specs.meaning.Answers.{rows_in, refusal_of as refusal_of_def, answer_of as answer_of_def, answer_named as answer_named_def, answer_in, answers_in};

use crate::answer_ahead::member_ahead;
use crate::known::KnownRows;
use crate::part::{NUMBER, RowReader};
use crate::rows_ahead::rows_ahead;
use call_forms::{list_ahead, only_member, shared};
use json::Token;
use json_form::{
    DocCode, DocFault, Integer, Reader, Whole, array_ahead, array_from, chosen, list_from, within,
};
use serde_json::Value as Json;
use std::alloc::Global;
use svc_values::{Answer, Answers, Listed, Rows, StatementFault};

/// Reads the rows of an answer, at most 32. Known ones are held once.
#[derive(Clone, Copy)]
pub(crate) struct RowsReader<'a> {
    pub(crate) known: Option<&'a KnownRows>,
}

impl RowsReader<'_> {
    /// These rows, which are held once where they are known.
    fn held(&self, alloc: Global, rows: Rows) -> Rows
        ensures { result ≡ rows }
    {
        match self.known {
            Some(known) => known.once(alloc, rows),
            None => rows,
        }
    }
}

impl Reader<Rows> for RowsReader<'_> {
    ghost reads = { λ s. rows_in };

    fn read(&self, alloc: Global, value: Json) -> Result<Rows, DocFault> {
        let rows = array_from(alloc, value, 0, 32, &RowReader)?;
        let rows = shared(alloc, rows)?;
        Ok(self.held(alloc, rows))
    }

    fn ahead(&self, alloc: Global, tokens: &mut json::Reader<'_>, depth: usize) -> Option<Rows> {
        if let Some(known) = self.known {
            return rows_ahead(alloc, known, tokens, depth);
        }
        let rows = array_ahead(alloc, tokens, depth, 32, &RowReader)?;
        let rows = shared(alloc, rows).ok()?;
        Some(rows)
    }
}

/// The refusal of a code, which is 1 to 9.
fn refusal_of(code: u64) -> StatementFault
    ensures { result ≡ refusal_of_def code }
{
    match code {
        1 => StatementFault::NoTable,
        2 => StatementFault::NoColumn,
        3 => StatementFault::KindDiffers,
        4 => StatementFault::DuplicateKey,
        5 => StatementFault::NoSequence,
        6 => StatementFault::NoVar,
        7 => StatementFault::TooManyRows,
        8 => StatementFault::SumRange,
        _ => StatementFault::KeyColumn,
    }
}

/// The word of an answer that stands alone.
#[derive(Clone, Copy, Debug, PartialEq, Eq)]
pub enum AnswerWord {
    Committed,
    Conflict,
    RolledBack,
    CommitInReplay,
}

const WORDS: [(&str, AnswerWord); 4] = [
    ("committed", AnswerWord::Committed),
    ("conflict", AnswerWord::Conflict),
    ("rolledback", AnswerWord::RolledBack),
    ("commitinreplay", AnswerWord::CommitInReplay),
];

/// The answer that a word alone says.
fn answer_of(word: AnswerWord) -> Answer
    ensures { result ≡ answer_of_def word }
{
    match word {
        AnswerWord::Committed => Answer::Committed,
        AnswerWord::Conflict => Answer::Conflict,
        AnswerWord::RolledBack => Answer::RolledBack,
        AnswerWord::CommitInReplay => Answer::CommitInReplay,
    }
}

/// The answer that the member of this name says.
pub(crate) fn answer_named(
    alloc: Global,
    known: Option<&KnownRows>,
    name: &str,
    inner: Json,
) -> Result<Answer, DocFault>
    ensures { Gives result (answer_named_def name.now (view inner)) }
{
    if name == "done" {
        let count = within(alloc, name, NUMBER.read(alloc, inner))?;
        return Ok(Answer::Done(count));
    }
    if name == "rows" {
        let rows = within(alloc, name, RowsReader { known }.read(alloc, inner))?;
        return Ok(Answer::Rows(rows));
    }
    if name == "number" {
        let number = within(alloc, name, Integer.read(alloc, inner))?;
        return Ok(Answer::Number(number));
    }
    if name == "refused" {
        let code = within(alloc, name, Whole::new(1, 9).read(alloc, inner))?;
        return Ok(Answer::Refused(refusal_of(code)));
    }
    Err(DocFault::here(alloc, DocCode::Unknown))
}

/// Reads an answer: a word, or an object with one member.
#[derive(Clone, Copy)]
struct AnswerReader<'a> {
    known: Option<&'a KnownRows>,
}

impl Reader<Answer> for AnswerReader<'_> {
    ghost reads = { λ s. answer_in };

    #[tactic(auto, unfolding(crate::specs::meaning::Answers::answer_in))]
    fn read(&self, alloc: Global, value: Json) -> Result<Answer, DocFault> {
        match value {
            Json::String(text) => Ok(answer_of(chosen(alloc, text.as_str(), &WORDS)?)),
            Json::Object(members) => {
                let (name, inner) = only_member(alloc, members)?;
                answer_named(alloc, self.known, name.as_str(), inner)
            }
            Json::Null | Json::Bool(_) | Json::Number(_) | Json::Array(_) => {
                Err(DocFault::here(alloc, DocCode::WrongKind))
            }
        }
    }

    /// The answer that the tokens begin with, of whose word no copy is made.
    fn ahead(&self, alloc: Global, tokens: &mut json::Reader<'_>, depth: usize) -> Option<Answer> {
        match tokens.next()? {
            Token::String(text) => {
                let word = chosen(alloc, text, &WORDS).ok()?;
                Some(answer_of(word))
            }
            Token::BeginObject => member_ahead(alloc, self.known, tokens, depth),
            _ => None,
        }
    }
}

/// Reads the answers of a call, in order. Known rows are held once.
#[derive(Clone, Copy)]
pub struct AnswersReader<'a> {
    pub known: Option<&'a KnownRows>,
}

impl Reader<Answers> for AnswersReader<'_> {
    ghost reads = { λ s. answers_in };

    fn read(&self, alloc: Global, value: Json) -> Result<Answers, DocFault> {
        let answers = list_from(alloc, value, &AnswerReader { known: self.known })?;
        Ok(Listed::from_vec(answers))
    }

    fn ahead(&self, alloc: Global, tokens: &mut json::Reader<'_>, depth: usize) -> Option<Answers> {
        let answers = list_ahead(alloc, tokens, depth, &AnswerReader { known: self.known })?;
        Some(Listed::from_vec(answers))
    }
}
