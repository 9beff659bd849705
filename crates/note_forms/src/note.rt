//! Readers of notes: arrays that begin with a word.
ghost use Rattle.std.specs.Prelude.{◌<◌, length, IfSome};
ghost use Rattle.serde_json.specs.View.{view};
ghost use Rattle.json_form.specs.Faults.{Gives};
ghost use Rattle.json_form.specs.meaning.Texts.{word_of};
ghost use Rattle.json_form.specs.Arrays.{count_at, parts_at};
ghost use Rattle.json_form.specs.Streams.{Begins};
ghost use Rattle.note_forms.specs.meaning.Notes.{count_in, serve_words, serve_in, just, bytes_in, cut_in, with_word as with_word_def, reap_in, crash_in, incarnation_in, up_in, upcrash_in, tick_in, run_in, runs_in, ran_in, outside_in, ask_in, drain_in, note_by as note_by_def, note_in, notes_in};

use crate::go::go_from;
use crate::note_ahead::note_ahead;
use crate::told::{AskedReader, asked_behind, asked_by};
use answer_forms::{AnswersReader, DrawsReader, LtxidReader, NUMBER, if_count};
use call_forms::list_ahead;
use json_form::{
    DocCode, DocFault, Parts, Reader, fixed, head_from, list_from, parts_from, word_ahead,
    word_from,
};
use outage_schedule::{FrameName, Note, NoteRun, NoteRuns, Notes, OutsideNote, Reached};
use serde_json::Value as Json;
use std::alloc::Global;
use svc_values::Listed;

/// The word that a note begins with.
#[derive(Clone, Copy, Debug, PartialEq, Eq)]
pub enum NoteWord {
    Go,
    Serve,
    Cut,
    Reap,
    Crash,
    Up,
    UpCrash,
    Tick,
    Outside,
    Ask,
    Drain,
}

/// How many items an array has.
pub(crate) fn count_from(alloc: Global, value: &Json) -> Result<usize, DocFault>
    ensures { Gives result (count_in (view value.now)) }
{
    match value.as_array() {
        Some(items) => Ok(items.len()),
        None => Err(DocFault::here(alloc, DocCode::WrongKind)),
    }
}

const FRAMES: [(&str, Option<FrameName>); 7] = [
    ("none", None),
    ("connect", Some(FrameName::Connect)),
    ("begin", Some(FrameName::Begin)),
    ("call", Some(FrameName::Call)),
    ("outcome", Some(FrameName::Outcome)),
    ("end", Some(FrameName::End)),
    ("close", Some(FrameName::Close)),
];

/// Reads the name of a frame that was served, or that there was none.
pub(crate) struct FrameReader;

impl Reader<Option<FrameName>> for FrameReader {
    ghost reads = { λ s. word_of serve_words };

    fn read(&self, alloc: Global, value: Json) -> Result<Option<FrameName>, DocFault> {
        word_from(alloc, value, &FRAMES)
    }

    fn ahead(
        &self,
        alloc: Global,
        tokens: &mut json::Reader<'_>,
        depth: usize,
    ) -> Option<Option<FrameName>> {
        let frame = word_ahead(alloc, tokens, &FRAMES)?;
        Some(frame)
    }
}

/// A frame that was served, or that there was none.
#[tactic(auto, unfolding(crate::specs::meaning::Notes::serve_in), using(json_form::proofs::Offered::others_stay))]
fn serve_from(alloc: Global, value: Json) -> Result<Note, DocFault>
    ensures { Gives result (serve_in (view value)) }
{
    let mut parts = parts_from(alloc, value)?;
    let connection = parts.read(alloc, 1, &NUMBER)?;
    let frame = parts.read(alloc, 2, &FrameReader)?;
    if_count(alloc, &parts, 3)?;
    Ok(Note::Serve { connection, frame })
}

/// Reads this word alone.
#[derive(Clone, Copy)]
pub(crate) struct JustReader<'a> {
    pub word: &'a str,
}

impl Reader<bool> for JustReader<'_> {
    ghost reads = { λ s. word_of (just s.word.now) };

    fn read(&self, alloc: Global, value: Json) -> Result<bool, DocFault> {
        word_from(alloc, value, &[(self.word, true)])
    }

    fn ahead(&self, alloc: Global, tokens: &mut json::Reader<'_>, depth: usize) -> Option<bool> {
        let found = word_ahead(alloc, tokens, &[(self.word, true)])?;
        Some(found)
    }
}

/// The bytes that still arrive, behind the connection of a `cut`.
#[tactic(auto, using(json_form::proofs::Offered::others_stay))]
fn reached_from(alloc: Global, parts: &mut Parts) -> Result<Option<Reached>, DocFault>
    ensures { Gives result (bytes_in (count_at parts.old) (parts_at parts.old)) }
{
    if parts.has_count(3) {
        parts.read(alloc, 2, &JustReader { word: "none" })?;
        return Ok(None);
    }
    if_count(alloc, parts, 4)?;
    let up = parts.read(alloc, 2, &NUMBER)?;
    let down = parts.read(alloc, 3, &NUMBER)?;
    Ok(Some(Reached { up, down }))
}

/// A cut.
#[tactic(auto, unfolding(crate::specs::meaning::Notes::cut_in), using(crate::proofs::Stays::bytes_stay))]
fn cut_from(alloc: Global, value: Json) -> Result<Note, DocFault>
    ensures { Gives result (cut_in (view value)) }
{
    let mut parts = parts_from(alloc, value)?;
    let connection = parts.read(alloc, 1, &NUMBER)?;
    let reached = reached_from(alloc, &mut parts)?;
    Ok(Note::Cut {
        connection,
        reached,
    })
}

/// Whether this word stands behind the connection of a note, where nothing else may stand.
fn with_word(alloc: Global, parts: &mut Parts, word: &str) -> Result<bool, DocFault>
    ensures { Gives result (with_word_def word.now (count_at parts.old) (parts_at parts.old)) }
{
    if parts.has_count(2) {
        return Ok(false);
    }
    if_count(alloc, parts, 3)?;
    parts.read(alloc, 2, &JustReader { word })
}

/// The end of a session behind a cut.
#[tactic(auto, unfolding(crate::specs::meaning::Notes::reap_in), using(crate::proofs::Stays::word_stays))]
fn reap_from(alloc: Global, value: Json) -> Result<Note, DocFault>
    ensures { Gives result (reap_in (view value)) }
{
    let mut parts = parts_from(alloc, value)?;
    let connection = parts.read(alloc, 1, &NUMBER)?;
    let none = with_word(alloc, &mut parts, "none")?;
    Ok(Note::Reap {
        connection,
        reaped: !none,
    })
}

/// A crash.
#[tactic(auto, unfolding(crate::specs::meaning::Notes::crash_in), using(crate::proofs::Stays::word_stays))]
fn crash_from(alloc: Global, value: Json) -> Result<Note, DocFault>
    ensures { Gives result (crash_in (view value)) }
{
    let mut parts = parts_from(alloc, value)?;
    let connection = parts.read(alloc, 1, &NUMBER)?;
    let down = with_word(alloc, &mut parts, "down")?;
    Ok(Note::Crash { connection, down })
}

/// Reads an incarnation, or that there was no opening.
pub(crate) struct IncarnationReader;

impl Reader<Option<u64>> for IncarnationReader {
    ghost reads = { λ s. incarnation_in };

    fn read(&self, alloc: Global, value: Json) -> Result<Option<u64>, DocFault> {
        if value.is_string() {
            JustReader { word: "none" }.read(alloc, value)?;
            return Ok(None);
        }
        Ok(Some(NUMBER.read(alloc, value)?))
    }
}

/// An opening.
#[tactic(auto, unfolding(crate::specs::meaning::Notes::up_in))]
fn up_from(alloc: Global, value: Json) -> Result<Note, DocFault>
    ensures { Gives result (up_in (view value)) }
{
    let mut parts = fixed(alloc, value, 2)?;
    let incarnation = parts.read(alloc, 1, &IncarnationReader)?;
    Ok(Note::Up { incarnation })
}

/// An opening that was stopped.
#[tactic(auto, unfolding(crate::specs::meaning::Notes::upcrash_in))]
fn upcrash_from(alloc: Global, value: Json) -> Result<Note, DocFault>
    ensures { Gives result (upcrash_in (view value)) }
{
    if count_from(alloc, &value)? == 1 {
        return Ok(Note::UpCrash { made: true });
    }
    let mut parts = fixed(alloc, value, 2)?;
    parts.read(alloc, 1, &JustReader { word: "none" })?;
    Ok(Note::UpCrash { made: false })
}

/// A tick.
fn tick_from(alloc: Global, value: Json) -> Result<Note, DocFault>
    ensures { Gives result (tick_in (view value)) }
{
    fixed(alloc, value, 1)?;
    Ok(Note::Tick)
}

/// Reads the answers and the draws of one call.
struct RunReader;

impl Reader<NoteRun> for RunReader {
    ghost reads = { λ s. run_in };

    #[tactic(auto, unfolding(crate::specs::meaning::Notes::run_in), using(json_form::proofs::Offered::others_stay))]
    fn read(&self, alloc: Global, value: Json) -> Result<NoteRun, DocFault> {
        let mut parts = fixed(alloc, value, 2)?;
        let answers = parts.read(alloc, 0, &AnswersReader { known: None })?;
        let draws = parts.read(alloc, 1, &DrawsReader)?;
        Ok(NoteRun { answers, draws })
    }
}

/// Reads the calls that ran, in order.
pub(crate) struct RunsReader;

impl Reader<NoteRuns> for RunsReader {
    ghost reads = { λ s. runs_in };

    fn read(&self, alloc: Global, value: Json) -> Result<NoteRuns, DocFault> {
        let runs = list_from(alloc, value, &RunReader)?;
        Ok(Listed::from_vec(runs))
    }
}

/// What an `outside` did where the server was up.
#[tactic(auto, unfolding(crate::specs::meaning::Notes::ran_in), using(json_form::proofs::Offered::others_stay))]
fn ran_from(alloc: Global, value: Json) -> Result<OutsideNote, DocFault>
    ensures { Gives result (ran_in (view value)) }
{
    let mut parts = fixed(alloc, value, 3)?;
    let ltxid = parts.read(alloc, 1, &LtxidReader)?;
    let runs = parts.read(alloc, 2, &RunsReader)?;
    Ok(OutsideNote { ltxid, runs })
}

/// What calls from outside did.
#[tactic(auto, unfolding(crate::specs::meaning::Notes::outside_in))]
fn outside_from(alloc: Global, value: Json) -> Result<Note, DocFault>
    ensures { Gives result (outside_in (view value)) }
{
    if count_from(alloc, &value)? == 2 {
        let mut parts = fixed(alloc, value, 2)?;
        parts.read(alloc, 1, &JustReader { word: "down" })?;
        return Ok(Note::Outside { ran: None });
    }
    let ran = ran_from(alloc, value)?;
    Ok(Note::Outside { ran: Some(ran) })
}

/// What was told of an identifier from outside.
#[tactic(auto, unfolding(crate::specs::meaning::Notes::ask_in), using(json_form::proofs::Offered::others_stay, crate::proofs::Stays::asked_stays))]
fn ask_from(alloc: Global, value: Json) -> Result<Note, DocFault>
    ensures { Gives result (ask_in (view value)) }
{
    let mut parts = parts_from(alloc, value)?;
    let ltxid = parts.read(alloc, 1, &LtxidReader)?;
    let word = parts.read(alloc, 2, &AskedReader)?;
    if_count(alloc, &parts, 3 + asked_behind(word))?;
    let told = asked_by(alloc, word, 3, &mut parts)?;
    Ok(Note::Ask { ltxid, told })
}

/// How many idle connections were closed.
#[tactic(auto, unfolding(crate::specs::meaning::Notes::drain_in))]
fn drain_from(alloc: Global, value: Json) -> Result<Note, DocFault>
    ensures { Gives result (drain_in (view value)) }
{
    let mut parts = fixed(alloc, value, 2)?;
    let closed = parts.read(alloc, 1, &NUMBER)?;
    Ok(Note::Drain { closed })
}

/// A note, by the word that it begins with.
fn note_by(alloc: Global, value: Json, word: NoteWord) -> Result<Note, DocFault>
    ensures { Gives result (note_by_def word (view value)) }
{
    match word {
        NoteWord::Go => go_from(alloc, value),
        NoteWord::Serve => serve_from(alloc, value),
        NoteWord::Cut => cut_from(alloc, value),
        NoteWord::Reap => reap_from(alloc, value),
        NoteWord::Crash => crash_from(alloc, value),
        NoteWord::Up => up_from(alloc, value),
        NoteWord::UpCrash => upcrash_from(alloc, value),
        NoteWord::Tick => tick_from(alloc, value),
        NoteWord::Outside => outside_from(alloc, value),
        NoteWord::Ask => ask_from(alloc, value),
        NoteWord::Drain => drain_from(alloc, value),
    }
}

pub(crate) const WORDS: [(&str, NoteWord); 11] = [
    ("go", NoteWord::Go),
    ("serve", NoteWord::Serve),
    ("cut", NoteWord::Cut),
    ("reap", NoteWord::Reap),
    ("crash", NoteWord::Crash),
    ("up", NoteWord::Up),
    ("upcrash", NoteWord::UpCrash),
    ("tick", NoteWord::Tick),
    ("outside", NoteWord::Outside),
    ("ask", NoteWord::Ask),
    ("drain", NoteWord::Drain),
];

/// Reads a note, by its first word.
struct NoteReader;

impl Reader<Note> for NoteReader {
    ghost reads = { λ s. note_in };

    #[tactic(auto, unfolding(crate::specs::meaning::Notes::note_in))]
    fn read(&self, alloc: Global, value: Json) -> Result<Note, DocFault> {
        let word = head_from(alloc, &value, &WORDS)?;
        note_by(alloc, value, word)
    }

    fn ahead(&self, alloc: Global, tokens: &mut json::Reader<'_>, depth: usize) -> Option<Note> {
        note_ahead(alloc, tokens, depth)
    }
}

/// Reads the notes of a run, in order.
pub struct NotesReader;

impl Reader<Notes> for NotesReader {
    ghost reads = { λ s. notes_in };

    fn read(&self, alloc: Global, value: Json) -> Result<Notes, DocFault> {
        let notes = list_from(alloc, value, &NoteReader)?;
        Ok(Listed::from_vec(notes))
    }
}

/// The notes that `NotesReader` reads, each read as soon as its tokens are passed.
pub fn notes_ahead(alloc: Global, tokens: &mut json::Reader<'_>, depth: usize) -> Option<Notes>
    ensures read { IfSome result (λ notes. Begins notes_in depth tokens.old notes tokens.new) }
    ensures shorter { IfSome result (λ _. length tokens.new < length tokens.old) }
{
    let notes = list_ahead(alloc, tokens, depth, &NoteReader)?;
    Some(Listed::from_vec(notes))
}
