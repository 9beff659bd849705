//! Reader of a note whose parts are read one after the other.
ghost use Rattle.std.specs.Prelude.{◌≡◌, ◌<◌, ℕ, length, Some, IfSome};
ghost use Rattle.serde_json.specs.Data.{no_items};
ghost use Rattle.json_form.specs.Streams.{Begins, items_ahead};
ghost use Rattle.note_forms.specs.meaning.Notes.{go_in, serve_in, cut_in, reap_in, crash_in, up_in, upcrash_in, tick_in, outside_in, ask_in, drain_in, note_by, note_in};
ghost use Rattle.note_forms.specs.NotesAhead.{AreSent, Ends, EndsBehind, did_in, result_in, told_in};

use crate::go::{GoReader, GoWord};
use crate::note::{FrameReader, IncarnationReader, JustReader, NoteWord, RunsReader, WORDS};
use crate::told::{AskedReader, ToldWord};
use answer_forms::{LtxidReader, NUMBER};
use json_form::{
    Flag, Reader, Whole, array_begins, array_ends, last_ahead, value_from, word_ahead,
};
use outage_schedule::{AskResult, GoNote, Note, OutsideNote, Reached};
use std::alloc::Global;

/// What a client's step did where nothing stands behind its word.
fn bare_ahead(tokens: &mut json::Reader<'_>, one: GoNote) -> Option<GoNote>
    ensures same { IfSome result (λ did. did ≡ one) }
    ensures ends { IfSome result
        (λ _. (depth : ℕ) → items_ahead depth tokens.old ≡ Some (no_items, tokens.new)) }
    ensures shorter { IfSome result (λ _. length tokens.new < length tokens.old) }
{
    array_ends(tokens)?;
    Some(one)
}

/// A connection, and behind it the number of frames that are sent where one is opened or lent.
fn sent_ahead(alloc: Global, tokens: &mut json::Reader<'_>, depth: usize, sent: u64) -> Option<u64>
    ensures ends { IfSome result (λ k. AreSent sent k depth tokens.old tokens.new) }
    ensures shorter { IfSome result (λ _. length tokens.new < length tokens.old) }
{
    let connection = NUMBER.ahead(alloc, tokens, depth)?;
    last_ahead(alloc, tokens, depth, &Whole::new(sent, sent))?;
    Some(connection)
}

/// A frame that a client took, and how many it sent then.
fn took_ahead(alloc: Global, tokens: &mut json::Reader<'_>, depth: usize) -> Option<GoNote>
    ensures ends { IfSome result
        (λ did. EndsBehind (did_in GoWord.Took) depth tokens.old did tokens.new) }
    ensures shorter { IfSome result (λ _. length tokens.new < length tokens.old) }
{
    let connection = NUMBER.ahead(alloc, tokens, depth)?;
    let sent = last_ahead(alloc, tokens, depth, &NUMBER)?;
    Some(GoNote::Took { connection, sent })
}

/// What is left of a `go` behind the word for what the step did.
fn did_ahead(
    alloc: Global,
    tokens: &mut json::Reader<'_>,
    depth: usize,
    word: GoWord,
) -> Option<GoNote>
    ensures ends { IfSome result (λ did. EndsBehind (did_in word) depth tokens.old did tokens.new) }
    ensures shorter { IfSome result (λ _. length tokens.new < length tokens.old) }
{
    match word {
        GoWord::Idle => bare_ahead(tokens, GoNote::Idle),
        GoWord::Wait => bare_ahead(tokens, GoNote::Wait),
        GoWord::NoFrame => bare_ahead(tokens, GoNote::NoFrame),
        GoWord::Early => bare_ahead(tokens, GoNote::Early),
        GoWord::Down => bare_ahead(tokens, GoNote::Down),
        GoWord::Open => {
            let connection = sent_ahead(alloc, tokens, depth, 1)?;
            Some(GoNote::Open { connection })
        }
        GoWord::Lent => {
            let connection = sent_ahead(alloc, tokens, depth, 2)?;
            Some(GoNote::Lent { connection })
        }
        GoWord::Took => took_ahead(alloc, tokens, depth),
        GoWord::Lost => {
            let connection = last_ahead(alloc, tokens, depth, &NUMBER)?;
            Some(GoNote::Lost { connection })
        }
    }
}

/// What is left of a `go` behind its word, as are the parts of the others below.
fn go_ahead(alloc: Global, tokens: &mut json::Reader<'_>, depth: usize) -> Option<Note>
    ensures ends { IfSome result (λ one. Ends go_in depth tokens.old one tokens.new) }
    ensures shorter { IfSome result (λ _. length tokens.new < length tokens.old) }
{
    let client = NUMBER.ahead(alloc, tokens, depth)?;
    let word = GoReader.ahead(alloc, tokens, depth)?;
    let did = did_ahead(alloc, tokens, depth, word)?;
    Some(Note::Go { client, did })
}

fn serve_ahead(alloc: Global, tokens: &mut json::Reader<'_>, depth: usize) -> Option<Note>
    ensures ends { IfSome result (λ one. Ends serve_in depth tokens.old one tokens.new) }
    ensures shorter { IfSome result (λ _. length tokens.new < length tokens.old) }
{
    let connection = NUMBER.ahead(alloc, tokens, depth)?;
    let frame = last_ahead(alloc, tokens, depth, &FrameReader)?;
    Some(Note::Serve { connection, frame })
}

/// Whether the bytes that still arrive stand in a `cut`, is seen behind its third item.
fn cut_ahead(alloc: Global, tokens: &mut json::Reader<'_>, depth: usize) -> Option<Note>
    ensures ends { IfSome result (λ one. Ends cut_in depth tokens.old one tokens.new) }
    ensures shorter { IfSome result (λ _. length tokens.new < length tokens.old) }
{
    let connection = NUMBER.ahead(alloc, tokens, depth)?;
    let third = value_from(alloc, tokens, depth)?;
    if tokens.take_end_array() {
        JustReader { word: "none" }.read(alloc, third).ok()?;
        return Some(Note::Cut {
            connection,
            reached: None,
        });
    }
    let up = NUMBER.read(alloc, third).ok()?;
    let down = last_ahead(alloc, tokens, depth, &NUMBER)?;
    let reached = Some(Reached { up, down });
    Some(Note::Cut {
        connection,
        reached,
    })
}

fn reap_ahead(alloc: Global, tokens: &mut json::Reader<'_>, depth: usize) -> Option<Note>
    ensures ends { IfSome result (λ one. Ends reap_in depth tokens.old one tokens.new) }
    ensures shorter { IfSome result (λ _. length tokens.new < length tokens.old) }
{
    let connection = NUMBER.ahead(alloc, tokens, depth)?;
    if tokens.take_end_array() {
        return Some(Note::Reap {
            connection,
            reaped: true,
        });
    }
    let none = last_ahead(alloc, tokens, depth, &JustReader { word: "none" })?;
    Some(Note::Reap {
        connection,
        reaped: !none,
    })
}

fn crash_ahead(alloc: Global, tokens: &mut json::Reader<'_>, depth: usize) -> Option<Note>
    ensures ends { IfSome result (λ one. Ends crash_in depth tokens.old one tokens.new) }
    ensures shorter { IfSome result (λ _. length tokens.new < length tokens.old) }
{
    let connection = NUMBER.ahead(alloc, tokens, depth)?;
    if tokens.take_end_array() {
        return Some(Note::Crash {
            connection,
            down: false,
        });
    }
    let down = last_ahead(alloc, tokens, depth, &JustReader { word: "down" })?;
    Some(Note::Crash { connection, down })
}

fn up_ahead(alloc: Global, tokens: &mut json::Reader<'_>, depth: usize) -> Option<Note>
    ensures ends { IfSome result (λ one. Ends up_in depth tokens.old one tokens.new) }
    ensures shorter { IfSome result (λ _. length tokens.new < length tokens.old) }
{
    let incarnation = last_ahead(alloc, tokens, depth, &IncarnationReader)?;
    Some(Note::Up { incarnation })
}

fn upcrash_ahead(alloc: Global, tokens: &mut json::Reader<'_>, depth: usize) -> Option<Note>
    ensures ends { IfSome result (λ one. Ends upcrash_in depth tokens.old one tokens.new) }
    ensures shorter { IfSome result (λ _. length tokens.new < length tokens.old) }
{
    if tokens.take_end_array() {
        return Some(Note::UpCrash { made: true });
    }
    last_ahead(alloc, tokens, depth, &JustReader { word: "none" })?;
    Some(Note::UpCrash { made: false })
}

fn tick_ahead(tokens: &mut json::Reader<'_>) -> Option<Note>
    ensures ends { IfSome result
        (λ one. (depth : ℕ) → Ends tick_in depth tokens.old one tokens.new) }
    ensures shorter { IfSome result (λ _. length tokens.new < length tokens.old) }
{
    array_ends(tokens)?;
    Some(Note::Tick)
}

/// Whether an `outside` ran, is seen behind its second item.
fn outside_ahead(alloc: Global, tokens: &mut json::Reader<'_>, depth: usize) -> Option<Note>
    ensures ends { IfSome result (λ one. Ends outside_in depth tokens.old one tokens.new) }
    ensures shorter { IfSome result (λ _. length tokens.new < length tokens.old) }
{
    let second = value_from(alloc, tokens, depth)?;
    if tokens.take_end_array() {
        JustReader { word: "down" }.read(alloc, second).ok()?;
        return Some(Note::Outside { ran: None });
    }
    let ltxid = LtxidReader.read(alloc, second).ok()?;
    let runs = last_ahead(alloc, tokens, depth, &RunsReader)?;
    let ran = Some(OutsideNote { ltxid, runs });
    Some(Note::Outside { ran })
}

/// What is left of an `ask` behind this word.
fn result_ahead(
    alloc: Global,
    tokens: &mut json::Reader<'_>,
    depth: usize,
    word: ToldWord,
) -> Option<AskResult>
    ensures ends { IfSome result
        (λ told. EndsBehind (result_in word) depth tokens.old told tokens.new) }
    ensures shorter { IfSome result (λ _. length tokens.new < length tokens.old) }
{
    match word {
        ToldWord::Committed => {
            let completed = last_ahead(alloc, tokens, depth, &Flag)?;
            Some(AskResult::Committed { completed })
        }
        ToldWord::Uncommitted => {
            array_ends(tokens)?;
            Some(AskResult::Uncommitted)
        }
        ToldWord::ServerAhead => {
            let next = last_ahead(alloc, tokens, depth, &NUMBER)?;
            Some(AskResult::ServerAhead { next })
        }
        ToldWord::ClientAhead => {
            let next = last_ahead(alloc, tokens, depth, &NUMBER)?;
            Some(AskResult::ClientAhead { next })
        }
        ToldWord::Forgotten => {
            let horizon = last_ahead(alloc, tokens, depth, &NUMBER)?;
            Some(AskResult::Forgotten { horizon })
        }
    }
}

/// What is left of an `ask` behind the word for what is told: nothing where the server is down.
fn told_ahead(
    alloc: Global,
    tokens: &mut json::Reader<'_>,
    depth: usize,
    word: Option<ToldWord>,
) -> Option<Option<AskResult>>
    ensures ends { IfSome result
        (λ told. EndsBehind (told_in word) depth tokens.old told tokens.new) }
    ensures shorter { IfSome result (λ _. length tokens.new < length tokens.old) }
{
    match word {
        None => {
            array_ends(tokens)?;
            Some(None)
        }
        Some(word) => {
            let told = result_ahead(alloc, tokens, depth, word)?;
            Some(Some(told))
        }
    }
}

fn ask_ahead(alloc: Global, tokens: &mut json::Reader<'_>, depth: usize) -> Option<Note>
    ensures ends { IfSome result (λ one. Ends ask_in depth tokens.old one tokens.new) }
    ensures shorter { IfSome result (λ _. length tokens.new < length tokens.old) }
{
    let ltxid = LtxidReader.ahead(alloc, tokens, depth)?;
    let word = AskedReader.ahead(alloc, tokens, depth)?;
    let told = told_ahead(alloc, tokens, depth, word)?;
    Some(Note::Ask { ltxid, told })
}

fn drain_ahead(alloc: Global, tokens: &mut json::Reader<'_>, depth: usize) -> Option<Note>
    ensures ends { IfSome result (λ one. Ends drain_in depth tokens.old one tokens.new) }
    ensures shorter { IfSome result (λ _. length tokens.new < length tokens.old) }
{
    let closed = last_ahead(alloc, tokens, depth, &NUMBER)?;
    Some(Note::Drain { closed })
}

/// What is left of a note that begins with this word.
fn parts_ahead(
    alloc: Global,
    tokens: &mut json::Reader<'_>,
    depth: usize,
    word: NoteWord,
) -> Option<Note>
    ensures ends { IfSome result (λ one. Ends (note_by word) depth tokens.old one tokens.new) }
    ensures shorter { IfSome result (λ _. length tokens.new < length tokens.old) }
{
    match word {
        NoteWord::Go => go_ahead(alloc, tokens, depth),
        NoteWord::Serve => serve_ahead(alloc, tokens, depth),
        NoteWord::Cut => cut_ahead(alloc, tokens, depth),
        NoteWord::Reap => reap_ahead(alloc, tokens, depth),
        NoteWord::Crash => crash_ahead(alloc, tokens, depth),
        NoteWord::Up => up_ahead(alloc, tokens, depth),
        NoteWord::UpCrash => upcrash_ahead(alloc, tokens, depth),
        NoteWord::Tick => tick_ahead(tokens),
        NoteWord::Outside => outside_ahead(alloc, tokens, depth),
        NoteWord::Ask => ask_ahead(alloc, tokens, depth),
        NoteWord::Drain => drain_ahead(alloc, tokens, depth),
    }
}

/// The note that the tokens begin with. There is none where there is a fault. It takes memory for
/// the runs of an `outside` and for the items that are read as a JSON value of their own.
pub(crate) fn note_ahead(alloc: Global, tokens: &mut json::Reader<'_>, depth: usize) -> Option<Note>
    ensures begins { IfSome result (λ one. Begins note_in depth tokens.old one tokens.new) }
    ensures shorter { IfSome result (λ _. length tokens.new < length tokens.old) }
{
    let inside = array_begins(tokens, depth)?;
    let word = word_ahead(alloc, tokens, &WORDS)?;
    let one = parts_ahead(alloc, tokens, inside, word)?;
    Some(one)
}
