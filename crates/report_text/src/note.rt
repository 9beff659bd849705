//! Notes: what each event did.
ghost use Rattle.std.specs.Prelude.{◌≡◌, ◌++◌, ◌∷◌, [], OnOk, codes};
ghost use Rattle.json_form.specs.Tokens.{tokens_of};
ghost use Rattle.json_form.specs.meaning.Writing.{text as text_def, flag as flag_def, whole as whole_def};
ghost use Rattle.report_text.specs.meaning.Parts.{headed as headed_def};
ghost use Rattle.report_text.specs.meaning.Notes.{frame_word as frame_word_def, served_word as served_word_def, told_values, asked_values, run_value, note_value};
ghost use Rattle.report_text.specs.Tokens.{ending};

use crate::answer::{answers_written, draws_written};
use crate::identifier::LtxidWriter;
use crate::part::{begin_word, lone, numbered};
use json_form::{TextWriter, Writer};
use outage_schedule::{AskResult, FrameName, GoNote, Note, NoteRun, OutsideNote, Reached};
use std::alloc::{AllocError, Global};
use svc_values::Ltxid;

/// A note of a number and a word.
fn with_word(out: &mut TextWriter, kind: &str, of: u64, word: &str) -> Result<(), AllocError>
    ensures { OnOk result (out.new
        ≡ out.old ++ tokens_of (headed_def kind.now (whole_def of ∷ text_def word.now ∷ []))) }
{
    begin_word(out, kind)?;
    out.whole(of)?;
    out.text(word)?;
    out.end_array()
}

/// A note of a word alone.
fn of_word(out: &mut TextWriter, kind: &str, word: &str) -> Result<(), AllocError>
    ensures { OnOk result
        (out.new ≡ out.old ++ tokens_of (headed_def kind.now (text_def word.now ∷ []))) }
{
    begin_word(out, kind)?;
    out.text(word)?;
    out.end_array()
}

/// A step of a client on a connection.
fn on_connection(
    out: &mut TextWriter,
    client: u64,
    word: &str,
    connection: u64,
    sent: u64,
) -> Result<(), AllocError>
    ensures { OnOk result (out.new ≡ out.old ++ tokens_of (headed_def (codes "go")
        (whole_def client ∷ text_def word.now ∷ whole_def connection ∷ whole_def sent ∷ []))) }
{
    begin_word(out, "go")?;
    out.whole(client)?;
    out.text(word)?;
    out.whole(connection)?;
    out.whole(sent)?;
    out.end_array()
}

/// A client that lost its connection.
#[tactic(auto, unfolding(crate::specs::meaning::Notes::note_value))]
fn lost_written(client: u64, connection: u64, out: &mut TextWriter) -> Result<(), AllocError>
    ensures { OnOk result
        (out.new ≡ out.old ++ tokens_of (note_value (Note.Go client (GoNote.Lost connection)))) }
{
    begin_word(out, "go")?;
    out.whole(client)?;
    out.text("lost")?;
    out.whole(connection)?;
    out.end_array()
}

/// What a client did at its step.
#[tactic(auto, unfolding(crate::specs::meaning::Notes::note_value))]
fn go_written(client: u64, did: GoNote, out: &mut TextWriter) -> Result<(), AllocError>
    ensures { OnOk result (out.new ≡ out.old ++ tokens_of (note_value (Note.Go client did))) }
{
    match did {
        GoNote::Idle => with_word(out, "go", client, "idle"),
        GoNote::Wait => with_word(out, "go", client, "wait"),
        GoNote::NoFrame => with_word(out, "go", client, "none"),
        GoNote::Early => with_word(out, "go", client, "early"),
        GoNote::Down => with_word(out, "go", client, "down"),
        GoNote::Open { connection } => on_connection(out, client, "open", connection, 1),
        GoNote::Lent { connection } => on_connection(out, client, "lent", connection, 2),
        GoNote::Took { connection, sent } => on_connection(out, client, "took", connection, sent),
        GoNote::Lost { connection } => lost_written(client, connection, out),
    }
}

/// The word of a frame.
fn frame_word(frame: FrameName) -> &'static str
    ensures { result.now ≡ frame_word_def frame }
{
    match frame {
        FrameName::Connect => "connect",
        FrameName::Begin => "begin",
        FrameName::Call => "call",
        FrameName::Outcome => "outcome",
        FrameName::End => "end",
        FrameName::Close => "close",
    }
}

/// The word of the frame that was served, or that there was none.
fn served_word(frame: Option<FrameName>) -> &'static str
    ensures { result.now ≡ served_word_def frame }
{
    match frame {
        None => "none",
        Some(frame) => frame_word(frame),
    }
}

/// How many bytes of each direction still arrive behind a cut.
#[tactic(auto, unfolding(crate::specs::meaning::Notes::note_value))]
fn reached_written(
    connection: u64,
    reached: Reached,
    out: &mut TextWriter,
) -> Result<(), AllocError>
    ensures { OnOk result
        (out.new ≡ out.old ++ tokens_of (note_value (Note.Cut connection (Some reached)))) }
{
    begin_word(out, "cut")?;
    out.whole(connection)?;
    out.whole(reached.up)?;
    out.whole(reached.down)?;
    out.end_array()
}

/// A cut, and what still arrives where the connection was open.
#[tactic(auto, unfolding(crate::specs::meaning::Notes::note_value))]
fn cut_written(
    connection: u64,
    reached: Option<Reached>,
    out: &mut TextWriter,
) -> Result<(), AllocError>
    ensures { OnOk result
        (out.new ≡ out.old ++ tokens_of (note_value (Note.Cut connection reached))) }
{
    match reached {
        None => with_word(out, "cut", connection, "none"),
        Some(reached) => reached_written(connection, reached, out),
    }
}

/// The end of a session behind a cut, where there was one.
#[tactic(auto, unfolding(crate::specs::meaning::Notes::note_value))]
fn reap_written(connection: u64, reaped: bool, out: &mut TextWriter) -> Result<(), AllocError>
    ensures { OnOk result
        (out.new ≡ out.old ++ tokens_of (note_value (Note.Reap connection reaped))) }
{
    if reaped {
        return numbered(out, "reap", connection);
    }
    with_word(out, "reap", connection, "none")
}

/// A crash, and whether the server was down already.
#[tactic(auto, unfolding(crate::specs::meaning::Notes::note_value))]
fn crash_written(connection: u64, down: bool, out: &mut TextWriter) -> Result<(), AllocError>
    ensures { OnOk result
        (out.new ≡ out.old ++ tokens_of (note_value (Note.Crash connection down))) }
{
    if down {
        return with_word(out, "crash", connection, "down");
    }
    numbered(out, "crash", connection)
}

/// An opening, with its incarnation where it was made.
#[tactic(auto, unfolding(crate::specs::meaning::Notes::note_value))]
fn up_written(incarnation: Option<u64>, out: &mut TextWriter) -> Result<(), AllocError>
    ensures { OnOk result (out.new ≡ out.old ++ tokens_of (note_value (Note.Up incarnation))) }
{
    match incarnation {
        None => of_word(out, "up", "none"),
        Some(incarnation) => numbered(out, "up", incarnation),
    }
}

/// An opening that was stopped, where one was made.
#[tactic(auto, unfolding(crate::specs::meaning::Notes::note_value))]
fn upcrash_written(made: bool, out: &mut TextWriter) -> Result<(), AllocError>
    ensures { OnOk result (out.new ≡ out.old ++ tokens_of (note_value (Note.UpCrash made))) }
{
    if made {
        return lone(out, "upcrash");
    }
    of_word(out, "upcrash", "none")
}

struct RunWriter;

impl Writer<NoteRun> for RunWriter {
    ghost writes = { λ s. run_value };

    #[tactic(auto, unfolding(crate::specs::meaning::Notes::run_value))]
    fn write(&self, alloc: Global, item: &NoteRun, out: &mut TextWriter) -> Result<(), AllocError> {
        out.begin_array()?;
        answers_written(alloc, &item.answers, out)?;
        draws_written(alloc, &item.draws, out)?;
        out.end_array()
    }
}

/// What calls from outside did: the identifier of their session, and the answers and draws of each.
#[tactic(auto, unfolding(crate::specs::meaning::Notes::note_value))]
fn ran_written(alloc: Global, ran: &OutsideNote, out: &mut TextWriter) -> Result<(), AllocError>
    ensures { OnOk result
        (out.new ≡ out.old ++ tokens_of (note_value (Note.Outside (Some ran.now)))) }
{
    begin_word(out, "outside")?;
    LtxidWriter.write(alloc, &ran.ltxid, out)?;
    out.array_of(alloc, ran.runs.as_slice(), &RunWriter)?;
    out.end_array()
}

/// What calls from outside did, where the server was up.
#[tactic(auto, unfolding(crate::specs::meaning::Notes::note_value))]
fn outside_written(
    alloc: Global,
    ran: &Option<OutsideNote>,
    out: &mut TextWriter,
) -> Result<(), AllocError>
    ensures { OnOk result (out.new ≡ out.old ++ tokens_of (note_value (Note.Outside ran.now))) }
{
    match ran {
        None => of_word(out, "outside", "down"),
        Some(ran) => ran_written(alloc, ran, out),
    }
}

/// A word and a number, and the bracket behind them.
fn number_ended(out: &mut TextWriter, word: &str, number: u64) -> Result<(), AllocError>
    ensures { OnOk result
        (out.new ≡ out.old ++ ending (text_def word.now ∷ whole_def number ∷ [])) }
{
    out.text(word)?;
    out.whole(number)?;
    out.end_array()
}

/// A word and a flag, and the bracket behind them.
fn flag_ended(out: &mut TextWriter, word: &str, flag: bool) -> Result<(), AllocError>
    ensures { OnOk result (out.new ≡ out.old ++ ending (text_def word.now ∷ flag_def flag ∷ [])) }
{
    out.text(word)?;
    out.flag(flag)?;
    out.end_array()
}

/// A word, and the bracket behind it.
fn word_ended(out: &mut TextWriter, word: &str) -> Result<(), AllocError>
    ensures { OnOk result (out.new ≡ out.old ++ ending (text_def word.now ∷ [])) }
{
    out.text(word)?;
    out.end_array()
}

/// What an outcome is told to be, and the bracket behind it.
pub(crate) fn told_ended(told: AskResult, out: &mut TextWriter) -> Result<(), AllocError>
    ensures { OnOk result (out.new ≡ out.old ++ ending (told_values told)) }
{
    match told {
        AskResult::Committed { completed } => flag_ended(out, "committed", completed),
        AskResult::Uncommitted => word_ended(out, "uncommitted"),
        AskResult::ServerAhead { next } => number_ended(out, "serverahead", next),
        AskResult::ClientAhead { next } => number_ended(out, "clientahead", next),
        AskResult::Forgotten { horizon } => number_ended(out, "forgotten", horizon),
    }
}

/// What was told of an identifier, or that the server was down, and the bracket behind it.
fn asked_ended(told: Option<AskResult>, out: &mut TextWriter) -> Result<(), AllocError>
    ensures { OnOk result (out.new ≡ out.old ++ ending (asked_values told)) }
{
    match told {
        None => word_ended(out, "down"),
        Some(told) => told_ended(told, out),
    }
}

/// What was told of an identifier from outside.
#[tactic(auto, unfolding(crate::specs::meaning::Notes::note_value))]
fn ask_written(
    alloc: Global,
    ltxid: &Ltxid,
    told: Option<AskResult>,
    out: &mut TextWriter,
) -> Result<(), AllocError>
    ensures { OnOk result (out.new ≡ out.old ++ tokens_of (note_value (Note.Ask ltxid.now told))) }
{
    begin_word(out, "ask")?;
    LtxidWriter.write(alloc, ltxid, out)?;
    asked_ended(told, out)
}

pub(crate) struct NoteWriter;

impl Writer<Note> for NoteWriter {
    ghost writes = { λ s. note_value };

    #[tactic(auto, unfolding(crate::specs::meaning::Notes::note_value))]
    fn write(&self, alloc: Global, item: &Note, out: &mut TextWriter) -> Result<(), AllocError> {
        match item {
            Note::Go { client, did } => go_written(*client, *did, out),
            Note::Serve { connection, frame } => {
                with_word(out, "serve", *connection, served_word(*frame))
            }
            Note::Cut {
                connection,
                reached,
            } => cut_written(*connection, *reached, out),
            Note::Reap { connection, reaped } => reap_written(*connection, *reaped, out),
            Note::Crash { connection, down } => crash_written(*connection, *down, out),
            Note::Up { incarnation } => up_written(*incarnation, out),
            Note::UpCrash { made } => upcrash_written(*made, out),
            Note::Tick => lone(out, "tick"),
            Note::Outside { ran } => outside_written(alloc, ran, out),
            Note::Ask { ltxid, told } => ask_written(alloc, ltxid, *told, out),
            Note::Drain { closed } => numbered(out, "drain", *closed),
        }
    }
}
