//! The top call: from the words and the bytes in to the bytes out.
ghost use Rattle.std.specs.Prelude.{◌≡◌, ◌⊎◌, ℕ, false, Err, IfOk, IfErr, IsErrOf, None, OnOk, Some};
ghost use Rattle.doc_reader.specs.Keeping.{IsDocument};
ghost use Rattle.doc_reader.specs.meaning.Documents.{document_at, limit};
ghost use Rattle.byte_streams.specs.Causes.{Rose};
ghost use Rattle.command_words.specs.Words.{command_of as command_of_def, reads_source};
ghost use Rattle.command_words.specs.LoadWords.{HasLoadNumbers};
ghost use Rattle.continuity_run.specs.meaning.Clauses.{Tells, IsDone, IsDenied, IsAnswered, LoadIsDone, IsRead};
ghost use Rattle.continuity_run.specs.Clauses.{IsCut, IsAnsweredInPart, HasFault, IsRefused, Writes, WritesFront, IfDocument, IfNo, IsBefore, IsReply, UnlessRead, EndsAtSink, LoadIsCut};
ghost use Rattle.continuity_run.specs.Complete.{IsFaultless, IsFaultlessOn, HasAnswered, IsNo};
ghost use Rattle.continuity_run.specs.InnerEnds.{ended_as, IsWritten};

use crate::answer::{Telling, text_of};
use crate::check::tell_of_check;
use crate::load::load_text;
use byte_streams::{ReadError, Sink, Source, read_to_limit, write_whole};
use command_words::{Command, command_of};
use doc_reader::{DOCUMENT_LIMIT, read_document};
use json_form::DocFault;
use outage_schedule::Document;
use program_ends::Status;
use std::alloc::Global;
use svc_values::NoMemory;

/// The text that is told of the document that was read, or why none was. For the text there may be
/// no memory.
fn answer(
    alloc: Global,
    telling: Telling,
    read: Result<Document, DocFault>,
) -> Result<Vec<u8>, DocFault>
    requires document { IfOk read IsDocument }
    ensures told { IfOk read (λ document. IfOk result (λ text. Tells telling document text.items)) }
    ensures lacked { IfOk read (λ _. IfErr result (λ fault. fault ≡ DocFault.NoMemory)) }
    ensures refused { IfErr read (λ fault. result ≡ Err fault) }
{
    let document = match read {
        Ok(document) => document,
        Err(fault) => return Err(fault),
    };
    match text_of(alloc, telling, document) {
        Ok(text) => Ok(text),
        Err(NoMemory) => Err(DocFault::NoMemory),
    }
}

/// All bytes of the source, as far as a document may go.
fn read_input<S: Source>(alloc: Global, source: &mut S) -> Result<Vec<u8>, ReadError>
    ensures read { IfOk result (λ bytes.
        IsRead limit document_at (S.left source.old) (S.left source.new) bytes.items) }
    ensures kept { OnOk result (S.faults source.new ≡ S.faults source.old) }
    ensures lacked { IsErrOf result ReadError.NoMemory → S.faults source.new ≡ S.faults source.old }
    ensures failed { IsErrOf result ReadError.Failed
        → Rose (S.faults source.old) (S.faults source.new) }
{
    read_to_limit(alloc, source, DOCUMENT_LIMIT)
}

/// Writes the text, or tells why there is none.
fn write_answer<K: Sink>(answer: Result<Vec<u8>, DocFault>, sink: &mut K) -> Status
    ensures wrote { IfOk answer (λ text.
        IsWritten text.items result (K.held sink.old) (K.held sink.new) (K.faults sink.old)
        (K.faults sink.new)) }
    ensures told { IfErr answer (λ fault. result ≡ ended_as fault) }
    ensures untouched { IsBefore result → sink.new ≡ sink.old }
{
    let text = match answer {
        Ok(text) => text,
        Err(DocFault::NoMemory) => return Status::NoMemory,
        Err(DocFault::At { code, path }) => return Status::Document { code, path },
    };
    match write_whole(sink, text.as_slice()) {
        Ok(()) => Status::Done,
        Err(_) => Status::Write,
    }
}

/// Judges the bytes, which are given up once they are read, and writes what is told of the
/// document.
fn respond<K: Sink>(alloc: Global, telling: Telling, bytes: Vec<u8>, sink: &mut K) -> Status
    ensures done { result ≡ Status.Done
        → Writes telling bytes.items (K.held sink.old) (K.held sink.new) }
    ensures cut { result ≡ Status.Write
        → WritesFront telling bytes.items (K.held sink.old) (K.held sink.new) }
    ensures write { result ≡ Status.Write → Rose (K.faults sink.old) (K.faults sink.new) }
    ensures document { IfDocument result (λ fault. document_at bytes.items ≡ Err fault) }
    ensures untouched { IsBefore result → sink.new ≡ sink.old }
    ensures others { IsReply result }
{
    let read = read_document(alloc, bytes.as_slice());
    drop(bytes);
    write_answer(answer(alloc, telling, read), sink)
}

/// Reads a document, and writes what is told of it.
fn tell_of_read<S: Source, K: Sink>(
    alloc: Global,
    telling: Telling,
    source: &mut S,
    sink: &mut K,
) -> Status
    ensures words { result ≡ Status.Words → ⊥ }
    ensures read { result ≡ Status.Read → Rose (S.faults source.old) (S.faults source.new) }
    ensures kept { UnlessRead result (S.faults source.new ≡ S.faults source.old) }
    ensures write { result ≡ Status.Write → Rose (K.faults sink.old) (K.faults sink.new) }
    ensures document { IfDocument result
        (HasFault limit document_at (S.left source.old) (S.left source.new)) }
    ensures done { result ≡ Status.Done → IsAnswered telling (S.left source.old) (S.left source.new)
        (K.held sink.old) (K.held sink.new) }
    ensures cut { result ≡ Status.Write
        → IsAnsweredInPart telling (S.left source.old) (S.left source.new) (K.held sink.old)
        (K.held sink.new) }
    ensures judges { IsNo result → ⊥ }
    ensures complete { IsFaultlessOn document_at (S.left source.old)
        (S.faults source.old) (S.faults source.new) (K.faults sink.old) (K.faults sink.new)
        → (result ≡ Status.Done) ⊎ (result ≡ Status.NoMemory) }
    ensures untouched { IsBefore result → sink.new ≡ sink.old }
{
    let bytes = match read_input(alloc, source) {
        Ok(bytes) => bytes,
        Err(ReadError::NoMemory) => return Status::NoMemory,
        Err(ReadError::Failed) => return Status::Read,
    };
    respond(alloc, telling, bytes, sink)
}

/// Makes the document of these numbers, and writes the line of its report.
fn tell_load<K: Sink>(alloc: Global, seed: u64, clients: u64, requests: u64, sink: &mut K) -> Status
    requires { HasLoadNumbers clients requests }
    ensures done { result ≡ Status.Done
        → LoadIsDone seed clients requests (K.held sink.old) (K.held sink.new) }
    ensures cut { result ≡ Status.Write
        → LoadIsCut seed clients requests (K.held sink.old) (K.held sink.new) }
    ensures write { result ≡ Status.Write → Rose (K.faults sink.old) (K.faults sink.new) }
    ensures untouched { IsBefore result → sink.new ≡ sink.old }
    ensures others { EndsAtSink result }
{
    let Ok(text) = load_text(alloc, seed, clients, requests) else {
        return Status::NoMemory;
    };
    match write_whole(sink, text.as_slice()) {
        Ok(()) => Status::Done,
        Err(_) => Status::Write,
    }
}

/// Carries out a command. `run` and `cover` read a document from the source and run its clients'
/// scripts under its schedule: `run` writes the report to the sink as compact JSON, and `cover` how
/// many calls of each report were shown and protected. `check` reads a document with a report of
/// it, and writes `yes` where each clause of the report holds. `load` makes its document of three
/// numbers, and writes a line of counts. The words are looked at first, which may want memory; then
/// the source is read, to one byte past the limit of 8,388,608 bytes at most, which for `check` is
/// 67,108,864; then the document is judged. Memory is proportional to the input, and the cost of
/// reading, of judging a document and of writing is n log n in it; a run takes what its calls take,
/// and to judge a report what `judge` takes. What is large and used to the end, a report with
/// its document, is left to the end of the process and not given back, so a caller who goes on, as
/// a test does, loses that memory at each call.
pub fn continuity<S: Source, K: Sink>(
    alloc: Global,
    words: &[String],
    source: &mut S,
    sink: &mut K,
) -> Status
    // The words are those of no command, which want of memory may hide, and then the source is
    // unread.
    ensures words { result ≡ Status.Words → command_of_def words.now ≡ None }
    ensures commands { command_of_def words.now ≡ None
        → (result ≡ Status.Words) ⊎ (result ≡ Status.NoMemory) }
    ensures unread { reads_source (command_of_def words.now) ≡ false → source.new ≡ source.old }

    // The source or the sink failed, and a source that failed is told of, not hidden as want of
    // memory.
    ensures read { result ≡ Status.Read → Rose (S.faults source.old) (S.faults source.new) }
    ensures kept { UnlessRead result (S.faults source.new ≡ S.faults source.old) }
    ensures write { result ≡ Status.Write → Rose (K.faults sink.old) (K.faults sink.new) }

    // The bytes are no document, or for `check` none with a report of it, and this is why.
    ensures document { (command : Command) → command_of_def words.now ≡ Some command
        → IfDocument result (IsRefused command (S.left source.old) (S.left source.new)) }

    // This clause of the report is the first that is false, which `check` alone tells.
    ensures denied { IfNo result (IsDenied (S.left source.old) (S.left source.new)) }
    ensures denies { IsNo result → command_of_def words.now ≡ Some Command.Check }

    // The sink took the text of the command, or a front of it: of a report with its headline, of
    // how many of its calls were protected, of a report of which each clause holds, or of the
    // counts of a load.
    ensures done { (command : Command) → command_of_def words.now ≡ Some command
        → result ≡ Status.Done
        → IsDone command (S.left source.old) (S.left source.new)
        (K.held sink.old) (K.held sink.new) }
    ensures cut { (command : Command) → command_of_def words.now ≡ Some command
        → result ≡ Status.Write
        → IsCut command (S.left source.old) (S.left source.new)
        (K.held sink.old) (K.held sink.new) }

    // A load reads nothing, so there is no other end of it.
    ensures loads { (seed clients requests : ℕ)
        → command_of_def words.now ≡ Some (Command.Load seed clients requests) → EndsAtSink result }

    // Where nothing is at fault there is an answer, but for want of memory.
    ensures complete { (command : Command) → command_of_def words.now ≡ Some command
        → IsFaultless command (S.left source.old)
        (S.faults source.old) (S.faults source.new) (K.faults sink.old) (K.faults sink.new)
        → HasAnswered command result }

    // Else nothing was written.
    ensures untouched { IsBefore result → sink.new ≡ sink.old }
{
    let command = match command_of(alloc, words) {
        Ok(Some(command)) => command,
        Ok(None) => return Status::Words,
        Err(NoMemory) => return Status::NoMemory,
    };
    match command {
        Command::Run => tell_of_read(alloc, Telling::Report, source, sink),
        Command::Cover => tell_of_read(alloc, Telling::Cover, source, sink),
        Command::Check => tell_of_check(alloc, source, sink),
        Command::Load {
            seed,
            clients,
            requests,
        } => tell_load(alloc, seed, clients, requests, sink),
    }
}
