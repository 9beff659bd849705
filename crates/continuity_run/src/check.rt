//! The command `check`: a report is judged with its document.
ghost use Rattle.std.specs.Prelude.{◌≡◌, ◌⊎◌, IfErr, IfOk, IsErrOf, OnOk};
ghost use Rattle.std.specs.Io.KnownBytes.{Appends};
ghost use Rattle.json_form.specs.Faults.{Fails};
ghost use Rattle.report_check.specs.meaning.Pairs.{pair_at, check_limit};
ghost use Rattle.byte_streams.specs.Causes.{AppendsFront, Rose};
ghost use Rattle.continuity_run.specs.Checking.{IsVerdict, IsToldAs, IsJudgement};
ghost use Rattle.continuity_run.specs.meaning.Check.{IsRight, IsWrong, right_text};
ghost use Rattle.continuity_run.specs.meaning.Clauses.{IsChecked, IsDenied, IsRead};
ghost use Rattle.continuity_run.specs.Clauses.{IsCheckedInPart, HasFault, IfDocument, IfNo, IsBefore, UnlessRead};
ghost use Rattle.continuity_run.specs.Complete.{IsFaultlessOn, IsNo};

use crate::leaving::leave;
use byte_streams::{ReadError, Sink, Source, read_to_limit, write_whole};
use json_form::DocFault;
use program_ends::Status;
use report_check::{CHECK_LIMIT, Verdict, judge, pair_from};
use std::alloc::Global;
use svc_values::NoMemory;

/// The verdict on the document and the report that the bytes are, or why they are none. The bytes
/// are given up once they are read. The cost is that of `pair_from` and `judge`.
#[tactic(auto, using(crate::proofs::Checked::judged))]
fn verdict_on(alloc: Global, bytes: Vec<u8>) -> Result<Verdict, DocFault>
    ensures judged { IfOk result (IsVerdict bytes.items) }
    ensures refused { IfErr result (λ fault. Fails fault (pair_at bytes.items)) }
{
    let pair = pair_from(alloc, bytes.as_slice());
    drop(bytes);
    let (document, report) = pair?;
    let judged = judge(alloc, &document, &report);
    leave(document);
    leave(report);
    match judged {
        Ok(verdict) => Ok(verdict),
        Err(NoMemory) => Err(DocFault::NoMemory),
    }
}

/// Writes that a report is right, or tells why it is not.
fn tell_verdict<K: Sink>(verdict: Result<Verdict, DocFault>, sink: &mut K) -> Status
    ensures told { IsToldAs verdict result (K.held sink.old) (K.held sink.new) (K.faults sink.old)
        (K.faults sink.new) }
    ensures untouched { IsBefore result → sink.new ≡ sink.old }
{
    match verdict {
        Ok(Verdict::Yes) => {}
        Ok(Verdict::No { clause, path }) => return Status::No { clause, path },
        Err(DocFault::NoMemory) => return Status::NoMemory,
        Err(DocFault::At { code, path }) => return Status::Document { code, path },
    }
    match write_whole(sink, b"yes\n") {
        Ok(()) => Status::Done,
        Err(_) => Status::Write,
    }
}

/// Judges the report that the bytes are with its document, and writes `yes` where each clause
/// holds.
fn respond<K: Sink>(alloc: Global, bytes: Vec<u8>, sink: &mut K) -> Status
    ensures done { result ≡ Status.Done
        → IsRight bytes.items × Appends (K.held sink.old) (K.held sink.new) right_text }
    ensures cut { result ≡ Status.Write
        → IsRight bytes.items × AppendsFront (K.held sink.old) (K.held sink.new) right_text }
    ensures write { result ≡ Status.Write → Rose (K.faults sink.old) (K.faults sink.new) }
    ensures document { IfDocument result (λ fault. pair_at bytes.items ≡ Err fault) }
    ensures denied { IfNo result (IsWrong bytes.items) }
    ensures untouched { IsBefore result → sink.new ≡ sink.old }
    ensures others { IsJudgement result }
{
    tell_verdict(verdict_on(alloc, bytes), sink)
}

/// All bytes of the source, as far as `check` reads.
fn read_pair<S: Source>(alloc: Global, source: &mut S) -> Result<Vec<u8>, ReadError>
    ensures read { IfOk result (λ bytes.
        IsRead check_limit pair_at (S.left source.old) (S.left source.new) bytes.items) }
    ensures kept { OnOk result (S.faults source.new ≡ S.faults source.old) }
    ensures lacked { IsErrOf result ReadError.NoMemory → S.faults source.new ≡ S.faults source.old }
    ensures failed { IsErrOf result ReadError.Failed
        → Rose (S.faults source.old) (S.faults source.new) }
{
    read_to_limit(alloc, source, CHECK_LIMIT)
}

/// Reads a document and its report, judges the report, and writes `yes` where each clause holds.
pub(crate) fn tell_of_check<S: Source, K: Sink>(
    alloc: Global,
    source: &mut S,
    sink: &mut K,
) -> Status
    ensures words { result ≡ Status.Words → ⊥ }
    ensures read { result ≡ Status.Read → Rose (S.faults source.old) (S.faults source.new) }
    ensures kept { UnlessRead result (S.faults source.new ≡ S.faults source.old) }
    ensures write { result ≡ Status.Write → Rose (K.faults sink.old) (K.faults sink.new) }
    ensures document { IfDocument result
        (HasFault check_limit pair_at (S.left source.old) (S.left source.new)) }
    ensures denied { IfNo result (IsDenied (S.left source.old) (S.left source.new)) }
    ensures done { result ≡ Status.Done → IsChecked (S.left source.old) (S.left source.new)
        (K.held sink.old) (K.held sink.new) }
    ensures cut { result ≡ Status.Write → IsCheckedInPart (S.left source.old) (S.left source.new)
        (K.held sink.old) (K.held sink.new) }
    ensures complete { IsFaultlessOn pair_at (S.left source.old)
        (S.faults source.old) (S.faults source.new) (K.faults sink.old) (K.faults sink.new)
        → (result ≡ Status.Done) ⊎ ((result ≡ Status.NoMemory) ⊎ IsNo result) }
    ensures untouched { IsBefore result → sink.new ≡ sink.old }
{
    let bytes = match read_pair(alloc, source) {
        Ok(bytes) => bytes,
        Err(ReadError::NoMemory) => return Status::NoMemory,
        Err(ReadError::Failed) => return Status::Read,
    };
    respond(alloc, bytes, sink)
}
