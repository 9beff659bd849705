//! The report of a request in the making.
ghost use Rattle.std.specs.Prelude.{◌≡◌, ℕ, List, [], ◌∷◌, ◌++◌, length, fold, option_and_then, IfOk, OnOk};
ghost use Rattle.client_model.specs.declared.input.Input.{Input as Coming};
ghost use Rattle.client_model.specs.meaning.Conversation.{Done};
ghost use Rattle.client_model.specs.meaning.Terms.{Terms};
ghost use Rattle.outage_schedule.specs.declared.document.Request.{Request};
ghost use Rattle.run_clauses.specs.meaning.Reports.{failure_of as failure_of_def, report_of};
ghost use Rattle.transcript_core.specs.Drafts.{told_of as told_of_def, reached as reached_def, one_more, hears, shows, asked_by as asked_by_def, sends, noted, drafted, IsDraft, done_so};
ghost use Rattle.transcript_core.specs.Hearing.{heard_of};

use crate::attempts::Attempts;
use crate::failures::failure_of;
use crate::heard::Heard;
use client_model::{Failed, Hold, Shown};
use outage_schedule::{Failure, Outcome, Outcomes, RequestReport, Sessions, ShownCall, ShownCalls};
use std::alloc::Global;
use std::marker::Model;
use svc_values::{Ltxid, NoMemory, SessionId, Up};

/// The report of a request in the making. It holds what will be reported and not the steps: the
/// calls that were shown, the last error, outcomes, sessions, and the identifiers under which the
/// request tried to commit.
#[derive(Drop)]
pub struct ReportDraft {
    limit: usize,
    calls: Vec<ShownCall>,
    failed: Option<Failure>,
    outcomes: Vec<Outcome>,
    asked: Option<Ltxid>,
    sessions: Vec<SessionId>,
    attempts: Attempts,
}

impl Model for ReportDraft {
    ghost use Rattle.transcript_core.specs.Drafts.{Draft};

    ghost Value = { Draft };

    ghost view = { λ d.
        record {
          limit = d.limit;
          calls = d.calls.items;
          failed = d.failed;
          outcomes = d.outcomes.items;
          asked = d.asked;
          sessions = d.sessions.items;
          attempts = d.attempts;
        } };
}

/// The outcome that is told of the identifier that was asked.
fn told_of(heard: Heard, asked: Option<Ltxid>) -> Option<Outcome>
    ensures { result ≡ told_of_def heard asked }
{
    match heard {
        Heard::Outcome {
            committed,
            completed,
        } => match asked {
            Some(ltxid) => Some(Outcome {
                ltxid,
                committed,
                completed,
            }),
            None => None,
        },
        Heard::Session { .. } => None,
        Heard::Reply { .. } => None,
        Heard::Nothing => None,
    }
}

/// The session that was lent, or whose Hello was taken.
fn reached(heard: Heard) -> Option<SessionId>
    ensures { result ≡ reached_def heard }
{
    match heard {
        Heard::Session { ltxid } => Some(ltxid.session_of()),
        Heard::Reply { .. } => None,
        Heard::Outcome { .. } => None,
        Heard::Nothing => None,
    }
}

/// The identifier whose outcome a frame asks for.
fn asked_by(frame: &Up) -> Option<Ltxid>
    ensures { result ≡ asked_by_def frame.now }
{
    match frame {
        Up::Outcome { ltxid } => Some(*ltxid),
        Up::Connect => None,
        Up::Begin { .. } => None,
        Up::Call { .. } => None,
        Up::End => None,
        Up::Close => None,
    }
}

/// The last error, as it is reported.
fn failure_in(failed: Option<Failed>) -> Option<Failure>
    ensures { result ≡ option_and_then failure_of_def failed }
{
    match failed {
        Some(failed) => failure_of(failed),
        None => None,
    }
}

/// One more, if there is one.
fn push_some<A: Drop>(list: &mut Vec<A>, item: Option<A>) -> Result<(), NoMemory>
    ensures { OnOk result (list.new.items ≡ one_more list.old.items item) }
{
    match item {
        Some(item) => {
            list.push(item)?;
            Ok(())
        }
        None => Ok(()),
    }
}

impl ReportDraft {
    /// The draft of a request with so many calls, before its first step. It takes no memory.
    pub fn new(alloc: Global, calls: usize) -> ReportDraft
        ensures { (terms : Terms) (request : Request) → length request.calls ≡ calls
            → IsDraft terms request [] result }
    {
        ReportDraft {
            limit: calls,
            calls: Vec::new(alloc),
            failed: None,
            outcomes: Vec::new(alloc),
            asked: None,
            sessions: Vec::new(alloc),
            attempts: Attempts::new(alloc),
        }
    }

    /// Notes one step of the request: what was heard of its input, the frames that went out, the
    /// call that is shown and the error. After want of memory the draft may only be dropped.
    ///
    /// The shown answers are moved in. Linear in what the step adds, and a call that goes out looks
    /// through the identifiers of its transaction.
    pub fn note(
        &mut self,
        heard: Heard,
        send: &[Up],
        shown: Option<Shown>,
        failed: Option<Failed>,
    ) -> Result<(), NoMemory>
        ensures { (terms : Terms) (request : Request) (steps : List Done) (input : Coming) (now : ℕ)
            (hold : Hold) → heard ≡ heard_of input → IsDraft terms request steps self.old
            → OnOk result
            (IsDraft terms request (steps ++ done_so input now send.now shown failed hold ∷ [])
            self.new) }
    {
        self.hear(heard, shown, failed)?;
        self.send(send)
    }

    /// The report of the request. Linear in the identifiers tried by its last call's transaction.
    pub fn into_report(self) -> Result<RequestReport, NoMemory>
        ensures { (terms : Terms) (request : Request) (steps : List Done)
            → IsDraft terms request steps self
            → IfOk result (λ report. report ≡ report_of terms request steps) }
    {
        self.report()
    }

    /// What a step tells before its frames go out.
    fn hear(
        &mut self,
        heard: Heard,
        shown: Option<Shown>,
        failed: Option<Failed>,
    ) -> Result<(), NoMemory>
        ensures { OnOk result (self.new ≡ noted self.old heard shown failed) }
    {
        self.take(heard)?;
        self.failed = failure_in(failed);
        self.attempts.hear(heard, &shown)?;
        self.show(shown)
    }

    /// An outcome, and a session.
    fn take(&mut self, heard: Heard) -> Result<(), NoMemory>
        ensures { OnOk result (self.new ≡ hears self.old heard) }
    {
        push_some(&mut self.outcomes, told_of(heard, self.asked))?;
        push_some(&mut self.sessions, reached(heard))
    }

    /// A call is shown: no more than the request has.
    fn show(&mut self, shown: Option<Shown>) -> Result<(), NoMemory>
        ensures { OnOk result (self.new ≡ shows self.old shown) }
    {
        let Some(shown) = shown else {
            return Ok(());
        };
        if self.calls.len() >= self.limit {
            return Ok(());
        }
        let Shown {
            answers,
            draws,
            ltxid,
        } = shown;
        self.calls.push(ShownCall {
            answers,
            draws,
            ltxid,
        })?;
        Ok(())
    }

    /// Frames go out.
    fn send(&mut self, frames: &[Up]) -> Result<(), NoMemory>
        ensures { OnOk result (self.new ≡ fold sends self.old frames.now) }
    {
        for frame in frames {
            self.send_one(frame)?;
        }
        Ok(())
    }

    /// A frame goes out.
    fn send_one(&mut self, frame: &Up) -> Result<(), NoMemory>
        ensures { OnOk result (self.new ≡ sends self.old frame.now) }
    {
        self.asked = asked_by(frame);
        self.attempts.send(frame)
    }

    /// The report, as the draft stands.
    fn report(self) -> Result<RequestReport, NoMemory>
        ensures { IfOk result (λ report. report ≡ drafted self) }
    {
        let ReportDraft {
            calls,
            failed,
            outcomes,
            sessions,
            attempts,
            ..
        } = self;
        Ok(RequestReport {
            calls: ShownCalls::from_vec(calls),
            failed,
            outcomes: Outcomes::from_vec(outcomes),
            sessions: Sessions::from_vec(sessions),
            tried: attempts.into_tried()?,
        })
    }
}
