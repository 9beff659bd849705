//! Readers of what the requests of clients were shown.
ghost use Rattle.std.specs.Prelude.{◌<◌, length, IfSome};
ghost use Rattle.json_form.specs.Streams.{Begins};
ghost use Rattle.entry_forms.specs.meaning.Requests.{shown_in, outcome_in, calls_in, outcomes_in, tried_in, request_in, transcript_in, clients_in};

use crate::failure::FailedReader;
use crate::object_ahead::member_next;
use answer_forms::{AnswersReader, DrawsReader, LtxidReader, LtxidsReader, SessionsReader};
use call_forms::list_ahead;
use json_form::{
    DocFault, Flag, Reader, array_begins, fixed, last_ahead, list_from, object_begins, object_ends,
    object_with,
};
use outage_schedule::{
    Outcome, Outcomes, RequestReport, ShownCall, ShownCalls, Transcript, Transcripts, Tried,
};
use serde_json::Value as Json;
use std::alloc::Global;
use svc_values::Listed;

/// Reads a call that was shown.
struct ShownReader;

impl Reader<ShownCall> for ShownReader {
    ghost reads = { λ s. shown_in };

    #[tactic(auto, unfolding(crate::specs::meaning::Requests::shown_in), using(json_form::proofs::Offered::others_stay))]
    fn read(&self, alloc: Global, value: Json) -> Result<ShownCall, DocFault> {
        let mut parts = fixed(alloc, value, 3)?;
        let answers = parts.read(alloc, 0, &AnswersReader { known: None })?;
        let draws = parts.read(alloc, 1, &DrawsReader)?;
        let ltxid = parts.read(alloc, 2, &LtxidReader)?;
        Ok(ShownCall {
            answers,
            draws,
            ltxid,
        })
    }

    fn ahead(
        &self,
        alloc: Global,
        tokens: &mut json::Reader<'_>,
        depth: usize,
    ) -> Option<ShownCall> {
        let inside = array_begins(tokens, depth)?;
        let answers = AnswersReader { known: None }.ahead(alloc, tokens, inside)?;
        let draws = DrawsReader.ahead(alloc, tokens, inside)?;
        let ltxid = last_ahead(alloc, tokens, inside, &LtxidReader)?;
        Some(ShownCall {
            answers,
            draws,
            ltxid,
        })
    }
}

/// Reads the calls that were shown, in order.
struct CallsReader;

impl Reader<ShownCalls> for CallsReader {
    ghost reads = { λ s. calls_in };

    fn read(&self, alloc: Global, value: Json) -> Result<ShownCalls, DocFault> {
        let calls = list_from(alloc, value, &ShownReader)?;
        Ok(Listed::from_vec(calls))
    }

    fn ahead(
        &self,
        alloc: Global,
        tokens: &mut json::Reader<'_>,
        depth: usize,
    ) -> Option<ShownCalls> {
        let calls = list_ahead(alloc, tokens, depth, &ShownReader)?;
        Some(Listed::from_vec(calls))
    }
}

/// Reads an outcome that was told.
struct OutcomeReader;

impl Reader<Outcome> for OutcomeReader {
    ghost reads = { λ s. outcome_in };

    #[tactic(auto, unfolding(crate::specs::meaning::Requests::outcome_in), using(json_form::proofs::Offered::others_stay))]
    fn read(&self, alloc: Global, value: Json) -> Result<Outcome, DocFault> {
        let mut parts = fixed(alloc, value, 3)?;
        let ltxid = parts.read(alloc, 0, &LtxidReader)?;
        let committed = parts.read(alloc, 1, &Flag)?;
        let completed = parts.read(alloc, 2, &Flag)?;
        Ok(Outcome {
            ltxid,
            committed,
            completed,
        })
    }
}

/// Reads outcomes, in order.
struct OutcomesReader;

impl Reader<Outcomes> for OutcomesReader {
    ghost reads = { λ s. outcomes_in };

    fn read(&self, alloc: Global, value: Json) -> Result<Outcomes, DocFault> {
        let outcomes = list_from(alloc, value, &OutcomeReader)?;
        Ok(Listed::from_vec(outcomes))
    }
}

/// Reads the identifiers of each transaction.
struct TriedReader;

impl Reader<Tried> for TriedReader {
    ghost reads = { λ s. tried_in };

    fn read(&self, alloc: Global, value: Json) -> Result<Tried, DocFault> {
        let tried = list_from(alloc, value, &LtxidsReader)?;
        Ok(Listed::from_vec(tried))
    }
}

const MEMBERS: [&str; 5] = ["calls", "failed", "outcomes", "sessions", "tried"];

/// Reads what a request was shown.
struct RequestReader;

impl Reader<RequestReport> for RequestReader {
    ghost reads = { λ s. request_in };

    #[tactic(auto, unfolding(crate::specs::meaning::Requests::request_in), using(json_form::proofs::Offered::others_stay))]
    fn read(&self, alloc: Global, value: Json) -> Result<RequestReport, DocFault> {
        let mut members = object_with(alloc, value, &MEMBERS)?;
        members.require(alloc, &MEMBERS)?;
        let calls = members.read(alloc, "calls", &CallsReader)?;
        let failed = members.read(alloc, "failed", &FailedReader)?;
        let outcomes = members.read(alloc, "outcomes", &OutcomesReader)?;
        let sessions = members.read(alloc, "sessions", &SessionsReader)?;
        let tried = members.read(alloc, "tried", &TriedReader)?;
        Ok(RequestReport {
            calls,
            failed,
            outcomes,
            sessions,
            tried,
        })
    }

    fn ahead(
        &self,
        alloc: Global,
        tokens: &mut json::Reader<'_>,
        depth: usize,
    ) -> Option<RequestReport> {
        let inside = object_begins(tokens, depth)?;
        let calls = member_next(alloc, tokens, inside, "calls", &CallsReader)?;
        let failed = member_next(alloc, tokens, inside, "failed", &FailedReader)?;
        let outcomes = member_next(alloc, tokens, inside, "outcomes", &OutcomesReader)?;
        let sessions = member_next(alloc, tokens, inside, "sessions", &SessionsReader)?;
        let tried = member_next(alloc, tokens, inside, "tried", &TriedReader)?;
        object_ends(tokens)?;
        Some(RequestReport {
            calls,
            failed,
            outcomes,
            sessions,
            tried,
        })
    }
}

/// Reads the requests of one client, in order.
struct TranscriptReader;

impl Reader<Transcript> for TranscriptReader {
    ghost reads = { λ s. transcript_in };

    fn read(&self, alloc: Global, value: Json) -> Result<Transcript, DocFault> {
        let requests = list_from(alloc, value, &RequestReader)?;
        Ok(Listed::from_vec(requests))
    }

    fn ahead(
        &self,
        alloc: Global,
        tokens: &mut json::Reader<'_>,
        depth: usize,
    ) -> Option<Transcript> {
        let requests = list_ahead(alloc, tokens, depth, &RequestReader)?;
        Some(Listed::from_vec(requests))
    }
}

/// Reads the requests of all clients, in order.
pub struct ClientsReader;

impl Reader<Transcripts> for ClientsReader {
    ghost reads = { λ s. clients_in };

    fn read(&self, alloc: Global, value: Json) -> Result<Transcripts, DocFault> {
        let clients = list_from(alloc, value, &TranscriptReader)?;
        Ok(Listed::from_vec(clients))
    }
}

/// The clients that `ClientsReader` reads, each read as soon as its tokens are passed.
pub fn clients_ahead(
    alloc: Global,
    tokens: &mut json::Reader<'_>,
    depth: usize,
) -> Option<Transcripts>
    ensures read { IfSome result
        (λ clients. Begins clients_in depth tokens.old clients tokens.new) }
    ensures shorter { IfSome result (λ _. length tokens.new < length tokens.old) }
{
    let clients = list_ahead(alloc, tokens, depth, &TranscriptReader)?;
    Some(Listed::from_vec(clients))
}
