//! Reader of sequences.
ghost use Rattle.serde_json.specs.View.{view};
ghost use Rattle.json_form.specs.Faults.{Gives};
ghost use Rattle.document_forms.specs.meaning.Tables.{sequence_of, sequences_of, start_of};

use crate::number::whole;
use call_forms::{NewNameReader, copied};
use document_limits::{Count, Number};
use json_form::{DocFault, Flag, KeyedReader, Reader, Taken, distinct_from, object_with, within};
use outage_schedule::{DocSequence, DocSequences};
use serde_json::Value as Json;
use std::alloc::Global;
use svc_values::{Listed, Name};

/// The first value of a sequence.
fn start_from(alloc: Global, value: Json) -> Result<i64, DocFault>
    ensures { Gives result (start_of (view value)) }
{
    let start = whole(Number::Start).read(alloc, value)?;
    Ok(start as i64)
}

/// Reads a sequence whose name does not stand before.
struct SequenceReader;

impl KeyedReader<DocSequence> for SequenceReader {
    type Key = Name;

    ghost reads = { λ s. sequence_of };

    ghost key_of = { λ sequence. sequence.name };

    fn key(&self, alloc: Global, item: &DocSequence) -> Result<Name, DocFault> {
        copied(alloc, &item.name)
    }

    #[tactic(auto, unfolding(crate::specs::meaning::Tables::sequence_of), using(json_form::proofs::Offered::others_stay))]
    fn read(
        &self,
        alloc: Global,
        taken: &Taken<Name>,
        value: Json,
    ) -> Result<DocSequence, DocFault> {
        let mut members = object_with(alloc, value, &["name", "start", "keep"])?;
        let name = members.required(alloc, "name")?;
        let start = members.required(alloc, "start")?;
        let name = within(alloc, "name", NewNameReader { taken }.read(alloc, name))?;
        let start = within(alloc, "start", start_from(alloc, start))?;
        let keep = members.optional(alloc, "keep", &Flag, false)?;
        Ok(DocSequence { name, start, keep })
    }
}

/// Reads at most 32 sequences of different names.
pub struct SequencesReader;

impl Reader<DocSequences> for SequencesReader {
    ghost reads = { λ s. sequences_of };

    fn read(&self, alloc: Global, value: Json) -> Result<DocSequences, DocFault> {
        let limit = Count::Sequences.limit();
        let sequences = distinct_from(alloc, value, limit.least, limit.most, &SequenceReader)?;
        Ok(Listed::from_vec(sequences))
    }
}
