//! Readers of the small parts of a report: numbers, octets, values, identifiers, settings and rows.
ghost use Rattle.std.specs.Prelude.{◌<◌, IfOk, []};
ghost use Rattle.serde_json.specs.View.{view, items_view};
ghost use Rattle.json_form.specs.Faults.{Gives};
ghost use Rattle.json_form.specs.meaning.Arrays.{each_after};
ghost use Rattle.json_form.specs.Arrays.{count_at};
ghost use Rattle.svc_values.specs.SettingsList.{AllBelow};
ghost use Rattle.answer_forms.specs.meaning.Parts.{if_count as if_count_def, octets_in, identifier_in, identifiers_in, session_in, sessions_in, if_rising, setting_in, settings_in, row_in};

use call_forms::{CallReader, NameReader, ValueReader};
use json_form::{
    Digits, DocCode, DocFault, Parts, Reader, Whole, array_ahead, array_begins, array_from, fixed,
    last_ahead, list_from, octets_from, parts_from, within_item,
};
use outage_schedule::{Ltxids, Sessions};
use serde_json::Value as Json;
use std::alloc::Global;
use svc_values::{Limited, Listed, Ltxid, Name, Row, SessionId, Settings, Value};

/// Reads a number of 64 bits without a sign.
pub const NUMBER: Whole = Whole {
    low: 0,
    high: u64::MAX,
};

/// Reads a value, its octets in lower case.
pub(crate) const VALUE: ValueReader = ValueReader {
    digits: Digits::Lower,
};

/// Reads a call, its octets in lower case.
pub const CALL: CallReader = CallReader {
    digits: Digits::Lower,
};

/// Refuses an array that has not exactly so many items.
pub fn if_count(alloc: Global, parts: &Parts, count: usize) -> Result<(), DocFault>
    ensures { Gives result (if_count_def count (count_at parts.now)) }
{
    if parts.has_count(count) {
        Ok(())
    } else {
        Err(DocFault::here(alloc, DocCode::WrongKind))
    }
}

/// Reads a new identifier that was drawn: 16 octets.
pub(crate) struct IdReader;

impl Reader<[u8; 16]> for IdReader {
    ghost reads = { λ s. octets_in 16 };

    fn read(&self, alloc: Global, value: Json) -> Result<[u8; 16], DocFault> {
        let octets = octets_from(alloc, value, Digits::Lower)?;
        match <[u8; 16]>::try_from(octets.as_slice()) {
            Ok(id) => Ok(id),
            Err(_) => Err(DocFault::here(alloc, DocCode::Limit)),
        }
    }
}

/// Reads a digest: 32 octets.
pub struct DigestReader;

impl Reader<[u8; 32]> for DigestReader {
    ghost reads = { λ s. octets_in 32 };

    fn read(&self, alloc: Global, value: Json) -> Result<[u8; 32], DocFault> {
        let octets = octets_from(alloc, value, Digits::Lower)?;
        match <[u8; 32]>::try_from(octets.as_slice()) {
            Ok(digest) => Ok(digest),
            Err(_) => Err(DocFault::here(alloc, DocCode::Limit)),
        }
    }
}

/// Reads an identifier of a transaction.
pub struct LtxidReader;

impl Reader<Ltxid> for LtxidReader {
    ghost reads = { λ s. identifier_in };

    #[tactic(auto, unfolding(crate::specs::meaning::Parts::identifier_in), using(json_form::proofs::Offered::others_stay))]
    fn read(&self, alloc: Global, value: Json) -> Result<Ltxid, DocFault> {
        let mut parts = fixed(alloc, value, 3)?;
        let incarnation = parts.read(alloc, 0, &NUMBER)?;
        let session = parts.read(alloc, 1, &NUMBER)?;
        let number = parts.read(alloc, 2, &NUMBER)?;
        Ok(Ltxid {
            incarnation,
            session,
            number,
        })
    }

    fn ahead(&self, alloc: Global, tokens: &mut json::Reader<'_>, depth: usize) -> Option<Ltxid> {
        let inside = array_begins(tokens, depth)?;
        let incarnation = NUMBER.ahead(alloc, tokens, inside)?;
        let session = NUMBER.ahead(alloc, tokens, inside)?;
        let number = last_ahead(alloc, tokens, inside, &NUMBER)?;
        Some(Ltxid {
            incarnation,
            session,
            number,
        })
    }
}

/// Reads identifiers of transactions, in order.
pub struct LtxidsReader;

impl Reader<Ltxids> for LtxidsReader {
    ghost reads = { λ s. identifiers_in };

    fn read(&self, alloc: Global, value: Json) -> Result<Ltxids, DocFault> {
        let ltxids = list_from(alloc, value, &LtxidReader)?;
        Ok(Listed::from_vec(ltxids))
    }
}

/// Reads a session.
pub struct SessionReader;

impl Reader<SessionId> for SessionReader {
    ghost reads = { λ s. session_in };

    #[tactic(auto, unfolding(crate::specs::meaning::Parts::session_in), using(json_form::proofs::Offered::others_stay))]
    fn read(&self, alloc: Global, value: Json) -> Result<SessionId, DocFault> {
        let mut parts = fixed(alloc, value, 2)?;
        let incarnation = parts.read(alloc, 0, &NUMBER)?;
        let session = parts.read(alloc, 1, &NUMBER)?;
        Ok(SessionId {
            incarnation,
            session,
        })
    }
}

/// Reads sessions, in order.
pub struct SessionsReader;

impl Reader<Sessions> for SessionsReader {
    ghost reads = { λ s. sessions_in };

    fn read(&self, alloc: Global, value: Json) -> Result<Sessions, DocFault> {
        let sessions = list_from(alloc, value, &SessionReader)?;
        Ok(Listed::from_vec(sessions))
    }
}

/// Refuses a name that is not above those of these settings.
fn rising(alloc: Global, before: &Settings, name: &Name) -> Result<(), DocFault>
    ensures read { Gives result (if_rising before.now name.now) }
    ensures above { IfOk result (λ _. AllBelow before.now name.now) }
{
    if before.can_put_last(name) {
        Ok(())
    } else {
        Err(DocFault::here(alloc, DocCode::Rule))
    }
}

/// The name and the value of a setting behind these.
#[tactic(auto, unfolding(crate::specs::meaning::Parts::setting_in), using(json_form::proofs::Offered::others_stay))]
fn setting_from(alloc: Global, before: &Settings, value: Json) -> Result<(Name, Value), DocFault>
    ensures read { Gives result (setting_in before.now (view value)) }
    ensures above { IfOk result (λ pair. AllBelow before.now pair.0) }
{
    let mut parts = fixed(alloc, value, 2)?;
    let name = parts.read(alloc, 0, &NameReader)?;
    within_item(alloc, 0, rising(alloc, before, &name))?;
    let value = parts.read(alloc, 1, &VALUE)?;
    Ok((name, value))
}

/// The settings that these items say, in order of name.
fn settings_from(alloc: Global, values: Vec<Json>) -> Result<Settings, DocFault>
    ensures { Gives result (each_after setting_in [] (items_view values.items)) }
{
    let mut settings = Settings::new(alloc);
    for value in values {
        let read = setting_from(alloc, &settings, value);
        let (name, value) = within_item(alloc, settings.len(), read)?;
        if settings.put_last(name, value).is_err() {
            return Err(DocFault::NoMemory);
        }
    }
    Ok(settings)
}

/// Reads settings, their names rising by bytes.
pub struct SettingsReader;

impl Reader<Settings> for SettingsReader {
    ghost reads = { λ s. settings_in };

    fn read(&self, alloc: Global, value: Json) -> Result<Settings, DocFault> {
        let values = parts_from(alloc, value)?;
        settings_from(alloc, values.items)
    }
}

/// Reads a row of at most 8 values.
pub struct RowReader;

impl Reader<Row> for RowReader {
    ghost reads = { λ s. row_in };

    fn read(&self, alloc: Global, value: Json) -> Result<Row, DocFault> {
        let values = array_from(alloc, value, 0, 8, &VALUE)?;
        Ok(Limited::from_vec(values))
    }

    fn ahead(&self, alloc: Global, tokens: &mut json::Reader<'_>, depth: usize) -> Option<Row> {
        let values = array_ahead(alloc, tokens, depth, 8, &VALUE)?;
        Some(Limited::from_vec(values))
    }
}
