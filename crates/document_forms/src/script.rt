//! Readers of clients and their requests.
ghost use Rattle.std.specs.Prelude.{◌≡◌, IfOk, codes};
ghost use Rattle.serde_json.specs.View.{view};
ghost use Rattle.json_form.specs.declared.hexadecimal.Digits.TheVariants as digits;
ghost use Rattle.json_form.specs.meaning.Faults.{within};
ghost use Rattle.json_form.specs.Faults.{Gives};
ghost use Rattle.json_form.specs.meaning.Arrays.{array_of, each_of};
ghost use Rattle.call_forms.specs.meaning.Calls.{call_of};
ghost use Rattle.document_forms.specs.meaning.Scripts.{setting_of, by_name as by_name_def, settings_of, is_inside as is_inside_def, is_one_transaction as is_one_transaction_def, if_submitted_rightly, request_of, client_of};

use crate::number::whole;
use crate::script_ahead::{client_ahead, request_ahead};
use call_forms::{CallReader, NewNameReader, ValueReader, copied};
use document_limits::{Count, Number};
use json_form::{
    Digits, DocCode, DocFault, KeyedReader, Reader, Taken, array_at, distinct_list, fixed, list_at,
    object_with,
};
use outage_schedule::{Calls, Client, Request};
use serde_json::Value as Json;
use std::alloc::{AllocError, Global};
use svc_values::{Call, Listed, Name, NoMemory, Settings, Value};

/// Reads a setting whose name does not stand before.
struct SettingReader;

impl KeyedReader<(Name, Value)> for SettingReader {
    type Key = Name;

    ghost reads = { λ s. setting_of };

    ghost key_of = { λ pair. pair.0 };

    fn key(&self, alloc: Global, item: &(Name, Value)) -> Result<Name, DocFault> {
        copied(alloc, &item.0)
    }

    #[tactic(auto, unfolding(crate::specs::meaning::Scripts::setting_of), using(json_form::proofs::Offered::others_stay))]
    fn read(
        &self,
        alloc: Global,
        taken: &Taken<Name>,
        value: Json,
    ) -> Result<(Name, Value), DocFault> {
        let mut parts = fixed(alloc, value, 2)?;
        let name = parts.read(alloc, 0, &NewNameReader { taken })?;
        let digits = Digits::Any;
        let value = parts.read(alloc, 1, &ValueReader { digits })?;
        Ok((name, value))
    }
}

/// The settings of these names and values.
fn by_name(alloc: Global, pairs: Vec<(Name, Value)>) -> Result<Settings, NoMemory>
    ensures { IfOk result (λ settings. settings ≡ by_name_def pairs.items) }
{
    let mut settings = Settings::new(alloc);
    for (name, value) in pairs {
        Settings::put(&mut settings, name, value)?;
    }
    Ok(settings)
}

/// Reads settings.
#[derive(Drop)]
pub(crate) struct SettingsReader;

impl Reader<Settings> for SettingsReader {
    ghost reads = { λ s. settings_of };

    fn read(&self, alloc: Global, value: Json) -> Result<Settings, DocFault> {
        let pairs = distinct_list(alloc, value, &SettingReader)?;
        match by_name(alloc, pairs) {
            Ok(settings) => Ok(settings),
            Err(_) => Err(DocFault::NoMemory),
        }
    }
}

fn is_inside(call: &Call) -> bool
    ensures { result ≡ is_inside_def call.now }
{
    match call {
        Call::Rollback | Call::Alter { .. } => false,
        Call::Work { commit, .. } => !*commit,
        Call::Set { .. } | Call::Disable => true,
    }
}

/// Whether the calls are one transaction, which the last one commits.
fn is_one_transaction(calls: &[Call]) -> bool
    ensures { result ≡ is_one_transaction_def calls.now }
{
    match calls {
        [] => false,
        [last] => last.has_commit(),
        [first, rest @ ..] => is_inside(first) && is_one_transaction(rest),
    }
}

/// The request, if it may be submitted again as often as it asks.
pub(crate) fn submitted_rightly(alloc: Global, request: Request) -> Result<Request, DocFault>
    ensures { Gives result (if_submitted_rightly request) }
{
    if request.again != 0 && !is_one_transaction(request.calls.as_slice()) {
        return Err(DocFault::here(alloc, DocCode::Rule));
    }
    Ok(request)
}

/// The calls of a request, which stand in its member `calls`.
fn calls_from(alloc: Global, calls: Json) -> Result<Calls, DocFault>
    ensures { Gives result (within (codes "calls")
        (array_of 1 1024 (each_of (call_of digits.Any)) (view calls))) }
{
    let limit = Count::RequestCalls.limit();
    let reader = CallReader {
        digits: Digits::Any,
    };
    let calls = array_at(alloc, "calls", calls, limit.least, limit.most, &reader)?;
    Ok(Listed::from_vec(calls))
}

/// Reads a request.
pub(crate) struct RequestReader;

impl Reader<Request> for RequestReader {
    ghost reads = { λ s. request_of };

    #[tactic(auto, unfolding(crate::specs::meaning::Scripts::request_of), using(json_form::proofs::Offered::others_stay))]
    fn read(&self, alloc: Global, value: Json) -> Result<Request, DocFault> {
        let mut members = object_with(alloc, value, &["settings", "calls", "again"])?;
        let calls = members.required(alloc, "calls")?;
        let settings = members.optional(alloc, "settings", &SettingsReader, Settings::new(alloc))?;
        let calls = calls_from(alloc, calls)?;
        let again = members.optional(alloc, "again", &whole(Number::Again), 0)?;
        submitted_rightly(
            alloc,
            Request {
                settings,
                calls,
                again,
            },
        )
    }

    fn ahead(&self, alloc: Global, tokens: &mut json::Reader<'_>, depth: usize) -> Option<Request> {
        request_ahead(alloc, tokens, depth)
    }
}

/// Reads a client.
pub struct ClientReader;

impl Reader<Client> for ClientReader {
    ghost reads = { λ s. client_of };

    #[tactic(auto, unfolding(crate::specs::meaning::Scripts::client_of))]
    fn read(&self, alloc: Global, value: Json) -> Result<Client, DocFault> {
        let mut members = object_with(alloc, value, &["requests"])?;
        let requests = members.required(alloc, "requests")?;
        let requests = list_at(alloc, "requests", requests, &RequestReader)?;
        Ok(Client {
            requests: Listed::from_vec(requests),
        })
    }

    /// The client that the tokens begin with, each of whose requests is read as soon as its tokens
    /// are passed.
    fn ahead(&self, alloc: Global, tokens: &mut json::Reader<'_>, depth: usize) -> Option<Client> {
        client_ahead(alloc, tokens, depth)
    }
}
