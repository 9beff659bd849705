//! Readers of clients and their requests whose calls are read one after the other.
ghost use Rattle.std.specs.Prelude.{◌≡◌, ◌<◌, ◌≤◌, length, true, Some, None, IfSome, Ok, codes};
ghost use Rattle.serde_json.specs.Data.{Members as MemberData};
ghost use Rattle.json_form.specs.declared.hexadecimal.Digits.TheVariants as digits;
ghost use Rattle.json_form.specs.meaning.Arrays.{array_of, each_of};
ghost use Rattle.json_form.specs.meaning.Objects.{named, known, is_among};
ghost use Rattle.json_form.specs.Streams.{Begins, members_ahead as members_ahead_def};
ghost use Rattle.document_limits.specs.Limits.{count_limit};
ghost use Rattle.call_forms.specs.meaning.Calls.{call_of};
ghost use Rattle.document_forms.specs.meaning.Scripts.{request_of, client_of};
ghost use Rattle.document_forms.specs.RequestsAhead.{request_members, IsRequestRead, PassesMember};

use crate::number::whole;
use crate::script::{RequestReader, SettingsReader, submitted_rightly};
use call_forms::{CallReader, counted_ahead, list_ahead};
use document_limits::{Count, Number};
use json_form::{Digits, Reader, member_begins, object_begins, object_ends};
use outage_schedule::{Calls, Client, Request};
use std::alloc::Global;
use svc_values::{Listed, Settings};

/// The calls that the tokens begin with, if there are as many as this count allows.
pub(crate) fn calls_ahead(
    alloc: Global,
    tokens: &mut json::Reader<'_>,
    depth: usize,
    count: Count,
) -> Option<Calls>
    ensures read { IfSome result (λ calls. Begins
        (array_of (count_limit count).least (count_limit count).most (each_of (call_of digits.Any))) depth tokens.old calls tokens.new) }
    ensures shorter { IfSome result (λ _. length tokens.new < length tokens.old) }
{
    let limit = count.limit();
    let reader = CallReader {
        digits: Digits::Any,
    };
    let calls = counted_ahead(alloc, tokens, depth, limit.least, limit.most, &reader)?;
    Some(Listed::from_vec(calls))
}

/// What was read of a request's members so far.
#[derive(Drop)]
pub struct RequestAhead {
    pub settings: Option<Settings>,
    pub calls: Option<Calls>,
    pub again: Option<u64>,
}

impl RequestAhead {
    fn new() -> RequestAhead
        ensures { IsRequestRead result (λ name. None) }
    {
        RequestAhead {
            settings: None,
            calls: None,
            again: None,
        }
    }

    fn take_settings(
        &mut self,
        alloc: Global,
        tokens: &mut json::Reader<'_>,
        depth: usize,
    ) -> Option<()>
        ensures read { IfSome result (λ _. PassesMember depth (codes "settings") self.old tokens.old
            self.new tokens.new) }
        ensures shorter { IfSome result (λ _. length tokens.new < length tokens.old) }
    {
        let settings = SettingsReader.ahead(alloc, tokens, depth)?;
        self.settings = Some(settings);
        Some(())
    }

    fn take_calls(
        &mut self,
        alloc: Global,
        tokens: &mut json::Reader<'_>,
        depth: usize,
    ) -> Option<()>
        ensures read { IfSome result (λ _. PassesMember depth (codes "calls") self.old tokens.old
            self.new tokens.new) }
        ensures shorter { IfSome result (λ _. length tokens.new < length tokens.old) }
    {
        let calls = calls_ahead(alloc, tokens, depth, Count::RequestCalls)?;
        self.calls = Some(calls);
        Some(())
    }

    fn take_again(
        &mut self,
        alloc: Global,
        tokens: &mut json::Reader<'_>,
        depth: usize,
    ) -> Option<()>
        ensures read { IfSome result (λ _. PassesMember depth (codes "again") self.old tokens.old
            self.new tokens.new) }
        ensures shorter { IfSome result (λ _. length tokens.new < length tokens.old) }
    {
        let again = whole(Number::Again).ahead(alloc, tokens, depth)?;
        self.again = Some(again);
        Some(())
    }

    /// The member with this name, whose value the tokens begin with.
    fn take(
        &mut self,
        alloc: Global,
        tokens: &mut json::Reader<'_>,
        depth: usize,
        name: &str,
    ) -> Option<()>
        ensures read { IfSome result (λ _. PassesMember depth name.now self.old tokens.old self.new
            tokens.new) }
        ensures known { IfSome result (λ _. is_among request_members name.now ≡ true) }
        ensures shorter { IfSome result (λ _. length tokens.new < length tokens.old) }
    {
        if name == "calls" {
            return self.take_calls(alloc, tokens, depth);
        }
        if name == "settings" {
            return self.take_settings(alloc, tokens, depth);
        }
        if name == "again" {
            return self.take_again(alloc, tokens, depth);
        }
        None
    }
}

/// What is read of a request's members, behind the bracket that begins it.
fn members_ahead(alloc: Global, tokens: &mut json::Reader<'_>, depth: usize) -> Option<RequestAhead>
    ensures read { IfSome result (λ ahead. (ms : MemberData)
        × (members_ahead_def depth tokens.old ≡ Some (ms, tokens.new))
        × (known request_members ms ≡ Ok tt) × IsRequestRead ahead (named ms)) }
    ensures shorter { IfSome result (λ _. length tokens.new ≤ length tokens.old) }
{
    let mut ahead = RequestAhead::new();
    'members: while let Some(name) = tokens.next_key().ok()? {
        ahead.take(alloc, tokens, depth, name)?;
    }
    Some(ahead)
}

/// The request that the tokens begin with, whose calls are read one after the other. There is none
/// where there is a fault.
pub(crate) fn request_ahead(
    alloc: Global,
    tokens: &mut json::Reader<'_>,
    depth: usize,
) -> Option<Request>
    ensures begins { IfSome result (λ request. Begins request_of
        depth tokens.old request tokens.new) }
    ensures shorter { IfSome result (λ _. length tokens.new < length tokens.old) }
{
    let inside = object_begins(tokens, depth)?;
    let RequestAhead {
        settings,
        calls,
        again,
    } = members_ahead(alloc, tokens, inside)?;
    let request = Request {
        settings: settings.unwrap_or(Settings::new(alloc)),
        calls: calls?,
        again: again.unwrap_or(0),
    };
    let rightly = submitted_rightly(alloc, request).ok()?;
    Some(rightly)
}

/// The client that the tokens begin with, each of whose requests is read as soon as its tokens are
/// passed. There is none where there is a fault.
pub(crate) fn client_ahead(
    alloc: Global,
    tokens: &mut json::Reader<'_>,
    depth: usize,
) -> Option<Client>
    ensures begins { IfSome result (λ client. Begins client_of depth tokens.old client tokens.new) }
    ensures shorter { IfSome result (λ _. length tokens.new < length tokens.old) }
{
    let inside = object_begins(tokens, depth)?;
    member_begins(tokens, "requests")?;
    let requests = list_ahead(alloc, tokens, inside, &RequestReader)?;
    object_ends(tokens)?;
    Some(Client {
        requests: Listed::from_vec(requests),
    })
}
