//! Readers of the events of a schedule: arrays that begin with a word.
ghost use Rattle.std.specs.Prelude.{◌≡◌, ◌≤◌, ◌<◌, true, length, IfOk, IfSome};
ghost use Rattle.std.specs.List.{list_all};
ghost use Rattle.serde_json.specs.View.{view};
ghost use Rattle.json_form.specs.Faults.{Gives};
ghost use Rattle.document_forms.specs.meaning.Events.{count_of, pick_of, lost_pick_of, go_of, serve_of, reap_of, cut_of, crash_of, upcrash_of, bare_of, outside_of, ltxid_of, ask_of, failover_of, event_by as event_by_def, event_of, schedule_of};
ghost use Rattle.document_forms.specs.Keeping.{fits as fits_def};
ghost use Rattle.json_form.specs.Streams.{Begins};

use crate::event_ahead::{event_ahead, ltxid_ahead};
use crate::number::whole;
use crate::script_ahead::calls_ahead;
use call_forms::CallReader;
use document_limits::{Count, Number};
use json_form::{
    Digits, DocCode, DocFault, Reader, Whole, array_ahead, array_from, fixed, head_from,
};
use outage_schedule::{Calls, Event, Events};
use serde_json::Value as Json;
use std::alloc::Global;
use svc_values::{Listed, Ltxid};

/// The word that an event begins with.
#[derive(Clone, Copy, Debug, PartialEq, Eq)]
pub enum EventWord {
    Go,
    Serve,
    Cut,
    Reap,
    Crash,
    Up,
    UpCrash,
    Tick,
    Outside,
    Ask,
    Drain,
    Failover,
}

/// Reads a connection, a number of bytes or of device calls, or a part of an identifier.
pub(crate) struct CountReader;

impl Reader<u64> for CountReader {
    ghost reads = { λ s. count_of };

    fn read(&self, alloc: Global, value: Json) -> Result<u64, DocFault> {
        whole(Number::Place).read(alloc, value)
    }
}

/// Reads which image a crash leaves.
pub(crate) struct PickReader;

impl Reader<u8> for PickReader {
    ghost reads = { λ s. pick_of };

    fn read(&self, alloc: Global, value: Json) -> Result<u8, DocFault>
        ensures read { Gives result (pick_of (view value)) }
        ensures most { IfOk result (λ pick. pick ≤ 3) }
    {
        let pick = whole(Number::Pick).read(alloc, value)?;
        Ok(pick as u8)
    }
}

/// Reads which image a crash leaves of the second store, once the first one is lost.
pub(crate) struct LostPickReader;

impl Reader<u8> for LostPickReader {
    ghost reads = { λ s. lost_pick_of };

    fn read(&self, alloc: Global, value: Json) -> Result<u8, DocFault> {
        let pick = PickReader.read(alloc, value)?;
        Ok(pick + 4)
    }
}

/// Reads the calls of an `outside`.
pub(crate) struct CallsReader;

impl Reader<Calls> for CallsReader {
    ghost use Rattle.json_form.specs.meaning.Arrays.{array_of, each_of};
    ghost use Rattle.json_form.specs.declared.hexadecimal.Digits.TheVariants as digits;
    ghost use Rattle.call_forms.specs.meaning.Calls.{call_of};

    ghost reads = { λ s. array_of 1 1024 (each_of (call_of digits.Any)) };

    fn read(&self, alloc: Global, value: Json) -> Result<Calls, DocFault> {
        let limit = Count::OutsideCalls.limit();
        let reader = CallReader {
            digits: Digits::Any,
        };
        let calls = array_from(alloc, value, limit.least, limit.most, &reader)?;
        Ok(Listed::from_vec(calls))
    }

    fn ahead(&self, alloc: Global, tokens: &mut json::Reader<'_>, depth: usize) -> Option<Calls> {
        calls_ahead(alloc, tokens, depth, Count::OutsideCalls)
    }
}

/// Reads an identifier.
pub(crate) struct LtxidReader;

impl Reader<Ltxid> for LtxidReader {
    ghost reads = { λ s. ltxid_of };

    #[tactic(auto, unfolding(crate::specs::meaning::Events::ltxid_of), using(json_form::proofs::Offered::others_stay))]
    fn read(&self, alloc: Global, value: Json) -> Result<Ltxid, DocFault> {
        let mut parts = fixed(alloc, value, 3)?;
        let incarnation = parts.read(alloc, 0, &CountReader)?;
        let session = parts.read(alloc, 1, &CountReader)?;
        let number = parts.read(alloc, 2, &CountReader)?;
        Ok(Ltxid {
            incarnation,
            session,
            number,
        })
    }

    fn ahead(&self, alloc: Global, tokens: &mut json::Reader<'_>, depth: usize) -> Option<Ltxid> {
        ltxid_ahead(alloc, tokens, depth)
    }
}

#[tactic(auto, unfolding(crate::specs::meaning::Events::go_of))]
fn go_from(alloc: Global, value: Json, clients: u64) -> Result<Event, DocFault>
    ensures { Gives result (go_of clients (view value)) }
{
    let mut parts = fixed(alloc, value, 2)?;
    let client = parts.read(alloc, 1, &Whole::new(1, clients))?;
    Ok(Event::Go { client })
}

#[tactic(auto, unfolding(crate::specs::meaning::Events::serve_of))]
fn serve_from(alloc: Global, value: Json) -> Result<Event, DocFault>
    ensures { Gives result (serve_of (view value)) }
{
    let mut parts = fixed(alloc, value, 2)?;
    let connection = parts.read(alloc, 1, &CountReader)?;
    Ok(Event::Serve { connection })
}

#[tactic(auto, unfolding(crate::specs::meaning::Events::reap_of))]
fn reap_from(alloc: Global, value: Json) -> Result<Event, DocFault>
    ensures { Gives result (reap_of (view value)) }
{
    let mut parts = fixed(alloc, value, 2)?;
    let connection = parts.read(alloc, 1, &CountReader)?;
    Ok(Event::Reap { connection })
}

#[tactic(auto, unfolding(crate::specs::meaning::Events::cut_of), using(json_form::proofs::Offered::others_stay))]
fn cut_from(alloc: Global, value: Json) -> Result<Event, DocFault>
    ensures { Gives result (cut_of (view value)) }
{
    let mut parts = fixed(alloc, value, 4)?;
    let connection = parts.read(alloc, 1, &CountReader)?;
    let up = parts.read(alloc, 2, &CountReader)?;
    let down = parts.read(alloc, 3, &CountReader)?;
    Ok(Event::Cut {
        connection,
        up,
        down,
    })
}

#[tactic(auto, unfolding(crate::specs::meaning::Events::crash_of), using(json_form::proofs::Offered::others_stay))]
fn crash_from(alloc: Global, value: Json) -> Result<Event, DocFault>
    ensures { Gives result (crash_of (view value)) }
{
    let mut parts = fixed(alloc, value, 4)?;
    let connection = parts.read(alloc, 1, &CountReader)?;
    let after = parts.read(alloc, 2, &CountReader)?;
    let pick = parts.read(alloc, 3, &PickReader)?;
    Ok(Event::Crash {
        connection,
        after,
        pick,
    })
}

#[tactic(auto, unfolding(crate::specs::meaning::Events::upcrash_of), using(json_form::proofs::Offered::others_stay))]
fn upcrash_from(alloc: Global, value: Json) -> Result<Event, DocFault>
    ensures { Gives result (upcrash_of (view value)) }
{
    let mut parts = fixed(alloc, value, 3)?;
    let after = parts.read(alloc, 1, &CountReader)?;
    let pick = parts.read(alloc, 2, &PickReader)?;
    Ok(Event::UpCrash { after, pick })
}

fn bare_from(alloc: Global, value: Json, one: Event) -> Result<Event, DocFault>
    ensures { Gives result (bare_of one (view value)) }
{
    fixed(alloc, value, 1)?;
    Ok(one)
}

#[tactic(auto, unfolding(crate::specs::meaning::Events::outside_of))]
fn outside_from(alloc: Global, value: Json) -> Result<Event, DocFault>
    ensures { Gives result (outside_of (view value)) }
{
    let mut parts = fixed(alloc, value, 2)?;
    let calls = parts.read(alloc, 1, &CallsReader)?;
    Ok(Event::Outside { calls })
}

#[tactic(auto, unfolding(crate::specs::meaning::Events::ask_of))]
fn ask_from(alloc: Global, value: Json) -> Result<Event, DocFault>
    ensures { Gives result (ask_of (view value)) }
{
    let mut parts = fixed(alloc, value, 2)?;
    let ltxid = parts.read(alloc, 1, &LtxidReader)?;
    Ok(Event::Ask { ltxid })
}

#[tactic(auto, unfolding(crate::specs::meaning::Events::failover_of), using(json_form::proofs::Offered::others_stay))]
fn failover_from(alloc: Global, value: Json, standby: bool) -> Result<Event, DocFault>
    ensures { Gives result (failover_of standby (view value)) }
{
    let mut parts = fixed(alloc, value, 4)?;
    let connection = parts.read(alloc, 1, &CountReader)?;
    let after = parts.read(alloc, 2, &CountReader)?;
    let pick = parts.read(alloc, 3, &LostPickReader)?;
    if !standby {
        return Err(DocFault::here(alloc, DocCode::Rule));
    }
    Ok(Event::Crash {
        connection,
        after,
        pick,
    })
}

fn event_by(
    alloc: Global,
    value: Json,
    word: EventWord,
    clients: u64,
    standby: bool,
) -> Result<Event, DocFault>
    ensures { Gives result (event_by_def clients standby word (view value)) }
{
    match word {
        EventWord::Go => go_from(alloc, value, clients),
        EventWord::Serve => serve_from(alloc, value),
        EventWord::Cut => cut_from(alloc, value),
        EventWord::Reap => reap_from(alloc, value),
        EventWord::Crash => crash_from(alloc, value),
        EventWord::Up => bare_from(alloc, value, Event::Up),
        EventWord::UpCrash => upcrash_from(alloc, value),
        EventWord::Tick => bare_from(alloc, value, Event::Tick),
        EventWord::Outside => outside_from(alloc, value),
        EventWord::Ask => ask_from(alloc, value),
        EventWord::Drain => bare_from(alloc, value, Event::Drain),
        EventWord::Failover => failover_from(alloc, value, standby),
    }
}

pub(crate) const WORDS: [(&str, EventWord); 12] = [
    ("go", EventWord::Go),
    ("serve", EventWord::Serve),
    ("cut", EventWord::Cut),
    ("reap", EventWord::Reap),
    ("crash", EventWord::Crash),
    ("up", EventWord::Up),
    ("upcrash", EventWord::UpCrash),
    ("tick", EventWord::Tick),
    ("outside", EventWord::Outside),
    ("ask", EventWord::Ask),
    ("drain", EventWord::Drain),
    ("failover", EventWord::Failover),
];

/// Reads an event of a document with so many clients, and with a second store or not.
#[derive(Clone, Copy)]
struct EventReader {
    clients: u64,
    standby: bool,
}

impl Reader<Event> for EventReader {
    ghost reads = { λ s. event_of s.clients s.standby };

    #[tactic(auto, unfolding(crate::specs::meaning::Events::event_of))]
    fn read(&self, alloc: Global, value: Json) -> Result<Event, DocFault> {
        let EventReader { clients, standby } = *self;
        let word = head_from(alloc, &value, &WORDS)?;
        event_by(alloc, value, word, clients, standby)
    }

    fn ahead(&self, alloc: Global, tokens: &mut json::Reader<'_>, depth: usize) -> Option<Event> {
        event_ahead(alloc, tokens, depth, self.clients, self.standby)
    }
}

/// Reads the schedule of a document with so many clients, and with a second store or not.
#[derive(Drop)]
pub struct ScheduleReader {
    pub clients: u64,
    pub standby: bool,
}

impl Reader<Events> for ScheduleReader {
    ghost reads = { λ s. schedule_of s.clients s.standby };

    fn read(&self, alloc: Global, value: Json) -> Result<Events, DocFault> {
        let reader = EventReader {
            clients: self.clients,
            standby: self.standby,
        };
        let limit = Count::Events.limit();
        let events = array_from(alloc, value, limit.least, limit.most, &reader)?;
        Ok(Listed::from_vec(events))
    }
}

/// Whether a document with so many clients, and with a second store or not, may have this event of
/// one with more clients and a second store: its client is there, and the first store is lost for
/// good only where there is a second one.
fn fits(event: &Event, clients: u64, standby: bool) -> bool
    ensures { result ≡ fits_def clients standby event.now }
{
    match event {
        Event::Go { client } => *client <= clients,
        Event::Crash { pick, .. } => standby || *pick <= 3,
        _ => true,
    }
}

/// Whether such a document may have all these events. The cost is linear in their number.
pub fn all_fit(events: &[Event], clients: u64, standby: bool) -> bool
    ensures { result ≡ list_all (fits_def clients standby) events.now }
{
    events.iter().all(|event| fits(event, clients, standby))
}

/// The events that `ScheduleReader` reads where there are as many clients as there may be and a
/// second store, each read as soon as its tokens are passed. With fewer clients, or without a
/// second store, they are read alike where `all_fit` says so.
pub fn schedule_ahead(alloc: Global, tokens: &mut json::Reader<'_>, depth: usize) -> Option<Events>
    ensures read { IfSome result
        (λ events. Begins (schedule_of 64 true) depth tokens.old events tokens.new) }
    ensures shorter { IfSome result (λ _. length tokens.new < length tokens.old) }
{
    let reader = EventReader {
        clients: Count::Clients.limit().most as u64,
        standby: true,
    };
    let most = Count::Events.limit().most;
    let events = array_ahead(alloc, tokens, depth, most, &reader)?;
    Some(Listed::from_vec(events))
}
