//! Reader of an event whose parts are read one after the other.
ghost use Rattle.std.specs.Prelude.{◌<◌, ℕ, length, IfSome};
ghost use Rattle.document_forms.specs.meaning.Events.{go_of, serve_of, reap_of, cut_of, crash_of, upcrash_of, bare_of, outside_of, ltxid_of, ask_of, failover_of, event_by, event_of};
ghost use Rattle.document_forms.specs.EventsAhead.{Ends};
ghost use Rattle.json_form.specs.Streams.{Begins};

use crate::event::{
    CallsReader, CountReader, EventWord, LostPickReader, LtxidReader, PickReader, WORDS,
};
use json_form::{Reader, Whole, array_begins, array_ends, last_ahead, word_ahead};
use outage_schedule::Event;
use std::alloc::Global;
use svc_values::Ltxid;

/// What is left of a `go` behind its word, as are the parts of the others below.
fn go_ahead(
    alloc: Global,
    tokens: &mut json::Reader<'_>,
    depth: usize,
    clients: u64,
) -> Option<Event>
    ensures ends { IfSome result (λ one. Ends (go_of clients) depth tokens.old one tokens.new) }
    ensures shorter { IfSome result (λ _. length tokens.new < length tokens.old) }
{
    let client = last_ahead(alloc, tokens, depth, &Whole::new(1, clients))?;
    Some(Event::Go { client })
}

fn serve_ahead(alloc: Global, tokens: &mut json::Reader<'_>, depth: usize) -> Option<Event>
    ensures ends { IfSome result (λ one. Ends serve_of depth tokens.old one tokens.new) }
    ensures shorter { IfSome result (λ _. length tokens.new < length tokens.old) }
{
    let connection = last_ahead(alloc, tokens, depth, &CountReader)?;
    Some(Event::Serve { connection })
}

fn reap_ahead(alloc: Global, tokens: &mut json::Reader<'_>, depth: usize) -> Option<Event>
    ensures ends { IfSome result (λ one. Ends reap_of depth tokens.old one tokens.new) }
    ensures shorter { IfSome result (λ _. length tokens.new < length tokens.old) }
{
    let connection = last_ahead(alloc, tokens, depth, &CountReader)?;
    Some(Event::Reap { connection })
}

fn cut_ahead(alloc: Global, tokens: &mut json::Reader<'_>, depth: usize) -> Option<Event>
    ensures ends { IfSome result (λ one. Ends cut_of depth tokens.old one tokens.new) }
    ensures shorter { IfSome result (λ _. length tokens.new < length tokens.old) }
{
    let connection = CountReader.ahead(alloc, tokens, depth)?;
    let up = CountReader.ahead(alloc, tokens, depth)?;
    let down = last_ahead(alloc, tokens, depth, &CountReader)?;
    Some(Event::Cut {
        connection,
        up,
        down,
    })
}

fn crash_ahead(alloc: Global, tokens: &mut json::Reader<'_>, depth: usize) -> Option<Event>
    ensures ends { IfSome result (λ one. Ends crash_of depth tokens.old one tokens.new) }
    ensures shorter { IfSome result (λ _. length tokens.new < length tokens.old) }
{
    let connection = CountReader.ahead(alloc, tokens, depth)?;
    let after = CountReader.ahead(alloc, tokens, depth)?;
    let pick = last_ahead(alloc, tokens, depth, &PickReader)?;
    Some(Event::Crash {
        connection,
        after,
        pick,
    })
}

fn upcrash_ahead(alloc: Global, tokens: &mut json::Reader<'_>, depth: usize) -> Option<Event>
    ensures ends { IfSome result (λ one. Ends upcrash_of depth tokens.old one tokens.new) }
    ensures shorter { IfSome result (λ _. length tokens.new < length tokens.old) }
{
    let after = CountReader.ahead(alloc, tokens, depth)?;
    let pick = last_ahead(alloc, tokens, depth, &PickReader)?;
    Some(Event::UpCrash { after, pick })
}

fn bare_ahead(tokens: &mut json::Reader<'_>, one: Event) -> Option<Event>
    ensures ends { IfSome result (λ event. (depth : ℕ)
        → Ends (bare_of one) depth tokens.old event tokens.new) }
    ensures shorter { IfSome result (λ _. length tokens.new < length tokens.old) }
{
    array_ends(tokens)?;
    Some(one)
}

fn outside_ahead(alloc: Global, tokens: &mut json::Reader<'_>, depth: usize) -> Option<Event>
    ensures ends { IfSome result (λ one. Ends outside_of depth tokens.old one tokens.new) }
    ensures shorter { IfSome result (λ _. length tokens.new < length tokens.old) }
{
    let calls = last_ahead(alloc, tokens, depth, &CallsReader)?;
    Some(Event::Outside { calls })
}

fn ask_ahead(alloc: Global, tokens: &mut json::Reader<'_>, depth: usize) -> Option<Event>
    ensures ends { IfSome result (λ one. Ends ask_of depth tokens.old one tokens.new) }
    ensures shorter { IfSome result (λ _. length tokens.new < length tokens.old) }
{
    let ltxid = last_ahead(alloc, tokens, depth, &LtxidReader)?;
    Some(Event::Ask { ltxid })
}

fn failover_ahead(
    alloc: Global,
    tokens: &mut json::Reader<'_>,
    depth: usize,
    standby: bool,
) -> Option<Event>
    ensures ends { IfSome result (λ one. Ends (failover_of standby) depth tokens.old one
        tokens.new) }
    ensures shorter { IfSome result (λ _. length tokens.new < length tokens.old) }
{
    let connection = CountReader.ahead(alloc, tokens, depth)?;
    let after = CountReader.ahead(alloc, tokens, depth)?;
    let pick = last_ahead(alloc, tokens, depth, &LostPickReader)?;
    if !standby {
        return None;
    }
    Some(Event::Crash {
        connection,
        after,
        pick,
    })
}

/// What is left of an event that begins with this word.
fn parts_ahead(
    alloc: Global,
    tokens: &mut json::Reader<'_>,
    depth: usize,
    word: EventWord,
    clients: u64,
    standby: bool,
) -> Option<Event>
    ensures ends { IfSome result (λ one. Ends (event_by clients standby word) depth tokens.old one
        tokens.new) }
    ensures shorter { IfSome result (λ _. length tokens.new < length tokens.old) }
{
    match word {
        EventWord::Go => go_ahead(alloc, tokens, depth, clients),
        EventWord::Serve => serve_ahead(alloc, tokens, depth),
        EventWord::Cut => cut_ahead(alloc, tokens, depth),
        EventWord::Reap => reap_ahead(alloc, tokens, depth),
        EventWord::Crash => crash_ahead(alloc, tokens, depth),
        EventWord::Up => bare_ahead(tokens, Event::Up),
        EventWord::UpCrash => upcrash_ahead(alloc, tokens, depth),
        EventWord::Tick => bare_ahead(tokens, Event::Tick),
        EventWord::Outside => outside_ahead(alloc, tokens, depth),
        EventWord::Ask => ask_ahead(alloc, tokens, depth),
        EventWord::Drain => bare_ahead(tokens, Event::Drain),
        EventWord::Failover => failover_ahead(alloc, tokens, depth, standby),
    }
}

/// The event that the tokens begin with. There is none where there is a fault. It takes memory for
/// the calls of an `outside` alone.
pub(crate) fn event_ahead(
    alloc: Global,
    tokens: &mut json::Reader<'_>,
    depth: usize,
    clients: u64,
    standby: bool,
) -> Option<Event>
    ensures begins { IfSome result (λ one. Begins (event_of clients standby) depth tokens.old one
        tokens.new) }
    ensures shorter { IfSome result (λ _. length tokens.new < length tokens.old) }
{
    let inside = array_begins(tokens, depth)?;
    let word = word_ahead(alloc, tokens, &WORDS)?;
    let one = parts_ahead(alloc, tokens, inside, word, clients, standby)?;
    Some(one)
}

/// The identifier that the tokens begin with.
pub(crate) fn ltxid_ahead(
    alloc: Global,
    tokens: &mut json::Reader<'_>,
    depth: usize,
) -> Option<Ltxid>
    ensures begins { IfSome result (λ ltxid. Begins ltxid_of depth tokens.old ltxid tokens.new) }
    ensures shorter { IfSome result (λ _. length tokens.new < length tokens.old) }
{
    let inside = array_begins(tokens, depth)?;
    let incarnation = CountReader.ahead(alloc, tokens, inside)?;
    let session = CountReader.ahead(alloc, tokens, inside)?;
    let number = last_ahead(alloc, tokens, inside, &CountReader)?;
    Some(Ltxid {
        incarnation,
        session,
        number,
    })
}
