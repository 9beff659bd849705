//! What is written down of a frame that was served.
ghost use Rattle.std.specs.Prelude.{◌≡◌, Bool};
ghost use Rattle.svc_values.specs.declared.call.Call.{Call as Called};
ghost use Rattle.world_model.specs.meaning.Noting.{name_of};
ghost use Rattle.world_model.specs.meaning.Serving.{is_blocked as is_blocked_def, is_last as is_last_def};
ghost use Rattle.world_core.specs.Answering.{session_served as session_served_def, session_named as session_named_def, result_told as result_told_def, call_item as call_item_def, ordinary_item as ordinary_item_def, served_item as served_item_def, result_of as result_of_def, crashed_item as crashed_item_def};

use ltxid_book::Verdict;
use outage_schedule::{AskResult, FrameName, Item};
use svc_values::{Ahead, Call, Down, SessionId, Up};

/// The name of a frame.
pub(crate) fn frame_name(frame: &Up) -> FrameName
    ensures { result ≡ name_of frame.now }
{
    match frame {
        Up::Connect => FrameName::Connect,
        Up::Begin { .. } => FrameName::Begin,
        Up::Call { .. } => FrameName::Call,
        Up::Outcome { .. } => FrameName::Outcome,
        Up::End => FrameName::End,
        Up::Close => FrameName::Close,
    }
}

/// The session that a Hello names.
fn session_named(reply: &Option<Down>) -> Option<SessionId>
    ensures { result ≡ session_named_def reply.now }
{
    match reply {
        Some(Down::Hello { ltxid }) => Some(SessionId {
            incarnation: ltxid.incarnation,
            session: ltxid.session,
        }),
        _ => None,
    }
}

/// The session that served a frame: the one that its connection has, or else the one that the reply
/// names.
pub(crate) fn session_served(known: Option<SessionId>, reply: &Option<Down>) -> SessionId
    ensures { result ≡ session_served_def known reply.now }
{
    known.or(session_named(reply)).unwrap_or(SessionId {
        incarnation: 0,
        session: 0,
    })
}

/// The outcome that a reply tells.
fn result_told(reply: &Option<Down>) -> AskResult
    ensures { result ≡ result_told_def reply.now }
{
    match reply {
        Some(
            Down::OutcomeIs {
                committed: true,
                completed,
            },
        ) => AskResult::Committed {
            completed: *completed,
        },
        Some(Down::OutcomeRefused { ahead, next }) => match ahead {
            Ahead::Server => AskResult::ServerAhead { next: *next },
            Ahead::Client => AskResult::ClientAhead { next: *next },
            Ahead::Forgotten => AskResult::Forgotten { horizon: *next },
        },
        _ => AskResult::Uncommitted,
    }
}

/// What a call is written down as: with its answers and draws, or as blocked.
fn call_item(replay: bool, call: Call, reply: Option<Down>) -> Item
    ensures { result ≡ call_item_def replay call reply }
{
    match reply {
        Some(Down::Reply { answers, draws, .. }) => Item::Call {
            replay,
            call,
            answers,
            draws,
        },
        _ => Item::Blocked { call },
    }
}

/// What a frame that was not refused is written down as.
fn ordinary_item(frame: Up, reply: Option<Down>) -> Item
    ensures { result ≡ ordinary_item_def frame reply }
{
    match frame {
        Up::Connect => Item::Connect,
        Up::Begin { settings } => Item::Begin { settings },
        Up::Call { replay, call, .. } => call_item(replay, call, reply),
        Up::Outcome { ltxid } => Item::Outcome {
            ltxid,
            result: result_told(&reply),
        },
        Up::End => Item::End,
        Up::Close => Item::Close,
    }
}

/// What a frame is written down as, by its reply, whose answers and draws are moved. It takes no
/// memory.
pub(crate) fn served_item(frame: Up, reply: Option<Down>) -> Item
    ensures { result ≡ served_item_def frame reply }
{
    match &reply {
        Some(Down::Refused { cause }) => Item::Refused { cause: *cause },
        _ => ordinary_item(frame, reply),
    }
}

/// Whether a session ends with a call that is answered so.
fn ends_by_call(reply: &Option<Down>) -> bool
    ensures { (replay : Bool) (call : Called)
        → result ≡ is_last_def (call_item_def replay call reply.now) }
{
    match reply {
        Some(Down::Reply { .. }) => false,
        _ => true,
    }
}

/// Whether a session ends with a frame that was not refused.
fn ends_ordinary(frame: &Up, reply: &Option<Down>) -> bool
    ensures { result ≡ is_last_def (ordinary_item_def frame.now reply.now) }
{
    match frame {
        Up::Connect => false,
        Up::Begin { .. } => false,
        Up::Call { .. } => ends_by_call(reply),
        Up::Outcome { .. } => false,
        Up::End => false,
        Up::Close => true,
    }
}

/// Whether a session ends with a frame, by its reply.
pub(crate) fn ends_session(frame: &Up, reply: &Option<Down>) -> bool
    ensures { result ≡ is_last_def (served_item_def frame.now reply.now) }
{
    match reply {
        Some(Down::Refused { .. }) => false,
        _ => ends_ordinary(frame, reply),
    }
}

/// Whether the commit of a call was blocked.
pub(crate) fn is_blocked(item: &Item) -> bool
    ensures { result ≡ is_blocked_def item.now }
{
    matches!(item, Item::Blocked { .. })
}

/// Whether a session ends with it.
pub(crate) fn is_last(item: &Item) -> bool
    ensures { result ≡ is_last_def item.now }
{
    matches!(item, Item::Blocked { .. } | Item::Close)
}

/// What a verdict tells. An identifier that is to be blocked was so before it was told.
pub(crate) fn result_of(verdict: Verdict) -> AskResult
    ensures { result ≡ result_of_def verdict }
{
    match verdict {
        Verdict::Committed { completed } => AskResult::Committed { completed },
        Verdict::BlockIt | Verdict::AlreadyBlocked => AskResult::Uncommitted,
        Verdict::ServerAhead { next } => AskResult::ServerAhead { next },
        Verdict::ClientAhead { next } => AskResult::ClientAhead { next },
        Verdict::Forgotten { horizon } => AskResult::Forgotten { horizon },
    }
}

/// What a frame that was stopped before its reply is written down as.
pub(crate) fn crashed_item(frame: Up) -> Item
    ensures { result ≡ crashed_item_def frame }
{
    match frame {
        Up::Connect => Item::Connect,
        Up::Begin { settings } => Item::Begin { settings },
        Up::Call { replay, call, .. } => Item::CrashedCall { replay, call },
        Up::Outcome { ltxid } => Item::CrashedOutcome { ltxid },
        Up::End => Item::End,
        Up::Close => Item::Close,
    }
}
