//! How many entries each session has.
ghost use Rattle.std.specs.Prelude.{◌≡◌, ◌+◌, ◌<◌, ◌^◌, unwrap_or, if◌then◌else◌, IfOk, OnOk, OnErr};
ghost use Rattle.svc_values.specs.Keys.{value_of};
ghost use Rattle.svc_values.specs.declared.entry.SessionId.{SessionId as Session};
ghost use Rattle.svc_values.specs.meaning.Identifiers.{is_of, session_of};
ghost use Rattle.server_model.specs.meaning.Walk.{number_of};
ghost use Rattle.legal_walk.specs.Counts.{counted, key_of as key_of_def, same_key};

use std::alloc::Global;
use svc_values::{Entry, KeyMap, Ltxid, NoMemory, SessionId};

/// The two numbers of a session, by which it is looked up.
pub(crate) type Key = (u64, u64);

/// How many entries each session has.
pub(crate) type Counts = KeyMap<Key, u64>;

/// The two numbers of a session.
pub(crate) fn key_of(session: &SessionId) -> Key
    ensures { result ≡ key_of_def session.now }
{
    (session.incarnation, session.session)
}

/// How many entries a session has.
pub(crate) fn count_at(counts: &Counts, key: &Key) -> u64
    ensures { result ≡ unwrap_or (value_of same_key counts.now key.now) 0 }
{
    match counts.get(key) {
        Some(count) => *count,
        None => 0,
    }
}

/// The session of an identifier has one entry more.
pub(crate) fn count_one(counts: &mut Counts, ltxid: &Ltxid) -> Result<(), NoMemory>
    requires { counted counts.old (session_of ltxid.now) + 1 < 2 ^ 64 }
    ensures ok { OnOk result ((session : Session) → counted counts.new session
        ≡ counted counts.old session
        + (if is_of ltxid.now session.incarnation session.session then 1 else 0)) }
    ensures err { OnErr result (counts.new ≡ counts.old) }
{
    let key = (ltxid.incarnation, ltxid.session);
    let count = count_at(counts, &key);
    counts.put(key, count + 1)?;
    Ok(())
}

/// How many of these entries each session has. n log n.
pub(crate) fn counts_of(alloc: Global, entries: &[Entry]) -> Result<Counts, NoMemory>
    ensures { IfOk result (λ counts. (session : Session) → counted counts session
        ≡ number_of entries.now session) }
{
    let mut counts = KeyMap::new(alloc);
    for entry in entries {
        count_one(&mut counts, &entry.ltxid)?;
    }
    Ok(counts)
}
