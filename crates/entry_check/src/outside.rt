//! The sessions of `outside` runs, whose entries are of no client.
ghost use Rattle.std.specs.Prelude.{◌≡◌, ◌||◌, [], IfOk, OnOk};
ghost use Rattle.svc_values.specs.declared.entry.Ltxid.{Ltxid as Id};
ghost use Rattle.svc_values.specs.meaning.Identifiers.{is_of_session};
ghost use Rattle.run_clauses.specs.meaning.Sessions.{outside_session, outside_sessions as outside_sessions_def, is_foreign};
ghost use Rattle.entry_check.specs.Ids.{as_list};

use outage_schedule::Note;
use std::alloc::Global;
use std::marker::Model;
use svc_values::{KeySet, Ltxid, NoMemory, SessionId};

/// Sessions, seen as a list of them. Each call takes the logarithm of their number.
#[derive(Drop)]
pub(crate) struct OutsideSessions {
    keys: KeySet<(u64, u64)>,
}

impl Model for OutsideSessions {
    ghost use Rattle.std.specs.Prelude.{List, map};
    ghost use Rattle.svc_values.specs.declared.entry.SessionId.{SessionId};
    ghost use Rattle.entry_check.specs.Ids.{session_at};

    ghost Value = { List SessionId };

    ghost view = { λ s. map session_at s.keys };
}

impl OutsideSessions {
    /// No session. It takes no memory.
    fn new(alloc: Global) -> OutsideSessions
        ensures { result ≡ [] }
    {
        OutsideSessions {
            keys: KeySet::new(alloc),
        }
    }

    /// Whether it is an identifier of one of the sessions.
    pub(crate) fn has_session_of(&self, ltxid: &Ltxid) -> bool
        ensures { result ≡ is_foreign self.now ltxid.now }
    {
        self.keys.has(&(ltxid.incarnation, ltxid.session))
    }

    /// One session more. It takes the logarithm of those that are there.
    fn add(&mut self, session: SessionId) -> Result<(), NoMemory>
        ensures { OnOk result ((x : Id)
            → is_foreign self.new x ≡ (is_foreign self.old x || is_of_session session x)) }
    {
        self.keys.add((session.incarnation, session.session))?;
        Ok(())
    }
}

/// The session of a note, where it is that of an `outside`.
fn session_of_note(note: &Note) -> Option<SessionId>
    ensures { as_list result ≡ outside_session note.now }
{
    match note {
        Note::Outside { ran: Some(ran) } => Some(ran.ltxid.session_of()),
        _ => None,
    }
}

/// The sessions of all `outside` notes.
pub(crate) fn outside_sessions(alloc: Global, notes: &[Note]) -> Result<OutsideSessions, NoMemory>
    ensures { IfOk result (λ outside. (x : Id)
        → is_foreign outside x ≡ is_foreign (outside_sessions_def notes.now) x) }
{
    let mut outside = OutsideSessions::new(alloc);
    for note in notes {
        if let Some(session) = session_of_note(note) {
            outside.add(session)?;
        }
    }
    Ok(outside)
}
