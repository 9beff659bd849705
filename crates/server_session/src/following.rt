//! What the records say that stand behind those of a core.
ghost use Rattle.std.specs.Prelude.{◌≡◌, Bool, IsTrue, OnOk, false};
ghost use Rattle.svc_values.specs.meaning.Fitting.{writes_fit};
ghost use Rattle.ltxid_book.specs.meaning.Sessions.{may_commit};
ghost use Rattle.ltxid_book.specs.Sessions.{after_commit, sessions_in};
ghost use Rattle.svc_values.specs.Identifiers.{IsLtxid};
ghost use Rattle.svc_values.specs.meaning.Tables.{with_writes};
ghost use Rattle.commit_log.specs.declared.journal.Journal.{Journal};
ghost use Rattle.commit_log.specs.meaning.Rules.{may_come, with_record};
ghost use Rattle.server_session.specs.Following.{IsOfJournal, MayFollow};

use crate::shared::Core;
use commit_log::Record;
use mutable_values::Source;
use std::alloc::Global;
use std::mem;
use svc_values::{Entry, NoMemory};

impl Core {
    /// Takes over what the record says that stands behind those of its journal. The log is not
    /// looked at, and goes on by itself.
    ///
    /// A commit costs what its writes do, and a horizon the number of sessions of the book.
    pub fn follow(&mut self, alloc: Global, next: &Record) -> Result<(), NoMemory>
        requires { MayFollow self.old next.now }
        ensures follows { (is_opened has_horizon : Bool) (journal : Journal)
            → IsOfJournal self.old journal → (has_horizon ≡ false → journal.horizon ≡ 0)
            → IsTrue (may_come journal is_opened has_horizon next.now)
            → OnOk result (IsOfJournal self.new (with_record journal next.now)) }
        ensures log { self.new.log ≡ self.old.log }
        ensures grants { self.new.grants ≡ self.old.grants }
    {
        match next {
            Record::Base(_) => unreachable!(),
            Record::Opened(incarnation) => self.take_incarnation(alloc, *incarnation),
            Record::Commit(entry) => self.take_entry(entry)?,
            Record::Blocked(x) => self.book.block(x)?,
            Record::Reserved(reservation) => {
                self.source.reserved(&reservation.name, reservation.upto);
            }
            Record::Alert(_) => {}
            Record::Horizon(horizon) => self.book.forget(*horizon),
        }
        Ok(())
    }

    /// Has the source give values of this incarnation, each sequence from where it was.
    fn take_incarnation(&mut self, alloc: Global, incarnation: u64)
        ensures { self.new ≡ record self.old {
          source =
              record self.old.source { incarnation = incarnation; identifiers = 0 };
        } }
    {
        let none = Source::new(incarnation, Vec::new(alloc));
        let source = mem::replace(&mut self.source, none);
        self.source = Source::new(incarnation, source.into_sequences());
    }

    /// Has the writes of an entry in the tables, and its commit in the book.
    fn take_entry(&mut self, entry: &Entry) -> Result<(), NoMemory>
        requires parts { IsLtxid entry.now.ltxid }
        requires may { IsTrue (may_commit (sessions_in self.old.book) entry.now.ltxid) }
        requires writes { IsTrue (writes_fit self.old.tables.schemas entry.now.writes) }
        ensures tables { OnOk result (self.new.tables
            ≡ record {
              schemas = self.old.tables.schemas;
              rows =
                  with_writes self.old.tables.rows entry.now.writes;
            }) }
        ensures book { OnOk result (sessions_in self.new.book
            ≡ after_commit (sessions_in self.old.book) entry.now.ltxid entry.now.completed) }
        ensures source { self.new.source ≡ self.old.source }
        ensures log { self.new.log ≡ self.old.log }
        ensures grants { self.new.grants ≡ self.old.grants }
    {
        self.tables.apply(&entry.writes)?;
        self.book.commit(&entry.ltxid, entry.completed)
    }
}
