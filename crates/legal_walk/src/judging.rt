//! Whether a call that was served is right, and what comes of it.
ghost use Rattle.std.specs.Prelude.{◌≡◌, ◌&&◌, List, IsTrue, IfOk, OnOk};
ghost use Rattle.svc_values.specs.meaning.Endings.{ends_committed as ends_committed_def};
ghost use Rattle.svc_values.specs.meaning.Fitting.{writes_fit};
ghost use Rattle.svc_values.specs.meaning.Same.{same_answers};
ghost use Rattle.stmt_meaning.specs.meaning.Meaning.{Meant};
ghost use Rattle.stmt_meaning.specs.meaning.Reads.{Read};
ghost use Rattle.table_txn.specs.Readings.{AreReadings};
ghost use Rattle.server_model.specs.meaning.Base.{Base};
ghost use Rattle.server_model.specs.meaning.Legal.{answers_hold, differs, is_free, stores};
ghost use Rattle.server_model.specs.meaning.Walk.{Walk, ends as ends_def, if_commits, with_call};
ghost use Rattle.legal_walk.specs.Holds.{HoldsSince};
ghost use Rattle.legal_walk.specs.Beside.{Beside, Moves};
ghost use Rattle.legal_walk.specs.Going.{Goes};
ghost use Rattle.legal_walk.specs.Judging.{answered_by, ended_if, is_free_at, stores_with};
ghost use Rattle.legal_walk.specs.Moving.{performed_as};

use crate::ongoing::Ongoing;
use crate::performed::Performed;
use crate::service::Service;
use crate::storing::{ends, is_entry_of, must_be_free};
use crate::telling::is_told_so;
use svc_values::{Answer, Answers, Ltxid, NoMemory, ends_committed};

impl Service<'_> {
    /// Whether a commit or a conflict, where this call came to one, came under an identifier that
    /// is not blocked.
    fn is_free(&self, next: &Ltxid, answers: &[Answer]) -> bool
        ensures { result ≡ is_free_at self.now.blocked next.now answers.now }
    {
        !must_be_free(answers) || !self.blocked.has(next)
    }

    /// Whether a call that was answered as committed stores the entry that comes next.
    fn stores(&self, next: &Ltxid, ongoing: &Ongoing, performed: &Performed<'_>) -> bool
        ensures { result ≡ stores_with next.now ongoing.now.going performed.entry.now.answers.now
            performed.entry.now.call.now self.now.ledger.left }
    {
        if !ends_committed(performed.answers) {
            return true;
        }
        match self.ledger.first() {
            Some(entry) => is_entry_of(
                entry,
                next,
                &ongoing.going,
                performed.call.is_lone_commit(),
            ),
            None => false,
        }
    }

    /// Whether a call that means these answers was told so. A commit is linear in the places that
    /// its transaction read, and in the rows of tables that it read whole and that others have
    /// written since; each other call in its answers.
    fn is_told_so(
        &self,
        ongoing: &Ongoing,
        performed: &Performed<'_>,
        answers: Answers,
    ) -> Result<bool, NoMemory>
        requires { HoldsSince self.now ongoing.now.since ongoing.now.going.readings }
        ensures { IfOk result (λ so. (reads : List Read)
            → AreReadings ongoing.now.going.readings reads
            → so ≡ same_answers performed.entry.now.answers.now
            (answered_by answers performed.entry.now.replay (differs self.now.tables.rows reads))) }
    {
        let known = self.changes.since(ongoing.since);
        let Performed {
            replay,
            answers: told,
            ..
        } = performed;
        is_told_so(&self.tables, &ongoing.going, known, *replay, answers, told)
    }

    /// Whether a call that means these answers was told as it has to be, and stores what it has to:
    /// all of the test of a call but its draws. `ongoing` is its transaction with the call last.
    pub(crate) fn is_right(
        &self,
        ongoing: &Ongoing,
        performed: &Performed<'_>,
        answers: Answers,
    ) -> Result<bool, NoMemory>
        requires { HoldsSince self.now ongoing.now.since ongoing.now.going.readings }
        ensures { IfOk result (λ right. (base : Base) (walk : Walk) (meant : Meant)
            → Beside base walk self.now → answers ≡ meant.answers
            → Goes self.now.tables.schemas
            (with_call walk (performed_as performed.entry.now) meant) ongoing.now
            → right ≡ (answers_hold walk (performed_as performed.entry.now) meant
            && (is_free walk (performed_as performed.entry.now)
            && stores walk (performed_as performed.entry.now) meant))) }
    {
        if !self.is_told_so(ongoing, performed, answers)? {
            return Ok(false);
        }
        let next = self.next_of(&performed.session);
        if !self.is_free(&next, performed.answers) {
            return Ok(false);
        }
        Ok(self.stores(&next, ongoing, performed))
    }

    /// The transaction of a session behind a call with these answers: the next one, where they end
    /// it. A commit stores what was written.
    pub(crate) fn settle(
        &mut self,
        mut ongoing: Ongoing,
        answers: &[Answer],
    ) -> Result<Ongoing, NoMemory>
        requires { IsTrue (writes_fit self.old.tables.schemas ongoing.going.writes) }
        ensures after { IfOk result (λ after. after ≡ ended_if (ends_def answers.now) ongoing) }
        ensures moves { OnOk result (Moves self.old
            (λ walk. if_commits (ends_committed_def answers.now) walk ongoing.going.writes)
            self.new) }
    {
        if !ends(answers) {
            return Ok(ongoing);
        }
        let writes = ongoing.end(self.alloc);
        if !ends_committed(answers) {
            return Ok(ongoing);
        }
        self.commit(&writes)?;
        Ok(ongoing)
    }
}
