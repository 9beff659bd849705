//! The walk over items.
ghost use Rattle.std.specs.Prelude.{◌≡◌, Some, IfOk, OnOk};
ghost use Rattle.server_model.specs.meaning.Base.{Base};
ghost use Rattle.server_model.specs.meaning.Legal.{all_stored, deed_holds, may_be_blocked};
ghost use Rattle.server_model.specs.meaning.Walk.{Walk, after_deed, deed, walk_of};
ghost use Rattle.server_model.specs.meaning.Items.{Did};
ghost use Rattle.plain_items.specs.Views.{item_as, thing_as};
ghost use Rattle.legal_walk.specs.Items.{after_does, after_item, after_stopped, begins, does_hold, item_holds_here, reaches, settings_in, stopped_holds};
ghost use Rattle.legal_walk.specs.Moving.{performed_as};
ghost use Rattle.legal_walk.specs.Starting.{IsStart};
ghost use Rattle.legal_walk.specs.Walks.{IsWalked, Steps, Walks};

use crate::attempt::Attempt;
use crate::ongoing::Ongoing;
use crate::performed::Performed;
use crate::service::Service;
use crate::sessions::Sessions;
use crate::start::Start;
use legal_draws::{asked_by_call, meets_with};
use plain_items::{Item, Thing};
use std::alloc::Global;
use svc_values::{Call, Entry, NoMemory, SessionId, Settings, TryCopy};

/// What the items so far tell: what all sessions share, and the transaction of each.
#[derive(Drop)]
pub(crate) struct Walker<'a> {
    alloc: Global,
    service: Service<'a>,
    sessions: Sessions,
}

/// The settings that a request begins with: none for a run from outside.
fn begun_with(alloc: Global, settings: Option<&Settings>) -> Result<Settings, NoMemory>
    ensures { IfOk result (λ begun. begun ≡ settings_in settings.entry) }
{
    match settings {
        Some(settings) => Ok(settings.copy(alloc)?),
        None => Ok(Settings::new(alloc)),
    }
}

impl<'a> Walker<'a> {
    /// The walk before its first item. n log n for what stood before.
    pub(crate) fn new(
        alloc: Global,
        start: Start<'a>,
        entries: &'a [Entry],
    ) -> Result<Walker<'a>, NoMemory>
        ensures { IfOk result (λ made. (base : Base) → IsStart base start.entry
            → Walks base (walk_of base entries.now) made) }
    {
        let service = Service::new(alloc, start, entries)?;
        Ok(Walker {
            alloc,
            service,
            sessions: Sessions::new(alloc),
        })
    }

    /// Whether no entry is left.
    pub(crate) fn is_done(&self) -> bool
        ensures { (base : Base) (walk : Walk) → Walks base walk self.now
            → result ≡ all_stored walk.left }
    {
        self.service.is_done()
    }

    /// How many entries were stored.
    pub(crate) fn stored(&self) -> usize {
        self.service.ledger.taken()
    }

    /// Takes the next item: whether it holds. Behind one that does not the walk is of no more use.
    pub(crate) fn step(&mut self, item: &Item<'a>) -> Result<bool, NoMemory>
        requires { IsWalked self.old }
        ensures { IfOk result (λ holds. Steps self.old
            (λ base walk. item_holds_here base walk (item_as item.entry.now))
            (λ base walk. after_item base walk (item_as item.entry.now)) holds self.new) }
    {
        match item {
            Item::Did {
                now,
                session,
                thing,
                ..
            } => self.enters(*now, session, thing),
            Item::AskTold { ltxid, told, .. } => {
                self.service.tell(ltxid, told)?;
                Ok(true)
            }
        }
    }

    /// What a session did, behind its opening.
    fn enters(&mut self, now: u64, session: &SessionId, thing: &Thing<'a>) -> Result<bool, NoMemory>
        requires { IsWalked self.old }
        ensures { IfOk result (λ holds. Steps self.old
            (λ base walk. item_holds_here base walk
            (Did 0 now session.now (thing_as thing.entry.now)))
            (λ base walk. after_item base walk (Did 0 now session.now (thing_as thing.entry.now)))
            holds self.new) }
    {
        self.service.enter(session)?;
        if !self.service.is_of_now(session) {
            return Ok(false);
        }
        self.does(now, session, thing)
    }

    /// What a session did in the opening of now.
    fn does(&mut self, now: u64, session: &SessionId, thing: &Thing<'a>) -> Result<bool, NoMemory>
        requires { IsWalked self.old }
        ensures { IfOk result (λ holds. Steps self.old
            (λ base walk. does_hold base walk now session.now (thing_as thing.entry.now))
            (λ base walk. after_does base walk now session.now (thing_as thing.entry.now))
            holds self.new) }
    {
        match thing {
            Thing::Connected | Thing::EndedRequest | Thing::Closed | Thing::Refused => Ok(true),
            Thing::Began { settings } => {
                self.begin(session, *settings)?;
                Ok(true)
            }
            Thing::Called {
                replay,
                kept,
                call,
                answers,
                draws,
            } => self.serve(&Performed {
                session: *session,
                now,
                replay: *replay,
                kept,
                call,
                answers,
                draws,
            }),
            Thing::MetBlock { replay, call } => {
                let may = self.may_meet(now, session, *replay, call)?;
                self.service.pass(call)?;
                Ok(may)
            }
            Thing::ToldOutcome { ltxid, told } => {
                self.service.tell(ltxid, told)?;
                Ok(true)
            }
            Thing::CallStopped { replay, call } => {
                let holds = self.serve_stopped(now, session, *replay, call)?;
                self.service.stop();
                Ok(holds)
            }
            Thing::OutcomeStopped { ltxid } => {
                self.service.stop_question(ltxid)?;
                Ok(true)
            }
        }
    }

    /// A session begins a request.
    fn begin(&mut self, session: &SessionId, settings: Option<&Settings>) -> Result<(), NoMemory>
        ensures { OnOk result ((base : Base) (walk : Walk) → Walks base walk self.old
            → Walks base (begins walk session.now (settings_in settings.entry)) self.new) }
    {
        let settings = begun_with(self.alloc, settings)?;
        self.sessions
            .put(session, Ongoing::new(self.alloc, settings))?;
        Ok(())
    }

    /// A call that was stopped: it is served again where it stored an entry.
    fn serve_stopped(
        &mut self,
        now: u64,
        session: &SessionId,
        replay: bool,
        call: &'a Call,
    ) -> Result<bool, NoMemory>
        requires { IsWalked self.old }
        ensures { IfOk result (λ holds. Steps self.old
            (λ base walk. stopped_holds base walk now session.now replay call.now)
            (λ base walk. after_stopped base walk now session.now replay call.now)
            holds self.new) }
    {
        match self.service.stands(session, replay, call) {
            None => {
                self.service.stop_call(call)?;
                Ok(true)
            }
            Some(piece) => self.serve(&Performed {
                session: *session,
                now,
                replay: false,
                kept: &[],
                call,
                answers: piece.answers.as_slice(),
                draws: piece.draws.as_slice(),
            }),
        }
    }

    /// Whether a call may have met a block: it would reach its commit, without the mark, under an
    /// identifier that is or may be blocked.
    fn may_meet(
        &self,
        now: u64,
        session: &SessionId,
        replay: bool,
        call: &Call,
    ) -> Result<bool, NoMemory>
        requires { IsWalked self.now }
        ensures { IfOk result (λ may. (base : Base) (walk : Walk) → Walks base walk self.now
            → may ≡ may_be_blocked base walk now session.now replay call.now) }
    {
        if !call.has_commit() || replay {
            return Ok(false);
        }
        if !self.service.may_block(&self.service.next_of(session)) {
            return Ok(false);
        }
        self.reaches_commit(now, session, call)
    }

    /// Whether with some new values a call reaches its commit.
    fn reaches_commit(&self, now: u64, session: &SessionId, call: &Call) -> Result<bool, NoMemory>
        requires { IsWalked self.now }
        ensures { IfOk result (λ met. (base : Base) (walk : Walk) → Walks base walk self.now
            → met ≡ reaches base walk now session.now call.now) }
    {
        let going = self.sessions.probe(session)?;
        let asked = asked_by_call(self.alloc, call)?;
        let attempt = Attempt {
            alloc: self.alloc,
            tables: &self.service.tables,
            names: &self.service.names,
            going: &going,
            call,
        };
        let met = meets_with(
            self.alloc,
            &attempt,
            now,
            asked.as_slice(),
            &self.service.numbers,
        )?;
        Ok(met)
    }

    /// Serves a call again: whether it is answered, draws and stores as it has to.
    fn serve(&mut self, performed: &Performed<'_>) -> Result<bool, NoMemory>
        requires { IsWalked self.old }
        ensures { IfOk result (λ holds. Steps self.old
            (λ base walk. deed_holds base walk
            (deed base walk (Some (performed_as performed.entry.now))))
            (λ base walk. after_deed base walk
            (deed base walk (Some (performed_as performed.entry.now)))) holds self.new) }
    {
        let mut ongoing = self.sessions.take(&performed.session);
        let told = ongoing.run(&self.service, performed)?;
        let Some(answers) = told else {
            return Ok(false);
        };
        ongoing.note(self.alloc, performed)?;
        if !self.service.is_right(&ongoing, performed, answers)? {
            return Ok(false);
        }
        if !self.service.draw(performed)? {
            return Ok(false);
        }
        let ongoing = self.service.settle(ongoing, performed.answers)?;
        self.sessions.put(&performed.session, ongoing)?;
        Ok(true)
    }
}
