//! Calls that touch no store.
ghost use Rattle.std.specs.Prelude.{◌≡◌, ◌++◌, ◌∷◌, [], Some, IfOk, OnOk};
ghost use Rattle.svc_values.specs.meaning.SettingsList.{put_setting};
ghost use Rattle.svc_values.specs.declared.answer.Answer.TheVariants as answer;
ghost use Rattle.svc_values.specs.declared.call.Call.TheVariants as call_variant;
ghost use Rattle.svc_values.specs.declared.frame.Down.TheVariants as down;
ghost use Rattle.server_model.specs.Sessions.{piece_of};
ghost use Rattle.server_session.specs.SeenSession.{begun_so, started_with};

use crate::session::Session;
use std::alloc::Global;
use svc_values::{
    Answer, Answers, Call, Down, Draws, ListFault, Name, NoMemory, Piece, Settings, TryCopy, Value,
};

/// One answer.
pub(crate) fn alone(alloc: Global, answer: Answer) -> Result<Answers, NoMemory>
    ensures { IfOk result (λ answers. answers ≡ answer ∷ []) }
{
    let mut answers = Answers::new(alloc);
    match answers.push(answer) {
        Ok(()) => Ok(answers),
        Err(ListFault::NoMemory) => Err(NoMemory),
        Err(ListFault::TooMany) => unreachable!(),
    }
}

/// Keeps the settings of now as those before the transaction's first call, where none has changed
/// them yet.
fn keep_earlier(
    alloc: Global,
    earlier: &mut Option<Settings>,
    now: &Settings,
) -> Result<(), NoMemory>
    ensures { OnOk result (earlier.new ≡ Some (started_with earlier.old now.now)) }
{
    if earlier.is_none() {
        *earlier = Some(now.copy(alloc)?);
    }
    Ok(())
}

impl Session {
    /// Notes a call with its answers and draws, and answers it.
    pub(crate) fn answer(
        &mut self,
        call: &Call,
        answers: Answers,
        draws: Draws,
    ) -> Result<Down, NoMemory>
        ensures told { IfOk result (λ told. told ≡ down.Reply answers draws self.old.ltxid) }
        ensures seen { IfOk result (λ _. self.new
            ≡ record self.old {
              txn = record self.old.txn {
                pieces =
                    self.old.txn.pieces ++ piece_of call.now answers draws ∷ [];
              };
            }) }
    {
        let piece = Piece {
            call: call.copy(self.alloc)?,
            answers: answers.copy(self.alloc)?,
            draws: draws.copy(self.alloc)?,
        };
        self.txn.note(piece)?;
        Ok(Down::Reply {
            answers,
            draws,
            ltxid: self.ltxid,
        })
    }

    /// Sets a name.
    pub(crate) fn set(&mut self, call: &Call, name: &Name, value: &Value) -> Result<Down, NoMemory>
        requires { call.now ≡ call_variant.Set name.now value.now }
        ensures told { IfOk result (λ told. told
            ≡ down.Reply (answer.Done 1 ∷ []) [] self.old.ltxid) }
        ensures seen { IfOk result (λ _. self.new ≡ record self.old {
          settings =
              put_setting self.old.settings name.now value.now;
          txn =
              record self.old.txn {
                pieces =
                    self.old.txn.pieces ++ piece_of call.now (answer.Done 1 ∷ []) [] ∷ [];
              };
        }) }
    {
        keep_earlier(self.alloc, &mut self.earlier, &self.state.settings)?;
        let name = name.copy(self.alloc)?;
        let value = value.copy(self.alloc)?;
        self.state.set(name, value)?;
        let answers = alone(self.alloc, Answer::Done(1))?;
        self.answer(call, answers, Draws::new(self.alloc))
    }

    /// Asks that the request is not replayed from here on.
    pub(crate) fn disable(&mut self, call: &Call) -> Result<Down, NoMemory>
        ensures told { IfOk result (λ told. told
            ≡ down.Reply (answer.Done 0 ∷ []) [] self.old.ltxid) }
        ensures seen { IfOk result (λ _. self.new
            ≡ record self.old {
              txn = record self.old.txn {
                pieces =
                    self.old.txn.pieces ++ piece_of call.now (answer.Done 0 ∷ []) [] ∷ [];
              };
            }) }
    {
        let answers = alone(self.alloc, Answer::Done(0))?;
        self.answer(call, answers, Draws::new(self.alloc))
    }

    /// Gives up what the session has done and not committed.
    pub(crate) fn roll_back(&mut self) -> Result<Down, NoMemory>
        ensures told { IfOk result (λ told. told
            ≡ down.Reply (answer.RolledBack ∷ []) [] self.old.ltxid) }
        ensures seen { IfOk result (λ _. self.new
            ≡ begun_so self.old self.old.life self.old.settings) }
    {
        let answers = alone(self.alloc, Answer::RolledBack)?;
        self.drop_transaction();
        Ok(Down::Reply {
            answers,
            draws: Draws::new(self.alloc),
            ltxid: self.ltxid,
        })
    }
}
