//! A frame, served.
ghost use Rattle.std.specs.Prelude.{◌≡◌, ◌+◌, true, false, OnErr, IsErrOf};
ghost use Rattle.svc_values.specs.meaning.Calls.{sequences_in};
ghost use Rattle.canon_bytes.specs.UpBytes.{IsMadeUp};
ghost use Rattle.server_model.specs.ServiceCalls.{may_store};
ghost use Rattle.server_session.specs.Fits.{Fits, Belongs};
ghost use Rattle.server_session.specs.SeenSession.{is_alive};
ghost use Rattle.server_session.specs.Serving.{Serves, served_as};

use crate::session::Session;
use crate::shared::Core;
use disk_model::Disk;
use server_model::ServeFault;
use svc_values::{Call, Down, Up};

impl Session {
    /// Serves one frame at a tick, and gives the frame that answers it: none for Begin, End and
    /// Close.
    ///
    /// Values that are drawn, blocks, lines and commits are stored before they are told. As long as
    /// its answer is not out, a frame that stored something may be taken as one that was stopped,
    /// behind any of its records or before all. After a fault the session has ended. Frames without
    /// a call cost no more than the settings that they carry, and an outcome the logarithm of the
    /// sessions.
    pub fn serve<D: Disk>(
        &mut self,
        core: &mut Core,
        disk: &mut D,
        frame: &Up,
        now: u64,
    ) -> Result<Option<Down>, ServeFault>
        requires lives { is_alive self.old.life ≡ true }
        requires fits { Fits core.old (D.state disk.old) }
        requires belongs { Belongs core.old self.old }
        requires made { IsMadeUp frame.now }
        ensures served { Serves (served_as frame.now now) (1 + sequences_in frame.now) result
            self.old core.old (D.state disk.old) self.new core.new (D.state disk.new) }
        ensures ended { OnErr result (is_alive self.new.life ≡ false) }

        // A frame that stores nothing is never stopped, and makes no device call.
        ensures silent { may_store frame.now ≡ false → (D.state disk.new ≡ D.state disk.old)
            × (IsErrOf result ServeFault.Stopped → ⊥) }
    {
        match self.answer_frame(core, disk, frame, now) {
            Ok(told) => Ok(told),
            Err(fault) => {
                self.close();
                Err(fault)
            }
        }
    }

    /// The same, but that a session lives on after a fault.
    fn answer_frame<D: Disk>(
        &mut self,
        core: &mut Core,
        disk: &mut D,
        frame: &Up,
        now: u64,
    ) -> Result<Option<Down>, ServeFault>
        requires lives { is_alive self.old.life ≡ true }
        requires fits { Fits core.old (D.state disk.old) }
        requires belongs { Belongs core.old self.old }
        requires made { IsMadeUp frame.now }
        ensures served { Serves (served_as frame.now now) (1 + sequences_in frame.now) result
            self.old core.old (D.state disk.old) self.new core.new (D.state disk.new) }
        ensures silent { may_store frame.now ≡ false → (D.state disk.new ≡ D.state disk.old)
            × (IsErrOf result ServeFault.Stopped → ⊥) }
    {
        if self.is_out_of_order(frame) {
            self.close();
            return Ok(Some(Down::Refused { cause: 2 }));
        }
        match frame {
            Up::Connect => Ok(Some(self.connect())),
            Up::Begin { settings } => {
                self.begin(settings)?;
                Ok(None)
            }
            Up::End => {
                self.end();
                Ok(None)
            }
            Up::Close => {
                self.close();
                Ok(None)
            }
            Up::Outcome { ltxid } => self.outcome(core, disk, ltxid),
            Up::Call { replay, kept, call } => self.call(core, disk, *replay, kept, call, now),
        }
    }
}
