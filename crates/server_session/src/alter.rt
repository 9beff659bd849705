//! A line for whoever watches the service.
ghost use Rattle.std.specs.Prelude.{◌≡◌, ◌+◌, ℕ, List};
ghost use Rattle.svc_values.specs.declared.call.Call.TheVariants as call_variant;
ghost use Rattle.svc_values.specs.declared.draw.Draw.{Draw as One};
ghost use Rattle.svc_values.specs.declared.frame.Up.TheVariants as up;
ghost use Rattle.svc_values.specs.meaning.Calls.{sequences_in};
ghost use Rattle.commit_log.specs.declared.records.Record.TheVariants as kept_record;
ghost use Rattle.server_session.specs.Fits.{Fits, Belongs};
ghost use Rattle.server_session.specs.Serving.{Serves, called_as};
ghost use Rattle.server_session.specs.Storing.{Stores};

use crate::calls::alone;
use crate::session::Session;
use crate::shared::Core;
use crate::store::stored;
use disk_model::Disk;
use server_model::ServeFault;
use svc_values::{Answer, Call, Down, Draws, Text};

/// Stores a line.
fn store_line<D: Disk>(core: &mut Core, disk: &mut D, line: &Text) -> Result<(), ServeFault>
    requires { Fits core.old (D.state disk.old) }
    ensures { Stores (kept_record.Alert line.now) result core.old (D.state disk.old) core.new
        (D.state disk.new) }
{
    stored(core.log.alert(disk, line))
}

impl Session {
    /// Stores a line and answers that it is stored. In a replay it is out of order.
    pub(crate) fn alter<D: Disk>(
        &mut self,
        core: &mut Core,
        disk: &mut D,
        replay: bool,
        call: &Call,
        line: &Text,
    ) -> Result<Option<Down>, ServeFault>
        requires call { call.now ≡ call_variant.Alter line.now }
        requires fits { Fits core.old (D.state disk.old) }
        requires belongs { Belongs core.old self.old }
        ensures { (kept : List One) (now : ℕ)
            → Serves (called_as replay kept call.now now)
            (1 + sequences_in (up.Call replay kept call.now)) result self.old core.old
            (D.state disk.old) self.new core.new (D.state disk.new) }
    {
        if replay {
            self.close();
            return Ok(Some(Down::Refused { cause: 2 }));
        }
        store_line(core, disk, line)?;
        let answers = alone(self.alloc, Answer::Done(1))?;
        let told = self.answer(call, answers, Draws::new(self.alloc))?;
        Ok(Some(told))
    }
}
