//! Crashes.
ghost use Rattle.std.specs.Prelude.{◌≡◌, ◌<◌, ◌^◌, true, IfOk, OnOk, option_to_list};
ghost use Rattle.service_calls.specs.Kept.{HaveOneBase};
ghost use Rattle.world_core.specs.Making.{Makes, IsSomewhere};
ghost use Rattle.world_core.specs.Stopping.{LeadsLast};

use crate::ground::Ground;
use outage_schedule::{Event, Note, Served};
use service_calls::{ServeFault, Service};
use std::alloc::Global;
use svc_values::NoMemory;
use svc_values::laws::compares_exactly;
use world_model::laws::orderly_is_kept;

impl<S: Service + Drop> Ground<S> {
    /// Serves the frame that stands first on a connection, if one may be served there, under a stop
    /// after so many device calls, and then the server falls and leaves the image of this pick.
    /// Gives the frame's item. Where the server is down nothing happens.
    pub fn crash(
        &mut self,
        alloc: Global,
        connection: u64,
        after: u64,
        pick: u8,
    ) -> Result<(Note, Option<Served>), NoMemory>
        requires events { self.old.traffic.event < 2 ^ 45 }
        requires there { IsSomewhere (S.sees self.old.service) self.old.traffic }
        ensures made { IfOk result (λ made.
            Makes (S.sees self.old.service) self.old.traffic (S.sees self.new.service)
            self.new.traffic (Event.Crash connection after pick) made.0 (option_to_list made.1)) }
        ensures base { OnOk result
            (HaveOneBase (S.bytes self.old.service) (S.bytes self.new.service)) }
    {
        orderly_is_kept();
        if !self.service.is_up() {
            self.traffic.begin();
            let note = Note::Crash {
                connection,
                down: true,
            };
            return Ok((note, None));
        }
        let served = self.serve_last(alloc, connection, after)?;
        self.service.crash(pick);
        self.traffic.fall();
        let note = Note::Crash {
            connection,
            down: false,
        };
        Ok((note, served))
    }

    /// Begins the event, and serves the frame that stands first on a connection, if one may be
    /// served there, under a stop after so many device calls.
    fn serve_last(
        &mut self,
        alloc: Global,
        connection: u64,
        after: u64,
    ) -> Result<Option<Served>, NoMemory>
        requires events { self.old.traffic.event < 2 ^ 45 }
        requires there { IsSomewhere (S.sees self.old.service) self.old.traffic }
        requires up { (S.state self.old.service).is_up ≡ true }
        ensures led { IfOk result (λ served.
            LeadsLast (S.sees self.old.service) self.old.traffic (S.sees self.new.service)
            (S.leaves self.new.service) self.new.traffic connection after (option_to_list served)) }
        ensures base { OnOk result
            (HaveOneBase (S.bytes self.old.service) (S.bytes self.new.service)) }
    {
        compares_exactly();
        self.traffic.begin();
        self.service.stop_after(Some(after));
        let first = self.traffic.first_up(connection)?;
        let Some(frame) = first else {
            return Ok(None);
        };
        match self
            .service
            .serve(alloc, connection, &frame, self.traffic.tick)
        {
            Ok(reply) => {
                let served = self.traffic.answer(connection, frame, reply)?;
                Ok(Some(served))
            }
            Err(ServeFault::Stopped) => {
                let served = self.traffic.stop(connection, frame)?;
                Ok(Some(served))
            }
            Err(ServeFault::NoMemory) => Err(NoMemory),
        }
    }
}
