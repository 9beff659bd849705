//! Items with their places in a report.
ghost use Rattle.std.specs.Prelude.{◌≡◌};
ghost use Rattle.plain_items.specs.Views.{thing_as};
ghost use Rattle.server_model.specs.meaning.Items.{AskTold};
ghost use Rattle.shown_clauses.specs.meaning.LegalItems.{did_at};
ghost use Rattle.shown_clauses.specs.meaning.Things.{outcome_of};
ghost use Rattle.legal_items.specs.Views.{placed_as};

use outage_schedule::AskResult;
use plain_items::{Item, Thing};
use report_moments::At;
use svc_values::{Ltxid, SessionId};

/// An item, and where the report tells it: in a served item, or in a note.
#[derive(Clone, Copy)]
pub struct PlacedItem<'a> {
    pub at: At,
    pub item: Item<'a>,
}

/// An event with the ticks before it, and where the report tells of it.
#[derive(Clone, Copy)]
pub(crate) struct When {
    pub(crate) at: At,
    pub(crate) event: u64,
    pub(crate) tick: u64,
}

impl When {
    /// What a session did then.
    pub(crate) fn did<'a>(&self, session: SessionId, thing: Thing<'a>) -> PlacedItem<'a>
        ensures { placed_as result
            ≡ (self.now.at, did_at self.now.event self.now.tick session (thing_as thing.entry)) }
    {
        PlacedItem {
            at: self.at,
            item: Item::Did {
                event: self.event,
                now: self.tick,
                session,
                thing,
            },
        }
    }

    /// What was told then of an identifier.
    pub(crate) fn told<'a>(&self, ltxid: Ltxid, told: AskResult) -> PlacedItem<'a>
        ensures { placed_as result ≡ (self.now.at, AskTold self.now.event ltxid (outcome_of told)) }
    {
        PlacedItem {
            at: self.at,
            item: Item::AskTold {
                event: self.event,
                ltxid,
                told,
            },
        }
    }
}
