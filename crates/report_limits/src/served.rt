//! What sessions served.
ghost use Rattle.report_limits.specs.meaning.Notes.{fits_told};
ghost use Rattle.report_limits.specs.meaning.Reports.{item_fits, served_fits};
ghost use Rattle.report_text.specs.meaning.Octets.{ItemOfBytes, ServedOfBytes};

use crate::kept::{Kept, number_kept};
use outage_schedule::{AskResult, Item, Served};

impl Kept for AskResult {
    ghost fits = { fits_told };

    fn kept(&self) {
        match self {
            AskResult::Committed { .. } | AskResult::Uncommitted => {}
            AskResult::ServerAhead { next } | AskResult::ClientAhead { next } => number_kept(*next),
            AskResult::Forgotten { horizon } => number_kept(*horizon),
        }
    }
}

impl Kept for Item {
    ghost fits = { item_fits };

    ghost octets = { ItemOfBytes };

    fn kept(&self) {
        match self {
            Item::Begin { settings } => settings.kept(),
            Item::Call {
                call,
                answers,
                draws,
                ..
            } => {
                call.kept();
                answers.kept();
                draws.kept();
            }
            Item::Blocked { call } | Item::CrashedCall { call, .. } => call.kept(),
            Item::Outcome { ltxid, result } => {
                ltxid.kept();
                result.kept();
            }
            Item::CrashedOutcome { ltxid } => ltxid.kept(),
            Item::Connect | Item::End | Item::Close | Item::Refused { .. } => {}
        }
    }
}

impl Kept for Served {
    ghost fits = { served_fits };

    ghost octets = { ServedOfBytes };

    fn kept(&self) {
        number_kept(self.event);
        self.session.kept();
        self.item.kept();
    }
}
