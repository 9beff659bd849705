//! Identifiers, sessions, entries and tables.
ghost use Rattle.report_limits.specs.meaning.Limits.{fits_identifier, fits_session};
ghost use Rattle.report_limits.specs.meaning.Reports.{fits_table, entry_fits, piece_fits};
ghost use Rattle.report_text.specs.meaning.Octets.{EntryOfBytes, PieceOfBytes, TableOfBytes};

use crate::kept::{Kept, number_kept};
use crate::value::name_kept;
use outage_schedule::ReportTable;
use svc_values::{Entry, Ltxid, Piece, SessionId};

impl Kept for Ltxid {
    ghost fits = { fits_identifier };

    fn kept(&self) {
        number_kept(self.incarnation);
        number_kept(self.session);
        number_kept(self.number);
    }
}

impl Kept for SessionId {
    ghost fits = { fits_session };

    fn kept(&self) {
        number_kept(self.incarnation);
        number_kept(self.session);
    }
}

impl Kept for Piece {
    ghost fits = { piece_fits };

    ghost octets = { PieceOfBytes };

    fn kept(&self) {
        self.call.kept();
        self.answers.kept();
        self.draws.kept();
    }
}

impl Kept for Entry {
    ghost fits = { entry_fits };

    ghost octets = { EntryOfBytes };

    fn kept(&self) {
        self.ltxid.kept();
        self.settings.kept();
        self.pieces.kept();
    }
}

impl Kept for ReportTable {
    ghost fits = { fits_table };

    ghost octets = { TableOfBytes };

    fn kept(&self) {
        name_kept(&self.name);
        self.rows.kept();
    }
}
