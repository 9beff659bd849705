//! Entries.
ghost use Rattle.report_text.specs.meaning.Entries.{piece_value, entry_value};

use crate::answer::{answers_written, draws_written};
use crate::call::CallWriter;
use crate::identifier::{LtxidWriter, settings_written};
use crate::part::list_member;
use json_form::{TextWriter, Writer};
use std::alloc::{AllocError, Global};
use svc_values::{Entry, Piece};

struct PieceWriter;

impl Writer<Piece> for PieceWriter {
    ghost writes = { λ s. piece_value };

    #[tactic(auto, unfolding(crate::specs::meaning::Entries::piece_value))]
    fn write(&self, alloc: Global, item: &Piece, out: &mut TextWriter) -> Result<(), AllocError> {
        out.begin_array()?;
        CallWriter.write(alloc, &item.call, out)?;
        answers_written(alloc, &item.answers, out)?;
        draws_written(alloc, &item.draws, out)?;
        out.end_array()
    }
}

// The writes of an entry are not shown.
pub(crate) struct EntryWriter;

impl Writer<Entry> for EntryWriter {
    ghost writes = { λ s. entry_value };

    #[tactic(auto, unfolding(crate::specs::meaning::Entries::entry_value))]
    fn write(&self, alloc: Global, item: &Entry, out: &mut TextWriter) -> Result<(), AllocError> {
        out.begin_object()?;
        out.name("completed")?;
        out.flag(item.completed)?;
        out.name("ltxid")?;
        LtxidWriter.write(alloc, &item.ltxid, out)?;
        list_member(alloc, "pieces", &item.pieces, &PieceWriter, out)?;
        out.name("settings")?;
        settings_written(alloc, &item.settings, out)?;
        out.end_object()
    }
}
