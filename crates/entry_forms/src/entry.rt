//! Readers of entries and tables.
ghost use Rattle.std.specs.Prelude.{◌<◌, length, IfSome};
ghost use Rattle.json_form.specs.Streams.{Begins};
ghost use Rattle.entry_forms.specs.meaning.Entries.{piece_in, pieces_in, entry_in, entries_in, table_rows_in, table_in, tables_in};

use crate::object_ahead::member_next;
use answer_forms::{
    AnswersReader, CALL, DrawsReader, KnownRows, LtxidReader, RowReader, SettingsReader,
};
use call_forms::{NameReader, list_ahead};
use json_form::{
    DocFault, Flag, Reader, array_begins, fixed, last_ahead, list_from, object_begins, object_ends,
    object_with,
};
use outage_schedule::{DocRows, ReportEntries, ReportTable, ReportTables};
use serde_json::Value as Json;
use std::alloc::Global;
use svc_values::{Entry, Listed, Piece, Pieces};

/// Reads a call of an entry.
#[derive(Clone, Copy)]
struct PieceReader<'a> {
    known: &'a KnownRows,
}

impl Reader<Piece> for PieceReader<'_> {
    ghost reads = { λ s. piece_in };

    #[tactic(auto, unfolding(crate::specs::meaning::Entries::piece_in), using(json_form::proofs::Offered::others_stay))]
    fn read(&self, alloc: Global, value: Json) -> Result<Piece, DocFault> {
        let mut parts = fixed(alloc, value, 3)?;
        let call = parts.read(alloc, 0, &CALL)?;
        let answers = parts.read(
            alloc,
            1,
            &AnswersReader {
                known: Some(self.known),
            },
        )?;
        let draws = parts.read(alloc, 2, &DrawsReader)?;
        Ok(Piece {
            call,
            answers,
            draws,
        })
    }

    fn ahead(&self, alloc: Global, tokens: &mut json::Reader<'_>, depth: usize) -> Option<Piece> {
        let known = Some(self.known);
        let inside = array_begins(tokens, depth)?;
        let call = CALL.ahead(alloc, tokens, inside)?;
        let answers = AnswersReader { known }.ahead(alloc, tokens, inside)?;
        let draws = last_ahead(alloc, tokens, inside, &DrawsReader)?;
        Some(Piece {
            call,
            answers,
            draws,
        })
    }
}

/// Reads the calls of an entry, in order.
#[derive(Clone, Copy)]
struct PiecesReader<'a> {
    known: &'a KnownRows,
}

impl Reader<Pieces> for PiecesReader<'_> {
    ghost reads = { λ s. pieces_in };

    fn read(&self, alloc: Global, value: Json) -> Result<Pieces, DocFault> {
        let pieces = list_from(alloc, value, &PieceReader { known: self.known })?;
        Ok(Listed::from_vec(pieces))
    }

    fn ahead(&self, alloc: Global, tokens: &mut json::Reader<'_>, depth: usize) -> Option<Pieces> {
        let pieces = list_ahead(alloc, tokens, depth, &PieceReader { known: self.known })?;
        Some(Listed::from_vec(pieces))
    }
}

const MEMBERS: [&str; 4] = ["completed", "ltxid", "pieces", "settings"];

/// Reads an entry, which shows no writes. Known rows are held once.
#[derive(Clone, Copy)]
struct EntryReader<'a> {
    known: &'a KnownRows,
}

impl Reader<Entry> for EntryReader<'_> {
    ghost reads = { λ s. entry_in };

    #[tactic(auto, unfolding(crate::specs::meaning::Entries::entry_in), using(json_form::proofs::Offered::others_stay))]
    fn read(&self, alloc: Global, value: Json) -> Result<Entry, DocFault> {
        let mut members = object_with(alloc, value, &MEMBERS)?;
        members.require(alloc, &MEMBERS)?;
        let completed = members.read(alloc, "completed", &Flag)?;
        let ltxid = members.read(alloc, "ltxid", &LtxidReader)?;
        let pieces = members.read(alloc, "pieces", &PiecesReader { known: self.known })?;
        let settings = members.read(alloc, "settings", &SettingsReader)?;
        Ok(Entry {
            ltxid,
            completed,
            settings,
            pieces,
            writes: Listed::new(alloc),
        })
    }

    fn ahead(&self, alloc: Global, tokens: &mut json::Reader<'_>, depth: usize) -> Option<Entry> {
        let reader = PiecesReader { known: self.known };
        let inside = object_begins(tokens, depth)?;
        let completed = member_next(alloc, tokens, inside, "completed", &Flag)?;
        let ltxid = member_next(alloc, tokens, inside, "ltxid", &LtxidReader)?;
        let pieces = member_next(alloc, tokens, inside, "pieces", &reader)?;
        let settings = member_next(alloc, tokens, inside, "settings", &SettingsReader)?;
        object_ends(tokens)?;
        Some(Entry {
            ltxid,
            completed,
            settings,
            pieces,
            writes: Listed::new(alloc),
        })
    }
}

/// Reads the entries of a run, in order.
#[derive(Clone, Copy)]
pub struct EntriesReader<'a> {
    pub known: &'a KnownRows,
}

impl Reader<ReportEntries> for EntriesReader<'_> {
    ghost reads = { λ s. entries_in };

    fn read(&self, alloc: Global, value: Json) -> Result<ReportEntries, DocFault> {
        let entries = list_from(alloc, value, &EntryReader { known: self.known })?;
        Ok(Listed::from_vec(entries))
    }
}

/// The entries that `EntriesReader` reads, each read as soon as its tokens are passed.
pub fn entries_ahead(
    alloc: Global,
    tokens: &mut json::Reader<'_>,
    depth: usize,
    known: &KnownRows,
) -> Option<ReportEntries>
    ensures read { IfSome result
        (λ entries. Begins entries_in depth tokens.old entries tokens.new) }
    ensures shorter { IfSome result (λ _. length tokens.new < length tokens.old) }
{
    let entries = list_ahead(alloc, tokens, depth, &EntryReader { known })?;
    Some(Listed::from_vec(entries))
}

/// Reads the rows of a table, in order.
struct TableRowsReader;

impl Reader<DocRows> for TableRowsReader {
    ghost reads = { λ s. table_rows_in };

    fn read(&self, alloc: Global, value: Json) -> Result<DocRows, DocFault> {
        let rows = list_from(alloc, value, &RowReader)?;
        Ok(Listed::from_vec(rows))
    }
}

/// Reads a table.
struct TableReader;

impl Reader<ReportTable> for TableReader {
    ghost reads = { λ s. table_in };

    #[tactic(auto, unfolding(crate::specs::meaning::Entries::table_in), using(json_form::proofs::Offered::others_stay))]
    fn read(&self, alloc: Global, value: Json) -> Result<ReportTable, DocFault> {
        let mut parts = fixed(alloc, value, 2)?;
        let name = parts.read(alloc, 0, &NameReader)?;
        let rows = parts.read(alloc, 1, &TableRowsReader)?;
        Ok(ReportTable { name, rows })
    }
}

/// Reads the tables, in order.
pub struct TablesReader;

impl Reader<ReportTables> for TablesReader {
    ghost reads = { λ s. tables_in };

    fn read(&self, alloc: Global, value: Json) -> Result<ReportTables, DocFault> {
        let tables = list_from(alloc, value, &TableReader)?;
        Ok(Listed::from_vec(tables))
    }
}

/// The tables that `TablesReader` reads, each read as soon as its tokens are passed.
pub fn tables_ahead(
    alloc: Global,
    tokens: &mut json::Reader<'_>,
    depth: usize,
) -> Option<ReportTables>
    ensures read { IfSome result (λ tables. Begins tables_in depth tokens.old tables tokens.new) }
    ensures shorter { IfSome result (λ _. length tokens.new < length tokens.old) }
{
    let tables = list_ahead(alloc, tokens, depth, &TableReader)?;
    Some(Listed::from_vec(tables))
}
