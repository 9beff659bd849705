//! Identifiers of transactions, and what the journal keeps of a transaction.
ghost use Rattle.std.specs.Prelude.{◌≡◌, ◌≤◌, ◌^◌, ◌++◌, IfOk};
ghost use Rattle.svc_values.specs.Identifiers.{IsLtxid};
ghost use Rattle.canon_bytes.specs.meaning.Numbers.{spell_u64};
ghost use Rattle.canon_bytes.specs.meaning.Entries.{spell_ltxid, part_at, ltxid_at, piece_at, write_at, entry_at};
ghost use Rattle.canon_bytes.specs.Entries.{spell_piece, spell_write, spell_entry, FitsLtxid, FitsPiece, FitsWrite, FitsEntry, IsMadePiece, IsMadeEntry};
ghost use Rattle.canon_bytes.specs.Reading.{IsReading};
ghost use Rattle.canon_bytes.specs.EntriesAgain.{ltxid_again, piece_again, write_again, entry_again};

use crate::canon::{Put, PutMade, Take};
use crate::fault::{Fault, ReadFault};
use std::alloc::Global;
use svc_values::{
    Answers, Call, Draws, Entry, Ltxid, Name, NoMemory, Piece, Pieces, Row, Settings, Value, Write,
    Writes,
};

/// A part of an identifier.
#[tactic(auto, unfolding(crate::specs::meaning::Entries::part_at))]
fn take_part(alloc: Global, bytes: &[u8]) -> Result<(u64, &[u8]), ReadFault>
    ensures exact { IsReading (λ x. (x.0, x.1.now)) result (part_at bytes.now) }
    ensures found { IfOk result (λ x. bytes.now ≡ spell_u64 x.0 ++ x.1.now) }
    ensures within { IfOk result (λ x. x.0 ≤ 2 ^ 63) }
{
    let (part, rest) = u64::take(alloc, bytes)?;
    if part > 1 << 63 {
        return Err(ReadFault::Fault(Fault::BadPart(bytes.len())));
    }
    Ok((part, rest))
}

#[tactic(auto, unfolding(crate::specs::meaning::Entries::ltxid_at, crate::specs::meaning::Entries::spell_ltxid))]
impl Take for Ltxid {
    ghost spelling = { spell_ltxid };

    ghost fits = { FitsLtxid };

    ghost reading = { ltxid_at };

    ghost again = { ltxid_again };

    fn take(alloc: Global, bytes: &[u8]) -> Result<(Ltxid, &[u8]), ReadFault> {
        let (incarnation, rest) = take_part(alloc, bytes)?;
        let (session, rest) = take_part(alloc, rest)?;
        let (number, rest) = take_part(alloc, rest)?;
        let ltxid = Ltxid {
            incarnation,
            session,
            number,
        };
        Ok((ltxid, rest))
    }
}

#[tactic(auto, unfolding(crate::specs::meaning::Entries::spell_ltxid))]
impl PutMade for Ltxid {
    ghost made = { IsLtxid };

    fn put_made(&self, out: &mut Vec<u8>) -> Result<(), NoMemory> {
        self.incarnation.put(out)?;
        self.session.put(out)?;
        self.number.put(out)
    }
}

#[tactic(auto, unfolding(crate::specs::meaning::Entries::piece_at, crate::specs::Entries::spell_piece))]
impl Take for Piece {
    ghost spelling = { spell_piece };

    ghost fits = { FitsPiece };

    ghost reading = { piece_at };

    ghost again = { piece_again };

    fn take(alloc: Global, bytes: &[u8]) -> Result<(Piece, &[u8]), ReadFault> {
        let (call, rest) = Call::take(alloc, bytes)?;
        let (answers, rest) = Answers::take(alloc, rest)?;
        let (draws, rest) = Draws::take(alloc, rest)?;
        let piece = Piece {
            call,
            answers,
            draws,
        };
        Ok((piece, rest))
    }
}

#[tactic(auto, unfolding(crate::specs::Entries::spell_piece))]
impl PutMade for Piece {
    ghost made = { IsMadePiece };

    fn put_made(&self, out: &mut Vec<u8>) -> Result<(), NoMemory> {
        self.call.put_made(out)?;
        self.answers.put(out)?;
        self.draws.put(out)
    }
}

#[tactic(auto, unfolding(crate::specs::meaning::Entries::write_at, crate::specs::Entries::spell_write))]
impl Take for Write {
    ghost spelling = { spell_write };

    ghost fits = { FitsWrite };

    ghost reading = { write_at };

    ghost again = { write_again };

    fn take(alloc: Global, bytes: &[u8]) -> Result<(Write, &[u8]), ReadFault> {
        let (table, rest) = Name::take(alloc, bytes)?;
        let (key, rest) = Value::take(alloc, rest)?;
        let (row, rest) = <Option<Row> as Take>::take(alloc, rest)?;
        Ok((Write { table, key, row }, rest))
    }
}

#[tactic(auto, unfolding(crate::specs::Entries::spell_write))]
impl Put for Write {
    fn put(&self, out: &mut Vec<u8>) -> Result<(), NoMemory> {
        self.table.put(out)?;
        self.key.put(out)?;
        self.row.put(out)
    }
}

#[tactic(auto, unfolding(crate::specs::meaning::Entries::entry_at, crate::specs::Entries::spell_entry))]
impl Take for Entry {
    ghost spelling = { spell_entry };

    ghost fits = { FitsEntry };

    ghost reading = { entry_at };

    ghost again = { entry_again };

    fn take(alloc: Global, bytes: &[u8]) -> Result<(Entry, &[u8]), ReadFault> {
        let (ltxid, rest) = Ltxid::take(alloc, bytes)?;
        let (completed, rest) = bool::take(alloc, rest)?;
        let (settings, rest) = Settings::take(alloc, rest)?;
        let (pieces, rest) = Pieces::take(alloc, rest)?;
        let (writes, rest) = Writes::take(alloc, rest)?;
        let entry = Entry {
            ltxid,
            completed,
            settings,
            pieces,
            writes,
        };
        Ok((entry, rest))
    }
}

#[tactic(auto, unfolding(crate::specs::Entries::spell_entry))]
impl PutMade for Entry {
    ghost made = { IsMadeEntry };

    fn put_made(&self, out: &mut Vec<u8>) -> Result<(), NoMemory> {
        self.ltxid.put_made(out)?;
        self.completed.put(out)?;
        self.settings.put(out)?;
        self.pieces.put_made(out)?;
        self.writes.put(out)
    }
}
