//! The records of a journal, and their bytes.
ghost use Rattle.std.specs.Prelude.{◌≡◌, ◌≤◌, ◌++◌, length, IfOk, IfSome, OnOk};
ghost use Rattle.redo_store.specs.Records.{payload_in};
ghost use Rattle.commit_log.specs.meaning.RecordBytes.{reservation_at, record_at};
ghost use Rattle.commit_log.specs.RecordBytes.{spell_reservation, FitsReservation, reservation_again, spell_record, FitsRecord, record_again, IsMadeRecord};
ghost use Rattle.commit_log.specs.meaning.Journals.{whole_record};
ghost use Rattle.commit_log.specs.Adding.{record_in};

use crate::base::Base;
use crate::journal::Reservation;
use canon_bytes::{Fault, Put, PutMade, ReadFault, Take};
use std::alloc::Global;
use svc_values::{Entry, Ltxid, Name, NoMemory, Text};

/// A record of a journal: the base, an opening with its incarnation, a committed transaction, an
/// identifier that can commit no more, a reservation of a sequence, a line of text, or the
/// incarnation below which sessions are forgotten.
#[derive(PartialEq, Eq, Drop)]
pub enum Record {
    Base(Base),
    Opened(u64),
    Commit(Entry),
    Blocked(Ltxid),
    Reserved(Reservation),
    Alert(Text),
    Horizon(u64),
}

// A record that is to be stored.
#[derive(Clone, Copy)]
pub enum Adding<'a> {
    Base(&'a Base),
    Opened(u64),
    Commit(&'a Entry),
    Blocked(&'a Ltxid),
    Reserved(&'a Name, i64),
    Alert(&'a Text),
    Horizon(u64),
}

#[tactic(auto, unfolding(crate::specs::meaning::RecordBytes::reservation_at, crate::specs::RecordBytes::spell_reservation))]
impl Take for Reservation {
    ghost spelling = { spell_reservation };

    ghost fits = { FitsReservation };

    ghost reading = { reservation_at };

    ghost again = { reservation_again };

    fn take(alloc: Global, bytes: &[u8]) -> Result<(Reservation, &[u8]), ReadFault> {
        let (name, rest) = Name::take(alloc, bytes)?;
        let (upto, rest) = i64::take(alloc, rest)?;
        Ok((Reservation { name, upto }, rest))
    }
}

#[tactic(auto, unfolding(crate::specs::meaning::RecordBytes::record_at))]
impl Take for Record {
    ghost spelling = { spell_record };

    ghost fits = { FitsRecord };

    ghost reading = { record_at };

    ghost again = { record_again };

    fn take(alloc: Global, bytes: &[u8]) -> Result<(Record, &[u8]), ReadFault> {
        match bytes {
            [] => Err(ReadFault::Fault(Fault::Short)),
            [1, rest @ ..] => {
                let (base, rest) = Base::take(alloc, rest)?;
                Ok((Record::Base(base), rest))
            }
            [2, rest @ ..] => {
                let (incarnation, rest) = u64::take(alloc, rest)?;
                Ok((Record::Opened(incarnation), rest))
            }
            [3, rest @ ..] => {
                let (entry, rest) = Entry::take(alloc, rest)?;
                Ok((Record::Commit(entry), rest))
            }
            [4, rest @ ..] => {
                let (x, rest) = Ltxid::take(alloc, rest)?;
                Ok((Record::Blocked(x), rest))
            }
            [5, rest @ ..] => {
                let (reservation, rest) = Reservation::take(alloc, rest)?;
                Ok((Record::Reserved(reservation), rest))
            }
            [6, rest @ ..] => {
                let (line, rest) = Text::take(alloc, rest)?;
                Ok((Record::Alert(line), rest))
            }
            [7, rest @ ..] => {
                let (horizon, rest) = u64::take(alloc, rest)?;
                Ok((Record::Horizon(horizon), rest))
            }
            _ => Err(ReadFault::Fault(Fault::BadTag(bytes.len()))),
        }
    }
}

// The record that the whole bytes spell, or none.
pub fn record_of(alloc: Global, payload: &[u8]) -> Result<Option<Record>, NoMemory>
    ensures exact { IfOk result (λ found. found ≡ whole_record payload.now) }
    ensures fitting { IfOk result (λ found. IfSome found FitsRecord) }
{
    match Record::take(alloc, payload) {
        Err(ReadFault::NoMemory) => Err(NoMemory),
        Err(ReadFault::Fault(_)) => Ok(None),
        Ok((_, [_, ..])) => Ok(None),
        Ok((record, [])) => Ok(Some(record)),
    }
}

// Writes the spelling of a reservation at the end. After want of memory a part of it may stand
// there.
#[tactic(auto, unfolding(crate::specs::RecordBytes::spell_reservation))]
fn put_reservation(name: &Name, upto: i64, out: &mut Vec<u8>) -> Result<(), NoMemory>
    ensures written { OnOk result (out.new.items ≡ out.old.items
        ++ spell_reservation (record { name = name.now; upto = upto })) }
    ensures fitting { OnOk result (FitsReservation (record { name = name.now; upto = upto })) }
{
    name.put(out)?;
    upto.put(out)
}

// Writes the spelling of a record at the end. After want of memory a part of it may stand there.
fn put_record(adding: Adding, out: &mut Vec<u8>) -> Result<(), NoMemory>
    requires { IsMadeRecord (record_in adding) }
    ensures written { OnOk result (out.new.items ≡ out.old.items
        ++ spell_record (record_in adding.entry)) }
    ensures fitting { OnOk result (FitsRecord (record_in adding.entry)) }
{
    match adding {
        Adding::Base(base) => {
            out.push(1)?;
            base.put(out)
        }
        Adding::Opened(incarnation) => {
            out.push(2)?;
            incarnation.put(out)
        }
        Adding::Commit(entry) => {
            out.push(3)?;
            entry.put_made(out)
        }
        Adding::Blocked(x) => {
            out.push(4)?;
            x.put_made(out)
        }
        Adding::Reserved(name, upto) => {
            out.push(5)?;
            put_reservation(name, upto, out)
        }
        Adding::Alert(line) => {
            out.push(6)?;
            line.put(out)
        }
        Adding::Horizon(horizon) => {
            out.push(7)?;
            horizon.put(out)
        }
    }
}

// The bytes of a record, behind eight in whose place the store writes their number.
pub fn made_of(alloc: Global, adding: Adding) -> Result<Vec<u8>, NoMemory>
    requires { IsMadeRecord (record_in adding) }
    ensures payload { IfOk result (λ made. payload_in made.items
        ≡ spell_record (record_in adding.entry)) }
    ensures room { IfOk result (λ made. 8 ≤ length made.items) }
    ensures fitting { OnOk result (FitsRecord (record_in adding.entry)) }
{
    let mut made = Vec::new(alloc);
    made.extend_from_slice(&[0; 8])?;
    put_record(adding, &mut made)?;
    Ok(made)
}
