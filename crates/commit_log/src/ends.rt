//! Where the values of each sequence end that were set aside so far.
ghost use Rattle.std.specs.Prelude.{◌≡◌, ◌+ℤ◌, ◌++◌, [], ◌∷◌, IfOk, IsTrue, List, length, map, if◌then◌else◌};
ghost use Rattle.std.specs.List.{list_all, list_any};
ghost use Rattle.std.specs.Ordering.{int_eq};
ghost use Rattle.std.specs.Str.{bytes_eq};
ghost use Rattle.commit_log.specs.declared.journal.Reservation.{Reservation as Part};
ghost use Rattle.commit_log.specs.meaning.Bases.{is_sequence};
ghost use Rattle.commit_log.specs.meaning.Rules.{reservation_size, end_of, is_next_reservation};

use crate::base::BaseSequence;
use crate::journal::{Journal, Reservation};
use std::alloc::Global;
use svc_values::NoMemory;

// How many values of a sequence are set aside at once.
const RESERVATION_SIZE: i64 = 16;

// Where they end before the first reservation: ahead of each start.
pub fn first_ends(alloc: Global, sequences: &[BaseSequence]) -> Result<Vec<i64>, NoMemory>
    requires { IsTrue (list_all is_sequence sequences.now) }
    ensures { IfOk result (λ ends. ends.items ≡ map (end_of []) sequences.now) }
{
    let mut ends = Vec::new(alloc);
    for sequence in sequences {
        ends.push(sequence.start - 1)?;
    }
    Ok(ends)
}

// Whether a reservation of a sequence whose values end here ends there.
fn follows(end: i64, upto: i64) -> bool
    ensures { result ≡ int_eq upto (end +ℤ reservation_size) }
{
    match end.checked_add(RESERVATION_SIZE) {
        Some(next) => upto == next,
        None => false,
    }
}

// Whether the reservation is the next one of one of the sequences.
pub fn is_next(sequences: &[BaseSequence], ends: &[i64], reservation: &Reservation) -> bool
    ensures { (reservations : List Part) → ends.now ≡ map (end_of reservations) sequences.now
        → result ≡ list_any (is_next_reservation reservations reservation.now) sequences.now }
{
    let [sequence, sequences @ ..] = sequences else {
        return false;
    };
    let [end, ends @ ..] = ends else {
        return false;
    };
    (sequence.name == reservation.name && follows(*end, reservation.upto))
        || is_next(sequences, ends, reservation)
}

// Where the values of the sequence end after the reservation, which may be one of another sequence.
fn end_after(sequence: &BaseSequence, end: i64, reservation: &Reservation) -> i64
    ensures { result ≡ (if bytes_eq reservation.now.name sequence.now.name then
        reservation.now.upto else end) }
{
    if reservation.name == sequence.name {
        reservation.upto
    } else {
        end
    }
}

// Notes the reservation.
pub fn note(sequences: &[BaseSequence], ends: &mut [i64], reservation: &Reservation)
    requires { length ends.old ≡ length sequences.now }
    ensures { (reservations : List Part) → ends.old ≡ map (end_of reservations) sequences.now
        → ends.new ≡ map (end_of (reservations ++ reservation.now ∷ [])) sequences.now }
{
    for (place, sequence) in sequences.iter().enumerate() {
        ends[place] = end_after(sequence, ends[place], reservation);
    }
}

impl Journal {
    /// Where the values of the sequence end that were set aside: with its last reservation, or just
    /// before its start. Linear in the reservations of the journal.
    pub fn end_of(&self, sequence: &BaseSequence) -> i64
        requires { IsTrue (is_sequence sequence.now) }
        ensures { result ≡ end_of self.now.reserved sequence.now }
    {
        let mut end = sequence.start - 1;
        for reservation in self.reserved.as_slice() {
            end = end_after(sequence, end, reservation);
        }
        end
    }
}
