//! What holds of drawn values. Each law is the clause of a function with nothing to run.
ghost use Rattle.mutable_values.specs.Laws.{CountsValues, CountsIdentifiers, GivesAsAsked, GivesOnceReserved, LiesWithin, SequencesStay, KeepsRoom, ValuesRise, IdentifiersDiffer};

/// In one opening, over any list of draws and reservations, the new values of a sequence come one
/// after the other, and so do the new identifiers.
pub fn counts_on()
    ensures values { CountsValues }
    ensures identifiers { CountsIdentifiers }
{}

/// A value that a draw gives is of the kind and name that was asked for. A new one of a sequence is
/// its next value, at most the end of its reservation.
pub fn gives_as_asked()
    ensures kind { GivesAsAsked }
    ensures within { LiesWithin }
{}

/// The reservation that a draw asks for may be made, and once it is made the same draw gives a
/// value.
pub fn gives_once_reserved()
    ensures { GivesOnceReserved }
{}

/// Sequences stay such: each draw, and each reservation that may be made, leaves names that differ
/// and next values within their reservations. Names stay, and whether values are kept.
pub fn sequences_stay()
    ensures { SequencesStay }
{}

/// A draw leaves the room for reservations, and takes that of one new identifier at most. So its
/// caller, who asks `has_room` before the first draw, knows how many more there may be.
pub fn keeps_room()
    ensures { KeepsRoom }
{}

/// Over all openings of a store, each behind the reservations of the one before and in a later
/// incarnation: the new values of a sequence rise, and no new identifier is given twice, as long as
/// each opening keeps to the room that there is (2^60 new identifiers).
pub fn none_twice()
    ensures values { ValuesRise }
    ensures identifiers { IdentifiersDiffer }
{}
