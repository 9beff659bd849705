//! Notes.
ghost use Rattle.std.specs.Prelude.{IsTrue};
ghost use Rattle.std.specs.List.{AllByRecursion};
ghost use Rattle.report_limits.specs.meaning.Limits.{fits_u64};
ghost use Rattle.report_limits.specs.meaning.Notes.{fits_note, fits_outside, fits_reached, fits_run, fits_step, fits_told, if_there};
ghost use Rattle.report_text.specs.meaning.Octets.{NoteOfBytes, RunOfBytes};

use crate::kept::{Kept, number_kept};
use outage_schedule::{AskResult, GoNote, Note, NoteRun, OutsideNote, Reached};

impl Kept for GoNote {
    ghost fits = { fits_step };

    fn kept(&self) {
        match self {
            GoNote::Idle | GoNote::Wait | GoNote::NoFrame | GoNote::Early | GoNote::Down => {}
            GoNote::Open { connection }
            | GoNote::Lent { connection }
            | GoNote::Lost { connection } => number_kept(*connection),
            GoNote::Took { connection, sent } => {
                number_kept(*connection);
                number_kept(*sent);
            }
        }
    }
}

impl Kept for Reached {
    ghost fits = { fits_reached };

    fn kept(&self) {
        number_kept(self.up);
        number_kept(self.down);
    }
}

impl Kept for NoteRun {
    ghost fits = { fits_run };

    ghost octets = { RunOfBytes };

    fn kept(&self) {
        self.answers.kept();
        self.draws.kept();
    }
}

impl Kept for OutsideNote {
    ghost fits = { fits_outside };

    ghost octets = { λ ran. AllByRecursion RunOfBytes ran.runs };

    fn kept(&self) {
        self.ltxid.kept();
        self.runs.kept();
    }
}

/// The bytes that still arrive, where a connection was cut.
fn reached_kept(reached: &Option<Reached>)
    ensures { IsTrue (if_there fits_reached reached.now) }
{
    match reached {
        None => {}
        Some(reached) => reached.kept(),
    }
}

/// The incarnation, where there was an opening.
fn incarnation_kept(incarnation: Option<u64>)
    ensures { IsTrue (if_there fits_u64 incarnation) }
{
    match incarnation {
        None => {}
        Some(incarnation) => number_kept(incarnation),
    }
}

/// What was told, where something was.
fn told_kept(told: &Option<AskResult>)
    ensures { IsTrue (if_there fits_told told.now) }
{
    match told {
        None => {}
        Some(told) => told.kept(),
    }
}

/// What ran outside, where something did.
fn ran_kept(ran: &Option<OutsideNote>)
    ensures fits { IsTrue (if_there fits_outside ran.now) }
    ensures octets { NoteOfBytes (Note.Outside ran.now) }
{
    match ran {
        None => {}
        Some(ran) => ran.kept(),
    }
}

impl Kept for Note {
    ghost fits = { fits_note };

    ghost octets = { NoteOfBytes };

    fn kept(&self) {
        match self {
            Note::Go { client, did } => {
                number_kept(*client);
                did.kept();
            }
            Note::Serve { connection, .. }
            | Note::Reap { connection, .. }
            | Note::Crash { connection, .. } => number_kept(*connection),
            Note::Cut {
                connection,
                reached,
            } => {
                number_kept(*connection);
                reached_kept(reached);
            }
            Note::Up { incarnation } => incarnation_kept(*incarnation),
            Note::UpCrash { .. } | Note::Tick => {}
            Note::Outside { ran } => ran_kept(ran),
            Note::Ask { ltxid, told } => {
                ltxid.kept();
                told_kept(told);
            }
            Note::Drain { closed } => number_kept(*closed),
        }
    }
}
