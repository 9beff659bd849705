//! Where a served item may stand: at the event of a note that serves it, behind the items before.
ghost use Rattle.std.specs.Prelude.{◌≡◌};
ghost use Rattle.told_reports.specs.meaning.Places.{is_of_frame as is_of_frame_def, may_stand as may_stand_def, fits_event as fits_event_def};

use outage_schedule::{FrameName, Note};

/// The word that a served item begins with.
#[derive(Clone, Copy, Debug, PartialEq, Eq)]
pub enum ServedWord {
    Connect,
    Begin,
    Call,
    Blocked,
    Outcome,
    End,
    Close,
    Refused,
    Crashed,
}

/// Whether a `serve` of the frame has an item of this word.
fn is_of_frame(frame: FrameName, word: ServedWord) -> bool
    ensures { result ≡ is_of_frame_def frame word }
{
    match word {
        ServedWord::Connect => matches!(frame, FrameName::Connect),
        ServedWord::Begin => matches!(frame, FrameName::Begin),
        ServedWord::Call | ServedWord::Blocked => matches!(frame, FrameName::Call),
        ServedWord::Outcome => matches!(frame, FrameName::Outcome),
        ServedWord::End => matches!(frame, FrameName::End),
        ServedWord::Close => matches!(frame, FrameName::Close),
        ServedWord::Refused => true,
        ServedWord::Crashed => false,
    }
}

/// Whether an item of this word may stand at the note's event.
fn may_stand(note: &Note, word: ServedWord) -> bool
    ensures { result ≡ may_stand_def note.now word }
{
    match note {
        Note::Serve {
            frame: Some(frame),
            ..
        } => is_of_frame(*frame, word),
        Note::Crash { down, .. } => !*down,
        _ => false,
    }
}

/// Whether an item of this word may stand at this event, behind an item at the last one. The notes
/// are those of the run, whose first event is 1.
pub fn fits_event(notes: &[Note], word: ServedWord, last: u64, event: u64) -> bool
    ensures { result ≡ fits_event_def notes.now word last event }
{
    if event <= last {
        return false;
    }
    match notes.get((event - 1) as usize) {
        Some(note) => may_stand(note, word),
        None => false,
    }
}
