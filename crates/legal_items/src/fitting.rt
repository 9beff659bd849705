//! Whether the runs from outside fit their events.
ghost use Rattle.std.specs.Prelude.{◌≡◌, is_none};
ghost use Rattle.std.specs.Option.{option_copied};
ghost use Rattle.shown_clauses.specs.meaning.LegalItems.{outside_fits as fits_def, outsides_fit};
ghost use Rattle.legal_items.specs.Fitting.{misfit_from};

use outage_schedule::{Event, Note};

/// Whether a note that is of this event has no more runs than the event has calls.
fn outside_fits(event: Option<&Event>, note: &Note) -> bool
    ensures { result ≡ fits_def (option_copied event.entry) note.now }
{
    let Note::Outside { ran: Some(ran) } = note else {
        return true;
    };
    match event {
        Some(Event::Outside { calls }) => ran.runs.len() <= calls.len(),
        _ => false,
    }
}

/// The number of the first note, from 0, that has more runs than its event has calls. Linear.
pub fn misfit(schedule: &[Event], notes: &[Note]) -> Option<usize>
    ensures fit { is_none result ≡ outsides_fit schedule.now notes.now }
    ensures number { result ≡ misfit_from 0 schedule.now notes.now }
{
    for (at, note) in notes.iter().enumerate() {
        if !outside_fits(schedule.get(at), note) {
            return Some(at);
        }
    }
    None
}
