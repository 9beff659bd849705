//! What holds of each report that its events lead to. Each law is the clause of a function with
//! nothing to run.
ghost use Rattle.form_laws.specs.Laws.{EventsAreFit, ReportsHaveTheForm, ServedCallsPass, StoredCallsPass};

/// The events of served items rise, and each names a note at which its item may stand.
pub fn events_are_fit()
    ensures { EventsAreFit }
{}

/// What holds of each call of the clients' scripts holds of each call that was served, and no frame
/// was refused.
pub fn served_calls_are_of_scripts()
    ensures { ServedCallsPass }
{}

/// What holds of each call that was served, and of each that the schedule runs from outside, holds
/// of each call of an entry.
pub fn stored_calls_were_served()
    ensures { StoredCallsPass }
{}

/// A report of a document that was read has the form that reports have: its calls are those of the
/// document, its items fit its notes, and the rest keeps to the limits of its types.
pub fn reports_have_the_form()
    ensures { ReportsHaveTheForm }
{
    events_are_fit();
    served_calls_are_of_scripts();
    stored_calls_were_served();
}
