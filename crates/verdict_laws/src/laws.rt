//! What `check` says of what `run` prints. Each law is the clause of a function with nothing to
//! run.
ghost use Rattle.verdict_laws.specs.Laws.{RunsAreRight, RunsAreCheckedRight, RunsAreNeverDenied};

/// Of what is shown of a report of which the headline holds, no clause that is judged is false,
/// where no two answers that were compared have one digest by chance.
pub fn runs_are_right()
    ensures { RunsAreRight }
{
    printed_laws::laws::clauses_see_no_writes();
    stmt_meaning::laws::serial_goes_on();
}

/// So `check` tells no clause of what `run` prints of a document, beside that document in one
/// object.
pub fn runs_are_never_denied()
    ensures { RunsAreNeverDenied }
{
    reading_laws::laws::nothing_else_is_read();
    runs_are_right();
}

/// It says yes: the report is of the form that is read.
pub fn runs_are_checked_right()
    ensures { RunsAreCheckedRight }
{
    reading_laws::laws::reports_are_read_back();
    form_laws::laws::reports_have_the_form();
    runs_are_right();
}
