//! What the lines of `Whole` say of the report of every whole run. Each law is the clause of a
//! function with nothing to run.
ghost use Rattle.shown_laws.specs.AnswersTold.{ReportsAnswerCalls, ReportsServeCalls};
ghost use Rattle.shown_laws.specs.ReportsTold.{ReportsListSessions, ReportsListShowings, ReportsListOutcomes, ReportsTakeReplies, ReportsAreOrdered};
ghost use Rattle.shown_laws.specs.TurnReports.{ReportsTurnsHaveClients, ReportsTurnsAreRight, ReportsTurnsHaveRequests};
ghost use Rattle.shown_laws.specs.WholeLines.{LinesMakeWhole};
ghost use Rattle.shown_laws.specs.Identified.{ReportsIdentifyCalls};
ghost use Rattle.shown_laws.specs.WholeRuns.{RunsAreWhole};

/// The steps of each client, cut by the sessions of its reports: each report lists the sessions
/// that its part acquired, the outcomes that it took, and the calls that it was shown.
pub fn reports_list_parts()
    ensures sessions { ReportsListSessions }
    ensures showings { ReportsListShowings }
    ensures outcomes { ReportsListOutcomes }
{
    crate::laws::steps_are_told();
    crate::whole::sessions_are_acquired();
    crate::whole::calls_are_shown();
    crate::whole::outcomes_are_taken();
}

/// Each step of a report that is noted to take a reply takes one that is told.
pub fn reports_take_replies()
    ensures { ReportsTakeReplies }
{
    crate::whole::replies_are_taken();
}

/// The reports of each client are the copies of its requests, in the order of its script, each
/// further copy exactly where it follows. Each shows all calls of its request, or failed and shows
/// fewer.
pub fn reports_are_ordered()
    ensures { ReportsAreOrdered }
{
    invariant_laws::kept_laws::runs_keep_invariant();
    crate::laws::steps_are_told();
}

/// Each call of each report was answered, by a reply to that call of its script or by an outcome
/// that the report has.
pub fn reports_answer_calls()
    ensures { ReportsAnswerCalls }
{
    crate::laws::steps_are_told();
    crate::whole::calls_are_answered();
}

/// Each call of each report was served: by a reply to that call of its script, or, where it is a
/// commit without a statement, by an outcome of an identifier in the list of its transaction.
pub fn reports_serve_calls()
    ensures { ReportsServeCalls }
{
    crate::laws::steps_are_told();
    crate::whole::calls_are_served();
}

/// Each session in which a request began was acquired by one of the clients. A turn is right for
/// the submission in whose part the step lies by which its session was acquired, and none was
/// acquired by a step that is of no submission.
pub fn reports_own_turns()
    ensures clients { ReportsTurnsHaveClients }
    ensures right { ReportsTurnsAreRight }
    ensures requests { ReportsTurnsHaveRequests }
{
    invariant_laws::kept_laws::runs_keep_invariant();
    crate::laws::steps_are_told();
    crate::turns::turns_are_of_acquirers();
}

/// Each call of each report has the identifier of the item that showed it.
pub fn reports_identify_calls()
    ensures { ReportsIdentifyCalls }
{
    crate::laws::steps_are_told();
    crate::whole::identifiers_are_stored();
}

/// A report is whole of which each line of `Whole` holds.
pub fn lines_make_whole()
    ensures { LinesMakeWhole }
{}

/// The clause `Whole` holds of the report of every whole run: each request is shown its script's
/// calls in order, by what sessions of its own served or by outcomes of its identifiers, and what a
/// session served since a Begin is what the request sent that had the session.
pub fn runs_are_whole()
    ensures { RunsAreWhole }
{
    lines_make_whole();
    reports_are_ordered();
    reports_take_replies();
    reports_list_parts();
    reports_serve_calls();
    reports_identify_calls();
    reports_own_turns();
}
