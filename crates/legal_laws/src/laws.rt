//! What was served, as it is read off the report of a whole run, is legal. Each law is the clause
//! of a function with nothing to run.
ghost use Rattle.legal_laws.specs.MarksTold.{ReportsTellMarked};
ghost use Rattle.legal_laws.specs.ReplaysTold.{ReplaysArePlaced, ReportsShowReplays, ReportsTellReplays};
ghost use Rattle.legal_laws.specs.ToldLegal.{RunsAreLegalTold, RunsAreFreshNewTold};

/// The items that are read off the report of a whole run are those of its service's history, but
/// for their numbers and for what calls without the mark bring, which is dropped: where what is
/// told of each call with the mark is what its frame brought. So what was served is legal, and no
/// value was drawn anew twice.
pub fn told_runs_are_legal()
    ensures legal { ReportsTellMarked → RunsAreLegalTold }
    ensures fresh { ReportsTellMarked → RunsAreFreshNewTold }
{
    server_model::laws::runs_legal();
    server_model::laws::runs_fresh_new();
    shown_laws::laws::events_are_told();
    shown_laws::turns::marked_calls_meet_no_block();
}

/// What is told of each call with the mark is what its frame brought, where replays are told as
/// they are: the turn of the session has as many calls with the mark as were sent before it, and
/// the part of the request that acquired the session was shown as many calls before as the request
/// had been before it opened the connection.
pub fn told_replays_bring_draws()
    ensures { ReportsTellReplays → ReportsTellMarked }
{
    invariant_laws::kept_laws::runs_keep_invariant();
    replay_laws::laws::replays_repeat_in_order();
}

/// Each call with the mark that is served was sent by a request on a connection that it held, and
/// the turn that is told of its session has as many calls with the mark as were sent there before
/// it, and was acquired by a step of this request.
pub fn replays_are_placed()
    ensures { ReplaysArePlaced }
{
    invariant_laws::kept_laws::runs_keep_invariant();
    shown_laws::laws::connections_are_told();
    shown_laws::laws::turns_are_told();
    shown_laws::turns::marked_calls_meet_no_block();
    shown_laws::turns::turns_are_of_acquirers();
}

/// The request that sent a call with the mark is told by its part, which was shown before its
/// session was acquired what the request was shown before it opened the connection.
pub fn replays_are_shown()
    ensures { ReportsShowReplays }
{
    invariant_laws::kept_laws::runs_keep_invariant();
    replay_laws::laws::replays_repeat_in_order();
    shown_laws::laws::events_are_told();
    shown_laws::laws::requests_go_on();
    shown_laws::laws::steps_are_told();
}

/// Replays are told as they are: whose they are, and which of its calls a session serves.
pub fn replays_are_told()
    ensures { ReportsTellReplays }
{
    replays_are_placed();
    replays_are_shown();
}

/// The clause `Legal` holds of the report of every whole run, read off the report alone, and no
/// value was drawn anew twice.
pub fn runs_are_legal_told()
    ensures legal { RunsAreLegalTold }
    ensures fresh { RunsAreFreshNewTold }
{
    told_runs_are_legal();
    told_replays_bring_draws();
    replays_are_told();
}
