//! What of entries, blocks and the horizon holds beside what was told in a run, and what a run
//! leaves of its store's horizon. Each law is the clause of a function with nothing to run.
ghost use Rattle.run_laws.specs.StoredLaws.{HorizonsAreStored, IncarnationsAreStored, BlocksStayApart, BlocksAreAnswered, BlocksComeInOrder, AnswersAreRight, HorizonsAreTold};
ghost use Rattle.run_laws.specs.EntryCounts.{RunsCountEntries, FinishesCountEntries};

/// At the end of a run the store has the horizon that the openings of its report ask for: that of
/// the time before event 1, raised by each opening to the one that was wanted then. An opening that
/// was stopped may have stored its own already, and the next one wants at least that.
pub fn horizons_are_stored()
    ensures { HorizonsAreStored }
{}

/// At the end of a run the store has the incarnation of the last opening that its report tells: the
/// server is up then, and an opening that was stopped behind a stored incarnation is followed by
/// one that tells a later one.
pub fn incarnations_are_stored()
    ensures { IncarnationsAreStored }
{}

/// No identifier is both blocked and an entry's, in the journal that a report of a run tells of.
pub fn blocks_stay_apart()
    ensures { BlocksStayApart }
{
    commit_log::laws::keeps_journal();
    server_model::laws::runs_number();
}

/// Each identifier that a run blocked was answered uncommitted to an outcome item or an ask note,
/// or a crashed item carries it. Along the events, each that was answered uncommitted was blocked
/// before or is the next block, and none is blocked twice.
pub fn blocks_are_answered()
    ensures answered { BlocksAreAnswered }
    ensures order { BlocksComeInOrder }
{}

/// Each answer to an outcome item or an ask note is by the outcome table, with the number of its
/// session's entries that were stored before its event, and says forgotten exactly below the
/// horizon at its event, with that horizon. An identifier that was answered uncommitted is blocked.
pub fn answers_are_right()
    ensures { AnswersAreRight }
{
    commit_log::laws::keeps_journal();
    server_model::laws::runs_number();
}

/// The horizon that a report tells of is the one that the openings of its notes ask for.
pub fn horizons_are_told()
    ensures { HorizonsAreTold }
{}

/// Where a session answered a frame, as many of its entries were stored up to that event, as the
/// report tells it, as the session had answered Committed. So it is wherever the run had come to
/// that the report tells.
pub fn entries_are_counted()
    ensures reached { RunsCountEntries }
    ensures finishing { FinishesCountEntries }
{
    commit_log::laws::keeps_journal();
    server_model::laws::runs_number();
    world_model::laws::runs_are_orderly();
}
