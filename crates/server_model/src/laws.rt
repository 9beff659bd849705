//! Laws of the plain server. Each function does nothing, and its contract is the law.
ghost use Rattle.server_model.specs.Laws.{ServeGrows, ServeStays, RunsForget, RunsSerial, RunsStand, NeverAfterBlock, EntryNumbers, EntryFromItem, AnswersStand, MarkedStoresNone, BlocksAreStored, TellsNext, TellsOutcomes, TellsAsks, RunsAlerts, RunsTold, RunsLegal, RunsHaveRoom, RunsFreshNew, RunsSetAside, RunsFront, RunsLast, RunsStopped, ServiceStores, ServiceStands, ServiceRuns};
ghost use Rattle.server_model.specs.Redraws.{LegalRedraws, RunsRedraw};

/// A frame stores no entry, or one of its session, under its identifier, which is not blocked. It
/// leaves the base, the incarnation and which session it is.
pub fn serve_grows()
    ensures entries { ServeGrows }
    ensures stays { ServeStays }
{}

/// The horizon never falls, and an incarnation that is open or still to come is not forgotten.
pub fn runs_forget()
    ensures { RunsForget }
{}

/// The entries that a store gained in a run are a serial run from its tables at the start.
pub fn runs_serial()
    ensures { RunsSerial }
{}

/// The entries of each session are numbered in order, and each blocked identifier stays its
/// session's next one: no identifier is both blocked and an entry's.
pub fn runs_number()
    ensures numbers { EntryNumbers }
    ensures stand { RunsStand }
    ensures never { NeverAfterBlock }
{}

/// Every entry comes from a call of its session, answered or stopped. A commit that was answered is
/// stored, and an identifier that was told uncommitted is blocked, in this run and in each that
/// goes on from it.
pub fn runs_store()
    ensures entries { EntryFromItem }
    ensures answers { AnswersStand }
    ensures blocks { BlocksAreStored }
{}

/// A call that is repeated in a replay commits nothing: it is answered Committed in no run.
pub fn marked_calls_store_none()
    ensures { MarkedStoresNone }
{}

/// A Hello and a Reply carry their session's next identifier, and outcomes are told by the table,
/// each at the moment at which it is told.
pub fn runs_tell()
    ensures next { TellsNext }
    ensures outcomes { TellsOutcomes }
    ensures asks { TellsAsks }
{}

/// The alerts that a store gained in a run are the lines that were answered, in order, and some of
/// those that were stopped.
pub fn runs_alert()
    ensures { RunsAlerts }
{}

/// Each frame of a run is told as it has to be: identifiers, outcomes, refusals, and nothing where
/// nothing is due.
pub fn runs_told()
    ensures { RunsTold }
{}

/// What was served in a run is legal, as a walk over it judges that knows the items and the entries
/// alone: each call is answered and stored as it means, draws what comes next, and is answered
/// Blocked only where its commit would meet a block.
pub fn runs_legal()
    ensures { RunsLegal }
{}

/// A run counts no more identifiers in an opening than can be spelled, since its source gives none
/// where it has no room.
pub fn runs_have_room()
    ensures { RunsHaveRoom }
{}

/// A call that is served again with the mark, brings the draws of its first time, and is answered
/// the same draws the granted ones of these, in order, where both times it ran in the same settings
/// or it was not refused for want of one.
pub fn marked_calls_redraw()
    ensures legal { LegalRedraws }
    ensures runs { RunsRedraw }
{}

/// What was drawn anew in a run was drawn once, over all openings.
pub fn runs_fresh_new()
    ensures { RunsFreshNew }
{}

/// What was drawn anew in a run lies in what its source has set aside, so no later opening draws it
/// again; and nothing that was set aside before is given back.
pub fn runs_set_aside()
    ensures { RunsSetAside }
{}

/// A run has a run for each front of its history, and its store goes on from that one's.
pub fn runs_front()
    ensures { RunsFront }
{}

/// The last thing of a history came by one move from a run to before it.
pub fn runs_last()
    ensures { RunsLast }
{}

/// While a server runs on, it stopped in no frame of its opening.
pub fn runs_stopped()
    ensures { RunsStopped }
{}

/// Whatever has a history of the plain server has a store that goes on by serial entries, numbered
/// in order, none of them blocked.
pub fn service_stores()
    ensures { ServiceStores }
{}

/// Each identifier that such a store has blocked is still its session's next one, in what it held
/// before too.
pub fn service_stands()
    ensures { ServiceStands }
{}

/// Whatever has such a history serves right, too, where nothing of an opening was served behind a
/// stop: what was served is legal, what was drawn anew is drawn once, and each frame is told as it
/// has to be.
pub fn service_runs()
    ensures { ServiceRuns }
{}
