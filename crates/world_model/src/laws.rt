//! What is orderly is kept in each event of a run, and the finish ends. Each law is the clause of a
//! function with nothing to run.
ghost use Rattle.world_model.specs.OrderlyLaws.{IsKept, BasicBegins, BasicIsKept, WireBegins, WireIsKept, IsKeptOfCalls, TalksBegin, TalksAreKept, HoldBegins, HoldIsKept, IsOfService, NumberBegins, NumberIsKept, OrderlyIsKept};
ghost use Rattle.world_model.specs.records.Basic.{items_rise, items_differ, is_down, are_ended, living_now, commits_counted, lives, sessions_differ, are_made, are_counted, are_named, have_risen, kept_ticks};
ghost use Rattle.world_model.specs.records.Wire.{are_handled, sent_fronts, reply_fronts, answered_in_order, up_lives, one_out, are_fresh, in_grammar};
ghost use Rattle.world_model.specs.records.Ready.{are_ready};
ghost use Rattle.world_model.specs.records.Script.{are_conversations, are_kept, are_owned, carry_draws, all_sent, follow_scripts, report_rightly};
ghost use Rattle.world_model.specs.records.Hold.{are_opened, are_held, are_idle, slots_held, are_had, are_queued, are_by_held};
ghost use Rattle.world_model.specs.records.Number.{are_told, are_served_near, blocks_next, entries_numbered, none_blocked, are_near, are_counted as are_numbered, are_ahead, known_so_far};
ghost use Rattle.world_model.specs.RunLaws.{RunsAreOrderly, RunsAreFollowed};
ghost use Rattle.world_model.specs.FinishEnds.{FinishFalls, FinishBegins, FinishGoesOn};

/// The items of a connection are in the order of their events, which are past. An event has one
/// item.
pub fn items_stay_in_order()
    ensures rise { IsKept items_rise }
    ensures one_item { IsKept items_differ }
{}

/// A connection is open as long as no event ended it. One that is closed or was cut is not open,
/// and the session of one that is open lives. While the server is down none is open and no session
/// lives.
pub fn connections_end_rightly()
    ensures ended { IsKept are_ended }
    ensures down { IsKept is_down }
{}

/// A session counts the commits that it answered. Nothing is served behind what ends it, and one
/// that lives is of this incarnation.
pub fn sessions_live_rightly()
    ensures commits { IsKept commits_counted }
    ensures life { IsKept lives }
    ensures now { IsKept living_now }
{}

/// No two connections have one session, and none has one that was made outside. Each session was
/// made, and the server counts those of its incarnation. A connection has its session once its
/// Connect was served, and each of its items, and the identifier that was taken last, is of that
/// session.
pub fn sessions_stay_apart()
    ensures apart { IsKept sessions_differ }
    ensures made { IsKept are_made }
    ensures counted { IsKept are_counted }
    ensures named { IsKept are_named }
{}

/// The steps of a request are of events and ticks so far, in order, and so are the ticks and the
/// event that it keeps.
pub fn steps_stay_in_order()
    ensures rise { IsKept have_risen }
    ensures ticks { IsKept kept_ticks }
{}

/// The record of ticks, events, connections and sessions as a whole.
pub fn basic_is_kept()
    ensures start { BasicBegins }
    ensures event { BasicIsKept }
{}

/// Each item is that of its frame, or the frame was stopped; and the reply that a session gave is
/// that of the item.
pub fn items_fit_frames()
    ensures { IsKept are_handled }
{}

/// What was served on a connection, and then what may be served, are the first of the frames that
/// were sent, and all of them as long as nothing of it was lost; so are what was taken and may be
/// taken of the replies, which answer the answered frames in order. Where frames are left to be
/// served the session lives, or it was cut off or ended by one of them.
pub fn frames_stay_in_order()
    ensures sent { IsKept sent_fronts }
    ensures replies { IsKept reply_fronts }
    ensures answered { IsKept answered_in_order }
    ensures left { IsKept up_lives }
{}

/// At most one answered frame is out on a connection. Before Hello was taken only Connect was sent.
pub fn one_frame_is_out()
    ensures out { IsKept one_out }
    ensures fresh { IsKept are_fresh }
{}

/// What is sent on a connection keeps to the grammar: Connect; then an outcome may be asked; then
/// requests, each with Begin, calls and End; and Close.
pub fn frames_keep_to_grammar()
    ensures { IsKept in_grammar }
{}

/// The record of the frames of connections as a whole.
pub fn wire_is_kept()
    ensures start { WireBegins }
    ensures event { WireIsKept }
{}

/// In runs of documents whose requests are right: a request in course that sent no Begin has a call
/// to send, one without a slot had no connection, and no call that alters the service is among
/// those that are repeated.
pub fn requests_stay_ready()
    ensures { IsKeptOfCalls are_ready }
{}

/// Each step of a request is the client's at its input, which may come then, and the request stands
/// where they lead and has the connection that they left: to the letter, and by the tests that tell
/// acts apart by their frames and showings.
pub fn requests_converse()
    ensures start { TalksBegin }
    ensures event { TalksAreKept }
    ensures acts { IsKept are_conversations }
{}

/// In runs of documents: what a request keeps to be repeated, why it may not be, how many replays
/// it started and since when, is what its steps told. Where no reason stands against a replay, the
/// recorded calls are those behind the last that was decided.
pub fn tracks_keep_what_was_told()
    ensures { IsKeptOfCalls are_kept }
{}

/// Each frame with an owner was sent by that request, on a connection that it held.
pub fn frames_are_of_holders()
    ensures { IsKept are_owned }
{}

/// A marked call carries the draws that were shown of its call, and one without the mark carries
/// none.
pub fn marked_calls_carry_draws()
    ensures { IsKept carry_draws }
{}

/// What the steps of a request tell of its sendings is what it sent: on each connection that it
/// held, its calls without the mark, in order, each at its place in the request.
pub fn sendings_are_sent()
    ensures { IsKept all_sent }
{}

/// The k-th request of a client is the one that follows the reports of those before it in the
/// client's script.
pub fn clients_follow_scripts()
    ensures { IsKept follow_scripts }
{}

/// A request that is over has the report of its steps.
pub fn reports_tell_steps()
    ensures { IsKept report_rightly }
{}

/// The pool counts the connections that were opened, and drains no more than these.
pub fn pool_counts_connections()
    ensures { IsKept are_opened }
{}

/// A request has a connection exactly in the phases that hold one, and there is out, and was sent
/// last by it, what its phase waits for.
pub fn requests_await_replies()
    ensures { IsKept are_held }
{}

/// A connection that is idle is open, has its identifier, and was not opened before the last drain.
/// Nothing is out on it, and End was sent last.
pub fn idle_connections_rest()
    ensures { IsKept are_idle }
{}

/// The pool counts the slots that requests hold, and these are no more than there are.
pub fn slots_are_counted()
    ensures { IsKept slots_held }
{}

/// A connection that is open is one request's or idle, and one that is not open is not idle. No two
/// requests have one connection.
pub fn connections_are_had()
    ensures { IsKept are_had }
{}

/// The clients that wait for a slot are in the pool's queue, in the order in which they waited
/// first, each once, and no others are.
pub fn clients_wait_in_order()
    ensures { IsKept are_queued }
{}

/// The identifier that a request goes by is the one that is held on its connection.
pub fn requests_go_by_held()
    ensures { IsKept are_by_held }
{}

/// The record of who holds which connection and slot as a whole.
pub fn hold_is_kept()
    ensures start { HoldBegins }
    ensures event { HoldIsKept }
{}

/// The identifier that is held on a connection is that of the last reply taken that tells one.
pub fn last_identifier_is_held()
    ensures { IsKept are_told }
{}

/// As many answered frames were served on a connection as replies were taken, or one more.
pub fn served_frames_are_near()
    ensures { IsKept are_served_near }
{}

/// A blocked identifier is still its session's next one, in each state with a service beside it.
pub fn blocks_are_next()
    ensures { IsOfService blocks_next }
{}

/// The entries of each session have the numbers 0, 1, 2 and so on, those of the image included, and
/// none of them is blocked.
pub fn entries_stay_numbered()
    ensures numbered { IsKept entries_numbered }
    ensures unblocked { IsKept none_blocked }
{
    commit_log::laws::keeps_journal();
}

/// A session has as many entries as the identifier says that is held on its connection, or one
/// more. It has as many as it answered Committed, but for a commit that was stopped, which is its
/// last item. Where it is one ahead, what is out on the connection made that entry, and no other
/// commit call is left to be served.
pub fn sessions_are_near()
    ensures near { IsKept are_near }
    ensures counted { IsKept are_numbered }
    ensures ahead { IsKept are_ahead }
{
    server_model::laws::runs_number();
}

/// Each entry is of an incarnation before this one, or of a session that was made, and one of the
/// run is of a connection's session, or of one that was made outside.
pub fn entries_are_known()
    ensures { IsKept known_so_far }
{
    commit_log::laws::keeps_journal();
}

/// The record of identifiers and entries as a whole.
pub fn number_is_kept()
    ensures start { NumberBegins }
    ensures event { NumberIsKept }
{
    commit_log::laws::keeps_journal();
    server_model::laws::runs_number();
}

/// What is orderly, as a whole, in runs of documents whose requests are right: it holds of the
/// start, and behind each event if it held before it.
pub fn orderly_is_kept()
    ensures { OrderlyIsKept }
{
    commit_log::laws::keeps_journal();
    server_model::laws::runs_number();
}

/// Wherever a run of a document whose requests are right has come to, it is orderly.
pub fn runs_are_orderly()
    ensures { RunsAreOrderly }
{
    orderly_is_kept();
}

/// A report that has the notes and items of a whole run, and whose clients were shown what the
/// run's were, is one that its events lead to.
pub fn runs_are_followed()
    ensures { RunsAreFollowed }
{}

/// The finish of a run ends: each of its events leaves less of what is left, a number made of the
/// rounds that clients may still take.
pub fn finish_falls()
    ensures { FinishFalls }
{}

/// The finish may begin in each orderly state, and behind each of its events the next one finds
/// what it needs: an orderly state, and the server up.
pub fn finish_goes_on()
    ensures start { FinishBegins }
    ensures event { FinishGoesOn }
{
    commit_log::laws::keeps_journal();
    server_model::laws::runs_number();
}
