//! What a session did, by its item in the report.
ghost use Rattle.std.specs.Prelude.{◌≡◌};
ghost use Rattle.plain_items.specs.Views.{thing_as};
ghost use Rattle.shown_clauses.specs.meaning.Things.{thing_of as thing_of_def};

use outage_schedule::Item;
use plain_items::Thing;
use svc_values::Draw;

/// What was done of a served item that brings these draws.
pub(crate) fn thing_of<'a>(kept: &'a [Draw], item: &'a Item) -> Thing<'a>
    ensures { thing_as result ≡ thing_of_def kept.now item.now }
{
    match item {
        Item::Connect => Thing::Connected,
        Item::Begin { settings } => Thing::Began {
            settings: Some(settings),
        },
        Item::Call {
            replay,
            call,
            answers,
            draws,
        } => Thing::Called {
            replay: *replay,
            kept,
            call,
            answers: answers.as_slice(),
            draws: draws.as_slice(),
        },
        Item::Blocked { call } => Thing::MetBlock {
            replay: false,
            call,
        },
        Item::Outcome { ltxid, result } => Thing::ToldOutcome {
            ltxid: *ltxid,
            told: *result,
        },
        Item::End => Thing::EndedRequest,
        Item::Close => Thing::Closed,
        Item::Refused { .. } => Thing::Refused,
        Item::CrashedCall { replay, call } => Thing::CallStopped {
            replay: *replay,
            call,
        },
        Item::CrashedOutcome { ltxid } => Thing::OutcomeStopped { ltxid: *ltxid },
    }
}
