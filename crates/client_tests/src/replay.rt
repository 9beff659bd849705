ghost use Rattle.std.specs.Prelude.{◌≡◌, ◌+◌, [], length};
ghost use Rattle.request_bounds.specs.Limits.{IsPast};

use call_recorder::{Recorder, Seen};
use replay_core::{Live, Mismatch, Replaying, Told, Track};
use request_bounds::{Clocked, Why};
use std::alloc::Global;
use std::process::Abort;
use svc_values::{Call, Draws, Ltxid};

const LIMITS: Clocked = Clocked {
    retries: 30,
    delay: 10,
    timeout: 5,
    replays: 4,
    wait: 5,
};

const FIRST: [u8; 32] = [7; 32];

const SECOND: [u8; 32] = [8; 32];

fn ltxid(session: u64) -> Ltxid {
    Ltxid {
        incarnation: 1,
        session,
        number: 0,
    }
}

/// A track with nothing recorded, of a request whose call 5 is to be sent.
fn track(alloc: Global, why: Option<Why>, replays: u64, first: Option<u64>) -> Track
    ensures empty { result.recorder.calls ≡ [] }
    ensures tick { result.first ≡ first }
    ensures call { result.call ≡ 5 }
{
    Track {
        recorder: Recorder::new(alloc, 8),
        why,
        replays,
        first,
        set_shown: false,
        call: 5,
    }
}

/// What an answer is, by the place of its variant.
fn place(told: &Told) -> u8 {
    match told {
        Told::Committed(_) => 1,
        Told::Incomplete(_) => 2,
        Told::Disabled(_, _) => 3,
        Told::Replays(_) => 4,
        Told::Late(_) => 5,
        Told::Replay(_) => 6,
    }
}

/// What the outcome of session 1 leads to, which was lost by event 7 and asked on session 2.
fn leads_to(track: Track, committed: bool, completed: bool) -> u8
    requires empty { track.recorder.calls ≡ [] }
    requires past { IsPast track.first 6 }
{
    let asked = Live::start(track, ltxid(1)).lose(7).ask(ltxid(2));
    let told = asked.answer(committed, completed, &LIMITS, 6);
    place(&told)
}

#[test]
fn the_first_that_holds_decides(rt: HostRuntime) {
    let alloc = rt.alloc();
    let off = Some(Why::Off);
    assert!(rt; leads_to(track(alloc, off, 4, Some(0)), true, true) == 1);
    assert!(rt; leads_to(track(alloc, off, 4, Some(0)), true, false) == 2);
    assert!(rt; leads_to(track(alloc, off, 4, Some(0)), false, false) == 3);
    assert!(rt; leads_to(track(alloc, None, 4, Some(0)), false, false) == 4);
    assert!(rt; leads_to(track(alloc, None, 3, Some(0)), false, false) == 5);
    assert!(rt; leads_to(track(alloc, None, 3, Some(1)), false, false) == 6);
    assert!(rt; leads_to(track(alloc, None, 3, None), false, false) == 6);
}

/// The track with one call more.
fn noted(rt: &impl Abort, alloc: Global, mut track: Track, digest: [u8; 32]) -> Track
    ensures one_more { length result.recorder.calls ≡ length track.recorder.calls + 1 }
    ensures call { result.call ≡ track.call }
    ensures tick { result.first ≡ track.first }
{
    track
        .recorder
        .note(Call::Rollback, Seen { digest }, Draws::new(alloc))
        .expect(rt, "a note");
    track
}

/// A replay of two calls on session 2, after session 1 was lost.
fn replaying(rt: &impl Abort, alloc: Global) -> Option<Replaying> {
    let (track, held) = Live::start(track(alloc, None, 0, None), ltxid(0)).part();
    let track = noted(rt, alloc, track, FIRST);
    let mut live = held.join(noted(rt, alloc, track, SECOND));
    live.moved(ltxid(1));
    match live.lose(7).ask(ltxid(2)).answer(false, false, &LIMITS, 0) {
        Told::Replay(replaying) => Some(replaying),
        _ => None,
    }
}

/// Takes this digest as the next call's, if one is left.
fn verified(replaying: Replaying, now: &[u8; 32]) -> Result<Replaying, Option<Mismatch>> {
    if replaying.next().is_none() {
        return Err(None);
    }
    match replaying.verify(now) {
        Ok(replaying) => Ok(replaying),
        Err((_over, mismatch)) => Err(Some(mismatch)),
    }
}

#[test]
fn a_replay_is_ready_after_each_recorded_call(rt: HostRuntime) {
    let whole = replaying(&rt, rt.alloc()).expect(&rt, "a replay");
    let one_left = verified(whole, &FIRST).ok().expect(&rt, "verified");
    let handed_back = one_left.ready().err().expect(&rt, "too early");
    let done = verified(handed_back, &SECOND).ok().expect(&rt, "verified");
    let ready = done.ready().ok().expect(&rt, "ready");
    assert!(rt; *ready.submit().lose(9).ltxid() == ltxid(2));
}

#[test]
fn the_call_that_differs_is_told(rt: HostRuntime) {
    let whole = replaying(&rt, rt.alloc()).expect(&rt, "a replay");
    let one_left = verified(whole, &FIRST).ok().expect(&rt, "verified");
    let fault = verified(one_left, &FIRST).err().expect(&rt, "refused");
    let mismatch = fault.expect(&rt, "another digest");
    assert!(rt; mismatch.call == 4 && mismatch.seen == SECOND && mismatch.now == FIRST);
}

#[test]
fn the_first_loss_stands_until_an_outcome_is_taken(rt: HostRuntime) {
    let lost = Live::start(track(rt.alloc(), None, 0, None), ltxid(1)).lose(7);
    let again = lost.ask(ltxid(2)).lose();
    assert!(rt; *again.ltxid() == ltxid(1) && again.event() == 7);
    let whole = replaying(&rt, rt.alloc()).expect(&rt, "a replay");
    let later = whole.lose(8);
    assert!(rt; *later.ltxid() == ltxid(2) && later.event() == 8);
}
