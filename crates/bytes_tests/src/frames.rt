//! The vectors of the format, and streams that arrive in pieces.
ghost use Rattle.canon_bytes.specs.DownBytes.{IsMadeDown};
ghost use Rattle.canon_bytes.specs.UpBytes.{IsMadeUp};

use frame_wire::{Ahead, Down, DownFeed, FrameFault, Up, UpFeed, encode_down, encode_up};
use std::alloc::Global;
use std::process::Abort;
use svc_values::{Answer, Answers, Call, Draws, Ltxid, Statements};

const CONNECT: [u8; 9] = [0, 0, 0, 0, 0, 0, 0, 1, 1];

const HELLO: [u8; 33] = [
    0, 0, 0, 0, 0, 0, 0, 0x19, 0x11, 0, 0, 0, 0, 0, 0, 0, 1, 0, 0, 0, 0, 0, 0, 0, 1, 0, 0, 0, 0, 0,
    0, 0, 0,
];

const LONE_COMMIT: [u8; 28] = [
    0, 0, 0, 0, 0, 0, 0, 0x14, 3, 0, 0, 0, 0, 0, 0, 0, 0, 0, 1, 0, 0, 0, 0, 0, 0, 0, 0, 1,
];

const REPLY: [u8; 58] = [
    0, 0, 0, 0, 0, 0, 0, 0x32, 0x12, 0, 0, 0, 0, 0, 0, 0, 1, 1, 0, 0, 0, 0, 0, 0, 0, 1, 0, 0, 0, 0,
    0, 0, 0, 0, 0, 0, 0, 0, 0, 0, 0, 1, 0, 0, 0, 0, 0, 0, 0, 1, 0, 0, 0, 0, 0, 0, 0, 0,
];

const FIRST: Ltxid = Ltxid {
    incarnation: 1,
    session: 1,
    number: 0,
};

/// The frame of a lone commit.
fn commit(rt: &impl Abort, alloc: Global) -> Up
    ensures { IsMadeUp result }
{
    let none = Statements::of(alloc, Vec::new(alloc)).expect(rt, "memory");
    Up::Call {
        replay: false,
        kept: Draws::new(alloc),
        call: Call::work(none, true).expect(rt, "a call"),
    }
}

fn up_is(rt: &impl Abort, alloc: Global, frame: Up, bytes: &[u8])
    requires { IsMadeUp frame }
{
    let encoded = encode_up(alloc, &frame).expect(rt, "memory");
    assert_eq!(rt; encoded.as_slice(), bytes);
}

fn next_up(rt: &impl Abort, feed: &mut UpFeed) -> Option<Up> {
    feed.next().expect(rt, "memory")
}

/// A feed of the two frames.
fn two_frames(rt: &impl Abort, alloc: Global) -> UpFeed {
    let mut feed = UpFeed::new(alloc);
    feed.push(&CONNECT).expect(rt, "memory");
    feed.push(&LONE_COMMIT).expect(rt, "memory");
    feed
}

#[test]
fn vectors_to_the_server(rt: HostRuntime) {
    up_is(&rt, rt.alloc(), Up::Connect, &CONNECT);
    up_is(&rt, rt.alloc(), commit(&rt, rt.alloc()), &LONE_COMMIT);
    let mut feed = two_frames(&rt, rt.alloc());
    assert!(rt; next_up(&rt, &mut feed) == Some(Up::Connect));
    assert!(rt; next_up(&rt, &mut feed) == Some(commit(&rt, rt.alloc())));
    assert!(rt; next_up(&rt, &mut feed).is_none());
    assert_eq!(rt; feed.waiting(), 0);
}

/// The reply that one row was changed.
fn reply(rt: &impl Abort, alloc: Global) -> Down
    ensures { IsMadeDown result }
{
    let mut answers = Answers::new(alloc);
    answers.push(Answer::Done(1)).expect(rt, "memory");
    Down::Reply {
        answers,
        draws: Draws::new(alloc),
        ltxid: FIRST,
    }
}

fn down_is(rt: &impl Abort, alloc: Global, frame: Down, bytes: &[u8])
    requires { IsMadeDown frame }
{
    let encoded = encode_down(alloc, &frame).expect(rt, "memory");
    assert_eq!(rt; encoded.as_slice(), bytes);
}

fn next_down(rt: &impl Abort, feed: &mut DownFeed) -> Option<Down> {
    feed.next().expect(rt, "memory")
}

/// Feeds the reply byte by byte: before its last byte there is no frame.
fn feed_reply(rt: &impl Abort, feed: &mut DownFeed) {
    for (sent, byte) in REPLY.iter().enumerate() {
        assert!(rt; next_down(rt, feed).is_none(), "after {sent} bytes");
        feed.push(&[*byte]).expect(rt, "memory");
    }
}

#[test]
fn vectors_to_the_client(rt: HostRuntime) {
    down_is(&rt, rt.alloc(), Down::Hello { ltxid: FIRST }, &HELLO);
    down_is(&rt, rt.alloc(), reply(&rt, rt.alloc()), &REPLY);
    let mut feed = DownFeed::new(rt.alloc());
    feed.push(&HELLO).expect(&rt, "memory");
    assert!(rt; next_down(&rt, &mut feed) == Some(Down::Hello { ltxid: FIRST }));
    feed_reply(&rt, &mut feed);
    assert!(rt; next_down(&rt, &mut feed) == Some(reply(&rt, rt.alloc())));
    assert!(rt; next_down(&rt, &mut feed).is_none());
}

/// Sees that bytes are no frame, and that nothing behind them is one.
fn is_bad(rt: &impl Abort, alloc: Global, bytes: &[u8]) {
    let mut feed = UpFeed::new(alloc);
    feed.push(bytes).expect(rt, "memory");
    for _ in 0..2 {
        assert_eq!(rt;
            feed.next().err(),
            Some(FrameFault::BadFrame),
            "at {bytes:?}"
        );
        feed.keep_first(0);
        feed.push(&CONNECT).expect(rt, "memory");
    }
}

const BAD: [&[u8]; 3] = [
    &[0, 0, 0, 0, 0, 0, 0, 1, 0xff],
    &[0, 0, 0, 0, 0, 0, 0, 2, 1, 1],
    &[0, 0, 0, 0, 0, 0, 0, 0],
];

#[test]
fn bad_frames(rt: HostRuntime) {
    for bytes in BAD {
        is_bad(&rt, rt.alloc(), bytes);
    }
    let mut feed = DownFeed::new(rt.alloc());
    feed.push(&[0, 0, 0, 0, 0, 0, 0, 2, 22, 3])
        .expect(&rt, "memory");
    assert_eq!(rt; feed.next().err(), Some(FrameFault::BadFrame));
}

#[test]
fn a_large_length_is_waited_for(rt: HostRuntime) {
    let mut feed = UpFeed::new(rt.alloc());
    feed.push(&[0xff; 8]).expect(&rt, "memory");
    feed.push(&[1]).expect(&rt, "memory");
    assert!(rt; next_up(&rt, &mut feed).is_none());
    assert_eq!(rt; feed.waiting(), 9);
    feed.keep_first(4);
    assert_eq!(rt; feed.waiting(), 4);
}

#[test]
fn a_forgotten_outcome_has_the_third_byte(rt: HostRuntime) {
    let bytes = [0, 0, 0, 0, 0, 0, 0, 10, 20, 3, 0, 0, 0, 0, 0, 0, 0, 2];
    let mut feed = DownFeed::new(rt.alloc());
    feed.push(&bytes).expect(&rt, "memory");
    let frame = Down::OutcomeRefused {
        ahead: Ahead::Forgotten,
        next: 2,
    };
    assert!(rt; next_down(&rt, &mut feed) == Some(frame));
}
