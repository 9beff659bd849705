//! The work itself.
ghost use Rattle.std.specs.Prelude.{◌≤◌, IfOk};

use canon_bytes::{put_answer, take_answer};
use frame_wire::{DownFeed, encode_down};
use std::alloc::Global;
use svc_values::{Answer, Answers, Down, Draws, Ltxid, NoMemory};

/// Writes so many answers one behind the other, and counts how many are read again.
pub fn read_answers(alloc: Global, count: u64) -> Result<u64, NoMemory>
    ensures { IfOk result (λ read. read ≤ count) }
{
    let mut bytes = Vec::new(alloc);
    for n in 0..count {
        put_answer(alloc, &Answer::Done(n), &mut bytes)?;
    }
    let mut rest = bytes.as_slice();
    let mut read = 0;
    for n in 0..count {
        let Ok((_answer, len)) = take_answer(alloc, rest) else {
            return Ok(read);
        };
        if len > rest.len() {
            return Ok(read);
        }
        rest = &rest[len..];
        read = n + 1;
    }
    Ok(read)
}

fn reply(alloc: Global, answers: u64) -> Result<Vec<u8>, NoMemory> {
    let mut list = Vec::new(alloc);
    for n in 0..answers {
        list.push(Answer::Done(n))?;
    }
    encode_down(
        alloc,
        &Down::Reply {
            answers: Answers::from_vec(list),
            draws: Draws::new(alloc),
            ltxid: Ltxid {
                incarnation: 1,
                session: 1,
                number: 0,
            },
        },
    )
}

/// Pushes the bytes one by one, and adds the frames that the feed gives after each.
fn feed_bytes(feed: &mut DownFeed, bytes: &[u8], frames: u64) -> Result<u64, NoMemory> {
    let mut read = frames;
    for byte in bytes {
        feed.push(&[*byte])?;
        if let Ok(Some(_frame)) = feed.next() {
            read = read.saturating_add(1);
        }
    }
    Ok(read)
}

/// A stream of about so many bytes: replies of one answer each.
pub fn read_stream(alloc: Global, size: u64) -> Result<u64, NoMemory> {
    let frame = reply(alloc, 1)?;
    let mut feed = DownFeed::new(alloc);
    let mut frames = 0;
    for _ in 0..size / 58 {
        frames = feed_bytes(&mut feed, frame.as_slice(), frames)?;
    }
    Ok(frames)
}

/// One frame of about so many bytes: a reply of as many answers as that takes.
pub fn read_frame(alloc: Global, size: u64) -> Result<u64, NoMemory> {
    let frame = reply(alloc, size / 9)?;
    let mut feed = DownFeed::new(alloc);
    feed_bytes(&mut feed, frame.as_slice(), 0)
}
