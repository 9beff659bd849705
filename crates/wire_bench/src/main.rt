//! Work to be timed: canonical bytes and frames in numbers that the words give.
//!
//! `answers N` writes N answers and reads them again. `stream N` pushes a stream of frames to the
//! client, of about N bytes in all and each of 58, byte by byte and asks for a frame after each
//! byte. `frame N` does the same with one frame of about N bytes. Each prints how many were read.
#![tactic(auto)]

mod work;

use std::process::ExitCode;
use std::rt::Env;
use std::{env, io};
use work::{read_answers, read_frame, read_stream};

fn words_of(rt: &(impl Env + AllocGlobal)) -> io::Result<Vec<String>> {
    let mut words = Vec::new(rt.alloc());
    for word in env::args(rt)?.skip(1) {
        words.push(word)?;
    }
    Ok(words)
}

/// What was counted, or `None` for other words and for want of memory.
fn counted(rt: &impl AllocGlobal, words: &[String]) -> Option<u64> {
    let [kind, size] = words else {
        return None;
    };
    let Ok(size) = size.parse::<u64>() else {
        return None;
    };
    match kind.as_str() {
        "answers" => read_answers(rt.alloc(), size).ok(),
        "stream" => read_stream(rt.alloc(), size).ok(),
        "frame" => read_frame(rt.alloc(), size).ok(),
        _ => None,
    }
}

fn main(rt: HostRuntime) -> io::Result<ExitCode> {
    let words = words_of(&rt)?;
    match counted(&rt, words.as_slice()) {
        Some(count) => {
            println!(rt; "{count}")?;
            Ok(ExitCode::SUCCESS)
        }
        None => {
            eprintln!(rt; "wire_bench: answers N, stream N or frame N")?;
            Ok(ExitCode::FAILURE)
        }
    }
}
