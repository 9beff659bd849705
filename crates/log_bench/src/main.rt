//! Work to be timed: a journal of as many commits as the word says, written commit by commit and
//! opened again. It prints how many were read.
#![tactic(auto)]

mod work;

use std::process::ExitCode;
use std::rt::Env;
use std::{env, io};
use work::commits_read;

fn words_of(rt: &(impl Env + AllocGlobal)) -> io::Result<Vec<String>> {
    let mut words = Vec::new(rt.alloc());
    for word in env::args(rt)?.skip(1) {
        words.push(word)?;
    }
    Ok(words)
}

/// What was counted, or `None` for other words and for want of memory.
fn counted(rt: &impl AllocGlobal, words: &[String]) -> Option<u64> {
    let [count] = words else {
        return None;
    };
    let Ok(count) = count.parse::<u64>() else {
        return None;
    };
    commits_read(rt.alloc(), count).ok()
}

fn main(rt: HostRuntime) -> io::Result<ExitCode> {
    let words = words_of(&rt)?;
    match counted(&rt, words.as_slice()) {
        Some(count) => {
            println!(rt; "{count}")?;
            Ok(ExitCode::SUCCESS)
        }
        None => {
            eprintln!(rt; "log_bench: a number of commits")?;
            Ok(ExitCode::FAILURE)
        }
    }
}
