//! The program: hands its words, standard input and standard output to the top call, tells on
//! standard error how it ended, where it did not succeed, and ends with the status's number.
#![tactic(auto)]

use byte_streams::{Input, Output};
use command_words::behind_name;
use continuity_run::continuity;
use program_ends::{exit_status, tell, without_words};
use std::process::ExitCode;
use std::rt::Env;
use std::{env, io};

/// The words of the command: the arguments of the process but the first.
fn words_of(rt: &(impl Env + AllocGlobal)) -> io::Result<Vec<String>> {
    let args = env::args(rt)?;
    Ok(behind_name(rt.alloc(), args)?)
}

/// Runs the command on the standard streams, tells how it ended, and gives that as its exit status.
fn main(rt: HostRuntime) -> ExitCode {
    let status = match words_of(&rt) {
        Ok(words) => {
            let mut source = Input::new(rt.stdin());
            let mut sink = Output::new(rt.stdout());
            continuity(rt.alloc(), words.as_slice(), &mut source, &mut sink)
        }
        Err(error) => without_words(&error),
    };
    // Where standard error fails, nobody can be told, and the exit status says the same.
    let _ = tell(&mut rt.stderr(), &status);
    exit_status(&status)
}
