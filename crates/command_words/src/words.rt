//! The words of the command line, which `clap` judges.
ghost use Rattle.std.specs.Prelude.{◌≡◌, IfOk, IfSome, option_and_then, option_map};
ghost use Rattle.std.specs.List.{list_any};
ghost use Rattle.clap.specs.Words.{app_of};
ghost use Rattle.command_words.specs.Words.{command_named as command_named_def, command_of as command_of_def};
ghost use Rattle.command_words.specs.LoadWords.{load_in as load_in_def, HasItsNumbers};
ghost use Rattle.command_words.specs.InnerWords.{bare_program, begins_with_hyphen, named_in, program};

use crate::command::Command;
use crate::numbers::load_of;
use clap::Command as Line;
use clap::error::ErrorKind;
use std::alloc::{AllocError, Global};
use svc_values::NoMemory;

/// The command that the words are, if they are one: `load` has three numbers, and of all others
/// `clap` judges.
#[tactic(auto, using(crate::proofs::LoadWords::others_named))]
pub fn command_of(alloc: Global, words: &[String]) -> Result<Option<Command>, NoMemory>
    ensures commands { IfOk result (λ command. command ≡ command_of_def words.now) }
    ensures within { IfOk result (λ command. IfSome command HasItsNumbers) }
{
    match words {
        [name, seed, clients, requests] => Ok(load_in(
            name.as_str(),
            seed.as_str(),
            clients.as_str(),
            requests.as_str(),
        )),
        _ => named_command(alloc, words),
    }
}

/// The command of four words, if the first one is `load`.
fn load_in(name: &str, seed: &str, clients: &str, requests: &str) -> Option<Command>
    ensures made { result ≡ load_in_def name.now seed.now clients.now requests.now }
    ensures within { IfSome result HasItsNumbers }
{
    if name == "load" {
        load_of(seed, clients, requests)
    } else {
        None
    }
}

/// The command that one word names. A word that begins with `-` is of none, and of the others
/// `clap` judges, which wants memory before it looks at a word.
fn named_command(alloc: Global, words: &[String]) -> Result<Option<Command>, NoMemory>
    ensures commands { IfOk result (λ command. command ≡ named_in words.now) }
    ensures within { IfOk result (λ command. IfSome command HasItsNumbers) }
{
    if any_hyphen(words) {
        return Ok(None);
    }
    match command_line(alloc)?.try_get_matches_from(words) {
        Ok(matches) => Ok(command_named(matches.subcommand_name())),
        Err(error) => match error.kind() {
            ErrorKind::OutOfMemory => Err(NoMemory),
            _ => Ok(None),
        },
    }
}

/// Whether a word begins with `-`.
fn any_hyphen(words: &[String]) -> bool
    ensures { result ≡ list_any begins_with_hyphen words.now }
{
    words.iter().any(|word| word.as_str().starts_with('-'))
}

/// The command of this name.
fn command_named(name: Option<&str>) -> Option<Command>
    ensures named { result
        ≡ option_and_then command_named_def (option_map (λ name. name.now) name.entry) }
    ensures within { IfSome result HasItsNumbers }
{
    match name {
        Some("run") => Some(Command::Run),
        Some("cover") => Some(Command::Cover),
        Some("check") => Some(Command::Check),
        _ => None,
    }
}

/// The program's line without its commands: one of these has to be there, with neither help nor a
/// version of clap's own.
fn bare_line<'a>(alloc: Global) -> Line<'a>
    ensures { app_of result ≡ bare_program }
{
    Line::new(alloc, "continuity")
        .no_binary_name(true)
        .disable_help_flag(true)
        .disable_help_subcommand(true)
        .disable_version_flag(true)
        .subcommand_required(true)
}

/// The line with the subcommands `run`, `cover` and `check`.
fn command_line<'a>(alloc: Global) -> Result<Line<'a>, AllocError>
    ensures { IfOk result (λ line. app_of line ≡ program) }
{
    bare_line(alloc)
        .subcommand(Line::new(alloc, "run"))?
        .subcommand(Line::new(alloc, "cover"))?
        .subcommand(Line::new(alloc, "check"))
}
