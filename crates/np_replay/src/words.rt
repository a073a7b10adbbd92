//! The words, read by `clap`.

ghost use Rattle.std.specs.Prelude.{◌≡◌, map, string_bytes, IfOk, IfSome};
ghost use Rattle.clap.specs.Words.{app_of};
ghost use Rattle.np_replay.specs.Application.{application, command_found};
ghost use Rattle.np_replay.specs.Command.{command, HasJobs};

use crate::command::{Command, command_pair, command_word};
use clap::error::ErrorKind;
use clap::{Arg, ArgMatches};
use np_text::NoMemory;
use std::alloc::{AllocError, Global};

fn application<'a>(alloc: Global) -> Result<clap::Command<'a>, AllocError>
    ensures { IfOk result (λ made. app_of made ≡ application) }
{
    let command = Arg::new(alloc, "command");
    let argument = Arg::new(alloc, "argument");
    clap::Command::new(alloc, "poolsim")
        .no_binary_name(true)
        .disable_help_flag(true)
        .disable_version_flag(true)
        .arg(command)?
        .arg(argument)
}

/// What `clap` finds in the words, `None` at a usage error.
fn parse<'a>(alloc: Global, words: &'a [String]) -> Result<Option<ArgMatches<'a>>, NoMemory>
    ensures { IfOk result (λ found. command_found found ≡ command (map string_bytes words.now)) }
{
    let program = application(alloc)?;
    match program.try_get_matches_from(words) {
        Ok(matches) => Ok(Some(matches)),
        Err(error) => {
            if error.kind() == ErrorKind::OutOfMemory {
                Err(NoMemory)
            } else {
                Ok(None)
            }
        }
    }
}

/// The command of the words: the first word that is `--` is left out, if there is one. `None` if
/// the words that are left are no command. It fails only if memory runs out. The time and the
/// memory grow with the number of words and the length of the first four.
pub fn command_of(alloc: Global, words: &[String]) -> Result<Option<Command>, NoMemory>
    ensures command { IfOk result (λ found. found ≡ command (map string_bytes words.now)) }
    ensures jobs { IfOk result (λ found. IfSome found HasJobs) }
{
    let Some(matches) = parse(alloc, words)? else {
        return Ok(None);
    };
    match (matches.get_str("command"), matches.get_str("argument")) {
        (Some(word), None) => Ok(command_word(word)),
        (Some(word), Some(argument)) => command_pair(alloc, word, argument),
        (None, _) => Ok(None),
    }
}
