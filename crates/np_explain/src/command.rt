//! The words of the command line, read by `clap`.

use clap::error::ErrorKind;
use clap::{Arg, ArgMatches, Error};
use np_text::{NoMemory, read_number};
use std::alloc::{AllocError, Global};

/// What is asked of a Text.
#[derive(Clone, Copy)]
pub enum Query {
    /// Why its jobs wait or failed, and what its run took.
    Explanation,
    /// The tables of the state after so many entries.
    State { entries: u32 },
}

/// What is asked of an input.
#[derive(Clone, Copy)]
pub enum Asked {
    /// The input is a Text.
    Text(Query),
    /// The input is a configuration: what will surprise in it.
    Check,
}

/// What the program is asked to do.
#[derive(Drop)]
pub struct Command {
    pub asked: Asked,
    /// The file that has the Text, or `None` for the standard input.
    pub file: Option<String>,
}

/// What the words are.
#[derive(Drop)]
pub enum Words {
    Command(Command),
    /// The text of `--help` or `--version`.
    Shown(Vec<u8>),
    /// They are no command.
    Nothing,
}

/// The first word.
fn first_word<'a>(alloc: Global) -> Arg<'a> {
    Arg::new(alloc, "first")
        .value_name("FILE | state N [FILE] | check [FILE]")
        .help(
            "a Text that poolsim printed, or - for the standard input; the word `state`, and after how many entries; or the word `check`, before a configuration",
        )
}

/// A word after the first.
fn later_word<'a>(alloc: Global, name: &'a str) -> Arg<'a> {
    Arg::new(alloc, name).hide(true)
}

/// The program, before it has words.
fn program<'a>(alloc: Global) -> clap::Command<'a> {
    clap::Command::new(alloc, "poolsim-explain")
        .version("0.1.0")
        .about(
            "Says why the jobs of a Text wait or failed, shows a state, or checks a configuration.",
        )
        .no_binary_name(true)
}

fn application<'a>(alloc: Global) -> Result<clap::Command<'a>, AllocError> {
    program(alloc)
        .arg(first_word(alloc))?
        .arg(later_word(alloc, "second"))?
        .arg(later_word(alloc, "third"))
}

/// What `clap` finds in the words.
fn found_in(alloc: Global, words: &[String]) -> Result<ArgMatches<'_>, Error> {
    application(alloc)?.try_get_matches_from(words)
}

/// What the words are, if `clap` took them for no command.
fn refused(alloc: Global, error: &Error) -> Result<Words, NoMemory> {
    match error.kind() {
        ErrorKind::OutOfMemory => Err(NoMemory),
        ErrorKind::DisplayHelp | ErrorKind::DisplayVersion => {
            let text = format!(in alloc; "{error}")?;
            Ok(Words::Shown(Vec::from_slice(alloc, text.as_bytes())?))
        }
        _ => Ok(Words::Nothing),
    }
}

/// The command over the file of this name.
fn over(alloc: Global, asked: Asked, name: Option<&str>) -> Result<Words, NoMemory> {
    let file = match name {
        None => None,
        Some("-") => None,
        Some(name) => Some(String::from_str(alloc, name)?),
    };
    Ok(Words::Command(Command { asked, file }))
}

fn state_after(
    alloc: Global,
    entries: Option<&str>,
    name: Option<&str>,
) -> Result<Words, NoMemory> {
    let Some(text) = entries else {
        return Ok(Words::Nothing);
    };
    match read_number(text.as_bytes(), 262_144) {
        None => Ok(Words::Nothing),
        Some(entries) => {
            let query = Query::State {
                entries: entries as u32,
            };
            over(alloc, Asked::Text(query), name)
        }
    }
}

fn words_given(alloc: Global, matches: &ArgMatches) -> Result<Words, NoMemory> {
    let second = matches.get_str("second");
    let third = matches.get_str("third");
    match matches.get_str("first") {
        Some("state") => state_after(alloc, second, third),
        Some("check") => {
            if third.is_some() {
                return Ok(Words::Nothing);
            }
            over(alloc, Asked::Check, second)
        }
        first => {
            if second.is_some() {
                return Ok(Words::Nothing);
            }
            over(alloc, Asked::Text(Query::Explanation), first)
        }
    }
}

/// What the words after the program's name are. It fails only if memory runs out.
pub fn words_of(alloc: Global, words: &[String]) -> Result<Words, NoMemory> {
    match found_in(alloc, words) {
        Ok(matches) => words_given(alloc, &matches),
        Err(error) => refused(alloc, &error),
    }
}
