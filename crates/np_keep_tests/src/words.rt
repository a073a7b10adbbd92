//! The words of the command line.

use np_replay::{Command, command_of};
use np_text::{NoMemory, read_number};
use std::alloc::Global;

// Words, and the word and the argument of their command, both empty if they are none.
const LISTS: [(&[&str], &str, &str); 51] = [
    (&[], "", ""),
    (&["replay"], "replay", ""),
    (&["--", "replay"], "replay", ""),
    (&["replay", "--"], "replay", ""),
    (&["--", "--", "replay"], "", ""),
    (&["replay", "--", "--"], "", ""),
    (&["--", "replay", "--"], "", ""),
    (&["replay", "x"], "", ""),
    (&["replay", "x", "y"], "", ""),
    (&["replay", "replay", "replay", "replay"], "", ""),
    (&["Replay"], "", ""),
    (&["replay "], "", ""),
    (&["repla"], "", ""),
    (&["--replay"], "", ""),
    (&["-h"], "", ""),
    (&["--help"], "", ""),
    (&["help"], "", ""),
    (&["--version"], "", ""),
    (&["--", "--help"], "", ""),
    (&["run", "hosts"], "run", "hosts"),
    (&["run", "--", "hosts"], "run", "hosts"),
    (&["run", "planned"], "run", "planned"),
    (&["run", "hosts", "planned"], "", ""),
    (&["run", "host"], "", ""),
    (&["run", "hosts", "hosts"], "", ""),
    (&["hosts"], "", ""),
    (&["drill", "12"], "drill", "12"),
    (&["drill", "1"], "drill", "1"),
    (&["drill", "4000"], "drill", "4000"),
    (&["drill", "--", "4000"], "drill", "4000"),
    (&["--", "drill", "4000"], "drill", "4000"),
    (&["drill", "4000", "--"], "drill", "4000"),
    (&["drill", "4001"], "", ""),
    (&["drill", "0"], "", ""),
    (&["drill", "012"], "", ""),
    (&["drill", "+12"], "", ""),
    (&["drill", "-12"], "", ""),
    (&["drill", "--", "-12"], "", ""),
    (&["drill", "12", "13"], "", ""),
    (&["keep", "--", "f"], "keep", "f"),
    (&["--", "keep", "f"], "keep", "f"),
    (&["keep", "f", "--"], "keep", "f"),
    (&["keep", "--", "-f"], "", ""),
    (&["keep", "--", "--"], "", ""),
    (&["keep", "--", ""], "", ""),
    (&["keep", "f", "g"], "", ""),
    (&["keep", "--", "f", "g"], "", ""),
    (&["--", "resume", "f"], "resume", "f"),
    (&["resume", "f-"], "resume", "f-"),
    (&["resume", "\u{e9} x"], "resume", "\u{e9} x"),
    (&["resume", "-\u{e9}"], "", ""),
];

// Each of these alone, and each pair of them, is looked at.
const WORDS: [&str; 12] = [
    "replay", "run", "audit", "drill", "keep", "resume", "--", "-", "-x", "f", "", "7",
];

fn is_plain(word: &str) -> bool {
    matches!(word, "replay" | "run" | "audit")
}

fn is_name(word: &str) -> bool {
    !matches!(word, "--" | "-" | "-x" | "")
}

// The command of two words of `WORDS`, as in `LISTS`.
fn pair_command<'a>(first: &'a str, second: &'a str) -> (&'a str, &'a str) {
    match (first, second) {
        ("--", word) | (word, "--") if is_plain(word) => (word, ""),
        ("drill", "7") => ("drill", "7"),
        ("keep" | "resume", file) if is_name(file) => (first, file),
        _ => ("", ""),
    }
}

fn is_command(found: &Option<Command>, word: &str, argument: &str) -> bool {
    match found {
        None => word == "" && argument == "",
        Some(Command::Replay) => word == "replay" && argument == "",
        Some(Command::Run) => word == "run" && argument == "",
        Some(Command::RunHosts) => word == "run" && argument == "hosts",
        Some(Command::RunPlanned) => word == "run" && argument == "planned",
        Some(Command::Audit) => word == "audit" && argument == "",
        Some(Command::Drill { jobs }) => {
            word == "drill" && read_number(argument.as_bytes(), 4_000) == Some(u64::from(*jobs))
        }
        Some(Command::Keep { file }) => word == "keep" && file.as_str() == argument,
        Some(Command::Resume { file }) => word == "resume" && file.as_str() == argument,
    }
}

fn reads_as(
    alloc: Global,
    words: &[&str],
    command: &str,
    argument: &str,
) -> Result<bool, NoMemory> {
    let mut texts = Vec::new(alloc);
    for word in words {
        texts.push(word.to_string(alloc)?)?;
    }
    let found = command_of(alloc, texts.as_slice())?;
    Ok(is_command(&found, command, argument))
}

fn lists_are_read(alloc: Global) -> Result<bool, NoMemory> {
    for (words, command, argument) in &LISTS {
        if !reads_as(alloc, words, command, argument)? {
            return Ok(false);
        }
    }
    Ok(true)
}

fn words_are_read(alloc: Global) -> Result<bool, NoMemory> {
    for word in &WORDS {
        let command = if is_plain(word) { *word } else { "" };
        if !reads_as(alloc, &[*word], command, "")? {
            return Ok(false);
        }
    }
    Ok(true)
}

fn pairs_are_read(alloc: Global) -> Result<bool, NoMemory> {
    for first in &WORDS {
        for second in &WORDS {
            let (command, argument) = pair_command(first, second);
            if !reads_as(alloc, &[*first, *second], command, argument)? {
                return Ok(false);
            }
        }
    }
    Ok(true)
}

#[test]
fn words_are_commands(rt: HostRuntime) {
    let alloc = rt.alloc();
    assert!(rt; lists_are_read(alloc) == Ok(true), "lists");
    assert!(rt; words_are_read(alloc) == Ok(true), "words");
    assert!(rt; pairs_are_read(alloc) == Ok(true), "pairs");
}
