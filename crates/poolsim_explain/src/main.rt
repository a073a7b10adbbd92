//! poolsim-explain over the real streams and files.
#![tactic(auto)]

mod terminal;

use crate::terminal::Terminal;
use np_explain::{Asked, Command, Progress, Words, explain, words_of};
use np_io::{Sink, StdSink, StdSource, write_all};
use np_replay::{Ending, tell};
use std::fs;
use std::io::ErrorKind;
use std::process::ExitCode;

/// The words after the program's name, or how the program ends without them: words of which one is
/// invalid UTF-8 are no command.
fn words_given(rt: &HostRuntime) -> Result<Vec<String>, Ending> {
    match std::env::args(rt) {
        Ok(args) => match args.skip(1).collect(rt.alloc()) {
            Ok(words) => Ok(words),
            Err(_) => Err(Ending::NoMemory),
        },
        Err(error) => match error.kind() {
            ErrorKind::OutOfMemory => Err(Ending::NoMemory),
            _ => Err(Ending::NoCommand),
        },
    }
}

/// Explains what a file or the standard input has.
fn explain_file<K: Sink, E: Sink>(
    rt: &HostRuntime,
    asked: Asked,
    file: Option<&str>,
    out: &mut K,
    err: &mut E,
) -> u8 {
    let alloc = rt.alloc();
    let mut progress = Terminal::new(rt);
    let Some(name) = file else {
        let mut source = StdSource::new(rt.stdin());
        return explain(alloc, asked, &mut source, out, err, &mut progress);
    };
    match fs::open(rt, name) {
        Ok(file) => {
            let mut source = StdSource::new(file);
            explain(alloc, asked, &mut source, out, err, &mut progress)
        }
        Err(_) => tell(out, err, &Ending::ReadFault),
    }
}

/// Says that the words are no command.
fn usage<E: Sink>(err: &mut E) -> u8 {
    match write_all(
        err,
        b"poolsim-explain: usage: poolsim-explain [FILE] | state N [FILE] | check [FILE]\n",
    ) {
        Ok(()) => 2,
        Err(_) => 6,
    }
}

/// Does what the words say.
fn run<K: Sink, E: Sink>(rt: &HostRuntime, words: &[String], out: &mut K, err: &mut E) -> u8 {
    match words_of(rt.alloc(), words) {
        Err(_) => tell(out, err, &Ending::NoMemory),
        Ok(Words::Nothing) => usage(err),
        Ok(Words::Shown(text)) => tell(out, err, &Ending::Prints { text, status: 0 }),
        Ok(Words::Command(Command { asked, file })) => match file {
            None => explain_file(rt, asked, None, out, err),
            Some(name) => explain_file(rt, asked, Some(name.as_str()), out, err),
        },
    }
}

fn main(rt: HostRuntime) -> ExitCode {
    let mut out = StdSink::new(rt.stdout());
    let mut err = StdSink::new(rt.stderr());
    let status = match words_given(&rt) {
        Err(Ending::NoCommand) => usage(&mut err),
        Err(ending) => tell(&mut out, &mut err, &ending),
        Ok(words) => run(&rt, words.as_slice(), &mut out, &mut err),
    };
    ExitCode::from(status)
}
