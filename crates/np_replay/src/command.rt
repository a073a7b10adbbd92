//! What the program is asked to do.

ghost use Rattle.std.specs.Prelude.{◌≡◌, IfOk, IfSome};
ghost use Rattle.np_replay.specs.Lower.{number_of};
ghost use Rattle.np_replay.specs.Command.{command_pair, command_word, drill_of, run_of, HasJobs};

use crate::file_name::FileName;
use np_text::{NoMemory, read_number};
use std::alloc::Global;

/// The most jobs of a drill.
const MOST_JOBS: u64 = 4_000;

/// What the program is asked to do.
#[derive(Drop)]
pub enum Command {
    /// Plays a script of events, and prints the Text of the run.
    Replay,
    /// Plays a site by threads to its end, and prints the Text of the run.
    Run,
    /// Plays a site by threads to its end, of which some pools are served by fixed hosts, and
    /// prints the Text of the run.
    RunHosts,
    /// Plays a site by threads to its end, at whose board launchers plan, and prints the Text of the
    /// run.
    RunPlanned,
    /// Says whether its input is the Text of a run.
    Audit,
    /// Plays the generated site of this number of jobs, from 1 to 4,000, by threads to its end, and
    /// prints a summary.
    Drill { jobs: u32 },
    /// Plays a script of events, and also writes it to a log in this file.
    Keep { file: FileName },
    /// Reads the log in this file, goes on with the event lines of its input, and prints the Text
    /// of the whole.
    Resume { file: FileName },
}

/// The command of one word.
pub(crate) fn command_word(word: &str) -> Option<Command>
    ensures command { result ≡ command_word word.now }
    ensures jobs { IfSome result HasJobs }
{
    match word {
        "replay" => Some(Command::Replay),
        "run" => Some(Command::Run),
        "audit" => Some(Command::Audit),
        _ => None,
    }
}

/// The drill of this number of jobs.
fn drill_of(count: &str) -> Option<Command>
    ensures command { result ≡ drill_of (number_of 4000 count.now) }
    ensures jobs { IfSome result HasJobs }
{
    let jobs = read_number(count.as_bytes(), MOST_JOBS)?;
    if jobs == 0 {
        return None;
    }
    Some(Command::Drill { jobs: jobs as u32 })
}

/// What is run, by the word after `run`.
fn run_of(what: &str) -> Option<Command>
    ensures command { result ≡ run_of what.now }
    ensures jobs { IfSome result HasJobs }
{
    match what {
        "hosts" => Some(Command::RunHosts),
        "planned" => Some(Command::RunPlanned),
        _ => None,
    }
}

/// The command of two words. The time grows with their length.
pub(crate) fn command_pair(
    alloc: Global,
    word: &str,
    argument: &str,
) -> Result<Option<Command>, NoMemory>
    ensures command { IfOk result (λ found. found ≡ command_pair word.now argument.now) }
    ensures jobs { IfOk result (λ found. IfSome found HasJobs) }
{
    match word {
        "run" => Ok(run_of(argument)),
        "drill" => Ok(drill_of(argument)),
        "keep" => match FileName::new(alloc, argument)? {
            Some(file) => Ok(Some(Command::Keep { file })),
            None => Ok(None),
        },
        "resume" => match FileName::new(alloc, argument)? {
            Some(file) => Ok(Some(Command::Resume { file })),
            None => Ok(None),
        },
        _ => Ok(None),
    }
}
