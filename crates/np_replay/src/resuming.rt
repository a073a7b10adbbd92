//! The command `resume`.

ghost use Rattle.std.specs.Prelude.{◌≡◌, ◌≤◌, ◌+◌, ◌++◌, length, IfOk, IfErr, IfSome, Ok};
ghost use Rattle.std.specs.List.{AllByRecursion};
ghost use Rattle.np_replay.specs.Lower.{HasEventLine, LeavesOnly};
ghost use Rattle.np_replay.specs.Logged.{HoldsLog, IsPartOfLog, more_of};
ghost use Rattle.np_replay.specs.Resume.{EndsResume, IsGoingOn, Resumes, ResumesWhole};
ghost use Rattle.np_replay.specs.Resuming.{IsCanonical, IsPlayedOn, IsReady, TellsResumeFault, WhyNotAppended, WhyNotLoaded, WhyNotRead, WhyNotResumed};

use crate::fault::{LogFault, ending_of_fault};
use crate::{Ending, input, line_of_lines, tell};
use np_config::Config;
use np_config_read::{ConfigRead, read_config};
use np_config_text::config_text;
use np_event::LineFault;
use np_io::{Disk, Sink, Source};
use np_lists::Items;
use np_log::{Loaded, Log};
use np_report::{EventList, LinesFault, Script, read_lines, text_of_script};
use np_text::{JOURNAL_ENTRIES, NoMemory};
use std::alloc::Global;

/// Why a log did not go on.
#[derive(Drop)]
enum ResumeFault {
    /// The log was not read or not written.
    Log(LogFault),
    /// A line of the input is at fault, or one too many.
    Lines(LinesFault<LineFault>),
}

impl From<LogFault> for ResumeFault {
    ghost use Rattle.std.specs.Prelude.{◌≡◌};
    ghost use Rattle.np_replay.specs.declared.resuming.ResumeFault.TheVariants as fault;

    ghost from_gives = { λ log e. e ≡ fault.Log log };

    fn from(fault: LogFault) -> ResumeFault {
        ResumeFault::Log(fault)
    }
}

impl From<NoMemory> for ResumeFault {
    ghost use Rattle.std.specs.Prelude.{◌≡◌};
    ghost use Rattle.np_replay.specs.declared.fault.LogFault.TheVariants as log;
    ghost use Rattle.np_replay.specs.declared.resuming.ResumeFault.TheVariants as fault;

    ghost from_gives = { λ _ e. e ≡ fault.Log log.NoMemory };

    fn from(_: NoMemory) -> ResumeFault {
        ResumeFault::Log(LogFault::NoMemory)
    }
}

/// The configuration whose one text these bytes are, if they are one.
fn canonical(alloc: Global, bytes: &[u8]) -> Result<Option<Config>, NoMemory>
    ensures { IfOk result (IsCanonical bytes.now) }
{
    let config = match read_config(alloc, bytes) {
        Ok(config) => config,
        Err(ConfigRead::Fault(_)) => return Ok(None),
        Err(ConfigRead::NoMemory) => return Err(NoMemory),
    };
    let text = config_text(alloc, &config)?;
    if text.as_slice() == bytes {
        Ok(Some(config))
    } else {
        Ok(None)
    }
}

/// Loads the log in the file of this name, and the script that it says.
fn load_script<D: Disk>(alloc: Global, disk: &mut D, file: &str) -> Result<(Log, Script), LogFault>
    ensures ready { IfOk result (λ site. IsReady (D.facts disk.new) site.0 site.1) }
    ensures kept { (D.facts disk.new).now ≡ (D.facts disk.old).now }
    ensures any_moment { LeavesOnly (D.facts disk.old) (D.facts disk.new)
        (D.facts disk.old).may_leave }
    ensures cause { IfErr result (WhyNotLoaded (D.facts disk.old) (D.facts disk.new)) }
    ensures later { (D.facts disk.old).faults ≤ (D.facts disk.new).faults }
{
    disk.open_file(file)?;
    let Loaded {
        log,
        config,
        events,
    } = Log::load(alloc, disk)?;
    match canonical(alloc, &config)? {
        Some(config) => {
            config.know_soundness();
            let events = Items::new(events);
            Ok((log, Script { config, events }))
        }
        None => Err(LogFault::Damaged { number: 0 }),
    }
}

/// The events of these lines, which come after those of a log.
fn read_more(alloc: Global, before: &EventList, came: &[u8]) -> Result<EventList, ResumeFault>
    requires { length before.now ≤ 262144 }
    ensures more { IfOk result (λ more. more_of before.now came.now ≡ Ok more) }
    ensures fault { IfErr result (WhyNotRead before.now came.now) }
{
    let most = JOURNAL_ENTRIES - before.items().len();
    match read_lines(alloc, came, most as u32)? {
        Ok(more) => Ok(more),
        Err(fault) => Err(ResumeFault::Lines(fault)),
    }
}

/// Appends more events to the log, and to the script that it says.
fn append_more<D: Disk>(
    alloc: Global,
    disk: &mut D,
    log: Log,
    script: Script,
    more: EventList,
) -> Result<Script, LogFault>
    requires ready { IsReady (D.facts disk.old) log script }
    requires room { length script.events + length more ≤ 262144 }
    requires lines { AllByRecursion HasEventLine more }
    ensures script { IfOk result (λ all. all ≡ record {
      config = script.config;
      events = script.events ++ more;
    }) }
    ensures holds { IfOk result (λ all. HoldsLog (D.facts disk.new) all.config all.events) }
    ensures any_moment { IfSome (D.facts disk.old).now (λ _.
        LeavesOnly (D.facts disk.old) (D.facts disk.new)
        (IsPartOfLog script.config script.events more)) }
    ensures cause { IfErr result (WhyNotAppended (D.facts disk.old) (D.facts disk.new)) }
{
    let Script { config, mut events } = script;
    log.append_all(alloc, disk, more.items())?;
    events.append(more.into_vec())?;
    Ok(Script { config, events })
}

/// Loads the log in the file of this name, appends the events of these lines, plays all, and returns
/// the whole Text of the run.
fn text_of_resumed<D: Disk>(
    alloc: Global,
    disk: &mut D,
    file: &str,
    came: &[u8],
) -> Result<Vec<u8>, ResumeFault>
    ensures ok { IfOk result (λ text.
        IsPlayedOn (D.facts disk.old) (D.facts disk.new) came.now text.items) }
    ensures cause { IfErr result (WhyNotResumed (D.facts disk.old) (D.facts disk.new) came.now) }
    ensures any_moment { IfSome (D.facts disk.old).now (λ file.
        LeavesOnly (D.facts disk.old) (D.facts disk.new)
        (IsGoingOn (D.facts disk.old).may_leave file came.now)) }
{
    let (log, script) = load_script(alloc, disk, file)?;
    let more = read_more(alloc, &script.events, came)?;
    let script = append_more(alloc, disk, log, script, more)?;
    Ok(text_of_script(alloc, script)?)
}

/// How a resume ends whose log did not go on.
fn ending_of_resume(alloc: Global, fault: ResumeFault) -> Ending
    ensures { TellsResumeFault fault result }
{
    match fault {
        ResumeFault::Log(fault) => ending_of_fault(alloc, fault),
        ResumeFault::Lines(fault) => match line_of_lines(alloc, &fault) {
            Ok(line) => Ending::Says { line, status: 4 },
            Err(NoMemory) => Ending::NoMemory,
        },
    }
}

/// How a resume with what the source has left ends.
fn ending_of<S: Source, D: Disk>(alloc: Global, source: &mut S, disk: &mut D, file: &str) -> Ending
    ensures ends { EndsResume D.facts (S.facts source.old) (S.facts source.new) disk.old disk.new
        result }
    ensures crash { ResumesWhole D.facts (S.facts source.old) (S.facts source.new) disk.old
        disk.new }
{
    let bytes = match input(alloc, source) {
        Ok(bytes) => bytes,
        Err(ending) => return ending,
    };
    match text_of_resumed(alloc, disk, file, bytes.as_slice()) {
        Ok(text) => Ending::Prints { text, status: 0 },
        Err(fault) => ending_of_resume(alloc, fault),
    }
}

/// Loads the log in the file of this name, appends the events whose lines the source has left, plays
/// them all, and prints the whole Text of the run to out, or says on err why not. It returns the
/// status: those of `replay` but for 3, with 4 for a fault of a line, and 10 if the disk failed, 11
/// if the log is damaged.
///
/// The source is read to its end before the disk is touched, the log is loaded before the lines are
/// read, and nothing is played before all events are in the log. The time is that of `replay` of all
/// events, and beside it four calls of the disk for each 64 new ones.
pub fn resume<S: Source, K: Sink, E: Sink, D: Disk>(
    alloc: Global,
    source: &mut S,
    out: &mut K,
    err: &mut E,
    disk: &mut D,
    file: &str,
) -> u8
    ensures { Resumes S.facts K.facts E.facts D.facts source.old source.new out.old out.new
        err.old err.new disk.old disk.new result }
{
    let ending = ending_of(alloc, source, disk, file);
    tell(out, err, &ending)
}
