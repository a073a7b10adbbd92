//! The command `keep`.

ghost use Rattle.std.specs.Prelude.{◌≡◌, ◌≤◌, [], Ok, IfOk, IfErr, IfSome, OnOk};
ghost use Rattle.std.specs.Option.{option_map};
ghost use Rattle.np_replay.specs.Lower.{IsPlayable, IsSettled, LeavesOnly, SaysNewLog, canonical, content_of};
ghost use Rattle.np_replay.specs.Keep.{EndsKeep, Keeps, KeepsWhole, WasEmpty};
ghost use Rattle.np_replay.specs.Keeping.{EndsKeeping, IsBegunBy, WhyNotWritten};
ghost use Rattle.np_replay.specs.Logged.{HoldsLog};

use crate::fault::{LogFault, ending_of_fault};
use crate::script::{ending_of_script_fault, script_come};
use crate::{Ending, tell};
use np_config::Config;
use np_config_text::config_text;
use np_io::{Disk, Sink, Source};
use np_log::Log;
use np_report::{Script, text_of_script};
use np_text::NoMemory;
use std::alloc::Global;

/// Makes a log of this configuration and no events in the file of this name.
fn new_log<D: Disk>(
    alloc: Global,
    disk: &mut D,
    file: &str,
    config: &Config,
) -> Result<Log, LogFault>
    ensures empty { OnOk result (WasEmpty (D.facts disk.old)) }
    ensures content { OnOk result (option_map content_of (D.facts disk.new).now
        ≡ option_map (λ _. Ok (record { config = canonical config.now; events = [] }))
        (D.facts disk.old).now) }
    ensures settled { IfOk result (λ log. IsSettled (D.facts disk.new) log) }
    ensures count { IfOk result (λ log. log.events ≡ 0) }
    ensures any_moment { IfSome (D.facts disk.old).now (λ _.
        LeavesOnly (D.facts disk.old) (D.facts disk.new)
        (SaysNewLog (D.facts disk.old).may_leave (canonical config.now))) }
    ensures cause { IfErr result (WhyNotWritten (D.facts disk.old) (D.facts disk.new)) }
    ensures later { (D.facts disk.old).faults ≤ (D.facts disk.new).faults }
{
    config.know_soundness();
    disk.open_file(file)?;
    let text = config_text(alloc, config)?;
    Ok(Log::create(alloc, disk, &text)?)
}

/// Writes the script's configuration and events to a new log in the file of this name.
fn write_log<D: Disk>(
    alloc: Global,
    disk: &mut D,
    file: &str,
    script: &Script,
) -> Result<(), LogFault>
    requires playable { IsPlayable script.now }
    ensures empty { OnOk result (WasEmpty (D.facts disk.old)) }
    ensures holds { OnOk result (HoldsLog (D.facts disk.new) script.now.config script.now.events) }
    ensures any_moment { IfSome (D.facts disk.old).now (λ _.
        LeavesOnly (D.facts disk.old) (D.facts disk.new)
        (IsBegunBy (D.facts disk.old).may_leave script.now)) }
    ensures cause { IfErr result (WhyNotWritten (D.facts disk.old) (D.facts disk.new)) }
{
    let log = new_log(alloc, disk, file, &script.config)?;
    log.append_all(alloc, disk, script.events.items())?;
    Ok(())
}

/// How keeping a script ends.
fn keep_script<D: Disk>(alloc: Global, disk: &mut D, file: &str, script: Script) -> Ending
    requires playable { IsPlayable script }
    ensures ends { EndsKeeping (D.facts disk.old) (D.facts disk.new) script result }
    ensures any_moment { IfSome (D.facts disk.old).now (λ _.
        LeavesOnly (D.facts disk.old) (D.facts disk.new)
        (IsBegunBy (D.facts disk.old).may_leave script)) }
{
    match write_log(alloc, disk, file, &script) {
        Ok(()) => match text_of_script(alloc, script) {
            Ok(text) => Ending::Prints { text, status: 0 },
            Err(NoMemory) => Ending::NoMemory,
        },
        Err(fault) => ending_of_fault(alloc, fault),
    }
}

/// How keeping what the source has left ends.
fn ending_of<S: Source, D: Disk>(alloc: Global, source: &mut S, disk: &mut D, file: &str) -> Ending
    ensures ends { EndsKeep D.facts (S.facts source.old) (S.facts source.new) disk.old disk.new
        result }
    ensures crash { KeepsWhole D.facts (S.facts source.old) (S.facts source.new) disk.old disk.new }
{
    match script_come(alloc, source) {
        Ok(Ok(script)) => keep_script(alloc, disk, file, script),
        Ok(Err(fault)) => ending_of_script_fault(alloc, &fault),
        Err(ending) => ending,
    }
}

/// Reads a configuration and a script of events from the source, makes a log of them in the file of
/// this name, plays them, and prints the whole Text of the run to out, or says on err why not. It
/// returns the status: those of `replay`, and 10 if the disk failed, 11 if the file is not empty.
///
/// The file is made if there is none. The disk is not touched before the whole script was read, and
/// nothing is played before all events are in the log. So at status 6 or 7 the log may be whole, and
/// at status 7 or 10 it may have the first of the events alone. It makes nine calls of the disk, and
/// four for each record of at most 64 events. The time is otherwise that of `replay`.
pub fn keep<S: Source, K: Sink, E: Sink, D: Disk>(
    alloc: Global,
    source: &mut S,
    out: &mut K,
    err: &mut E,
    disk: &mut D,
    file: &str,
) -> u8
    ensures { Keeps S.facts K.facts E.facts D.facts source.old source.new out.old out.new
        err.old err.new disk.old disk.new result }
{
    let ending = ending_of(alloc, source, disk, file);
    tell(out, err, &ending)
}
