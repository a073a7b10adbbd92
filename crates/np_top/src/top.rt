//! The top call.

ghost use Rattle.std.specs.Prelude.{◌≡◌, ℕ, List, Some, None, map, string_bytes};
ghost use Rattle.np_top.specs.Lower.{Keeps, Replays, Resumes, command};
ghost use Rattle.np_top.specs.Audit.{Audits, IsNoCommand};
ghost use Rattle.np_top.specs.Play.{Drills};
ghost use Rattle.np_top.specs.Run.{RunsSite, plain_run, planned_run, hosted_run};
ghost use Rattle.np_replay.specs.declared.command.Command.TheVariants as the;

use crate::auditing::audit;
use crate::drilling::drill;
use crate::hosting::run_hosts;
use crate::running::run;
use np_cloud::Gate;
use np_io::{Disk, Sink, Source};
use np_replay::{Command, Ending, command_of, keep, replay, resume, tell};
use np_text::NoMemory;
use std::alloc::Global;
use std::sync::Wait;
use std::thread::Threads;

/// All that the program does, and its status. Words that are no command have the status 2, and
/// nothing is read then; if memory runs out while the words are read, the status is 7. Each command
/// says its own statuses. A drill reads nothing either. Only `keep` and `resume` touch the disk.
pub fn poolsim<R: Threads + Wait + Sync, S: Source, K: Sink, E: Sink, G: Gate + Sync, D: Disk>(
    rt: &R,
    alloc: Global,
    words: &[String],
    source: &mut S,
    out: &mut K,
    err: &mut E,
    gate: &G,
    disk: &mut D,
) -> u8
    ensures usage { command (map string_bytes words.now) ≡ None →
        (source.new ≡ source.old) × (disk.new ≡ disk.old)
        × IsNoCommand K.facts E.facts out.old out.new err.old err.new result }
    ensures replay { command (map string_bytes words.now) ≡ Some the.Replay → (disk.new ≡ disk.old)
        × Replays S.facts K.facts E.facts source.old source.new out.old out.new err.old err.new
        result }
    ensures run { command (map string_bytes words.now) ≡ Some the.Run → (disk.new ≡ disk.old)
        × RunsSite plain_run S.facts K.facts E.facts source.old source.new out.old out.new
        err.old err.new result }
    ensures run_hosts { command (map string_bytes words.now) ≡ Some the.RunHosts →
        (disk.new ≡ disk.old) × RunsSite hosted_run S.facts K.facts E.facts source.old source.new
        out.old out.new err.old err.new result }
    ensures run_planned { command (map string_bytes words.now) ≡ Some the.RunPlanned →
        (disk.new ≡ disk.old) × RunsSite planned_run S.facts K.facts E.facts source.old source.new
        out.old out.new err.old err.new result }
    ensures audit { command (map string_bytes words.now) ≡ Some the.Audit → (disk.new ≡ disk.old)
        × Audits S.facts K.facts E.facts source.old source.new out.old out.new err.old err.new
        result }
    ensures drill { (jobs : ℕ) → command (map string_bytes words.now) ≡ Some (the.Drill jobs) →
        (source.new ≡ source.old) × (disk.new ≡ disk.old)
        × Drills K.facts E.facts jobs out.old out.new err.old err.new result }
    ensures keep { (file : List ℕ) → command (map string_bytes words.now) ≡ Some (the.Keep file) →
        Keeps S.facts K.facts E.facts D.facts source.old source.new out.old out.new
        err.old err.new disk.old disk.new result }
    ensures resume { (file : List ℕ) →
        command (map string_bytes words.now) ≡ Some (the.Resume file) →
        Resumes S.facts K.facts E.facts D.facts source.old source.new out.old out.new
        err.old err.new disk.old disk.new result }
{
    match command_of(alloc, words) {
        Err(NoMemory) => tell(out, err, &Ending::NoMemory),
        Ok(None) => tell(out, err, &Ending::NoCommand),
        Ok(Some(Command::Replay)) => replay(alloc, source, out, err),
        Ok(Some(Command::Run)) => run(rt, alloc, false, source, out, err, gate),
        Ok(Some(Command::RunPlanned)) => run(rt, alloc, true, source, out, err, gate),
        Ok(Some(Command::RunHosts)) => run_hosts(rt, alloc, source, out, err, gate),
        Ok(Some(Command::Audit)) => audit(alloc, source, out, err),
        Ok(Some(Command::Drill { jobs })) => drill(rt, alloc, jobs, out, err, gate),
        Ok(Some(Command::Keep { file })) => keep(alloc, source, out, err, disk, file.as_str()),
        Ok(Some(Command::Resume { file })) => resume(alloc, source, out, err, disk, file.as_str()),
    }
}
