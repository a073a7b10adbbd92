//! The commands `run` and `run planned`, and how a site that was played ends.

ghost use Rattle.std.specs.Prelude.{◌≡◌, Bool, length, IfOk, IfErr};
ghost use Rattle.np_top.specs.Lower.{AllByRecursion, HasEventLine, fate_of, fates};
ghost use Rattle.np_top.specs.Play.{EndsPlay, HasEnded, is_waiting, status_of_fates};
ghost use Rattle.np_top.specs.Run.{EndsRun, EndsSite, HasCome, RunsSite, site_run};

use crate::playing::play_site;
use np_cloud::Gate;
use np_config::Config;
use np_config_read::read_config;
use np_io::{Sink, Source};
use np_json::{ConfigFault, ConfigRead};
use np_look::{Look, Rows, Store};
use np_record::JobRecord;
use np_replay::{Ending, input, line_of_config, tell};
use np_report::text;
use np_rules::Machine;
use np_text::{JobId, NoMemory};
use std::alloc::Global;
use std::sync::Wait;
use std::thread::Threads;

/// The configuration that the source has left, or its fault. The bytes are freed.
fn configuration<S: Source>(
    alloc: Global,
    source: &mut S,
) -> Result<Result<Config, ConfigFault>, Ending>
    ensures read { (plans : Bool) → IfOk result (λ read.
        HasCome (site_run plans) (S.facts source.old) (S.facts source.new) read) }
    ensures stops { (plans : Bool) →
        IfErr result (EndsRun (site_run plans) (S.facts source.old) (S.facts source.new)) }
{
    let bytes = input(alloc, source)?;
    match read_config(alloc, bytes.as_slice()) {
        Ok(config) => Ok(Ok(config)),
        Err(ConfigRead::Fault(fault)) => Ok(Err(fault)),
        Err(ConfigRead::NoMemory) => Err(Ending::NoMemory),
    }
}

/// Whether the job isn't over.
fn is_waiting<R: Rows>(rows: &R, job: &JobRecord) -> bool
    ensures { result ≡ is_waiting (fate_of (R.state rows.now) job.now) }
{
    job.ending.is_none()
}

/// The status of a run that came to its end: 1 if a job's fate is waiting.
fn status_of<R: Rows>(rows: &R) -> u8
    requires jobs { length (R.state rows.now).jobs ≡ length (R.site rows.now).jobs }
    ensures { result ≡ status_of_fates (fates (R.state rows.now)) }
{
    rows.config().know_soundness();
    let mut at = 0;
    while let Some(job) = rows.job(JobId(at)) {
        if is_waiting(rows, &job) {
            return 1;
        }
        at += 1;
    }
    0
}

/// How a run that ended with this machine ends: with its Text, and with the status of its jobs' fates
/// unless its journal was full.
pub(crate) fn ending_at<S: Store + Drop>(
    alloc: Global,
    machine: &Machine<S>,
    full: bool,
) -> Result<Ending, NoMemory>
    requires first { machine.now.earlier ≡ 0 }
    requires lines { AllByRecursion (λ e. HasEventLine e.event) machine.now.journal }
    ensures { (plans : Bool) →
        HasEnded plans machine.now.configuration machine.now.journal full →
        IfOk result (EndsPlay plans machine.now.configuration machine.now.journal) }
{
    machine.know_soundness();
    let rows = machine.rows();
    let text = text(alloc, rows, machine.journal())?;
    if full {
        return Ok(Ending::Full { text });
    }
    Ok(Ending::Prints {
        text,
        status: status_of(rows),
    })
}

/// Plays the site to its end, and returns how the run ends then.
fn played<R: Threads + Wait + Sync, G: Gate + Sync>(
    rt: &R,
    alloc: Global,
    plans: bool,
    config: Config,
    gate: &G,
) -> Result<Ending, NoMemory>
    ensures { IfOk result (EndsSite (site_run plans) config) }
{
    let (board, full) = play_site(rt, alloc, config, plans, gate)?;
    let ending = ending_at(alloc, board.machine(), full);
    board.close();
    ending
}

/// How a run of what the source has left ends.
fn ran<R: Threads + Wait + Sync, S: Source, G: Gate + Sync>(
    rt: &R,
    alloc: Global,
    plans: bool,
    source: &mut S,
    gate: &G,
) -> Result<Ending, Ending>
    ensures ok { IfOk result (EndsRun (site_run plans) (S.facts source.old) (S.facts source.new)) }
    ensures err { IfErr result (EndsRun (site_run plans) (S.facts source.old) (S.facts source.new)) }
{
    match configuration(alloc, source)? {
        Ok(config) => Ok(played(rt, alloc, plans, config, gate)?),
        Err(fault) => {
            let line = line_of_config(alloc, &fault)?;
            Ok(Ending::Says { line, status: 3 })
        }
    }
}

/// The same, whichever way it came.
fn ending_of<R: Threads + Wait + Sync, S: Source, G: Gate + Sync>(
    rt: &R,
    alloc: Global,
    plans: bool,
    source: &mut S,
    gate: &G,
) -> Ending
    ensures { EndsRun (site_run plans) (S.facts source.old) (S.facts source.new) result }
{
    match ran(rt, alloc, plans, source, gate) {
        Ok(ending) => ending,
        Err(ending) => ending,
    }
}

/// Reads a configuration from the source, lets its launchers, janitors, requesters and reaper play
/// the site in threads to its end, and prints the Text of the journal that they made to out, or
/// says on err why not. With plans, launchers choose on the board as it stands, and commit in a later
/// turn if nothing changed that they read. It returns the status: 0 if the site came to its end and no job waits, 1 if
/// one does, 3 for a fault of the configuration, 5 for a failed source or an input that is too
/// long, 6 for a failed sink, 7 if memory ran out. If the journal was full, the Text is printed, a
/// line on err says so, and the status is 9. The input is read to its end first, then come the
/// configuration, the rounds, and last the writing. It may wait for as long as the rounds do.
pub fn run<R: Threads + Wait + Sync, S: Source, K: Sink, E: Sink, G: Gate + Sync>(
    rt: &R,
    alloc: Global,
    plans: bool,
    source: &mut S,
    out: &mut K,
    err: &mut E,
    gate: &G,
) -> u8
    ensures { RunsSite (site_run plans) S.facts K.facts E.facts source.old source.new
        out.old out.new err.old err.new result }
{
    let ending = ending_of(rt, alloc, plans, source, gate);
    tell(out, err, &ending)
}
