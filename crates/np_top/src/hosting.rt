//! The command `run hosts`.

ghost use Rattle.std.specs.Prelude.{IfOk, IfErr};
ghost use Rattle.np_top.specs.Lower.{HasHostLines, hosted_read, hosted_view};
ghost use Rattle.np_top.specs.Run.{EndsRun, EndsSite, HasCome, RunsSite, hosted_run};

use crate::playing::play_hosts;
use crate::running::ending_at;
use np_cloud::Gate;
use np_io::{Sink, Source};
use np_replay::{Ending, input, line_of_hosted, status_of_hosted, tell};
use np_static::{HostedFault, HostedSite, read_hosted};
use np_text::NoMemory;
use std::alloc::Global;
use std::sync::Wait;
use std::thread::Threads;

/// The site with hosts that the source has left, or its fault. The bytes are freed.
fn hosted_site<S: Source>(
    alloc: Global,
    source: &mut S,
) -> Result<Result<HostedSite, HostedFault>, Ending>
    ensures read { IfOk result (λ read.
        HasCome hosted_run (S.facts source.old) (S.facts source.new) (hosted_read read)) }
    ensures stops { IfErr result (EndsRun hosted_run (S.facts source.old) (S.facts source.new)) }
{
    let bytes = input(alloc, source)?;
    Ok(read_hosted(alloc, bytes.as_slice())?)
}

/// Plays the site to its end, and returns how the run ends then.
fn played<R: Threads + Wait + Sync, G: Gate + Sync>(
    rt: &R,
    alloc: Global,
    site: HostedSite,
    gate: &G,
) -> Result<Ending, NoMemory>
    requires { HasHostLines (hosted_view site) }
    ensures { IfOk result (EndsSite hosted_run (hosted_view site)) }
{
    let (board, full) = play_hosts(rt, alloc, site, gate)?;
    let ending = ending_at(alloc, board.machine(), full);
    board.close();
    ending
}

/// How a run of what the source has left ends.
fn ran<R: Threads + Wait + Sync, S: Source, G: Gate + Sync>(
    rt: &R,
    alloc: Global,
    source: &mut S,
    gate: &G,
) -> Result<Ending, Ending>
    ensures ok { IfOk result (EndsRun hosted_run (S.facts source.old) (S.facts source.new)) }
    ensures err { IfErr result (EndsRun hosted_run (S.facts source.old) (S.facts source.new)) }
{
    match hosted_site(alloc, source)? {
        Ok(site) => Ok(played(rt, alloc, site, gate)?),
        Err(fault) => {
            let line = line_of_hosted(alloc, &fault)?;
            Ok(Ending::Says {
                line,
                status: status_of_hosted(&fault),
            })
        }
    }
}

/// The same, whichever way it came.
fn ending_of<R: Threads + Wait + Sync, S: Source, G: Gate + Sync>(
    rt: &R,
    alloc: Global,
    source: &mut S,
    gate: &G,
) -> Ending
    ensures { EndsRun hosted_run (S.facts source.old) (S.facts source.new) result }
{
    match ran(rt, alloc, source, gate) {
        Ok(ending) => ending,
        Err(ending) => ending,
    }
}

/// Reads a configuration, a line `%%` and host lines from the source, and then does what `run`
/// does, with hosts in place of the simulated cloud where a pool has host lines. It returns the
/// same statuses, and 4 for a missing line `%%` or a fault of the host lines. The faults come in
/// this order: the configuration's, the missing line, the first line that is at fault, and the
/// first pool whose hosts lack room. It may wait for as long as the rounds do.
pub fn run_hosts<R: Threads + Wait + Sync, S: Source, K: Sink, E: Sink, G: Gate + Sync>(
    rt: &R,
    alloc: Global,
    source: &mut S,
    out: &mut K,
    err: &mut E,
    gate: &G,
) -> u8
    ensures { RunsSite hosted_run S.facts K.facts E.facts source.old source.new out.old out.new
        err.old err.new result }
{
    let ending = ending_of(rt, alloc, source, gate);
    tell(out, err, &ending)
}
